//! Runs the published vectors of the ciphers, and prints of each whether its value is the standard's: RFC 8439 (section
//! 2.3.2 and appendix A.1), the examples of FIPS 180-4 with the empty message, and RFC 4231.
#![tactic(auto)]

mod values;

use hmac::Hmac;
use samples::Show;
use sha::Sha256;
use values::{BLOCKS, DIGESTS, MACS};

// Prints a vector's line.
fn say(show: &mut Show, name: &str, got: &[u8], want: &[u8]) {
    let same = octets::same_bytes(got, want);
    println!(show; "{name}: {}", if same { "ok" } else { "differs" });
    show.expect(same, "a value is not the standard's");
}

fn blocks(show: &mut Show) {
    for (name, key, counter, nonce, want) in BLOCKS {
        let mut out = [0; 64];
        chacha::block(key, counter, nonce, &mut out);
        say(show, name, &out, want);
    }
}

// The digest of a message, which is fed as often as it comes.
fn digest(message: &[u8], times: usize) -> [u8; 32] {
    let mut out = [0; 32];
    if times == 1 {
        sha::digest(message, &mut out);
        return out;
    }
    let mut hash = Sha256::new();
    for _turn in 0..times {
        hash.update(message);
    }
    hash.finish(&mut out);
    out
}

fn digests(show: &mut Show) {
    for (name, message, times, want) in DIGESTS {
        say(show, name, &digest(message, times), want);
    }
}

// Feeds each message in two parts, and compares as many bytes as the standard gives: 32, or 16 where it cuts the MAC.
fn macs(show: &mut Show) {
    for (name, key, message, want) in MACS {
        let mut pad = [0; 64];
        let mut out = [0; 32];
        let (first, second) = message.split_at(message.len() / 2);
        let mut hmac = Hmac::new(key, &mut pad);
        hmac.update(first);
        hmac.update(second);
        hmac.finish(&mut out);
        say(show, name, &out[..want.len().min(32)], want);
    }
}

fn main(rt: HostRuntime) -> anyhow::Result<()> {
    let mut show = Show::new(&rt);
    blocks(&mut show);
    digests(&mut show);
    macs(&mut show);
    show.end()
}
