//! HMAC (RFC 2104) over SHA-256, of a message that is fed in parts.
#![tactic(auto)]

ghost use Rattle.std.specs.Prelude.{◌≡◌, ℕ, List, [], ◌++◌, replicate};
ghost use Rattle.hmac.specs.Mac.{key_block, masked, hmac};
ghost use Rattle.hmac.specs.Laws.{MacLaws};

use octets::{Known, Wiped};
use sha::Sha256;
use std::marker::Model;

// The bytes that mask the key block for the inner and for the outer hash.
const INNER: u8 = 0x36;

const OUTER: u8 = 0x5c;

/// A MAC in progress, which contracts see as its key and the bytes fed so far. Both hashes have been fed the masked key
/// block, and the inner one the message after it.
#[derive(Drop)]
pub struct Hmac {
    inner: Sha256,
    outer: Sha256,
    key: Known,
    fed: Known,
}

impl Model for Hmac {
    ghost use Rattle.hmac.specs.Keyed.{Keyed, Hashing};

    ghost Value = { Keyed };

    ghost view = { λ h. record { key = h.key.bytes; message = h.fed.bytes } };

    ghost invariant = { λ h. Hashing h.key.bytes h.fed.bytes h.inner h.outer };
}

impl Hmac {
    /// A MAC under `key` that has been fed nothing. The key block stands in `pad` alone, which holds zeros afterwards.
    #[tactic(auto, using(crate::proofs::Macs::masks), unfolding(crate::specs::Mac::inner_block, crate::specs::Mac::outer_block))]
    pub fn new(key: &[u8], pad: &mut [u8; 64]) -> Hmac
        ensures keyed { result ≡ record { key = key.now; message = [] } }
        ensures wiped { pad.new ≡ replicate 64 0 }
    {
        let guard = Wiped { pad };
        key_block(key, guard.pad);
        mask(guard.pad, INNER);
        let mut inner = Sha256::new();
        inner.update(&*guard.pad);
        mask(guard.pad, INNER ^ OUTER);
        let mut outer = Sha256::new();
        outer.update(&*guard.pad);
        Hmac {
            inner,
            outer,
            key: Known::none().then(key),
            fed: Known::none(),
        }
    }

    /// Feeds `part` after what came before.
    pub fn update(&mut self, part: &[u8])
        ensures { self.new ≡ record { key = self.old.key; message = self.old.message ++ part.now } }
    {
        self.inner.update(part);
        self.fed = self.fed.then(part);
    }

    /// Writes the MAC of what was fed. The laws say of every MAC that it is 32 bytes.
    #[tactic(auto, using(crate::proofs::Macs::mac_laws), unfolding(crate::specs::Mac::hmac))]
    pub fn finish(mut self, out: &mut [u8; 32])
        ensures is { out.new ≡ hmac self.key self.message }
        ensures laws { MacLaws }
    {
        self.inner.finish(out);
        self.outer.update(out);
        self.outer.finish(out);
    }

    /// Writes the MAC of what was fed to the start of a block, and zeros after it, for a MAC that is key material.
    // As sha's does: a trait for both would be longer than these three lines.
    pub fn finish_block(self, out: &mut [u8; 64])
        ensures { out.new ≡ hmac self.key self.message ++ replicate 32 0 }
    {
        *out = [0; 64];
        let front = out.first_chunk_mut::<32>().unwrap();
        self.finish(front);
    }
}

// Writes the key block: the key, or the digest of a key longer than a block, and zeros after it.
#[tactic(auto, using(crate::proofs::Macs::short_block, sha::proofs::Digests::digest_long), unfolding(crate::specs::Mac::key_block, crate::specs::Mac::short_key))]
fn key_block(key: &[u8], pad: &mut [u8; 64])
    ensures { pad.new ≡ key_block key.now }
{
    if key.len() > 64 {
        let mut h = Sha256::new();
        h.update(key);
        h.finish_block(pad);
        return;
    }
    *pad = [0; 64];
    pad[0..key.len()].copy_from_slice(key);
}

// Changes each byte of the pad by XOR with `b`.
#[tactic(auto, using(crate::proofs::Macs::masked_more), unfolding(crate::specs::Mac::masked))]
fn mask(pad: &mut [u8; 64], b: u8)
    ensures { pad.new ≡ masked b pad.old }
{
    for x in pad.iter_mut() {
        *x ^= b;
    }
}
