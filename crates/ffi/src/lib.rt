//! The ciphers and sealers under names that C can call, for the benchmark. A slice is a pointer and then a length.
#![tactic(auto)]

ghost use Rattle.std.specs.Prelude.{◌≡◌, ◌+◌, length};
ghost use Rattle.octets.specs.Buffers.{zeros, filled};
ghost use Rattle.chacha.specs.Cipher.{block_of};
ghost use Rattle.sha.specs.Digest.{sha256};
ghost use Rattle.sealer.specs.Outcomes.{Sealable};
ghost use Rattle.chachaseal.specs.Meaning.{sealed_bytes as chachaSealed};
ghost use Rattle.hmacseal.specs.Meaning.{sealed_bytes as hmacSealed};

use chachaseal::ChaChaSealer;
use hmacseal::HmacSealer;
use sealer::Sealer;
use ticket::HEADING;

/// Fills `out` with the ChaCha20 block of `key`, `counter` and `nonce`.
#[unsafe(no_mangle)]
pub extern "C" fn fishqalgo_chacha_block(
    key: &[u8; 32],
    counter: u32,
    nonce: &[u8; 12],
    out: &mut [u8; 64],
)
    ensures { out.new ≡ block_of key.now counter nonce.now }
{
    chacha::block(key, counter, nonce, out);
}

/// Writes the SHA-256 digest of `message`.
#[unsafe(no_mangle)]
pub extern "C" fn fishqalgo_sha256(message: &[u8], out: &mut [u8; 32])
    ensures { out.new ≡ sha256 message.now }
{
    sha::digest(message, out);
}

/// Seals `plain` with sealer 1, and answers the sealing's length, or 0 where the plain is too long or the buffer too
/// short.
#[unsafe(no_mangle)]
pub extern "C" fn fishqalgo_chacha_seal(
    key: &[u8; 32],
    heading: &[u8; HEADING],
    plain: &[u8],
    out: &mut [u8],
    pad: &mut [u8; 64],
) -> usize
    ensures sealed { Sealable 16 plain.now (length out.old) → (result ≡ length plain.now + 16) × (out.new ≡ filled (chachaSealed key.now heading.now plain.now) (length out.old)) }
    ensures declined { (Sealable 16 plain.now (length out.old) → ⊥) → (result ≡ 0) × (out.new ≡ zeros (length out.old)) }
    ensures wiped { pad.new ≡ zeros 64 }
{
    let sealed = ChaChaSealer.seal(key, heading, plain, out, pad);
    sealed.unwrap_or(0) // the C names and their answers stay: a length, or 0 where it is declined
}

/// Seals `plain` with sealer 2, as above.
#[unsafe(no_mangle)]
pub extern "C" fn fishqalgo_hmac_seal(
    key: &[u8; 32],
    heading: &[u8; HEADING],
    plain: &[u8],
    out: &mut [u8],
    pad: &mut [u8; 64],
) -> usize
    ensures sealed { Sealable 32 plain.now (length out.old) → (result ≡ length plain.now + 32) × (out.new ≡ filled (hmacSealed key.now heading.now plain.now) (length out.old)) }
    ensures declined { (Sealable 32 plain.now (length out.old) → ⊥) → (result ≡ 0) × (out.new ≡ zeros (length out.old)) }
    ensures wiped { pad.new ≡ zeros 64 }
{
    let sealed = HmacSealer.seal(key, heading, plain, out, pad);
    sealed.unwrap_or(0) // the C names and their answers stay: a length, or 0 where it is declined
}
