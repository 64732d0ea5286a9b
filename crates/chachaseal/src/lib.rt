//! Sealer 1: ChaCha20 over the plain, and half of an HMAC-SHA-256 as the tag.
#![tactic(auto)]

ghost use Rattle.std.specs.Prelude.{◌≡◌, take};
ghost use Rattle.octets.specs.Buffers.{filled};
ghost use Rattle.chachaseal.specs.Meaning.{tag_size, sealer_number, scheme, sealer};
ghost use Rattle.chachaseal.specs.Promises.{lawful_scheme, lawful_sealer};

use hmac::Hmac;
use octets::Wiped;
use refusal::Refusal;
use scheme::Scheme;
use sealer::Sealer;
use ticket::{HEADING, MAX_OVERHEAD};

// The number by which trees name this sealer.
const NUMBER: u8 = 1;

// The bytes of a keystream block.
const BLOCK_SIZE: usize = 64;

// The bytes of a tag.
const TAG_SIZE: usize = 16;

/// Sealer 1.
#[derive(Clone, Copy)]
pub struct ChaChaSealer;

// Keeps the bytes of a tag at the start of a row, and puts zeros after them.
fn keep_tag(out: &mut [u8; 32])
    ensures { out.new ≡ filled (take tag_size out.old) 32 }
{
    out[TAG_SIZE..].fill(0);
}

impl Scheme for ChaChaSealer {
    ghost meaning = { λ _. scheme };

    ghost lawful = { λ _. lawful_scheme };

    fn size(&self) -> usize {
        BLOCK_SIZE
    }

    fn extra(&self) -> usize {
        TAG_SIZE
    }

    #[tactic(auto, using(session::proofs::Rows::filled_whole), unfolding(crate::specs::Meaning::stream_block))]
    fn block(&self, key: &[u8; 32], index: u32, pad: &mut [u8; 64]) {
        chacha::block(key, index.wrapping_add(1), &[0; 12], pad);
    }

    #[tactic(auto, unfolding(crate::specs::Meaning::tag_of))]
    fn tag(
        &self,
        key: &[u8; 32],
        heading: &[u8; HEADING],
        bytes: &[u8],
        out: &mut [u8; MAX_OVERHEAD],
        pad: &mut [u8; 64],
    ) {
        let mut mac = Hmac::new(key, pad);
        mac.update(heading);
        mac.update(bytes);
        mac.finish(out);
        keep_tag(out);
    }
}

// Alike in both sealers, and yet twice: a rule of the project gives each of them its own guard on the lent pad (docs/CIPHERS.md).
impl Sealer for ChaChaSealer {
    ghost meaning = { λ _. sealer };

    ghost lawful = { λ _. lawful_sealer };

    fn number(&self) -> u8 {
        NUMBER
    }

    fn overhead(&self) -> usize {
        TAG_SIZE
    }

    fn seal(
        &self,
        key: &[u8; 32],
        heading: &[u8; HEADING],
        plain: &[u8],
        out: &mut [u8],
        pad: &mut [u8; 64],
    ) -> Result<usize, Refusal> {
        let guard = Wiped { pad };
        scheme::seal(self, key, heading, plain, out, guard.pad)
    }

    fn open(
        &self,
        key: &[u8; 32],
        heading: &[u8; HEADING],
        sealed: &[u8],
        out: &mut [u8],
        pad: &mut [u8; 64],
    ) -> Result<Option<usize>, Refusal> {
        let guard = Wiped { pad };
        scheme::open(self, key, heading, sealed, out, guard.pad)
    }
}
