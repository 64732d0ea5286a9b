//! Sealer 2: a keystream of HMAC-SHA-256 over the plain, and a whole HMAC-SHA-256 as the tag.
//!
//! One byte before what is hashed tells the two uses of the key apart.
#![tactic(auto)]

ghost use Rattle.hmacseal.specs.Meaning.{sealer_number, scheme, sealer};
ghost use Rattle.hmacseal.specs.Promises.{lawful_scheme, lawful_sealer};

use hmac::Hmac;
use octets::{Field, Wiped};
use refusal::Refusal;
use scheme::Scheme;
use sealer::Sealer;
use ticket::{HEADING, MAX_OVERHEAD};

// The number by which trees name this sealer.
const NUMBER: u8 = 2;

// The bytes of a keystream block, which is a whole MAC.
const BLOCK_SIZE: usize = 32;

// The bytes of a tag, which is a whole MAC.
const TAG_SIZE: usize = 32;

// The byte before a block's place, where the MAC is a keystream block.
const STREAM: u8 = 0x01;

// The byte before the heading, where the MAC is a tag.
const TAG: u8 = 0x02;

/// Sealer 2.
#[derive(Clone, Copy)]
pub struct HmacSealer;

impl Scheme for HmacSealer {
    ghost meaning = { λ _. scheme };

    ghost lawful = { λ _. lawful_scheme };

    fn size(&self) -> usize {
        BLOCK_SIZE
    }

    fn extra(&self) -> usize {
        TAG_SIZE
    }

    #[tactic(auto, using(hmac::proofs::Macs::mac_long), unfolding(crate::specs::Meaning::stream_block))]
    fn block(&self, key: &[u8; 32], index: u32, pad: &mut [u8; 64]) {
        let mut mac = Hmac::new(key, pad);
        mac.update(&[STREAM]);
        mac.update(&index.to_bytes());
        mac.finish_block(pad);
    }

    #[tactic(auto, unfolding(crate::specs::Meaning::tag_of))]
    fn tag(
        &self,
        key: &[u8; 32],
        heading: &[u8; HEADING],
        bytes: &[u8],
        out: &mut [u8; MAX_OVERHEAD],
        pad: &mut [u8; 64],
    ) {
        let mut mac = Hmac::new(key, pad);
        mac.update(&[TAG]);
        mac.update(heading);
        mac.update(bytes);
        mac.finish(out);
    }
}

// Alike in both sealers, and yet twice: a rule of the project gives each of them its own guard on the lent pad (docs/CIPHERS.md).
impl Sealer for HmacSealer {
    ghost meaning = { λ _. sealer };

    ghost lawful = { λ _. lawful_sealer };

    fn number(&self) -> u8 {
        NUMBER
    }

    fn overhead(&self) -> usize {
        TAG_SIZE
    }

    fn seal(
        &self,
        key: &[u8; 32],
        heading: &[u8; HEADING],
        plain: &[u8],
        out: &mut [u8],
        pad: &mut [u8; 64],
    ) -> Result<usize, Refusal> {
        let guard = Wiped { pad };
        scheme::seal(self, key, heading, plain, out, guard.pad)
    }

    fn open(
        &self,
        key: &[u8; 32],
        heading: &[u8; HEADING],
        sealed: &[u8],
        out: &mut [u8],
        pad: &mut [u8; 64],
    ) -> Result<Option<usize>, Refusal> {
        let guard = Wiped { pad };
        scheme::open(self, key, heading, sealed, out, guard.pad)
    }
}
