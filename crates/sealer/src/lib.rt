//! What a sealer is: it turns a plain into sealed bytes under a key and a heading, and back.
//!
//! A sealer means, for a key of 32 bytes and a heading, a sealing of each plain that is not longer than the longest
//! session record. What sealing and opening leave behind stands in specs/Outcomes.antt.
#![tactic(auto)]

ghost use Rattle.std.specs.Prelude.{◌≡◌, length};
ghost use Rattle.octets.specs.Buffers.{zeros};
ghost use Rattle.sealer.specs.Limits.{max_plain};
ghost use Rattle.sealer.specs.Meaning.{SealerMeaning, LawfulSealer};
ghost use Rattle.sealer.specs.Outcomes.{Sealed, Opened};

use refusal::Refusal;
use session::MAX_RECORD;
use ticket::HEADING;

/// The bytes of the longest plain.
pub const MAX_PLAIN: usize = MAX_RECORD;

/// A way to seal plains.
// Key and heading stay two parameters: each lies in a buffer of its own, and a struct of both would be made anew for each call. That
// the pad is left with zeros is a clause, and no invariant: it is the caller's, C's too, and a block of the keystream stands in it meanwhile.
pub trait Sealer {
    /// which sealing it is, by how much it is longer than its plain, and its number
    ghost meaning: { Self → SealerMeaning };

    // A plain number, as a generator's: a sealer of another crate brings its own.
    /// The number by which a tree names this sealer.
    fn number(&self) -> u8
        ensures { result ≡ (meaning self.now).number };

    /// How many bytes a sealing has beyond its plain.
    fn overhead(&self) -> usize
        ensures { result ≡ (meaning self.now).overhead };

    /// Writes the sealing of a plain from the buffer's start, with zeros after it, and answers its length.
    fn seal(
        &self,
        key: &[u8; 32],
        heading: &[u8; HEADING],
        plain: &[u8],
        out: &mut [u8],
        pad: &mut [u8; 64],
    ) -> Result<usize, Refusal>
        ensures sealed { Sealed ((meaning self.now).sealing key.now heading.now) (meaning self.now).overhead plain.now (length out.old) result out.new }
        ensures wiped { pad.new ≡ zeros 64 };

    /// Writes the plain that has the sealing given, if there is one, and answers its length.
    fn open(
        &self,
        key: &[u8; 32],
        heading: &[u8; HEADING],
        sealed: &[u8],
        out: &mut [u8],
        pad: &mut [u8; 64],
    ) -> Result<Option<usize>, Refusal>
        ensures opened { Opened ((meaning self.now).sealing key.now heading.now) sealed.now (length out.old) result out.new }
        ensures wiped { pad.new ≡ zeros 64 };

    ghost lawful: { (s : Self) → LawfulSealer (meaning s) };
}

/// The limit of plains.
pub fn limits_stand()
    ensures { MAX_PLAIN ≡ max_plain }
{}
