//! How a sealer is put together from a keystream and a tag.
//!
//! The plain is covered by the keystream, byte by byte, and a tag of the heading and the covered plain follows it.
//! A scheme says which keystream and which tag. Sealing and opening, and their laws, stand here once for every scheme.
#![tactic(auto)]

ghost use Rattle.std.specs.Prelude.{◌≡◌, ℕ, ◌+◌, ◌<◌, ◌≤◌, List, ◌++◌, length, drop, bit_xor, slice_index, EachIndex};
ghost use Rattle.octets.specs.Buffers.{zeros, filled};
ghost use Rattle.ticket.specs.Limits.{max_overhead};
ghost use Rattle.sealer.specs.Limits.{max_plain};
ghost use Rattle.sealer.specs.Outcomes.{Sealed, Opened};
ghost use Rattle.scheme.specs.Schemes.{SchemeMeaning, LawfulScheme};
ghost use Rattle.scheme.specs.Covering.{covered_by, sealing_of};
ghost use Rattle.scheme.specs.Laws.{CoveringLaws};

use octets::{clear, same_bytes};
use refusal::Refusal;
use sealer::MAX_PLAIN;
use ticket::{HEADING, MAX_OVERHEAD};

/// A keystream and a tag.
pub trait Scheme {
    /// which keystream and which tag it is
    ghost meaning: { Self → SchemeMeaning };

    /// The bytes of a block.
    fn size(&self) -> usize
        ensures { result ≡ (meaning self.now).size };

    /// The bytes of a tag.
    fn extra(&self) -> usize
        ensures { result ≡ (meaning self.now).extra };

    /// Writes a block of the keystream to the start of the pad, with zeros after it.
    fn block(&self, key: &[u8; 32], index: u32, pad: &mut [u8; 64])
        ensures { pad.new ≡ filled ((meaning self.now).block key.now index) 64 };

    /// Writes the tag of a heading and a covered plain to the start of a row, with zeros after it. The pad holds zeros
    /// afterwards.
    fn tag(
        &self,
        key: &[u8; 32],
        heading: &[u8; HEADING],
        bytes: &[u8],
        out: &mut [u8; MAX_OVERHEAD],
        pad: &mut [u8; 64],
    )
        ensures tagged { out.new ≡ filled ((meaning self.now).tag key.now heading.now bytes.now) max_overhead }
        ensures wiped { pad.new ≡ zeros 64 };

    ghost lawful: { (s : Self) → LawfulScheme (meaning s) };
}

// Writes the XOR of a part of the plain and a block's first bytes.
// By an index: over `out.iter_mut().zip(part.iter().zip(block))` an invariant has only the iterators and cannot name `out`.
fn lay(part: &[u8], block: &[u8; 64], out: &mut [u8])
    requires { (length part.now ≤ 64) × (length out.old ≡ length part.now) }
    ensures { EachIndex out.new (λ k. slice_index out.new k ≡ bit_xor (slice_index part.now k) (slice_index block.now k)) }
{
    for (k, byte) in out.iter_mut().enumerate() {
        *byte = part[k] ^ block[k];
    }
}

// Writes the covered plain to the buffer's start, by places as in `lay`. The pad is left with a block of the keystream.
fn cover<S: Scheme>(scheme: &S, key: &[u8; 32], plain: &[u8], out: &mut [u8], pad: &mut [u8; 64])
    requires { (length plain.now ≤ max_plain) × (length plain.now ≤ length out.old) }
    ensures { out.new ≡ covered_by (S.meaning scheme.now) key.now plain.now ++ drop (length plain.now) out.old }
{
    let size = scheme.size();
    for (index, part) in plain.chunks(size).enumerate() {
        scheme.block(key, index as u32, pad);
        let at = index * size;
        lay(part, pad, &mut out[at..at + part.len()]);
    }
}

// Puts zeros into both lent buffers.
fn clear_both(out: &mut [u8], pad: &mut [u8; 64])
    ensures out { out.new ≡ zeros (length out.old) }
    ensures pad { pad.new ≡ zeros 64 }
{
    clear(out);
    *pad = [0; 64];
}

// Key, heading and pad are no struct: one of three borrows would be built and taken apart at each call.
/// Seals a plain by a scheme. The pad holds zeros afterwards, also where the plain is declined.
pub fn seal<S: Scheme>(
    scheme: &S,
    key: &[u8; 32],
    heading: &[u8; HEADING],
    plain: &[u8],
    out: &mut [u8],
    pad: &mut [u8; 64],
) -> Result<usize, Refusal>
    ensures sealed { Sealed (sealing_of (S.meaning scheme.now) key.now heading.now) (S.meaning scheme.now).extra plain.now (length out.old) result out.new }
    ensures wiped { pad.new ≡ zeros 64 }
{
    clear_both(out, pad);
    let n = plain.len();
    let extra = scheme.extra();
    if n > MAX_PLAIN || out.len() < n + extra {
        return Err(Refusal::ShortBuffer);
    }
    cover(scheme, key, plain, out, pad);
    let mut tag = [0; MAX_OVERHEAD];
    scheme.tag(key, heading, &out[..n], &mut tag, pad);
    out[n..n + extra].copy_from_slice(&tag[..extra]);
    Ok(n + extra)
}

/// Opens a sealing by a scheme. The pad holds zeros afterwards, whatever is answered.
#[tactic(auto, using(crate::proofs::Opens::no_length))]
pub fn open<S: Scheme>(
    scheme: &S,
    key: &[u8; 32],
    heading: &[u8; HEADING],
    sealed: &[u8],
    out: &mut [u8],
    pad: &mut [u8; 64],
) -> Result<Option<usize>, Refusal>
    ensures opened { Opened (sealing_of (S.meaning scheme.now) key.now heading.now) sealed.now (length out.old) result out.new }
    ensures wiped { pad.new ≡ zeros 64 }
{
    clear_both(out, pad);
    if out.len() < MAX_PLAIN {
        return Err(Refusal::ShortBuffer);
    }
    let extra = scheme.extra();
    let Some(n) = sealed.len().checked_sub(extra) else {
        return Ok(None);
    };
    if n > MAX_PLAIN {
        return Ok(None);
    }
    let (bytes, end) = sealed.split_at(n);
    let mut tag = [0; MAX_OVERHEAD];
    scheme.tag(key, heading, bytes, &mut tag, pad);
    if !same_bytes(&tag[..extra], end) {
        return Ok(None);
    }
    cover(scheme, key, bytes, out, pad);
    clear(pad);
    Ok(Some(n))
}

/// How long a sealing is, and that sealings of different plains differ, for every keystream and tag.
#[tactic(auto, using(crate::proofs::Covers::laws))]
pub fn sealings_stand()
    ensures { CoveringLaws }
{}
