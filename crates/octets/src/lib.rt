//! Bytes in lent buffers: big-endian fields, clearing, comparing without an early exit, and a guard for key material.
#![tactic(auto)]

ghost use Rattle.std.specs.Prelude.{◌≡◌, ℕ, ◌+◌, ◌≤◌, List, [], ◌++◌, length, take, drop, replicate, Decides};
ghost use Rattle.std.specs.Borrow.{ftrue};
ghost use Rattle.octets.specs.Fields.{bytes_of, number_of, FieldLaws};
ghost use Rattle.octets.specs.Buffers.{zeros, pasted, is_blank, differing};
ghost use Rattle.std.specs.List.{fold, zip};

use std::marker::Model;

/// A number that stands in `N` bytes, the highest first.
pub trait Field<const N: usize>: Copy {
    /// The number.
    ghost value: { Self → ℕ };

    /// Its bytes.
    fn to_bytes(self) -> [u8; N]
        ensures { result ≡ bytes_of N (value self) };

    /// The number that bytes write.
    fn from_bytes(bytes: &[u8; N]) -> Self
        ensures { value result ≡ number_of bytes.now };
}

// Three impls alike: `to_be_bytes` is each type's own, and the gate takes no impl that a macro of the repository writes.
#[tactic(auto, using(crate::proofs::Fielded::bytes2, crate::proofs::Fielded::number2))]
impl Field<2> for u16 {
    ghost value = { λ v. v };

    fn to_bytes(self) -> [u8; 2] {
        self.to_be_bytes()
    }

    fn from_bytes(bytes: &[u8; 2]) -> u16 {
        u16::from_be_bytes(*bytes)
    }
}

#[tactic(auto, using(crate::proofs::Fielded::bytes4, crate::proofs::Fielded::number4))]
impl Field<4> for u32 {
    ghost value = { λ v. v };

    fn to_bytes(self) -> [u8; 4] {
        self.to_be_bytes()
    }

    fn from_bytes(bytes: &[u8; 4]) -> u32 {
        u32::from_be_bytes(*bytes)
    }
}

#[tactic(auto, using(crate::proofs::Fielded::bytes8, crate::proofs::Fielded::number8))]
impl Field<8> for u64 {
    ghost value = { λ v. v };

    fn to_bytes(self) -> [u8; 8] {
        self.to_be_bytes()
    }

    fn from_bytes(bytes: &[u8; 8]) -> u64 {
        u64::from_be_bytes(*bytes)
    }
}

/// Writes a number at a place, in as many bytes as its type has.
pub fn put<const N: usize, T: Field<N>>(b: &mut [u8], at: usize, v: T)
    requires { at + N ≤ length b.old }
    ensures { b.new ≡ pasted b.old at (bytes_of N (T.value v)) N }
{
    b[at..at + N].copy_from_slice(&v.to_bytes());
}

/// The number at a place, of as many bytes as its type has.
pub fn get<const N: usize, T: Field<N>>(b: &[u8], at: usize) -> T
    requires { at + N ≤ length b.now }
    ensures { T.value result ≡ number_of (take N (drop at b.now)) }
{
    let mut w = [0; N];
    w.copy_from_slice(&b[at..at + N]);
    T::from_bytes(&w)
}

/// A number comes back from its bytes, and bytes come back from their number, at every width.
#[tactic(auto, using(crate::proofs::Fielded::fields))]
pub fn fields_stand()
    ensures { FieldLaws }
{}

/// Puts zeros into the whole buffer.
pub fn clear(b: &mut [u8])
    ensures { b.new ≡ zeros (length b.old) }
{
    b.fill(0);
}

/// Whether every byte is zero.
pub fn is_blank(b: &[u8]) -> bool
    ensures { result ≡ is_blank b.now }
{
    b.iter().all(|x| *x == 0)
}

// The bits in which bytes that stand at one place differ, of all places together.
fn differing(a: &[u8], b: &[u8]) -> u8
    ensures { result ≡ fold differing 0 (zip a.now b.now) }
{
    a.iter().zip(b).fold(0, |bits, (x, y)| bits | (x ^ y))
}

/// Whether two rows of bytes are equal. Rows of one length are read to their end, whatever they hold.
#[tactic(auto, using(crate::proofs::Compared::both_zero, crate::proofs::Compared::differing_self))]
pub fn same_bytes(a: &[u8], b: &[u8]) -> bool
    ensures { Decides result (a.now ≡ b.now) }
{
    a.len() == b.len() && differing(a, b) == 0
}

/// Guards a lent pad for key material: where the guard ends, the pad holds zeros.
pub struct Wiped<'a> {
    pub pad: &'a mut [u8; 64],
}

impl Drop for Wiped<'_> {
    fn drop(self)
        ensures { self.exit.0.now ≡ replicate 64 0 }
    {
        *self.pad = [0; 64];
        let Wiped { pad: _ } = self;
    }
}

/// Bytes that only proofs read. They take no memory, and the calls do nothing at run time.
#[derive(Drop)]
pub struct Known {
    pub ghost bytes: { List ℕ },
}

impl Model for Known {
    ghost also_owns = { λ _. ftrue };
}

impl Known {
    /// No bytes.
    pub fn none() -> Known
        ensures { result.bytes ≡ [] }
    {
        Known {}
    }

    /// The bytes known before, and then those of `part`.
    pub fn then(&self, _part: &[u8]) -> Known
        ensures { result.bytes ≡ self.now.bytes ++ _part.now }
    {
        Known {}
    }
}
