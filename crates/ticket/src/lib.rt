//! A ticket, as its bytes: the heading, which is the key's name (16 bytes) and the ticket's number (4), and then a session
//! record as it is sealed under the number's key.
#![tactic(auto)]

ghost use Rattle.std.specs.Prelude.{◌≡◌, cond, length, Some, None, Decides};
ghost use Rattle.ticket.specs.Limits.{name_length, heading_length, max_overhead, max_ticket, ticket_fits};
ghost use Rattle.ticket.specs.Parts.{heading_of, name_in, number_in, heading_in, sealed_in};

use octets::{get, put, same_bytes};
use session::{MAX_RECORD, MIN_RECORD};
use std::marker::Model;

/// The bytes of a key's name.
pub const NAME: usize = 16;

/// The bytes of a heading: a key's name and a ticket's number.
pub const HEADING: usize = NAME + 4;

/// The most bytes that a sealing has beyond its plain.
pub const MAX_OVERHEAD: usize = 32;

/// The bytes of the longest ticket: the heading, the longest record and the largest overhead.
pub const MAX_TICKET: usize = HEADING + MAX_RECORD + MAX_OVERHEAD;

/// The lengths of a ticket and its parts.
pub fn limits_stand()
    ensures name { NAME ≡ name_length }
    ensures heading { HEADING ≡ heading_length }
    ensures overhead { MAX_OVERHEAD ≡ max_overhead }
    ensures most { MAX_TICKET ≡ max_ticket }
{}

// It takes the heading alone, and not a ticket's buffer: of a function that answers the heading written and the rest, two borrows,
// the check proves no clause of what the buffer ends as (tried).
/// Writes the heading of a ticket: the key's name, and the ticket's number.
#[tactic(auto, using(crate::proofs::Parts::number_after_name))]
pub fn heading(name: &[u8; NAME], number: u32, out: &mut [u8; HEADING])
    ensures { out.new ≡ heading_of name.now number }
{
    out[..NAME].copy_from_slice(name);
    put(out, NAME, number);
}

/// Bytes that can be a ticket.
#[derive(Drop)]
pub struct Ticket<'a> {
    bytes: &'a [u8],
    // read once, from the heading
    number: u32,
}

impl<'a> Model for Ticket<'a> {
    ghost use Rattle.std.specs.Prelude.{ℕ, ◌≡◌, ◌≤◌, List, length};
    ghost use Rattle.ticket.specs.Limits.{heading_length};
    ghost use Rattle.ticket.specs.Parts.{number_in};

    ghost Value = { List ℕ };

    ghost view = { λ t. t.bytes.now };

    ghost invariant = { λ t. (heading_length ≤ length t.bytes.now) × (t.number ≡ number_in t.bytes.now) };
}

impl<'a> Ticket<'a> {
    // No `then_some`: it would build the ticket before its length is known, and a ticket has its heading by its type. Nor
    // `then`: inside its closure the length is known only by a `requires` of its own.
    /// The ticket in some bytes, where it can be one of a sealer with this overhead.
    pub fn of(bytes: &'a [u8], overhead: usize) -> Option<Ticket<'a>>
        ensures { result ≡ cond (ticket_fits overhead (length bytes.now)) (Some bytes.now) None }
    {
        let fitting = HEADING + MIN_RECORD..=HEADING + MAX_RECORD;
        if fitting.contains(&bytes.len().saturating_sub(overhead)) {
            let number = get(bytes, NAME);
            Some(Ticket { bytes, number })
        } else {
            None
        }
    }

    /// Whether it bears a name.
    pub fn bears(&self, name: &[u8; NAME]) -> bool
        ensures { Decides result (name_in self.now ≡ name.now) }
    {
        same_bytes(&self.bytes[0..NAME], name)
    }

    /// The number in its heading.
    pub fn number(&self) -> u32
        ensures { result ≡ number_in self.now }
    {
        self.number
    }

    /// Its heading.
    pub fn heading(&self) -> &[u8; HEADING]
        ensures { result.now ≡ heading_in self.now }
    {
        self.bytes.first_chunk().unwrap()
    }

    /// Its sealed part.
    pub fn sealed(&self) -> &[u8]
        ensures { result.now ≡ sealed_in self.now }
    {
        &self.bytes[HEADING..]
    }
}
