//! Why a call is declined: the sixteen refusals and their numbers.
#![tactic(auto)]

ghost use Rattle.std.specs.Prelude.{◌≡◌, Some};
ghost use Rattle.refusal.specs.Numbers.{number_of};
ghost use Rattle.refusal.specs.Words.{words_of};

use std::fmt;

/// The refusals, in the order in which a call tries them.
#[derive(Clone, Copy, PartialEq, Eq, Debug)]
pub enum Refusal {
    /// a lent buffer is shorter than what goes into it may be, or a plain is too long to be sealed
    ShortBuffer = 1,
    /// the device has too few or too many slots
    SlotCount = 2,
    /// the bytes, or the fields, are no state record
    NotARecord = 3,
    /// slot 0 holds no head, or one of a tree with another generator or sealer
    BadHead = 4,
    /// a record of the chain is not laid out as it should be, or does not belong where it stands
    BadLink = 5,
    /// a number that is not issued yet lies under no record
    Uncovered = 6,
    /// every number is issued
    Exhausted = 7,
    /// the ticket is too short or too long
    TicketLength = 8,
    /// the ticket bears another key name
    OtherName = 9,
    /// the ticket's number is not issued
    NotIssued = 10,
    /// no record covers the ticket's number
    Spent = 11,
    /// the seal does not open
    SealBroken = 12,
    /// what the seal held is no state record
    OpenedNotARecord = 13,
    /// too few slots are free
    NoFreeSlot = 14,
    /// there is no power, or it fails during the call
    NoPower = 15,
    /// the device has no such slot
    NoSuchSlot = 16,
}

/// The refusal's number, from 1 to 16.
impl From<Refusal> for u8 {
    ghost from_gives = { λ refusal number. number ≡ number_of refusal };

    fn from(refusal: Refusal) -> u8 {
        refusal as u8
    }
}

/// The refusal in words, as it is printed after its number.
impl fmt::Display for Refusal {
    ghost output = { λ w. Some (words_of w) };

    fn fmt<W: fmt::Write>(&self, f: &mut fmt::Formatter<W>) -> fmt::Result {
        f.write_str(match self {
            Refusal::ShortBuffer => "too short a buffer or too long a plain",
            Refusal::SlotCount => "too few or too many slots",
            Refusal::NotARecord => "no state record",
            Refusal::BadHead => "a head that does not fit",
            Refusal::BadLink => "a record that does not fit",
            Refusal::Uncovered => "an unissued number under no record",
            Refusal::Exhausted => "every number is issued",
            Refusal::TicketLength => "a ticket too short or too long",
            Refusal::OtherName => "another key name",
            Refusal::NotIssued => "not issued",
            Refusal::Spent => "spent",
            Refusal::SealBroken => "the seal does not open",
            Refusal::OpenedNotARecord => "no state record under the seal",
            Refusal::NoFreeSlot => "too few free slots",
            Refusal::NoPower => "no power",
            Refusal::NoSuchSlot => "no such slot",
        })
    }
}
