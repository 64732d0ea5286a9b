//! What the programs show alike: where they print, sample sessions with a root and a key name, and rows of bytes.
#![tactic(auto)]

ghost use Rattle.std.specs.Prelude.{◌≡◌, ◌↔◌, ◌⊎◌, ◌≤◌, ◌<◌, ◌+◌, min, length, take, map, All, IsTrue, IsOk, IfSome, Some, None, Ok};
ghost use Rattle.std.specs.List.{fold, range_with_len};
ghost use Rattle.session.specs.Records.{Fits, decode_of};
ghost use Rattle.samples.specs.Sessions.{session_of, recorded};
ghost use Rattle.samples.specs.Rows.{journal_byte, changed};

use anyhow::anyhow;
use device::SLOT_SIZE;
use session::{MAX_LIFETIME, MAX_NAME, SECRET_LENGTH, SessionState, Suite};
use std::array;
use std::fmt::Display;
use ticket::NAME;

/// A root value.
pub const ROOT: [u8; 32] = [0x5a; 32];

/// A key name.
pub const KEY_NAME: [u8; NAME] = *b"a sample's name.";

/// More bytes than any ticket or record has.
pub const ROOM: usize = 160;

/// Where a program prints. That something went wrong is kept until the end, so that a server can be handed on first.
#[derive(Drop)]
pub struct Show<'a> {
    rt: &'a HostRuntime,
    /// whether all has gone well so far
    pub well: bool,
}

impl<'a> Show<'a> {
    /// All has gone well so far.
    pub fn new(rt: &'a HostRuntime) -> Show<'a>
        ensures { IsTrue result.well }
    {
        Show { rt, well: true }
    }

    /// Prints a part of a line.
    pub fn print<T: Display + Drop>(&mut self, part: T)
        ensures { IsTrue self.new.well → IsTrue self.old.well }
    {
        if self.rt.print(part).is_err() {
            self.well = false;
        }
    }

    /// Prints a line.
    pub fn println<T: Display + Drop>(&mut self, line: T)
        ensures { IsTrue self.new.well → IsTrue self.old.well }
    {
        if self.rt.println(line).is_err() {
            self.well = false;
        }
    }

    /// Prints what went wrong, where it did.
    pub fn expect(&mut self, holds: bool, wrong: &str)
        ensures { IsTrue self.new.well → IsTrue self.old.well × IsTrue holds }
    {
        if !holds {
            self.println(wrong);
            self.well = false;
        }
    }

    /// What the program ends with: an error where something went wrong.
    pub fn end(&self) -> anyhow::Result<()>
        ensures { IsOk result ↔ IsTrue self.now.well }
    {
        if self.well {
            Ok(())
        } else {
            Err(anyhow!("something went wrong"))
        }
    }
}

/// Bytes from the start of a row: a record, or a ticket.
// A row with its length, and no Vec: issue and redeem write into a lent row, and answer the length.
#[derive(Clone, Copy, PartialEq, Eq)]
pub struct Bytes {
    pub row: [u8; ROOM],
    pub length: usize,
}

impl Bytes {
    /// No bytes.
    pub fn none() -> Bytes
        ensures { result.length ≡ 0 }
    {
        Bytes {
            row: [0; ROOM],
            length: 0,
        }
    }

    /// The bytes.
    pub fn part(&self) -> &[u8]
        ensures { result.now ≡ take self.now.length self.now.row }
    {
        &self.row[0..self.length.min(ROOM)]
    }
}

/// Counts so many more; a count stays at its greatest.
pub fn add(count: &mut u32, more: u32)
    ensures { count.new ≡ min (count.old + more) 4294967295 }
{
    *count = count.saturating_add(more);
}

/// Whether every byte has a value.
pub fn all_are(bytes: &[u8], value: u8) -> bool
    ensures { IsTrue result ↔ All (λ b. b ≡ value) bytes.now }
{
    bytes.iter().all(|b| *b == value)
}

/// The bytes of the row that a journal stands on: ten slots and ten bytes more, for a sector image one whole sector and a broken one.
pub const JOURNAL_ROW: usize = 650;

// The byte at a place of that row.
fn journal_byte(k: usize) -> u8
    requires { k < 650 }
    ensures { result ≡ journal_byte k }
{
    if k < 2 * SLOT_SIZE {
        0
    } else {
        (k / SLOT_SIZE) as u8
    }
}

/// A row for a journal. Every slot is filled with its own number, but the first two are blank: the journal's mark and copy.
pub fn journal_row() -> [u8; JOURNAL_ROW]
    ensures { result ≡ map journal_byte (range_with_len 0 650) }
{
    array::from_fn(|k| journal_byte(k))
}

/// A change of a file: a slot, a place in it, and the byte that is put there.
pub type Change = (usize, usize, u8);

// Makes one change of a file.
fn put(file: &mut [u8], change: &Change)
    ensures { file.new ≡ changed file.old change.now }
{
    let (slot, place, byte) = *change;
    let at = slot.saturating_mul(SLOT_SIZE).saturating_add(place);
    if at < file.len() {
        file[at] = byte;
    }
}

/// Makes changes of a file, one after the other. One past the file's end changes nothing.
#[tactic(auto, using(std::proofs::lemmas::List::Sums::fold_more))]
pub fn change(file: &mut [u8], changes: &[Change])
    ensures { file.new ≡ fold changed file.old changes.now }
{
    for change in changes {
        put(file, change);
    }
}

/// A session by its name, of which as much is taken as a state holds, with a mark that tells it from others.
pub fn session(name: &[u8], mark: u8) -> SessionState
    ensures is { result ≡ session_of name.now mark }
    ensures fits { Fits result }
{
    let length = name.len().min(MAX_NAME);
    let mut row = [0; MAX_NAME];
    row[..length].copy_from_slice(&name[..length]);
    SessionState {
        suite: Suite::Aes128GcmSha256,
        issued_at: 1_700_000_000,
        lifetime: MAX_LIFETIME,
        age_add: mark as u32,
        early_data_limit: 16_384,
        secret: [mark; SECRET_LENGTH],
        name: row,
        name_length: length as u8,
    }
}

/// The record of a state; none where its fields make none.
pub fn fitting_record(state: &SessionState) -> Option<Bytes>
    ensures is { result ≡ recorded state.now }
    ensures reads { IfSome result (λ b. decode_of (take b.length b.row) ≡ Ok state.now) }
{
    let mut row = [0; ROOM];
    let length = state.write(&mut row).ok()?;
    Some(Bytes { row, length })
}

/// The record of a state, for callers to whom no bytes are as good as no record: no bytes where its fields make none.
pub fn record_of(state: &SessionState) -> Bytes
    ensures some { IfSome (recorded state.now) (λ b. result ≡ b) }
    ensures none { recorded state.now ≡ None → result.length ≡ 0 }
    ensures reads { (result.length ≡ 0) ⊎ (decode_of (take result.length result.row) ≡ Ok state.now) }
{
    fitting_record(state).unwrap_or(Bytes::none())
}

/// The record of a session by its name and its mark.
pub fn session_record(name: &[u8], mark: u8) -> Bytes
    ensures is { recorded (session_of name.now mark) ≡ Some result }
    ensures reads { decode_of (take result.length result.row) ≡ Ok (session_of name.now mark) }
{
    fitting_record(&session(name, mark)).unwrap()
}
