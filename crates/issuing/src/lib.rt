//! Issuing a ticket, over a device lent for the call.
//!
//! This is the inside of crate `server`: `issue_on` works on a bare device and does not know a cold server from a running
//! one. Go through `Running::issue`.
#![tactic(auto)]

ghost use Rattle.std.specs.Prelude.{◌≡◌, ℕ, ◌+◌, ◌-◌, ◌^◌, ◌<◌, ◌≤◌, true, List, [], ◌++◌, length, replicate, slice_index_or};
ghost use Rattle.octets.specs.Buffers.{zeros, filled};
ghost use Rattle.session.specs.Limits.{max_record};
ghost use Rattle.ticket.specs.Limits.{max_ticket};
ghost use Rattle.ticket.specs.Parts.{heading_of};
ghost use Rattle.layout.specs.Records.{value_of, recounted};
ghost use Rattle.calls.specs.Kits.{kit_of};
ghost use Rattle.calls.specs.Calls.{kept};
ghost use Rattle.scratch.specs.Clean.{Clean};
ghost use Rattle.tree.specs.Nodes.{tree_levels};
ghost use Rattle.issuing.specs.Ends.{Issuable, IssueEnds, Issues};

use calls::{admit, keep, numbers_of};
use chain::{Found, LEAVES, read_file};
use device::{ReadSlots, SLOT_SIZE, WriteSlots};
use fault::{Halt, Step};
use generator::{Generator, Value, descend};
use layout::{Head, copy_value, recount};
use octets::clear;
use refusal::Refusal;
use scratch::Scratch;
use sealer::Sealer;
use session::is_record;
use steps::{read_at, write_at};
use ticket::{HEADING, MAX_TICKET, NAME, heading};
use tree::LEVELS;

// Loads the value of the record in a slot.
fn load_value<D: ReadSlots>(device: &D, index: u16, slot: &mut [u8; SLOT_SIZE], value: &mut Value)
    requires { (index < length (D.state device.now).slots) × ((D.state device.now).power ≡ true) }
    ensures { value.new ≡ value_of (slice_index_or (D.state device.now).slots index []) }
{
    read_at(device, index, slot).unwrap();
    copy_value(slot, value);
}

// The head with one number more issued than `issued`, in the lent slot.
fn next_head<D: ReadSlots>(device: &D, issued: u32, slot: &mut [u8; SLOT_SIZE])
    requires { (0 < length (D.state device.now).slots) × (((D.state device.now).power ≡ true) × (issued < 2 ^ tree_levels)) }
    ensures { slot.new ≡ recounted (issued + 1) (slice_index_or (D.state device.now).slots 0 []) }
{
    read_at(device, 0, slot).unwrap();
    recount(slot, issued + 1);
}

// Writes the ticket of a number: the heading, and the plain sealed under the key.
fn seal_ticket<S: Sealer>(
    sealer: &S,
    name: &[u8; NAME],
    number: u32,
    key: &Value,
    plain: &[u8],
    ticket: &mut [u8],
    pad: &mut [u8; SLOT_SIZE],
) -> usize
    requires { (max_ticket ≤ length ticket.old) × (length plain.now ≤ max_record) }
    ensures is { ticket.new ≡ filled (heading_of name.now number ++ (S.meaning sealer.now).sealing key.now (heading_of name.now number) plain.now) (length ticket.old) }
    ensures long { result ≡ length (heading_of name.now number ++ (S.meaning sealer.now).sealing key.now (heading_of name.now number) plain.now) }
{
    let (head, sealed) = ticket.split_first_chunk_mut::<HEADING>().unwrap();
    heading(name, number, head);
    HEADING + sealer.seal(key, head, plain, sealed, pad).unwrap()
}

// Gives the ticket of the next number, from the record that covers it: the head is written, and only then the ticket.
fn issue_found<D: WriteSlots, G: Generator, S: Sealer>(
    device: &mut D,
    generator: &G,
    sealer: &S,
    head: &Head,
    found: &Found,
    plain: &[u8],
    ticket: &mut [u8],
    scratch: &mut Scratch,
) -> Result<(usize, u32), Halt>
    requires { Issuable (D.state device.old) head.now found.now plain.now (length ticket.old) }
    ensures { IssueEnds (kit_of (G.meaning generator.now) (S.meaning sealer.now)) (D.state device.old).slots head.now found.now plain.now (length ticket.old) result ticket.new (D.state device.new) }
{
    load_value(
        device,
        found.slot,
        &mut scratch.slot,
        &mut scratch.values.value,
    );
    let calls = descend(
        generator,
        LEVELS,
        &found.node,
        head.issued,
        &mut scratch.values,
    )
    .unwrap();
    next_head(device, head.issued, &mut scratch.slot);
    write_at(device, 0, &scratch.slot, Step::Head)?;
    let length = seal_ticket(
        sealer,
        &head.name,
        head.issued,
        &scratch.values.value,
        plain,
        ticket,
        &mut scratch.pad,
    );
    Ok((length, calls))
}

// Issues into a ticket buffer that is cleared later where this is stopped.
fn issue_into<D: WriteSlots, G: Generator, S: Sealer>(
    device: &mut D,
    generator: &G,
    sealer: &S,
    plain: &[u8],
    ticket: &mut [u8],
    marks: &mut [u8],
    scratch: &mut Scratch,
) -> Result<(usize, u32), Halt>
    ensures { Issues (kit_of (G.meaning generator.now) (S.meaning sealer.now)) tree_levels (D.state device.old) plain.now (length ticket.old) (length marks.old) result (kept result (length ticket.old) ticket.new) (D.state device.new) }
{
    admit(device, MAX_TICKET, ticket.len(), marks.len())?;
    if !is_record(plain) {
        return Err(Halt::plain(Refusal::NotARecord));
    }
    let numbers = numbers_of(generator, sealer);
    let survey = read_file(device, numbers, None, marks, &mut scratch.slot)?;
    if survey.head.issued >= LEAVES {
        return Err(Halt::plain(Refusal::Exhausted));
    }
    // a number that is not issued lies under a record
    let found = survey.found.unwrap();
    issue_found(
        device,
        generator,
        sealer,
        &survey.head,
        &found,
        plain,
        ticket,
        scratch,
    )
}

// Ticket, marks and scratch stay apart, here and in redeeming: each has its own length, and its own promise at the end.
/// Issues the next number's ticket for a state record. For the server alone: it works on a bare device.
pub fn issue_on<D: WriteSlots, G: Generator, S: Sealer>(
    device: &mut D,
    generator: &G,
    sealer: &S,
    plain: &[u8],
    ticket: &mut [u8],
    marks: &mut [u8],
    scratch: &mut Scratch,
) -> Result<(usize, u32), Halt>
    ensures did { Issues (kit_of (G.meaning generator.now) (S.meaning sealer.now)) tree_levels (D.state device.old) plain.now (length ticket.old) (length marks.old) result ticket.new (D.state device.new) }
    ensures marks { marks.new ≡ zeros (length marks.old) }
    ensures clean { Clean scratch.new }
{
    let issued = issue_into(device, generator, sealer, plain, ticket, marks, scratch);
    // The end is as redeeming's: three calls, which a function for both would only name once more.
    keep(&issued, ticket);
    clear(marks);
    scratch.wipe();
    issued
}
