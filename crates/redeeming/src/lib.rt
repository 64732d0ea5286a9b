//! Redeeming a ticket, over a device lent for the call.
//!
//! This is the inside of crate `server`: `redeem_on` works on a bare device and does not know a cold server from a running
//! one. Go through `Running::redeem`.
//!
//! A state is given only once its number is spent on the device: all refusals come before the first write, and the answer after the last.
#![tactic(auto)]

ghost use Rattle.std.specs.Prelude.{◌≡◌, ◌<◌, ◌≤◌, true, List, length, Ok};
ghost use Rattle.octets.specs.Buffers.{zeros};
ghost use Rattle.session.specs.Limits.{max_record};
ghost use Rattle.ticket.specs.Limits.{ticket_fits};
ghost use Rattle.ticket.specs.Parts.{number_in, heading_in, sealed_in};
ghost use Rattle.tree.specs.Nodes.{tree_levels};
ghost use Rattle.marks.specs.Rows.{room_of};
ghost use Rattle.chain.specs.Reading.{Link};
ghost use Rattle.scratch.specs.Clean.{Clean};
ghost use Rattle.calls.specs.Kits.{Kit, kit_of};
ghost use Rattle.calls.specs.Calls.{redeemable, kept};
ghost use Rattle.redeeming.specs.Steps.{asked_by, passing, Surveying, Met, Derived, Unsealing, Redeems, Spending};

use calls::{admit, keep, numbers_of};
use chain::{Found, Survey, read_marking};
use device::{ReadSlots, SLOT_SIZE, WriteSlots};
use fault::Halt;
use generator::{Generator, Value, descend_keeping};
use layout::{Head, copy_value};
use octets::clear;
use puncture::puncture;
use refusal::Refusal;
use scratch::Scratch;
use sealer::Sealer;
use session::{MAX_RECORD, is_record};
use steps::read_at;
use ticket::Ticket;
use tree::LEVELS;

// Checks a ticket's name and its number against the head.
#[tactic(auto, using(crate::proofs::Checks::other, crate::proofs::Checks::same))]
fn check(ticket: &Ticket, head: &Head) -> Result<(), Halt>
    ensures { (k : Kit) (xs : List Link) → ticket_fits k.sealer.overhead (length ticket.now) ≡ true → redeemable k ticket.now (Ok (head.now, xs)) ≡ passing result (head.now, xs) }
{
    if !ticket.bears(&head.name) {
        return Err(Halt::plain(Refusal::OtherName));
    }
    let number = ticket.number();
    if number >= head.issued {
        return Err(Halt::at(Refusal::NotIssued, number));
    }
    Ok(())
}

// The number that a ticket asks for, where there is a ticket. It stands apart from its one use: of a `map` in the middle of
// `read_for`, with a closure or with `Ticket::number`, the check told no more than that it was called.
fn asked(ticket: &Option<Ticket>) -> Option<u32>
    ensures { result ≡ asked_by ticket.now }
{
    ticket.as_ref().map(Ticket::number)
}

// Reads the file for a ticket, marks the chain's slots, and checks the ticket against the head.
fn read_for<'a, D: ReadSlots, G: Generator, S: Sealer>(
    device: &D,
    generator: &G,
    sealer: &S,
    bytes: &'a [u8],
    marks: &mut [u8],
    slot: &mut [u8; SLOT_SIZE],
) -> Result<(Ticket<'a>, Survey), Halt>
    ensures { 0 < length (D.ReadSlots.state device.now).slots → room_of (length (D.ReadSlots.state device.now).slots) ≤ length marks.old → Surveying (kit_of (G.Generator.meaning generator.now) (S.Sealer.meaning sealer.now)) tree_levels (D.ReadSlots.state device.now) bytes.now (length marks.old) result marks.new }
{
    let ticket = Ticket::of(bytes, sealer.overhead());
    let numbers = numbers_of(generator, sealer);
    let survey = read_marking(device, numbers, asked(&ticket), marks, slot)?;
    let Some(ticket) = ticket else {
        return Err(Halt::plain(Refusal::TicketLength));
    };
    check(&ticket, &survey.head)?;
    Ok((ticket, survey))
}

// Goes down to n's key from the value of the record found, keeps the siblings' values, and answers the generator calls made.
fn derive_key<D: ReadSlots, G: Generator>(
    device: &D,
    generator: &G,
    found: &Found,
    n: u32,
    scratch: &mut Scratch,
) -> Result<u32, Halt>
    ensures { (x : Link) → Met tree_levels (D.ReadSlots.state device.now) found.now n x → Derived (G.Generator.meaning generator.now).expansion tree_levels n x result scratch.new.values.value scratch.new.row }
{
    let Scratch {
        slot,
        values,
        row,
        ..
    } = scratch;
    read_at(device, found.slot, slot)?;
    copy_value(slot, &mut values.value);
    let calls = descend_keeping(generator, LEVELS, &found.node, n, values, row);
    calls.ok_or(Halt::at(Refusal::Spent, n))
}

// Opens the sealed part of a ticket into the state's buffer, and answers the record's length.
fn open_ticket<S: Sealer>(
    sealer: &S,
    ticket: &Ticket,
    key: &Value,
    state: &mut [u8],
    pad: &mut [u8; SLOT_SIZE],
) -> Result<usize, Halt>
    ensures { max_record ≤ length state.old → Unsealing ((S.Sealer.meaning sealer.now).sealing key.now (heading_in ticket.now)) (sealed_in ticket.now) (number_in ticket.now) (length state.old) result state.new }
{
    let opened = sealer
        .open(key, ticket.heading(), ticket.sealed(), state, pad)
        .map_err(Halt::plain)?;
    let Some(length) = opened else {
        return Err(Halt::at(Refusal::SealBroken, ticket.number()));
    };
    if !is_record(&state[..length]) {
        return Err(Halt::at(Refusal::OpenedNotARecord, ticket.number()));
    }
    Ok(length)
}

// Opens the ticket under the record that covers its number, and punctures the tree there.
fn spend<D: WriteSlots, G: Generator, S: Sealer>(
    device: &mut D,
    generator: &G,
    sealer: &S,
    count: u16,
    survey: &Survey,
    ticket: &Ticket,
    state: &mut [u8],
    marks: &[u8],
    scratch: &mut Scratch,
) -> Result<(usize, u32), Halt>
    ensures { Spending (kit_of (G.meaning generator.now) (S.meaning sealer.now)) tree_levels (D.state device.old) ticket.now (length state.old) count survey.now marks.now result state.new (D.state device.new) }
{
    let number = ticket.number();
    let records = survey.length;
    let Some(found) = survey.found else {
        return Err(Halt::at(Refusal::Spent, number));
    };
    let calls = derive_key(device, generator, &found, number, scratch)?;
    let length = open_ticket(
        sealer,
        ticket,
        &scratch.values.value,
        state,
        &mut scratch.pad,
    )?;
    if u32::from(count).saturating_sub(1).saturating_sub(records) < calls {
        return Err(Halt::at(Refusal::NoFreeSlot, number));
    }
    puncture(
        device,
        count,
        &found,
        number,
        &scratch.row,
        marks,
        &mut scratch.slot,
    )?;
    Ok((length, calls))
}

// Redeems, and leaves the buffers to be cleared.
fn redeem_in<D: WriteSlots, G: Generator, S: Sealer>(
    device: &mut D,
    generator: &G,
    sealer: &S,
    ticket: &[u8],
    state: &mut [u8],
    marks: &mut [u8],
    scratch: &mut Scratch,
) -> Result<(usize, u32), Halt>
    ensures { Redeems (kit_of (G.Generator.meaning generator.now) (S.Sealer.meaning sealer.now)) tree_levels (D.ReadSlots.state device.old) ticket.now (length state.old) (length marks.old) result (kept result (length state.old) state.new) (D.ReadSlots.state device.new) }
{
    let count = admit(device, MAX_RECORD, state.len(), marks.len())?;
    let (ticket, survey) = read_for(device, generator, sealer, ticket, marks, &mut scratch.slot)?;
    spend(
        device, generator, sealer, count, &survey, &ticket, state, marks, scratch,
    )
}

/// Redeems a ticket: punctures the tree at its number, and only then gives its state, at the start of the buffer and with
/// zeros after it. Answers how long the state is and how often the generator was called. A refused call leaves zeros in the
/// buffer, and every call leaves zeros in the marks and the scratch. For the server alone: it works on a bare device.
pub fn redeem_on<D: WriteSlots, G: Generator, S: Sealer>(
    device: &mut D,
    generator: &G,
    sealer: &S,
    ticket: &[u8],
    state: &mut [u8],
    marks: &mut [u8],
    scratch: &mut Scratch,
) -> Result<(usize, u32), Halt>
    ensures did { Redeems (kit_of (G.Generator.meaning generator.now) (S.Sealer.meaning sealer.now)) tree_levels (D.ReadSlots.state device.old) ticket.now (length state.old) (length marks.old) result state.new (D.ReadSlots.state device.new) }
    ensures marks { marks.new ≡ zeros (length marks.old) }
    ensures clean { Clean scratch.new }
{
    let answer = redeem_in(device, generator, sealer, ticket, state, marks, scratch);
    keep(&answer, state);
    clear(marks);
    scratch.wipe();
    answer
}
