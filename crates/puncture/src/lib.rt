//! The writes of a redemption: the siblings on the way down to a number take the place of the record that covered it.
//!
//! New records go to free slots first; the join, one write, brings them in and takes the old record off; then its slot is zeroed.
#![tactic(auto)]

ghost use Rattle.std.specs.Prelude.{◌≡◌, ℕ, ◌^◌, ◌<◌, ◌≤◌, List, length, get_or};
ghost use Rattle.device.specs.Effects.{blank};
ghost use Rattle.tree.specs.Nodes.{tree_levels, max_levels, root_node};
ghost use Rattle.chain.specs.Reading.{Link, Sound};
ghost use Rattle.calls.specs.Kits.{Kit};
ghost use Rattle.puncture.specs.Laying.{Recording, Recorded};
ghost use Rattle.puncture.specs.Puncturing.{Given, Puncturing, SiblingsBelow, Joins, Punctures};

use chain::Found;
use device::{ReadSlots, SLOT_SIZE, WriteSlots};
use fault::{Halt, Step};
use generator::Value;
use layout::{NodeFields, encode_node, relink};
use marks::first_unmarked;
use octets::Wiped;
use refusal::Refusal;
use steps::{read_at, write_at};
use tree::{LEVELS, Node, ROW, SiblingList};

// Writes a node's record to the first slot without a mark from `from` on, leading on to `next`, and answers its slot.
#[tactic(auto, using(crate::proofs::Open::first_below), unfolding(crate::specs::Laying::Recording))]
fn write_record<D: WriteSlots>(
    device: &mut D,
    count: u16,
    node: &Node,
    value: &Value,
    marks: &[u8],
    from: usize,
    next: u16,
    slot: &mut [u8; SLOT_SIZE],
) -> Result<u16, Halt>
    requires { node.now.first < 2 ^ 16 }
    ensures { Recording (D.ReadSlots.state device.old) count node.now value.now marks.now from next result (D.ReadSlots.state device.new) }
{
    let Some(free) = first_unmarked(marks, from, count as usize) else {
        return Err(Halt::plain(Refusal::NoFreeSlot));
    };
    encode_node(&NodeFields::of(node, next), value, slot);
    let free = free as u16;
    write_at(device, free, slot, Step::NewRecord)?;
    Ok(free)
}

// Writes the nodes' records to slots without a mark, from the last to the first, each leading on to the one written before
// it and the last to `last`, and answers the slot of the first.
// `count` is the device's own, handed on as making does.
// Nodes and values are two lists: the values are key material and stay in the lent scratch.
#[tactic(auto, using(crate::proofs::Laid::underway))]
fn write_records<D: WriteSlots>(
    device: &mut D,
    count: u16,
    nodes: &[Node],
    row: &[Value; ROW],
    marks: &[u8],
    last: u16,
    slot: &mut [u8; SLOT_SIZE],
) -> Result<u16, Halt>
    requires { (length nodes.now ≤ max_levels) × (((j : ℕ) → j < length nodes.now → (get_or nodes.now j root_node).first < 2 ^ 16)) }
    ensures { Recorded (D.ReadSlots.state device.old) count nodes.now row.now marks.now last result (D.ReadSlots.state device.new) }
{
    let values = &row[..nodes.len()];
    let mut next = last;
    let mut from = 1;
    for (node, value) in nodes.iter().zip(values).rev() {
        next = write_record(device, count, node, value, marks, from, next, slot)?;
        from = next as usize + 1;
    }
    Ok(next)
}

// Lets a record, or the head, lead on to another index.
#[tactic(auto, unfolding(crate::specs::Puncturing::Joins))]
fn join<D: WriteSlots>(
    device: &mut D,
    before: u16,
    first: u16,
    slot: &mut [u8; SLOT_SIZE],
) -> Result<(), Halt>
    ensures { Joins (D.ReadSlots.state device.old) before first result (D.ReadSlots.state device.new) }
{
    read_at(device, before, slot)?;
    relink(slot, first);
    write_at(device, before, slot, Step::Join)
}

// The siblings on the way from a node down to `n`.
#[tactic(auto, using(crate::proofs::Values::fitting))]
fn siblings_below(node: &Node, n: u32) -> Result<SiblingList, Halt>
    ensures { SiblingsBelow tree_levels node.now n result }
{
    node.siblings(LEVELS, n).ok_or(Halt::at(Refusal::Spent, n))
}

// Punctures, and leaves the slot to be wiped.
#[tactic(auto, using(crate::proofs::Done::puncturing))]
fn puncture_in<D: WriteSlots>(
    device: &mut D,
    count: u16,
    found: &Found,
    n: u32,
    row: &[Value; ROW],
    marks: &[u8],
    slot: &mut [u8; SLOT_SIZE],
) -> Result<(), Halt>
    ensures { Punctures tree_levels (D.ReadSlots.state device.old) count found.now n row.now marks.now result (D.ReadSlots.state device.new) }
{
    let siblings = siblings_below(&found.node, n)?;
    let first = write_records(
        device,
        count,
        siblings.as_slice(),
        row,
        marks,
        found.next,
        slot,
    )?;
    join(device, found.before, first, slot)?;
    write_at(device, found.slot, &[0; SLOT_SIZE], Step::Erasure)
}

/// Punctures the tree at `n`, in the place of the record found, which covers it: the records of the siblings, from the last
/// to the first, to the lowest slots without a mark; then the join; then zeros over the record found. `row` holds the
/// siblings' values, and `slot` is lent for key material, zero afterwards.
#[tactic(auto, unfolding(crate::specs::Puncturing::Punctures))]
pub fn puncture<D: WriteSlots>(
    device: &mut D,
    count: u16,
    found: &Found,
    n: u32,
    row: &[Value; ROW],
    marks: &[u8],
    slot: &mut [u8; SLOT_SIZE],
) -> Result<(), Halt>
    ensures did { (k : Kit) (f : Sound) (front : List Link) (x : Link) (back : List Link) → Given k tree_levels (D.ReadSlots.state device.old) count found.now n row.now marks.now f front x back → Puncturing k tree_levels (D.ReadSlots.state device.old).slots f front x back n result (D.ReadSlots.state device.new) }
    ensures clean { slot.new ≡ blank }
{
    let guard = Wiped { pad: slot };
    puncture_in(device, count, found, n, row, marks, guard.pad)
}
