//! Making a tree, over a device lent for the call.
//!
//! This is the inside of crate `server`: `make_on` works on a bare device and does not know a cold server from a running
//! one. Go through `Cold::make`.
#![tactic(auto)]

ghost use Rattle.std.specs.Prelude.{◌≡◌, ◌≤◌, Bool};
ghost use Rattle.device.specs.Effects.{blank};
ghost use Rattle.tree.specs.Nodes.{tree_levels};
ghost use Rattle.steps.specs.OneStep.{Powered};
ghost use Rattle.steps.specs.Writes.{Wrote};
ghost use Rattle.calls.specs.Files.{blank_writes, tree_writes};
ghost use Rattle.calls.specs.Kits.{Kit, numbers_in};
ghost use Rattle.calls.specs.Calls.{Making};
ghost use Rattle.making.specs.Parts.{Makes};

use calls::slot_count;
use device::{SLOT_SIZE, WriteSlots};
use fault::{Halt, Step};
use generator::Value;
use layout::{Head, NodeFields, Numbers, encode_head, encode_node};
use octets::Wiped;
use steps::{restart, write_at};
use ticket::NAME;
use tree::LEVELS;

// Zeros to every slot. The loop is over indices, since the index is what a write is given.
// `count` stays beside `device`: in a struct with it each clause would name the device through the struct, and the struct would be
// made once, for two private functions.
#[tactic(auto, using(crate::proofs::Blanks::blanking))]
fn blank_all<D: WriteSlots>(device: &mut D, count: u16) -> Result<(), Halt>
    requires { Powered (D.state device.old) count }
    ensures { Wrote (D.state device.old).slots (blank_writes 0 count) result (D.state device.new) }
{
    for i in 0..count {
        write_at(device, i, &[0; SLOT_SIZE], Step::Make)?;
    }
    Ok(())
}

// Lays a fresh tree out: zeros to every slot, the root's record, then the head.
#[tactic(auto, using(crate::proofs::Laid::laying))]
fn lay_tree<D: WriteSlots>(
    device: &mut D,
    count: u16,
    root: &Value,
    head: &Head,
    slot: &mut [u8; SLOT_SIZE],
) -> Result<(), Halt>
    requires { Powered (D.state device.old) count × (2 ≤ count) }
    ensures { Wrote (D.state device.old).slots (tree_writes tree_levels (D.state device.old).slots root.now head.now) result (D.state device.new) }
{
    blank_all(device, count)?;
    encode_node(
        &NodeFields {
            depth: 0,
            first: 0,
            next: 0,
        },
        root,
        slot,
    );
    write_at(device, 1, slot, Step::Make)?;
    encode_head(LEVELS, head, slot);
    write_at(device, 0, slot, Step::Make)
}

// Makes a tree, and leaves the slot to be wiped.
#[tactic(auto, using(crate::proofs::Made::making))]
fn make_in<D: WriteSlots>(
    device: &mut D,
    root: &Value,
    name: &[u8; NAME],
    numbers: Numbers,
    slot: &mut [u8; SLOT_SIZE],
) -> Result<(), Halt>
    ensures { (k : Kit) → numbers_in k ≡ numbers → Makes k tree_levels (D.state device.old) root.now name.now result (D.state device.new) }
{
    let count = slot_count(device)?;
    restart(device)?;
    let head = Head {
        first: 1,
        issued: 0,
        name: *name,
        numbers,
    };
    lay_tree(device, count, root, &head, slot)
}

/// Makes a tree of a root value under a key name. For the server alone: it works on a bare device.
#[tactic(auto, unfolding(crate::specs::Parts::Makes))]
pub fn make_on<D: WriteSlots>(
    device: &mut D,
    root: &Value,
    name: &[u8; NAME],
    numbers: Numbers,
    slot: &mut [u8; SLOT_SIZE],
) -> Result<(), Halt>
    ensures did { (k : Kit) → numbers_in k ≡ numbers → (headed : Bool) × Making k tree_levels (D.state device.old) root.now name.now result (D.state device.new) headed }
    ensures clean { slot.new ≡ blank }
{
    let guard = Wiped { pad: slot };
    make_in(device, root, name, numbers, guard.pad)
}
