//! Reopening a tree, over a device lent for the call.
//!
//! This is the inside of crate `server`: `reopen_on` works on a bare device and does not know a cold server from a running
//! one. Go through `Cold::reopen`.
#![tactic(auto)]

ghost use Rattle.std.specs.Prelude.{◌≡◌, ◌<◌, ◌≤◌, true, List, [], length, slice_index_or};
ghost use Rattle.octets.specs.Buffers.{zeros};
ghost use Rattle.device.specs.Effects.{blank};
ghost use Rattle.tree.specs.Nodes.{tree_levels};
ghost use Rattle.marks.specs.Rows.{room_of, is_marked};
ghost use Rattle.steps.specs.OneStep.{Powered};
ghost use Rattle.steps.specs.Writes.{Wrote};
ghost use Rattle.chain.specs.Reading.{Link};
ghost use Rattle.chain.specs.Listing.{marked_all};
ghost use Rattle.calls.specs.Files.{sweep_writes};
ghost use Rattle.calls.specs.Kits.{Kit, numbers_in};
ghost use Rattle.calls.specs.Calls.{Reopening};
ghost use Rattle.reopening.specs.Sweeps.{sweep_at, Reopens, GoesOn};

use calls::admit;
use chain::read_marking;
use device::{SLOT_SIZE, WriteSlots};
use fault::{Halt, Step};
use layout::Numbers;
use marks::is_marked;
use octets::{Wiped, clear, is_blank};
use steps::{read_at, restart, write_at};

// Zeros to a slot that is not marked and not zero.
// The early answers stay: they say that there is nothing to write, and hand no Result on.
#[tactic(auto, using(crate::proofs::Swept::one))]
fn sweep_slot<D: WriteSlots>(
    device: &mut D,
    index: u16,
    marks: &[u8],
    slot: &mut [u8; SLOT_SIZE],
) -> Result<(), Halt>
    requires { (index < length (D.state device.old).slots) × ((D.state device.old).power ≡ true) }
    ensures { Wrote (D.state device.old).slots (sweep_at (is_marked marks.now index) index (slice_index_or (D.state device.old).slots index [])) result (D.state device.new) }
{
    if is_marked(marks, index as usize) {
        return Ok(());
    }
    read_at(device, index, slot)?;
    if is_blank(slot) {
        return Ok(());
    }
    write_at(device, index, &[0; SLOT_SIZE], Step::Sweep)
}

// Zeros to every slot that is neither the head's nor marked and that is not zero. The loop is over indices, and `count` stays
// beside `device`, as in making.
#[tactic(auto, using(crate::proofs::Swept::sweeping))]
fn sweep<D: WriteSlots>(
    device: &mut D,
    count: u16,
    marks: &[u8],
    slot: &mut [u8; SLOT_SIZE],
) -> Result<(), Halt>
    requires { Powered (D.state device.old) count }
    ensures { (xs : List Link) → marks.now ≡ marked_all (zeros (length marks.now)) xs → room_of count ≤ length marks.now → Wrote (D.state device.old).slots (sweep_writes (D.state device.old).slots xs) result (D.state device.new) }
{
    for i in 1..count {
        sweep_slot(device, i, marks, slot)?;
    }
    Ok(())
}

// Reads the file and sweeps the slots beside its chain, on a device that was restarted.
#[tactic(auto, using(crate::proofs::Reopened::going))]
fn read_and_sweep<D: WriteSlots>(
    device: &mut D,
    count: u16,
    numbers: Numbers,
    marks: &mut [u8],
    slot: &mut [u8; SLOT_SIZE],
) -> Result<(), Halt>
    requires { Powered (D.state device.old) count }
    ensures { GoesOn tree_levels (D.state device.old) numbers (length marks.old) result (D.state device.new) }
{
    read_marking(device, numbers, None, marks, slot)?;
    sweep(device, count, marks, slot)
}

// Restarts the device, reads its file and sweeps.
#[tactic(auto, using(crate::proofs::Reopened::reopening))]
fn restart_and_sweep<D: WriteSlots>(
    device: &mut D,
    numbers: Numbers,
    marks: &mut [u8],
    slot: &mut [u8; SLOT_SIZE],
) -> Result<(), Halt>
    ensures { (k : Kit) → numbers_in k ≡ numbers → Reopens k tree_levels (D.state device.old) (length marks.old) result (D.state device.new) }
{
    let count = admit(device, 0, 0, marks.len())?;
    restart(device)?;
    read_and_sweep(device, count, numbers, marks, slot)
}

/// Reopens the tree on a device: restarts it, reads its file, and clears the free slots that hold anything but zeros.
/// The marks and the lent slot hold zeros afterwards. For the server alone: it works on a bare device.
#[tactic(auto, unfolding(crate::specs::Sweeps::Reopens))]
pub fn reopen_on<D: WriteSlots>(
    device: &mut D,
    numbers: Numbers,
    marks: &mut [u8],
    slot: &mut [u8; SLOT_SIZE],
) -> Result<(), Halt>
    ensures did { (k : Kit) → numbers_in k ≡ numbers → Reopening k tree_levels (D.state device.old) (length marks.old) result (D.state device.new) }
    ensures marks { marks.new ≡ zeros (length marks.old) }
    ensures clean { slot.new ≡ blank }
{
    let guard = Wiped { pad: slot };
    let done = restart_and_sweep(device, numbers, marks, guard.pad);
    clear(marks);
    done
}
