//! The rules of the calls: what each does on every input (specs/Calls.antt), the book and the pasts of a tree; and what
//! several calls begin with.
#![tactic(auto)]

ghost use Rattle.std.specs.Prelude.{◌≡◌, length};
ghost use Rattle.tree.specs.Nodes.{tree_levels};
ghost use Rattle.calls.specs.Kits.{kit_of, numbers_in};
ghost use Rattle.calls.specs.Calls.{min_slots, max_slots, Fitting, Admitted, kept};

use device::ReadSlots;
use fault::Halt;
use generator::Generator;
use layout::Numbers;
use octets::clear;
use refusal::Refusal;
use sealer::Sealer;
use tree::LEVELS;

/// The fewest slots that a device may have: the head, the root's record, and room for a puncture.
pub const MIN_SLOTS: usize = LEVELS as usize + 2;

/// The most slots that a device may have.
pub const MAX_SLOTS: usize = 1024;

/// The slots that a device may have.
pub fn limits_stand()
    ensures least { MIN_SLOTS ≡ min_slots tree_levels }
    ensures most { MAX_SLOTS ≡ max_slots }
{}

/// The numbers by which a key file names a generator and a sealer.
pub fn numbers_of<G: Generator, S: Sealer>(generator: &G, sealer: &S) -> Numbers
    ensures { result ≡ numbers_in (kit_of (G.meaning generator.now) (S.meaning sealer.now)) }
{
    Numbers {
        generator: generator.number(),
        sealer: sealer.number(),
    }
}

/// The number of slots, where a tree fits a device of so many.
pub fn slot_count<D: ReadSlots>(device: &D) -> Result<u16, Halt>
    ensures { Fitting tree_levels (D.state device.now).slots result }
{
    let count = device.count();
    if !(MIN_SLOTS..=MAX_SLOTS).contains(&count) {
        return Err(Halt::plain(Refusal::SlotCount));
    }
    Ok(count as u16)
}

/// The beginning of a call: the number of slots, where a buffer of `room` bytes has the `least` that it needs, so many
/// bytes of marks serve for the slots, and a tree fits the device.
pub fn admit<D: ReadSlots>(device: &D, least: usize, room: usize, marks: usize) -> Result<u16, Halt>
    ensures { Admitted tree_levels (D.state device.now).slots least room marks result }
{
    if room < least || marks < marks::room(device.count()) {
        return Err(Halt::plain(Refusal::ShortBuffer));
    }
    slot_count(device)
}

/// The end of a call that gives bytes: where it was stopped, the buffer lent for them is cleared.
pub fn keep(answer: &Result<(usize, u32), Halt>, out: &mut [u8])
    ensures { out.new ≡ kept answer.now (length out.old) out.old }
{
    if answer.is_err() {
        clear(out);
    }
}
