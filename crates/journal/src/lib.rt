//! A device of whole writes over any device whose writes can tear.
//!
//! The lowest two slots below are the mark and the copy, and the journal's own lie after them. The mark's byte 0 is a flag and its
//! bytes 1 and 2 are a target. Where the flag is 1 the copy stands for the target; a write raises the flag only once copy and target
//! are in place, and lowers it once the slot itself is written. A tear of any one of these writes leaves the old slot or the new one.
#![tactic(auto)]

ghost use Rattle.std.specs.Prelude.{◌≡◌, ◌+◌, ◌<◌, ◌≤◌, true, false, length, map, Some, None, MatchOption, MatchResult};
ghost use Rattle.device.specs.Effects.{Writing, Restarting, slot_size, blank};
ghost use Rattle.journal.specs.Layout.{shown, state_shown, max_slots, mark_of, mark_in, pending_in, unused_in};
ghost use Rattle.journal.specs.Ends.{WritingEnds, RestartingEnds};
ghost use Rattle.journal.specs.Sized.{shown_sized};
ghost use Rattle.journal.specs.Writes.{write_of, clear_writes, place_writes, Within, Ran, WritingBelow, RestartingBelow};

use device::{DeviceFault, ReadSlots, SLOT_SIZE, TearSlots, WriteSlots, blank_slot};
use std::marker::Model;

/// The slots that a journal shows at most.
pub const MAX_SLOTS: usize = 1024;

// The places of mark and copy below, and of the journal's first slot.
const MARK: usize = 0;

const COPY: usize = 1;

const FIRST: usize = 2;

// The flag of a mark whose copy stands for its target, and of any other. Bytes and no enum: below may stand any other, and it counts
// as lowered.
const RAISED: u8 = 1;

const LOWERED: u8 = 0;

// A write below: to which slot, and its bytes.
type RawWrite<'a> = (usize, &'a [u8; SLOT_SIZE]);

/// A journal over the device `below`. The pad is for a copy on its way; it holds zeros outside the calls.
#[derive(Drop)]
pub struct Journal<D> {
    below: D,
    pad: [u8; SLOT_SIZE],
}

impl<D> Model for Journal<D> {
    ghost Value = { D };

    ghost view = { λ j. j.below };

    ghost invariant = { λ j. j.pad ≡ blank };
}

impl<D> Journal<D> {
    /// A journal over a device, with what that holds.
    pub fn new(below: D) -> Journal<D>
        ensures { result ≡ below }
    {
        Journal {
            below,
            pad: blank_slot(),
        }
    }

    /// The device below.
    pub fn into_below(self) -> D
        ensures { result ≡ self }
    {
        let Journal { below, pad: _ } = self;
        below
    }
}

// The slot that a mark's copy stands for.
fn target_of(mark: &[u8; SLOT_SIZE]) -> Option<usize>
    ensures { result ≡ pending_in mark.now }
{
    (mark[0] == RAISED).then(|| usize::from(u16::from_be_bytes([mark[1], mark[2]])))
}

// The slot that the copy below stands for.
fn pending<D: ReadSlots>(d: &D) -> Result<Option<usize>, DeviceFault>
    requires { 2 < length (D.state d.now).slots }
    ensures { MatchResult result (λ o. ((D.state d.now).power ≡ true) × (o ≡ pending_in (mark_in (D.state d.now).slots))) (λ e. (e ≡ DeviceFault.NoPower) × ((D.state d.now).power ≡ false)) }
{
    let mut mark = blank_slot();
    d.read(MARK, &mut mark)?;
    Ok(target_of(&mark))
}

// A mark with a flag and a target.
fn mark_with(flag: u8, target: usize) -> [u8; SLOT_SIZE]
    requires { target < max_slots }
    ensures { result ≡ mark_of flag target }
{
    let [high, low] = (target as u16).to_be_bytes();
    let mut mark = blank_slot();
    mark[..3].copy_from_slice(&[flag, high, low]);
    mark
}

// How many slots are shown over a device.
#[tactic(auto, using(crate::proofs::Views::lengths))]
fn shown_count<D: ReadSlots>(d: &D) -> usize
    ensures count { result ≡ length (shown (D.state d.now).slots) }
    ensures bound { (result ≤ max_slots) × ((0 < result → result + 2 ≤ length (D.state d.now).slots)) }
{
    d.count().saturating_sub(FIRST).min(MAX_SLOTS)
}

// Makes writes below in their order, until the power fails at one. That the power is on is asked for, and no type says it: a cut ends it.
#[tactic(auto, using(crate::proofs::Runs::stood_more))]
fn run<D: TearSlots>(d: &mut D, writes: &[RawWrite]) -> Result<(), DeviceFault>
    requires on { (D.ReadSlots.state d.old).power ≡ true }
    requires within { Within (length (D.ReadSlots.state d.old).slots) (map (λ w. write_of w.0 w.1.now) writes.now) }
    ensures { Ran (D.ReadSlots.state d.old).slots (map (λ w. write_of w.0 w.1.now) writes.now) result (D.ReadSlots.state d.new) }
{
    for (slot, bytes) in writes {
        d.write(*slot, bytes)?;
    }
    Ok(())
}

// Puts bytes in a slot by five writes, where no flag is raised.
fn place<D: TearSlots>(d: &mut D, index: usize, bytes: &[u8; SLOT_SIZE]) -> Result<(), DeviceFault>
    requires on { (D.ReadSlots.state d.old).power ≡ true }
    requires within { (index + 2 < length (D.ReadSlots.state d.old).slots) × (index < max_slots) }
    ensures { Ran (D.ReadSlots.state d.old).slots (place_writes index bytes.now) result (D.ReadSlots.state d.new) }
{
    let targeted = mark_with(LOWERED, index);
    let raised = mark_with(RAISED, index);
    let zeros = blank_slot();
    let writes = [
        (COPY, &*bytes),
        (MARK, &targeted),
        (MARK, &raised),
        (index + FIRST, &*bytes),
        (MARK, &zeros),
    ];
    run(d, &writes)
}

impl<D: ReadSlots> ReadSlots for Journal<D> {
    ghost state = { λ d. state_shown (D.state d) };

    ghost sized = { λ d k h. shown_sized slot_size (D.state d).slots (D.sized d) k h };

    fn count(&self) -> usize {
        shown_count(&self.below)
    }

    #[tactic(auto, using(crate::proofs::Readings::reading))]
    fn read(&self, index: usize, out: &mut [u8; SLOT_SIZE]) -> Result<(), DeviceFault> {
        *out = blank_slot();
        if index >= shown_count(&self.below) {
            return Err(DeviceFault::NoSuchSlot);
        }
        if pending(&self.below)? == Some(index) {
            self.below.read(COPY, out)
        } else {
            self.below.read(index + FIRST, out)
        }
    }
}

impl<D: TearSlots> Journal<D> {
    // Clears a raised flag: the copy goes to the slot that it stands for, then zeros to the mark. The copy passes through the pad, and
    // nothing is left there.
    #[tactic(auto, unfolding(crate::specs::Writes::clear_writes_of))]
    fn clear(&mut self, pending: Option<usize>) -> Result<(), DeviceFault>
        requires on { (D.ReadSlots.state self.old).power ≡ true }
        requires pending { pending ≡ pending_in (mark_in (D.ReadSlots.state self.old).slots) }
        requires some { 2 < length (D.ReadSlots.state self.old).slots }
        ensures step { Ran (D.ReadSlots.state self.old).slots (clear_writes (D.ReadSlots.state self.old).slots) result (D.ReadSlots.state self.new) }
    {
        let Some(target) = pending else {
            return Ok(());
        };
        let Journal { below, pad } = self;
        below.read(COPY, pad)?;
        let zeros = blank_slot();
        let done = if target < shown_count(below) {
            run(below, &[(target + FIRST, &*pad), (MARK, &zeros)])
        } else {
            run(below, &[(MARK, &zeros)])
        };
        *pad = blank_slot();
        done
    }

    // A write, and what it does below.
    #[tactic(auto, using(crate::proofs::Runs::steps))]
    fn write_below(&mut self, index: usize, bytes: &[u8; SLOT_SIZE]) -> Result<(), DeviceFault>
        ensures below { WritingBelow (D.ReadSlots.state self.old) index bytes.now result (D.ReadSlots.state self.new) }
    {
        if index >= shown_count(&self.below) {
            return Err(DeviceFault::NoSuchSlot);
        }
        let pending = pending(&self.below)?;
        self.clear(pending)?;
        place(&mut self.below, index, bytes)
    }

    // A restart, and what it does below.
    fn restart_below(&mut self) -> Result<(), DeviceFault>
        ensures below { RestartingBelow (D.ReadSlots.state self.old) result (D.ReadSlots.state self.new) }
    {
        self.below.restart()?;
        if shown_count(&self.below) == 0 {
            return Ok(());
        }
        let pending = pending(&self.below)?;
        self.clear(pending)
    }
}

impl<D: TearSlots> WriteSlots for Journal<D> {
    #[tactic(auto, using(crate::proofs::Wholes::meanings, crate::proofs::Ends::endings))]
    fn write(&mut self, index: usize, bytes: &[u8; SLOT_SIZE]) -> Result<(), DeviceFault>
        ensures meaning { Writing (state_shown (D.ReadSlots.state self.old)) index bytes.now result (state_shown (D.ReadSlots.state self.new)) }
        ensures below { WritingBelow (D.ReadSlots.state self.old) index bytes.now result (D.ReadSlots.state self.new) }
        ensures ends { WritingEnds (D.ReadSlots.state self.old) index bytes.now result (D.ReadSlots.state self.new) }
        ensures unused { unused_in (D.ReadSlots.state self.new).slots ≡ unused_in (D.ReadSlots.state self.old).slots }
    {
        self.write_below(index, bytes)
    }

    #[tactic(auto, using(crate::proofs::Wholes::meanings, crate::proofs::Ends::endings))]
    fn restart(&mut self) -> Result<(), DeviceFault>
        ensures meaning { Restarting (state_shown (D.ReadSlots.state self.old)) result (state_shown (D.ReadSlots.state self.new)) }
        ensures below { RestartingBelow (D.ReadSlots.state self.old) result (D.ReadSlots.state self.new) }
        ensures ends { RestartingEnds (D.ReadSlots.state self.old) result (D.ReadSlots.state self.new) }
        ensures unused { unused_in (D.ReadSlots.state self.new).slots ≡ unused_in (D.ReadSlots.state self.old).slots }
    {
        self.restart_below()
    }
}
