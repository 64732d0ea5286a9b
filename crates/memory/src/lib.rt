//! A device in memory, over a lent row of bytes, whose writes are whole. Its power is cut only by appointment.
#![tactic(auto)]

ghost use Rattle.std.specs.Prelude.{◌≡◌};
ghost use Rattle.device.specs.Effects.{Writing, Restarting};
ghost use Rattle.row.specs.Rows.{Row, slots_of, state_by, fresh};
ghost use Rattle.row.specs.Appointed.{appointed, Struck, Restarted};
ghost use Rattle.row.proofs.Rows.{sized_row};
ghost use Rattle.memory.specs.Whole.{wholly};

use device::{DeviceFault, ReadSlots, SLOT_SIZE, WriteSlots};
use row::{Bottom, Cut, answer};
use std::marker::Model;

/// Slot i is the bytes from 64 i on; bytes past the last whole slot are unused.
#[derive(Drop)]
pub struct Memory<'a> {
    base: Bottom<'a>,
}

impl<'a> Model for Memory<'a> {
    ghost Value = { Row };

    ghost view = { λ a. a.base };
}

impl<'a> Memory<'a> {
    /// A memory over a lent row, with its power on and no cut appointed.
    pub fn new(row: &'a mut [u8]) -> Memory<'a>
        ensures { result ≡ fresh row.old }
    {
        Memory {
            base: Bottom::new(row),
        }
    }

    /// Appoints a cut, in the place of an earlier appointment. The write that is cut leaves its slot old where no byte is to stand, else
    /// new.
    pub fn appoint(&mut self, cut: Cut)
        ensures { self.new ≡ appointed cut self.old }
    {
        self.base.appoint(cut);
    }
}

impl<'a> ReadSlots for Memory<'a> {
    ghost state = { state_by slots_of };

    ghost sized = { λ s k h. sized_row s.row k h };

    #[tactic(auto, using(row::proofs::Rows::many))]
    fn count(&self) -> usize {
        self.base.size() / SLOT_SIZE
    }

    #[tactic(auto, using(row::proofs::Rows::slots))]
    fn read(&self, index: usize, out: &mut [u8; SLOT_SIZE]) -> Result<(), DeviceFault> {
        self.base.read(self.count(), index, out)
    }
}

// How many bytes of a slot stand: none of them or all.
fn kept(standing: usize) -> usize
    ensures { result ≡ wholly standing }
{
    if standing == 0 { 0 } else { SLOT_SIZE }
}

impl<'a> WriteSlots for Memory<'a> {
    #[tactic(auto, using(row::proofs::Rows::many, crate::proofs::Wholes::writes))]
    fn write(&mut self, index: usize, bytes: &[u8; SLOT_SIZE]) -> Result<(), DeviceFault>
        ensures meaning { Writing (state_by slots_of self.old) index bytes.now result (state_by slots_of self.new) }
        ensures exact { Struck wholly slots_of self.old index bytes.now result self.new }
    {
        let many = self.count();
        let cut = self.base.begin_write(many, index)?;
        self.base.put(index, &bytes[..cut.map_or(SLOT_SIZE, kept)]);
        answer(cut)
    }

    fn restart(&mut self) -> Result<(), DeviceFault>
        ensures meaning { Restarting (state_by slots_of self.old) result (state_by slots_of self.new) }
        ensures exact { Restarted self.old result self.new }
    {
        self.base.restart()
    }
}
