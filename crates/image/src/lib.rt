//! A device over a lent row of bytes whose writes can tear. Its power is cut only by appointment.
#![tactic(auto)]

ghost use Rattle.std.specs.Prelude.{◌≡◌};
ghost use Rattle.device.specs.Effects.{Tearing, Restarting};
ghost use Rattle.row.specs.Rows.{Row, slots_of, state_by, fresh};
ghost use Rattle.row.specs.Appointed.{appointed, Struck, Restarted, partly};
ghost use Rattle.row.proofs.Rows.{sized_row};

use device::{DeviceFault, ReadSlots, SLOT_SIZE, TearSlots};
use row::{Bottom, Cut, answer};
use std::marker::Model;

/// Slot i is the bytes from 64 i on; bytes past the last whole slot are unused.
#[derive(Drop)]
pub struct ByteImage<'a> {
    base: Bottom<'a>,
}

impl<'a> Model for ByteImage<'a> {
    ghost Value = { Row };

    ghost view = { λ a. a.base };
}

impl<'a> ByteImage<'a> {
    /// An image over a lent row, with its power on and no cut appointed.
    pub fn new(row: &'a mut [u8]) -> ByteImage<'a>
        ensures { result ≡ fresh row.old }
    {
        ByteImage {
            base: Bottom::new(row),
        }
    }

    /// Appoints a cut, in the place of an earlier appointment. The write that is cut leaves as many bytes of its slot new as are to
    /// stand, or all where that is more.
    pub fn appoint(&mut self, cut: Cut)
        ensures { self.new ≡ appointed cut self.old }
    {
        self.base.appoint(cut);
    }
}

impl<'a> ReadSlots for ByteImage<'a> {
    ghost state = { state_by slots_of };

    ghost sized = { λ s k h. sized_row s.row k h };

    #[tactic(auto, using(row::proofs::Rows::many))]
    fn count(&self) -> usize {
        self.base.size() / SLOT_SIZE
    }

    #[tactic(auto, using(row::proofs::Rows::slots))]
    fn read(&self, index: usize, out: &mut [u8; SLOT_SIZE]) -> Result<(), DeviceFault> {
        self.base.read(self.count(), index, out)
    }
}

impl<'a> TearSlots for ByteImage<'a> {
    #[tactic(auto, using(row::proofs::Rows::many, crate::proofs::Tears::writes))]
    fn write(&mut self, index: usize, bytes: &[u8; SLOT_SIZE]) -> Result<(), DeviceFault>
        ensures meaning { Tearing (state_by slots_of self.old) index bytes.now result (state_by slots_of self.new) }
        ensures exact { Struck partly slots_of self.old index bytes.now result self.new }
    {
        let many = self.count();
        let cut = self.base.begin_write(many, index)?;
        let kept = cut.unwrap_or(SLOT_SIZE).min(SLOT_SIZE);
        self.base.put(index, &bytes[..kept]);
        answer(cut)
    }

    fn restart(&mut self) -> Result<(), DeviceFault>
        ensures meaning { Restarting (state_by slots_of self.old) result (state_by slots_of self.new) }
        ensures exact { Restarted self.old result self.new }
    {
        self.base.restart()
    }
}
