//! A device over a lent row of bytes that writes whole sectors of eight slots, and whose writes can tear. Its power is cut only by
//! appointment.
#![tactic(auto)]

ghost use Rattle.std.specs.Prelude.{◌≡◌, ◌*◌, ◌/◌, ◌<◌, ◌≤◌, length, replicate, refl};
ghost use Rattle.device.specs.Effects.{Tearing, Restarting, slot_size};
ghost use Rattle.row.specs.Rows.{Row, state_by, fresh, placed};
ghost use Rattle.row.specs.Appointed.{appointed, Struck, Restarted, partly};
ghost use Rattle.row.proofs.Rows.{sized_parts};
ghost use Rattle.sectors.specs.Sectors.{slots_by_sector, sector_size, sector_slots};

use device::{DeviceFault, ReadSlots, SLOT_SIZE, TearSlots};
use row::{Bottom, Cut, answer};
use std::marker::Model;

/// The bytes of a sector.
pub const SECTOR_SIZE: usize = 512;

/// The slots of a sector.
pub const SECTOR_SLOTS: usize = 8;

/// Slot i is the bytes from 64 i on, in sector i / 8; a broken last sector is unused. A write reads its sector into a buffer, changes
/// the slot there and writes the sector back whole; the buffer holds zeros again after it.
#[derive(Drop)]
pub struct SectorImage<'a> {
    base: Bottom<'a>,
    sector: [u8; SECTOR_SIZE],
}

impl<'a> Model for SectorImage<'a> {
    ghost Value = { Row };

    ghost view = { λ a. a.base };

    ghost invariant = { λ a. a.sector ≡ replicate sector_size 0 };
}

impl<'a> SectorImage<'a> {
    /// An image over a lent row, with its power on and no cut appointed.
    pub fn new(row: &'a mut [u8]) -> SectorImage<'a>
        ensures { result ≡ fresh row.old }
    {
        SectorImage {
            base: Bottom::new(row),
            sector: [0; SECTOR_SIZE],
        }
    }

    /// Appoints a cut, in the place of an earlier appointment. The write that is cut leaves as many bytes of its slot new as are to
    /// stand, or all where that is more.
    pub fn appoint(&mut self, cut: Cut)
        ensures { self.new ≡ appointed cut self.old }
    {
        self.base.appoint(cut);
    }

    // Puts the first bytes of a slot in place, by way of its whole sector.
    fn store(&mut self, index: usize, bytes: &[u8])
        requires { (index < length self.old.row / sector_size * sector_slots) × (length bytes.now ≤ slot_size) }
        ensures { self.new ≡ placed index bytes.now self.old }
    {
        let first = index / SECTOR_SLOTS * SECTOR_SLOTS;
        let at = index % SECTOR_SLOTS * SLOT_SIZE;
        self.base.get(first, &mut self.sector);
        self.sector[at..at + bytes.len()].copy_from_slice(bytes);
        self.base.put(first, &self.sector);
        self.sector = [0; SECTOR_SIZE];
    }
}

impl<'a> ReadSlots for SectorImage<'a> {
    ghost state = { state_by slots_by_sector };

    ghost sized = { λ s k h. sized_parts sector_size sector_slots s.row refl k h };

    #[tactic(auto, using(row::proofs::Rows::many))]
    fn count(&self) -> usize {
        self.base.size() / SECTOR_SIZE * SECTOR_SLOTS
    }

    #[tactic(auto, using(row::proofs::Rows::slots))]
    fn read(&self, index: usize, out: &mut [u8; SLOT_SIZE]) -> Result<(), DeviceFault> {
        self.base.read(self.count(), index, out)
    }
}

impl<'a> TearSlots for SectorImage<'a> {
    #[tactic(auto, using(row::proofs::Rows::many, crate::proofs::Sectors::writes))]
    fn write(&mut self, index: usize, bytes: &[u8; SLOT_SIZE]) -> Result<(), DeviceFault>
        ensures meaning { Tearing (state_by slots_by_sector self.old) index bytes.now result (state_by slots_by_sector self.new) }
        ensures exact { Struck partly slots_by_sector self.old index bytes.now result self.new }
    {
        let many = self.count();
        let cut = self.base.begin_write(many, index)?;
        let kept = cut.unwrap_or(SLOT_SIZE).min(SLOT_SIZE);
        self.store(index, &bytes[..kept]);
        answer(cut)
    }

    fn restart(&mut self) -> Result<(), DeviceFault>
        ensures meaning { Restarting (state_by slots_by_sector self.old) result (state_by slots_by_sector self.new) }
        ensures exact { Restarted self.old result self.new }
    {
        self.base.restart()
    }
}
