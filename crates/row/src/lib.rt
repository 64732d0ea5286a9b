//! What the devices at the bottom share: slots that lie side by side in a lent row of bytes, and a power cut by appointment.
#![tactic(auto)]

ghost use Rattle.std.specs.Prelude.{◌≡◌, ◌+◌, ◌*◌, ◌<◌, ◌≤◌, true, length, take, drop, MatchResult};
ghost use Rattle.device.specs.Effects.{Reading, Declined, slot_size};
ghost use Rattle.row.specs.Rows.{slots_in, state_by, fresh, placed};
ghost use Rattle.row.specs.Appointed.{due, later, appointed, answer_of, Counting, Restarted};

use device::{DeviceFault, SLOT_SIZE, blank_slot};
use std::marker::Model;

/// An appointed power cut: `after` more writes are done, and the one that follows is cut, with `standing` of its bytes in place.
#[derive(Clone, Copy, PartialEq, Eq, Debug)]
pub struct Cut {
    pub after: usize,
    pub standing: usize,
}

/// A lent row of bytes, its power, and the cut that is appointed.
#[derive(Drop)]
pub struct Bottom<'a> {
    row: &'a mut [u8],
    power: bool,
    cut: Option<Cut>,
}

impl<'a> Model for Bottom<'a> {
    ghost use Rattle.row.specs.Rows.{Row};

    ghost Value = { Row };

    ghost view = { λ a. record { row = a.row.now; power = a.power; cut = a.cut } };
}

impl<'a> Bottom<'a> {
    /// Over a lent row, with its power on and no cut appointed.
    pub fn new(row: &'a mut [u8]) -> Bottom<'a>
        ensures { result ≡ fresh row.old }
    {
        Bottom {
            row,
            power: true,
            cut: None,
        }
    }

    /// Appoints a cut, in the place of an earlier appointment.
    pub fn appoint(&mut self, cut: Cut)
        ensures { self.new ≡ appointed cut self.old }
    {
        self.cut = Some(cut);
    }

    /// How many bytes the row has.
    pub fn size(&self) -> usize
        ensures { result ≡ length self.now.row }
    {
        self.row.len()
    }

    /// Copies what stands from a slot on.
    pub fn get(&self, index: usize, out: &mut [u8])
        requires { index * slot_size + length out.old ≤ length self.now.row }
        ensures { out.new ≡ take (length out.old) (drop (index * slot_size) self.now.row) }
    {
        let row = &*self.row;
        let at = index * SLOT_SIZE;
        out.copy_from_slice(&row[at..at + out.len()]);
    }

    /// Puts bytes in place from a slot on.
    pub fn put(&mut self, index: usize, bytes: &[u8])
        requires { index * slot_size + length bytes.now ≤ length self.old.row }
        ensures { self.new ≡ placed index bytes.now self.old }
    {
        let row = &mut *self.row;
        let at = index * SLOT_SIZE;
        row[at..at + bytes.len()].copy_from_slice(bytes);
    }

    // Declines a call at a slot of `many`: the index first, then the power.
    #[tactic(auto, using(crate::proofs::Rows::many))]
    fn admit(&self, many: usize, index: usize) -> Result<(), DeviceFault>
        ensures { MatchResult result (λ _. (index < many) × (self.now.power ≡ true)) (λ e. Declined (state_by (slots_in slot_size many) self.now) index e) }
    {
        if index >= many {
            return Err(DeviceFault::NoSuchSlot);
        }
        if !self.power {
            return Err(DeviceFault::NoPower);
        }
        Ok(())
    }

    /// Reads a slot of `many`.
    #[tactic(auto, using(crate::proofs::Rows::slots))]
    pub fn read(
        &self,
        many: usize,
        index: usize,
        out: &mut [u8; SLOT_SIZE],
    ) -> Result<(), DeviceFault>
        requires { many * slot_size ≤ length self.now.row }
        ensures { Reading (state_by (slots_in slot_size many) self.now) index result out.new }
    {
        *out = blank_slot();
        self.admit(many, index)?;
        self.get(index, out);
        Ok(())
    }

    /// Begins a write to a slot of `many`, unless it is declined: counts it against the appointment. None where it is whole, else how many
    /// of its bytes are to stand; a write that is cut takes the power.
    #[tactic(auto, using(crate::proofs::Rows::many))]
    pub fn begin_write(&mut self, many: usize, index: usize) -> Result<Option<usize>, DeviceFault>
        ensures { Counting many self.old index result self.new }
    {
        self.admit(many, index)?;
        let cut = strike(&mut self.cut);
        self.power = cut.is_none();
        Ok(cut)
    }

    /// Switches the power on.
    pub fn restart(&mut self) -> Result<(), DeviceFault>
        ensures { Restarted self.old result self.new }
    {
        self.power = true;
        Ok(())
    }
}

/// Counts one write against an appointment. Answers the bytes that stand where this write is the one to cut; the appointment is
/// then gone.
pub fn strike(cut: &mut Option<Cut>) -> Option<usize>
    ensures answer { result ≡ due cut.old }
    ensures rest { cut.new ≡ later cut.old }
{
    let Cut { after, standing } = cut.take()?;
    if after == 0 {
        return Some(standing);
    }
    *cut = Some(Cut {
        after: after - 1,
        standing,
    });
    None
}

// The devices begin, put and answer in their own `write`, and no function here does all three: one that is handed what to put would be
// no plainer, since a sector image puts its bytes by way of a buffer of its own. They hand new, appoint, read and restart on by a line
// each: three types, since the type says which slots there are and what may tear. `many` comes with each call: it is the device's rule,
// and a row would hold what it gives already.

/// What a write answers that was begun and has its bytes in place.
pub fn answer(cut: Option<usize>) -> Result<(), DeviceFault>
    ensures { result ≡ answer_of cut }
{
    match cut {
        None => Ok(()),
        Some(_) => Err(DeviceFault::NoPower),
    }
}
