//! Slot devices: rows of 64-byte slots that outlast a power cut.
//!
//! A device means the row of its slots and whether its power is on. What each call does to these
//! stands in specs/Effects.antt; every device, at the bottom or a layer above another, is proved to do just that.
#![tactic(auto)]

ghost use Rattle.std.specs.Prelude.{◌≡◌, ℕ, ◌<◌, [], length, slice_index_or};
ghost use Rattle.device.specs.Effects.{State, Reading, Writing, Restarting, Tearing, slot_size, blank};
ghost use Rattle.device.specs.Refusals.{refusal_of};

use refusal::Refusal;

/// The bytes of a slot.
pub const SLOT_SIZE: usize = 64;

/// A slot of zeros.
pub fn blank_slot() -> [u8; SLOT_SIZE]
    ensures zeros { result ≡ blank }
    ensures size { SLOT_SIZE ≡ slot_size }
{
    [0; SLOT_SIZE]
}

/// Why a device declines a call.
#[derive(Clone, Copy, PartialEq, Eq, Debug)]
pub enum DeviceFault {
    /// the index is not below the number of slots
    NoSuchSlot,
    /// the power is off, or failed during the call
    NoPower,
}

impl From<DeviceFault> for Refusal {
    ghost from_gives = { λ fault r. r ≡ refusal_of fault };

    fn from(fault: DeviceFault) -> Refusal {
        match fault {
            DeviceFault::NoSuchSlot => Refusal::NoSuchSlot,
            DeviceFault::NoPower => Refusal::NoPower,
        }
    }
}

/// A device that can be read.
pub trait ReadSlots {
    ghost state: { Self → State };

    /// Each slot has its bytes.
    ghost sized: { (d : Self) (k : ℕ) → k < length (state d).slots → length (slice_index_or (state d).slots k []) ≡ slot_size };

    /// The number of slots.
    fn count(&self) -> usize
        ensures { result ≡ length (state self.now).slots };

    /// Copies a slot; zeros where it is declined.
    fn read(&self, index: usize, out: &mut [u8; SLOT_SIZE]) -> Result<(), DeviceFault>
        ensures { Reading (state self.now) index result out.new };
}

// WriteSlots and TearSlots differ in one relation, and stay two traits: the project asks for whole writes by the type. `restart`, alike
// in both, stands in each: a trait for it would be one more impl for every device.

/// A device whose writes are whole: a cut leaves a slot old or new.
pub trait WriteSlots: ReadSlots {
    fn write(&mut self, index: usize, bytes: &[u8; SLOT_SIZE]) -> Result<(), DeviceFault>
        ensures { Writing (Self.ReadSlots.state self.old) index bytes.now result (Self.ReadSlots.state self.new) };

    fn restart(&mut self) -> Result<(), DeviceFault>
        ensures { Restarting (Self.ReadSlots.state self.old) result (Self.ReadSlots.state self.new) };
}

/// A device whose writes can tear: a cut leaves the first bytes of a slot new and the others old.
pub trait TearSlots: ReadSlots {
    fn write(&mut self, index: usize, bytes: &[u8; SLOT_SIZE]) -> Result<(), DeviceFault>
        ensures { Tearing (Self.ReadSlots.state self.old) index bytes.now result (Self.ReadSlots.state self.new) };

    fn restart(&mut self) -> Result<(), DeviceFault>
        ensures { Restarting (Self.ReadSlots.state self.old) result (Self.ReadSlots.state self.new) };
}
