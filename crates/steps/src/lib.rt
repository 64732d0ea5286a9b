//! The steps of a call on a device: to read a slot, to write one, to restart.
//!
//! A device tells only that it has no such slot or no power. The slot and the step are added here and nowhere else; the
//! call and the layer are added by the server.
#![tactic(auto)]

ghost use Rattle.std.specs.Prelude.{◌≡◌};
ghost use Rattle.steps.specs.OneStep.{halt_of, write_of, Fetched, Stepped, Restarted};

use device::{DeviceFault, ReadSlots, SLOT_SIZE, WriteSlots};
use fault::{Halt, Step};

// What stops a call where the device declines a step at a slot. No From: it takes the slot and the step too.
fn halted(fault: DeviceFault, slot: u16, step: Step) -> Halt
    ensures { result ≡ halt_of fault slot step }
{
    Halt {
        step: (fault == DeviceFault::NoPower).then_some(step),
        ..Halt::at(fault.into(), u32::from(slot))
    }
}

/// Reads a slot; zeros where the read is declined.
pub fn read_at<D: ReadSlots>(device: &D, slot: u16, bytes: &mut [u8; SLOT_SIZE]) -> Result<(), Halt>
    ensures { Fetched (D.state device.now) slot result bytes.new }
{
    device
        .read(usize::from(slot), bytes)
        .map_err(|fault| halted(fault, slot, Step::Read))
}

/// Writes a slot in a step of a call.
pub fn write_at<D: WriteSlots>(
    device: &mut D,
    slot: u16,
    bytes: &[u8; SLOT_SIZE],
    step: Step,
) -> Result<(), Halt>
    ensures { Stepped (D.state device.old) (write_of slot bytes.now step) result (D.state device.new) }
{
    device
        .write(usize::from(slot), bytes)
        .map_err(|fault| halted(fault, slot, step))
}

/// Restarts the device as the first step of a call.
pub fn restart<D: WriteSlots>(device: &mut D) -> Result<(), Halt>
    ensures { Restarted (D.state device.old) result (D.state device.new) }
{
    device
        .restart()
        .map_err(|fault| halted(fault, 0, Step::Restart))
}
