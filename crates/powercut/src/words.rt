//! What is shown, in words: a device's answer, and what a slot holds.
use device::{DeviceFault, SLOT_SIZE};
use refusal::Refusal;
use samples::all_are;
use std::fmt;

/// What every byte of the written slot is and becomes.
pub(crate) const OLD: u8 = 5;

pub(crate) const NEW: u8 = 0xee;

/// What a device answers.
#[derive(Clone, Copy)]
pub(crate) struct Said(pub(crate) Result<(), DeviceFault>);

impl fmt::Display for Said {
    fn fmt<W: fmt::Write>(&self, f: &mut fmt::Formatter<W>) -> fmt::Result {
        match self.0 {
            Ok(()) => f.write_str("done"),
            Err(fault) => Refusal::from(fault).fmt(f),
        }
    }
}

/// What a slot holds.
#[derive(Clone, Copy)]
pub(crate) struct Slot(pub(crate) [u8; SLOT_SIZE]);

impl fmt::Display for Slot {
    fn fmt<W: fmt::Write>(&self, f: &mut fmt::Formatter<W>) -> fmt::Result {
        f.write_str(if all_are(&self.0, OLD) {
            "the old bytes"
        } else if all_are(&self.0, NEW) {
            "the new bytes"
        } else if all_are(&self.0, 0) {
            "zeros"
        } else {
            "something else"
        })
    }
}
