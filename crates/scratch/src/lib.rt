//! Scratch for key material, lent to the calls of a server by their caller: all zero after every call.
//!
//! It is lent and not local, since a compiler may leave out the wiping of a local that nobody reads again.
#![tactic(auto)]

ghost use Rattle.std.specs.Prelude.{◌≡◌};
ghost use Rattle.scratch.specs.Clean.{Clean};

use generator::{VALUE_SIZE, Value, Values};
use tree::ROW;

// The bytes of a slot; a pad has as many. No constant of crate device: scratch stands on no device.
const SLOT: usize = 64;

// Clean is a clause of each call and no invariant: inside a call the fields hold key material, and functions are lent them so.
#[derive(Drop)]
pub struct Scratch {
    /// a slot that is read or written
    pub slot: [u8; SLOT],
    /// the sealer's pad
    pub pad: [u8; SLOT],
    /// a node's value, and then a number's key, with the two children's values on the way down
    pub values: Values,
    /// the values of the siblings on the way down
    pub row: [Value; ROW],
}

impl Scratch {
    /// Clean scratch.
    pub fn new() -> Scratch
        ensures { Clean result }
    {
        Scratch {
            slot: [0; SLOT],
            pad: [0; SLOT],
            values: Values::new(),
            row: [[0; VALUE_SIZE]; ROW],
        }
    }

    /// Puts zeros everywhere.
    pub fn wipe(&mut self)
        ensures { Clean self.new }
    {
        *self = Scratch::new();
    }
}
