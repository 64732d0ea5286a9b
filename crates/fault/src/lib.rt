//! What a declined call tells: the refusal, the call, the layer and the place.
#![tactic(auto)]

ghost use Rattle.std.specs.Prelude.{◌≡◌, Some};
ghost use Rattle.fault.specs.Faults.{layer_of, fault_of, plainly, placed, unpowered};
ghost use Rattle.fault.specs.Words.{call_words, layer_words, step_words, fault_words};

use refusal::Refusal;
use std::fmt;

/// The calls that can be declined.
#[derive(Clone, Copy, PartialEq, Eq, Debug)]
pub enum Call {
    Make,
    Issue,
    Redeem,
    Reopen,
}

/// The layer that declined.
#[derive(Clone, Copy, PartialEq, Eq, Debug)]
pub enum Layer {
    Server,
    Chain,
    Device,
}

/// What a call was doing when the power failed.
#[derive(Clone, Copy, PartialEq, Eq, Debug)]
pub enum Step {
    /// any write of making
    Make,
    /// reading the head or a record
    Read,
    /// writing the head with one more number issued
    Head,
    /// writing a record to a free slot
    NewRecord,
    /// the one write that takes a record off the chain
    Join,
    /// zeroing the slot of the record taken off
    Erasure,
    /// zeroing a free slot on reopening
    Sweep,
    /// restarting the device
    Restart,
}

/// What stopped a call, before the call's name is added: the refusal, a slot or a number, and for want of power the step.
#[derive(Clone, Copy, PartialEq, Eq, Debug)]
pub struct Halt {
    pub refusal: Refusal,
    // no Option, as in `Fault`
    pub place: u32,
    pub step: Option<Step>,
}

/// Why a call was declined.
// The fields of a `Halt`, and no `Halt` inside: a fault is read by its parts.
#[derive(Clone, Copy, PartialEq, Eq, Debug)]
pub struct Fault {
    pub refusal: Refusal,
    pub call: Call,
    pub layer: Layer,
    /// the slot or the ticket number that the refusal speaks of, else 0
    // no Option: the refusal says which it is, a slot or a number of which 0 is one, or nothing
    pub place: u32,
    /// for want of power: what was being done
    pub step: Option<Step>,
}

/// The layer that a refusal comes from.
impl From<Refusal> for Layer {
    ghost from_gives = { λ refusal layer. layer ≡ layer_of refusal };

    fn from(refusal: Refusal) -> Layer {
        match refusal {
            Refusal::BadHead | Refusal::BadLink | Refusal::Uncovered => Layer::Chain,
            Refusal::NoPower | Refusal::NoSuchSlot => Layer::Device,
            _ => Layer::Server,
        }
    }
}

impl Halt {
    /// Stopped by a refusal that speaks of no slot and no number.
    pub fn plain(refusal: Refusal) -> Halt
        ensures { result ≡ plainly refusal }
    {
        Halt {
            refusal,
            place: 0,
            step: None,
        }
    }

    /// Stopped by a refusal that speaks of a slot or a ticket number.
    pub fn at(refusal: Refusal, place: u32) -> Halt
        ensures { result ≡ placed refusal place }
    {
        Halt {
            place,
            ..Halt::plain(refusal)
        }
    }

    /// Stopped by want of power at a slot, in a step.
    pub fn unpowered(slot: u32, step: Step) -> Halt
        ensures { result ≡ unpowered slot step }
    {
        Halt {
            step: Some(step),
            ..Halt::at(Refusal::NoPower, slot)
        }
    }

    /// The fault that this is in a call.
    pub fn during(self, call: Call) -> Fault
        ensures { result ≡ fault_of call self }
    {
        Fault {
            refusal: self.refusal,
            call,
            layer: Layer::from(self.refusal),
            place: self.place,
            step: self.step,
        }
    }
}

impl fmt::Display for Call {
    ghost output = { λ c. Some (call_words c) };

    fn fmt<W: fmt::Write>(&self, f: &mut fmt::Formatter<W>) -> fmt::Result {
        f.write_str(match self {
            Call::Make => "make",
            Call::Issue => "issue",
            Call::Redeem => "redeem",
            Call::Reopen => "reopen",
        })
    }
}

impl fmt::Display for Layer {
    ghost output = { λ l. Some (layer_words l) };

    fn fmt<W: fmt::Write>(&self, f: &mut fmt::Formatter<W>) -> fmt::Result {
        f.write_str(match self {
            Layer::Server => "server",
            Layer::Chain => "chain",
            Layer::Device => "device",
        })
    }
}

impl fmt::Display for Step {
    ghost output = { λ a. Some (step_words a) };

    fn fmt<W: fmt::Write>(&self, f: &mut fmt::Formatter<W>) -> fmt::Result {
        f.write_str(match self {
            Step::Make => "make",
            Step::Read => "read",
            Step::Head => "head",
            Step::NewRecord => "new record",
            Step::Join => "join",
            Step::Erasure => "erasure",
            Step::Sweep => "sweep",
            Step::Restart => "restart",
        })
    }
}

/// One sentence that names all that the fault carries.
impl fmt::Display for Fault {
    ghost output = { λ t. Some (fault_words t) };

    fn fmt<W: fmt::Write>(&self, f: &mut fmt::Formatter<W>) -> fmt::Result {
        let Fault {
            refusal,
            call,
            layer,
            place,
            step,
        } = *self;
        let number = u8::from(refusal);
        match step {
            Some(step) => write!(
                f,
                "{call} met a power cut: refusal {number} ({refusal}), layer {layer}, step {step}, slot {place}"
            ),
            None => write!(
                f,
                "{call} is refused: refusal {number} ({refusal}), layer {layer}, place {place}"
            ),
        }
    }
}
