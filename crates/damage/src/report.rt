//! What is printed of each call, and what is counted over all.
use crate::cases::Refused;
use device::DeviceFault;
use fault::{Fault, Layer};
use refusal::Refusal;
use samples::{Bytes, Show, add};

// How many refusals there are.
const KINDS: usize = 16;

/// What a call answers: where it writes, the length of that and the generator calls.
pub(crate) type Answer = Result<Option<(usize, u32)>, Fault>;

/// What a call leaves behind.
#[derive(Clone, Copy)]
pub(crate) struct Left {
    /// whether every buffer lent for writing holds zeros
    pub(crate) clean: bool,
    /// whether every slot is as it was
    pub(crate) same: bool,
}

/// What a call came to.
#[derive(Clone, Copy)]
pub(crate) struct Outcome {
    pub(crate) answer: Answer,
    /// what the lent buffer holds
    pub(crate) given: Bytes,
    pub(crate) left: Left,
}

/// Where the calls are shown, and what all of them came to.
#[derive(Drop)]
pub(crate) struct Report<'a> {
    pub(crate) show: Show<'a>,
    // whether each refusal came, at its number modulo 16; no set: it would want an allocator for sixteen flags
    seen: [bool; KINDS],
    refused: u32,
    clean: u32,
    same: u32,
    // refusals with the power gone
    dark: u32,
}

impl<'a> Report<'a> {
    pub(crate) fn new(rt: &'a HostRuntime) -> Report<'a> {
        Report {
            show: Show::new(rt),
            seen: [false; KINDS],
            refused: 0,
            clean: 0,
            same: 0,
            dark: 0,
        }
    }

    // Judges what a refusal left, and counts it where it is shown.
    fn note(&mut self, shown: bool, refusal: Refusal, left: Left) {
        let Left { clean, same } = left;
        let dark = refusal == Refusal::NoPower;
        if shown {
            self.seen[u8::from(refusal) as usize % KINDS] = true;
            add(&mut self.refused, 1);
            add(&mut self.clean, clean as u32);
            add(&mut self.dark, dark as u32);
            add(&mut self.same, (same && !dark) as u32);
        }
        self.show.expect(clean, "a lent buffer is not zero");
        self.show.expect(same || dark, "a slot has changed");
    }

    // Shows a refusal with its place.
    fn show_refusal(&mut self, what: &str, fault: &Fault) {
        let Fault {
            refusal,
            call,
            layer,
            place,
            step,
        } = *fault;
        let number = u8::from(refusal);
        print!(self.show; "  {what}: refusal {number}, call {call}, layer {layer}, place {place}");
        match step {
            Some(step) => println!(self.show; ", step {step}"),
            None => self.show.println(""),
        }
    }

    // Shows a call that is done, by what it wrote.
    fn show_done(&mut self, what: &str, numbers: Option<(usize, u32)>) {
        match numbers {
            None => println!(self.show; "  {what}: true"),
            Some((length, calls)) => println!(self.show;
                "  {what}: done, {length} bytes by {calls} generator calls"
            ),
        }
    }

    /// Judges a call, which has to be refused as is told, or to be done. Shows it where it has a name.
    pub(crate) fn tell(&mut self, what: &str, outcome: &Outcome, wanted: Option<Refused>) {
        let shown = !what.is_empty();
        let told = outcome
            .answer
            .err()
            .map(|fault| (fault.refusal, fault.place));
        match outcome.answer {
            Err(fault) => {
                if shown {
                    self.show_refusal(what, &fault);
                }
                self.note(shown, fault.refusal, outcome.left);
            }
            Ok(numbers) => {
                if shown {
                    self.show_done(what, numbers);
                }
            }
        }
        self.show
            .expect(told == wanted, "a call does not end as it should");
    }

    /// Shows what a device of 18 slots answers on an index that it does not have.
    pub(crate) fn outside(&mut self, what: &str, answer: Result<(), DeviceFault>, left: Left) {
        let Err(fault) = answer else {
            self.show
                .expect(false, "a slot is there that should not be");
            return;
        };
        let refusal = Refusal::from(fault);
        let number = u8::from(refusal);
        let layer = Layer::from(refusal);
        println!(self.show;
            "  slot 18 of 18 slots, {what}: refusal {number}, no call, layer {layer}, place 18"
        );
        self.note(true, refusal, left);
    }

    /// Shows the counts over all calls.
    pub(crate) fn sum_up(&mut self) {
        let kinds = self.seen.iter().filter(|seen| **seen).count();
        let refused = self.refused;
        println!(self.show; "In all: {refused} refusals, {kinds} of the {KINDS} kinds");
        println!(self.show;
            "  lent buffers zero afterwards: {} of {refused}",
            self.clean
        );
        println!(self.show;
            "  power lost: {}; else every slot as it was: {}",
            self.dark, self.same
        );
        self.show
            .expect(kinds == KINDS, "a kind of refusal has not come");
    }
}
