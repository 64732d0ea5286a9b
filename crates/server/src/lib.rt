//! The ticket server: make a tree, issue and redeem its tickets, close and reopen it.
//!
//! A server owns its device, generator and sealer, and is cold or running. Only a running one issues and redeems,
//! and a call that meets a power cut gives a cold one back, so going on without reopening does not compile.
//! What each call does stands in crate `calls`, the law over the pasts of a tree in crate `law`.
#![tactic(auto)]

ghost use Rattle.std.specs.Prelude.{◌≡◌, length};
ghost use Rattle.octets.specs.Buffers.{zeros};
ghost use Rattle.scratch.specs.Clean.{Clean};
ghost use Rattle.tree.specs.Nodes.{tree_levels};
ghost use Rattle.chain.specs.Outcome.{reading_of};
ghost use Rattle.calls.specs.Kits.{kit_of, numbers_in};
ghost use Rattle.looking.specs.Looks.{look_of};
ghost use Rattle.looking.specs.Chains.{chain_from, ListsChain};
ghost use Rattle.looking.specs.Left.{Lent, records_left};
ghost use Rattle.server.specs.Serving.{MakeCall, IssueCall, RedeemCall, CloseCall, ReopenCall, cold_of, running_of, started_by, answered_by};

mod parts;

use calls::numbers_of;
use device::{ReadSlots, SLOT_SIZE, WriteSlots};
use fault::{Fault, Halt};
use generator::{Generator, Value};
use looking::{Look, Records, look_on};
use refusal::Refusal;
use scratch::Scratch;
use sealer::Sealer;
use ticket::NAME;

/// A server that has to be made or reopened first.
pub struct Cold<D, G, S> {
    device: D,
    generator: G,
    sealer: S,
}

/// A server that issues and redeems.
pub struct Running<D, G, S> {
    device: D,
    generator: G,
    sealer: S,
}

/// What issue and redeem answer: a running server with two numbers (the length of what was written, the generator
/// calls made) or with the fault, or a cold server after want of power.
// Three cases, not a `Result`: a cold server comes only with want of power, and the type says so. The two numbers stay a pair:
// they are of two types, and are taken apart where they come.
pub enum Answered<D, G, S> {
    Done(Running<D, G, S>, (usize, u32)),
    Refused(Running<D, G, S>, Fault),
    Cut(Cold<D, G, S>, Fault),
}

// `running` and `cold` are the same but for the types: with one type and a mark in it the fields would move in the same way, and
// every name be longer.
impl<D, G, S> Cold<D, G, S> {
    // The same parts, running.
    fn running(self) -> Running<D, G, S>
        ensures { result ≡ running_of self }
    {
        let Cold {
            device,
            generator,
            sealer,
        } = self;
        Running {
            device,
            generator,
            sealer,
        }
    }

    // Hands a server back that was to be made or reopened: running, or cold still with the fault. No `map` with a `map_err`: both
    // would take the server.
    fn started(self, answer: Result<(), Fault>) -> Result<Running<D, G, S>, (Cold<D, G, S>, Fault)>
        ensures { result ≡ started_by self answer }
    {
        match answer {
            Ok(()) => Ok(self.running()),
            Err(fault) => Err((self, fault)),
        }
    }
}

impl<D, G, S> Running<D, G, S> {
    // The same parts, cold.
    fn cold(self) -> Cold<D, G, S>
        ensures { result ≡ cold_of self }
    {
        let Running {
            device,
            generator,
            sealer,
        } = self;
        Cold {
            device,
            generator,
            sealer,
        }
    }

    // Hands a running server back: cold after want of power, else running.
    fn answered(self, answer: Result<(usize, u32), Fault>) -> Answered<D, G, S>
        ensures { result ≡ answered_by self answer }
    {
        match answer {
            Ok(numbers) => Answered::Done(self, numbers),
            Err(fault) if fault.refusal == Refusal::NoPower => Answered::Cut(self.cold(), fault),
            Err(fault) => Answered::Refused(self, fault),
        }
    }
}

impl<D: WriteSlots, G: Generator, S: Sealer> Cold<D, G, S> {
    /// Puts a server together.
    pub fn new(device: D, generator: G, sealer: S) -> Cold<D, G, S>
        ensures { (result.device ≡ device) × ((result.generator ≡ generator) × (result.sealer ≡ sealer)) }
    {
        Cold {
            device,
            generator,
            sealer,
        }
    }

    /// Takes a server apart.
    pub fn into_parts(self) -> (D, G, S)
        ensures { (result.0 ≡ self.device) × ((result.1 ≡ self.generator) × (result.2 ≡ self.sealer)) }
    {
        let Cold {
            device,
            generator,
            sealer,
        } = self;
        (device, generator, sealer)
    }

    /// Makes a tree of a root value under a key name: whatever the device held is gone.
    #[tactic(auto, using(crate::proofs::Goes::make_serves, calls::proofs::Kits::lawful_by))]
    pub fn make(
        mut self,
        root: &Value,
        name: &[u8; NAME],
        scratch: &mut Scratch,
    ) -> Result<Running<D, G, S>, (Cold<D, G, S>, Fault)>
        ensures did { MakeCall D.state (kit_of (G.meaning self.generator) (S.meaning self.sealer)) self root.now name.now result }
        ensures clean { Clean scratch.new }
    {
        let made = parts::make(
            &mut self.device,
            &self.generator,
            &self.sealer,
            root,
            name,
            scratch,
        );
        self.started(made)
    }

    /// Reopens a tree: reads its file, and puts zeros into every free slot.
    #[tactic(auto, using(crate::proofs::Goes::reopen_serves, calls::proofs::Kits::lawful_by))]
    pub fn reopen(
        mut self,
        marks: &mut [u8],
        scratch: &mut Scratch,
    ) -> Result<Running<D, G, S>, (Cold<D, G, S>, Fault)>
        ensures did { ReopenCall D.state (kit_of (G.meaning self.generator) (S.meaning self.sealer)) self (length marks.old) result }
        ensures marks { marks.new ≡ zeros (length marks.old) }
        ensures clean { Clean scratch.new }
    {
        let reopened = parts::reopen(
            &mut self.device,
            &self.generator,
            &self.sealer,
            marks,
            scratch,
        );
        self.started(reopened)
    }
}

impl<D: WriteSlots, G: Generator, S: Sealer> Running<D, G, S> {
    /// Closes the server; nothing is written.
    pub fn close(self) -> Cold<D, G, S>
        ensures { CloseCall D.state (kit_of (G.meaning self.generator) (S.meaning self.sealer)) self result }
    {
        self.cold()
    }

    /// Issues the next number's ticket for a state record.
    #[tactic(auto, using(crate::proofs::Goes::issue_serves, calls::proofs::Kits::lawful_by))]
    pub fn issue(
        mut self,
        record: &[u8],
        ticket: &mut [u8],
        marks: &mut [u8],
        scratch: &mut Scratch,
    ) -> Answered<D, G, S>
        ensures did { IssueCall D.state (kit_of (G.meaning self.generator) (S.meaning self.sealer)) self «record».now (length ticket.old) (length marks.old) ticket.new result }
        ensures marks { marks.new ≡ zeros (length marks.old) }
        ensures clean { Clean scratch.new }
    {
        let issued = parts::issue(
            &mut self.device,
            &self.generator,
            &self.sealer,
            record,
            ticket,
            marks,
            scratch,
        );
        self.answered(issued)
    }

    /// Redeems a ticket: its number is spent, and its state given, at most once.
    #[tactic(auto, using(crate::proofs::Goes::redeem_serves, calls::proofs::Kits::lawful_by))]
    pub fn redeem(
        mut self,
        ticket: &[u8],
        state: &mut [u8],
        marks: &mut [u8],
        scratch: &mut Scratch,
    ) -> Answered<D, G, S>
        ensures did { RedeemCall D.state (kit_of (G.meaning self.generator) (S.meaning self.sealer)) self ticket.now (length state.old) (length marks.old) state.new result }
        ensures marks { marks.new ≡ zeros (length marks.old) }
        ensures clean { Clean scratch.new }
    {
        let redeemed = parts::redeem(
            &mut self.device,
            &self.generator,
            &self.sealer,
            ticket,
            state,
            marks,
            scratch,
        );
        self.answered(redeemed)
    }
}

impl<D: ReadSlots, G: Generator, S: Sealer> Running<D, G, S> {
    /// Looks at the key file: its head, and how many records and free slots it has; or the refusal of reading it. Nothing is
    /// altered.
    pub fn look(&self, marks: &mut [u8], scratch: &mut Scratch) -> Result<Look, Halt>
        ensures is { result ≡ look_of (D.state self.now.device).slots (reading_of tree_levels (numbers_in (kit_of (G.meaning self.now.generator) (S.meaning self.now.sealer))) (length marks.old) (D.state self.now.device)) }
        ensures marks { marks.new ≡ zeros (length marks.old) }
        ensures clean { Clean scratch.new }
    {
        let numbers = numbers_of(&self.generator, &self.sealer);
        let looked = look_on(&self.device, numbers, marks, &mut scratch.slot);
        scratch.wipe();
        looked
    }

    /// The records of the chain that a look told of, in order, each with its slot and without its value. `bytes` is lent for
    /// key material, and zero before and after each record and at the end.
    pub fn records<'a>(&'a self, look: &Look, bytes: &'a mut [u8; SLOT_SIZE]) -> Records<'a, D>
        ensures is { records_left D.state result ≡ chain_from tree_levels (D.state self.now.device) look.now.head.first look.now.records }
        ensures lent { Lent bytes.entry result }
        ensures chain { ListsChain }
    {
        Records::new(&self.device, look.head.first, look.records, bytes)
    }
}
