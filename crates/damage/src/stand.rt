//! A server's sound file with its tickets, and the calls that are made on it.
use crate::report::{Answer, Left, Outcome, Report};
use beds::{Base, Bed, Medium};
use device::WriteSlots;
use fault::{Call, Fault};
use generator::Generator;
use octets::same_bytes;
use row::Cut;
use samples::{Bytes, KEY_NAME, ROOM, ROOT, all_are, session_record};
use scratch::Scratch;
use sealer::Sealer;
use server::{Answered, Cold, Running};
use serving::{Held, device_of, opened, split};
use tickets::{TOP, key_from, ticket_of};

/// The fewest slots that a tree fits on.
pub(crate) const SLOTS: usize = 18;

/// The row of a journal of so many slots. The file lies in it from `FILE` on, where a memory device takes it too.
pub(crate) const ROW: usize = 1280;

pub(crate) const FILE: usize = 128;

/// How many tickets are issued. Number 0 is redeemed again.
const ISSUED: usize = 5;

// The most marks that are lent here.
const MARKS: usize = 1025;

// Like that of cuts, with a place in the row and no tears: as one, each would carry the other's columns.
/// A device that a file lies on: its kind, and the bytes that it takes of a row.
#[derive(Clone, Copy)]
pub(crate) struct Ground {
    pub(crate) base: Base,
    pub(crate) from: usize,
    pub(crate) bytes: usize,
}

/// The file on a memory device.
pub(crate) const MEMORY: Ground = Ground {
    base: Base::Whole,
    from: FILE,
    bytes: ROW - FILE,
};

/// The file on a journal over a byte image.
pub(crate) const JOURNAL: Ground = Ground {
    base: Base::Journaled(Medium::Bytes),
    from: 0,
    bytes: ROW,
};

impl Ground {
    pub(crate) fn lay<'a>(self, row: &'a mut [u8], cut: Option<Cut>) -> Bed<'a> {
        let from = self.from.min(row.len());
        let (_, rest) = row.split_at_mut(from);
        let bytes = self.bytes.min(rest.len());
        self.base.lay(&mut rest[..bytes], cut)
    }
}

/// A call: what is sent, and how many bytes are lent for the answer and for marks.
#[derive(Clone, Copy)]
pub(crate) struct Asked {
    pub(crate) call: Call,
    pub(crate) sent: Bytes,
    pub(crate) room: usize,
    pub(crate) marks: usize,
}

impl Asked {
    /// With as many bytes lent as are needed.
    pub(crate) fn new(call: Call, sent: Bytes) -> Asked {
        let (room, marks) = match call {
            Call::Make => (0, 0),
            Call::Reopen => (0, SLOTS),
            Call::Issue => (139, SLOTS),
            Call::Redeem => (87, SLOTS),
        };
        Asked {
            call,
            sent,
            room,
            marks,
        }
    }
}

/// A generator and a sealer, a sound file of theirs, and the tickets issued from it.
#[derive(Clone, Copy)]
pub(crate) struct Stand<G, S> {
    pub(crate) g: G,
    pub(crate) s: S,
    pub(crate) file: [u8; ROW],
    pub(crate) tickets: [Bytes; ISSUED],
}

/// The record of guest k's session.
pub(crate) fn record(k: usize) -> Bytes {
    session_record(b"a guest", (k % 256) as u8)
}

// What making or reopening answers: neither writes anything.
fn begun<D, G, S>(
    answer: Result<Running<D, G, S>, (Cold<D, G, S>, Fault)>,
) -> (Held<D, G, S>, Answer) {
    let (server, fault) = opened(answer);
    (server, fault.map_or(Ok(None), Err))
}

// What a call answers that is made on a server once it is reopened.
fn served<D, G, S, F: FnOnce(Running<D, G, S>) -> Answered<D, G, S>>(
    reopened: Result<Running<D, G, S>, (Cold<D, G, S>, Fault)>,
    call: F,
) -> (Held<D, G, S>, Answer)
    requires { F.IsAlwaysCallable call }
{
    match reopened {
        Ok(server) => {
            let (server, answer) = split(call(server));
            (server, answer.map(Some))
        }
        Err((cold, fault)) => (Err(cold), Err(fault)),
    }
}

impl<G: Generator + Copy, S: Sealer + Copy> Stand<G, S> {
    // Makes a call on a cold server.
    fn answer<D: WriteSlots>(
        &self,
        device: D,
        asked: &Asked,
        room: &mut [u8],
        marks: &mut [u8],
        scratch: &mut Scratch,
    ) -> (Held<D, G, S>, Answer) {
        let cold = Cold::new(device, self.g, self.s);
        let sent = asked.sent.part();
        match asked.call {
            Call::Make => begun(cold.make(&ROOT, &KEY_NAME, scratch)),
            Call::Reopen => begun(cold.reopen(marks, scratch)),
            Call::Issue => served(cold.reopen(&mut [0; SLOTS], scratch), |server| {
                server.issue(sent, room, marks, scratch)
            }),
            Call::Redeem => served(cold.reopen(&mut [0; SLOTS], scratch), |server| {
                server.redeem(sent, room, marks, scratch)
            }),
        }
    }

    /// Makes a call on a row, with a power cut or none. What is lent for writing holds sevens before.
    pub(crate) fn call<const N: usize>(
        &self,
        ground: Ground,
        row: &mut [u8; N],
        cut: Option<Cut>,
        asked: &Asked,
    ) -> Outcome {
        let before = *row;
        let mut out = [7; ROOM];
        let mut marks = [7; MARKS];
        let mut scratch = Scratch::new();
        scratch.slot = [7; 64];
        let room = asked.room.min(ROOM);
        let lent = asked.marks.min(MARKS);
        let (server, answer) = self.answer(
            ground.lay(row, cut),
            asked,
            &mut out[..room],
            &mut marks[..lent],
            &mut scratch,
        );
        drop(device_of(server));
        // no Option: what is given is sent on, and where a call gives nothing no bytes are
        let length = answer.ok().flatten().map_or(0, |(length, _)| length);
        let clean = all_are(&out[..room], 0)
            && all_are(&marks[..lent], 0)
            && all_are(&scratch.slot, 0);
        let same = same_bytes(row, &before);
        Outcome {
            answer,
            given: Bytes { row: out, length },
            left: Left { clean, same },
        }
    }

    // One call of the laying out, which has to be done.
    fn lay(&mut self, report: &mut Report, call: Call, sent: Bytes) -> Bytes {
        let mut row = self.file;
        let asked = Asked::new(call, sent);
        let outcome = self.call(MEMORY, &mut row, None, &asked);
        self.file = row;
        report
            .show
            .expect(outcome.answer.is_ok(), "the file cannot be laid out");
        outcome.given
    }

    /// Makes a tree, issues the first tickets and redeems number 0.
    pub(crate) fn new(report: &mut Report, g: G, s: S) -> Stand<G, S> {
        let generator = g.number();
        let sealer = s.number();
        println!(report.show;
            "A file of {SLOTS} slots, generator {generator}, sealer {sealer}, {ISSUED} numbers issued, number 0 redeemed"
        );
        let mut stand = Stand {
            g,
            s,
            file: [0; ROW],
            tickets: [Bytes::none(); ISSUED],
        };
        let _made = stand.lay(report, Call::Make, Bytes::none());
        let mut tickets = stand.tickets;
        for (k, ticket) in tickets.iter_mut().enumerate() {
            *ticket = stand.lay(report, Call::Issue, record(k));
        }
        let _state = stand.lay(report, Call::Redeem, tickets[0]);
        Stand { tickets, ..stand }
    }

    /// The same file and tickets, with another generator and another sealer.
    pub(crate) fn with<H, T>(&self, g: H, s: T) -> Stand<H, T> {
        Stand {
            g,
            s,
            file: self.file,
            tickets: self.tickets,
        }
    }

    /// A ticket whose heading and seal are right, for any plain; none where the plain is too long, or the number too great.
    pub(crate) fn forge(&self, n: u32, plain: &[u8]) -> Option<Bytes> {
        let (key, _) = key_from(&self.g, &TOP, &ROOT, n)?;
        ticket_of(&self.s, &key, &KEY_NAME, n, plain).ok()
    }
}
