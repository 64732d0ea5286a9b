//! The scenario: a tree is made, three tickets are issued, number 1 is redeemed, the server is closed and reopened, and
//! number 2 is redeemed. It ends at the power cut, if one is met, and what was seen until then is kept.
use chachaseal::ChaChaSealer;
use device::WriteSlots;
use fault::{Call, Fault, Step};
use generators::ChaChaGenerator;
use refusal::Refusal;
use samples::{Bytes, KEY_NAME, ROOM, ROOT, add, session_record};
use scratch::Scratch;
use server::{Cold, Running};
use serving::{opened, split};

/// How many numbers are issued: the lowest ones.
pub(crate) const NUMBERS: usize = 3;

/// Marks for as many slots as any of the devices has.
pub(crate) const MARKS: usize = 24;

/// A running server of the scenario.
pub(crate) type Up<D> = Running<D, ChaChaGenerator, ChaChaSealer>;

/// A cold server of the scenario.
pub(crate) type Down<D> = Cold<D, ChaChaGenerator, ChaChaSealer>;

/// What was seen of a number.
#[derive(Clone, Copy)]
pub(crate) struct Number {
    /// its ticket, once it is given
    pub(crate) ticket: Option<Bytes>,
    /// how often its own state was given
    pub(crate) opened: u32,
    /// whether it is spent for certain
    pub(crate) spent: bool,
}

/// The numbers that are issued, from number 0 on.
pub(crate) type Tickets = [Number; NUMBERS];

/// What was seen from outside up to the cut.
#[derive(Clone, Copy)]
pub(crate) struct Story {
    /// the call that the power cut met
    pub(crate) cut: Option<Call>,
    pub(crate) made: bool,
    pub(crate) numbers: Tickets,
    /// the number whose join was cut: spent or not
    pub(crate) doubt: Option<usize>,
    /// how often the chain was found to be the cover of the spent numbers, with zeros in every slot off it
    pub(crate) clean: u32,
    /// an answer came that never should
    pub(crate) wrong: bool,
}

impl Story {
    /// Nothing seen yet.
    pub(crate) fn new() -> Story {
        let unseen = Number {
            ticket: None,
            opened: 0,
            spent: false,
        };
        Story {
            cut: None,
            made: false,
            numbers: [unseen; NUMBERS],
            doubt: None,
            clean: 0,
            wrong: false,
        }
    }

    /// How many tickets were given.
    pub(crate) fn given(&self) -> usize {
        self.numbers
            .iter()
            .filter(|number| number.ticket.is_some())
            .count()
    }

    // A call ended without the answer that it should have: only for want of power.
    fn stopped(&mut self, fault: Fault) {
        if fault.refusal == Refusal::NoPower {
            self.cut = Some(fault.call);
        } else {
            self.wrong = true;
        }
    }

    // Numbers are taken by the remainder, here and below: to the check a number is any number.
    // A state came out: it has to be the number's own, and the first.
    fn yielded(&mut self, n: usize, state: &Bytes) {
        let number = &mut self.numbers[n % NUMBERS];
        let first = !number.spent && number.opened == 0;
        add(&mut number.opened, 1);
        number.spent = true;
        if !first || *state != record(n) {
            self.wrong = true;
        }
    }

    // No state came out. After a cut, what was being done tells what has become of the number; else it has to be spent.
    fn declined(&mut self, n: usize, fault: Fault) {
        match fault.step {
            Some(Step::NewRecord) => self.stopped(fault),
            Some(Step::Join) => {
                self.doubt = Some(n);
                self.stopped(fault);
            }
            Some(Step::Erasure) => {
                self.numbers[n % NUMBERS].spent = true;
                self.stopped(fault);
            }
            Some(_) => self.wrong = true,
            None => {
                let told = fault.refusal == Refusal::Spent && fault.place as usize == n;
                if !told || !self.numbers[n % NUMBERS].spent {
                    self.wrong = true;
                }
            }
        }
    }
}

// The state record of the session that has a number's ticket.
fn record(n: usize) -> Bytes {
    session_record(b"game", (n % NUMBERS) as u8)
}

fn make<D: WriteSlots>(server: Down<D>, story: &mut Story) -> Result<Up<D>, Down<D>> {
    let (server, fault) = opened(server.make(&ROOT, &KEY_NAME, &mut Scratch::new()));
    match fault {
        None => story.made = true,
        Some(fault) => story.stopped(fault),
    }
    server
}

// Issues the ticket of a number.
fn issue<D: WriteSlots>(server: Up<D>, n: usize, story: &mut Story) -> Result<Up<D>, Down<D>> {
    let own = record(n);
    let mut row = [0; ROOM];
    let mut marks = [0; MARKS];
    let (server, answer) = split(server.issue(
        own.part(),
        &mut row,
        &mut marks,
        &mut Scratch::new(),
    ));
    match answer {
        Ok((length, _)) => story.numbers[n % NUMBERS].ticket = Some(Bytes { row, length }),
        Err(fault) => story.stopped(fault),
    }
    server
}

/// Redeems a number's ticket, and notes what comes of it.
pub(crate) fn redeem<D: WriteSlots>(
    server: Up<D>,
    n: usize,
    story: &mut Story,
) -> Result<Up<D>, Down<D>> {
    let Some(ticket) = story.numbers[n % NUMBERS].ticket else {
        story.wrong = true;
        return Ok(server);
    };
    let mut row = [0; ROOM];
    let mut marks = [0; MARKS];
    let (server, answer) = split(server.redeem(
        ticket.part(),
        &mut row,
        &mut marks,
        &mut Scratch::new(),
    ));
    match answer {
        Ok((length, _)) => story.yielded(n, &Bytes { row, length }),
        Err(fault) => story.declined(n, fault),
    }
    server
}

/// Reopens a server, and tells why where it is declined.
pub(crate) fn reopen<D: WriteSlots>(server: Down<D>) -> (Result<Up<D>, Down<D>>, Option<Fault>) {
    opened(server.reopen(&mut [0; MARKS], &mut Scratch::new()))
}

fn close_and_reopen<D: WriteSlots>(server: Up<D>, story: &mut Story) -> Result<Up<D>, Down<D>> {
    let (server, fault) = reopen(server.close());
    if let Some(fault) = fault {
        story.stopped(fault);
    }
    server
}

/// Runs the scenario.
pub(crate) fn play<D: WriteSlots>(server: Down<D>, story: &mut Story) -> Result<Up<D>, Down<D>> {
    let mut server = make(server, story)?;
    for n in 0..NUMBERS {
        server = issue(server, n, story)?;
    }
    let server = redeem(server, 1, story)?;
    let server = close_and_reopen(server, story)?;
    redeem(server, 2, story)
}
