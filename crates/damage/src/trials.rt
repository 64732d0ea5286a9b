//! The cases run on a sound file.
use crate::cases::{COUNTS, CROWDED, EXHAUSTED, FileCase, RECORDS, Refused, SHORT, Step, TICKETS};
use crate::edits::{Edit, edited};
use crate::report::Report;
use crate::stand::{Asked, FILE, Ground, MEMORY, ROW, SLOTS, Stand, record};
use beds::Base;
use device::WriteSlots;
use fault::{Call, Fault};
use generator::Generator;
use octets::same_bytes;
use refusal::Refusal;
use samples::{Bytes, ROOM, change};
use scratch::Scratch;
use sealer::Sealer;
use server::Cold;
use serving::{Held, device_of, opened, split};

// With 1,025 slots, a device has one too many.
const LONGEST: usize = 65600;

impl<G: Generator + Copy, S: Sealer + Copy> Stand<G, S> {
    // What is sent in a call: a record, or the ticket of a number.
    fn sent(&self, call: Call, n: usize) -> Bytes {
        match call {
            Call::Issue => record(n),
            _ => self.tickets[n % self.tickets.len()],
        }
    }

    // Makes a call on a copy of a file, and shows what comes of it.
    fn attempt(
        &self,
        report: &mut Report,
        what: &str,
        file: &[u8; ROW],
        asked: &Asked,
        wanted: Option<Refused>,
    ) {
        let mut row = *file;
        let outcome = self.call(MEMORY, &mut row, None, asked);
        report.tell(what, &outcome, wanted);
    }

    /// Lends too few bytes.
    pub(crate) fn short_buffers(&self, report: &mut Report) {
        report.show.println("Buffers that are too short");
        for (what, call, room, marks) in SHORT {
            let asked = Asked {
                call,
                sent: self.sent(call, 1),
                room,
                marks,
            };
            let wanted = Some((Refusal::ShortBuffer, 0));
            self.attempt(report, what, &self.file, &asked, wanted);
        }
    }

    /// Makes and reopens on devices of too few and too many slots. Their rows hold nines.
    pub(crate) fn slot_counts(&self, report: &mut Report) {
        report.show.println("Devices of too few and too many slots");
        for (what, call, slots, marks) in COUNTS {
            let asked = Asked {
                call,
                sent: Bytes::none(),
                room: 0,
                marks,
            };
            let mut row = [9; LONGEST];
            let ground = Ground {
                base: Base::Whole,
                from: 0,
                bytes: slots.saturating_mul(64),
            };
            let outcome = self.call(ground, &mut row, None, &asked);
            report.tell(what, &outcome, Some((Refusal::SlotCount, 0)));
        }
    }

    /// Issues what is no record.
    pub(crate) fn bad_records(&self, report: &mut Report) {
        report.show.println("Bytes that are no state record");
        for (what, edits) in RECORDS {
            let asked = Asked::new(Call::Issue, edited(&record(5), 0, edits));
            let wanted = Some((Refusal::NotARecord, 0));
            self.attempt(report, what, &self.file, &asked, wanted);
        }
        let what = "the same record undamaged, issue";
        let sound = Asked::new(Call::Issue, record(5));
        self.attempt(report, what, &self.file, &sound, None);
    }

    /// Reopens a file that is refused.
    pub(crate) fn reopen(
        &self,
        report: &mut Report,
        what: &str,
        file: &[u8; ROW],
        refused: Refused,
    ) {
        let asked = Asked::new(Call::Reopen, Bytes::none());
        self.attempt(report, what, file, &asked, Some(refused));
    }

    /// Reopens damaged files.
    pub(crate) fn bad_files(&self, report: &mut Report, cases: &[FileCase]) {
        for (what, changes, refused) in cases {
            let mut row = self.file;
            change(&mut row[FILE..], changes);
            self.reopen(report, what, &row, *refused);
        }
    }

    /// Redeems damaged and forged tickets.
    pub(crate) fn bad_tickets(&self, report: &mut Report) {
        let overhead = self.s.overhead();
        println!(report.show; "Damaged tickets, with a sealer of overhead {overhead}");
        for (what, n, edits, refused) in TICKETS {
            let sent = edited(&self.sent(Call::Redeem, n), overhead, edits);
            self.bad_ticket(report, what, sent, refused);
        }
        self.forged(report, "55 zeros sealed", 1, &[0; 55]);
        let cropped = edited(&record(1), 0, &[Edit::Shorter]);
        self.forged(report, "a cropped record sealed", 3, cropped.part());
    }

    // Redeems a ticket in which something else than a record is sealed.
    fn forged(&self, report: &mut Report, what: &str, n: u32, plain: &[u8]) {
        let Some(ticket) = self.forge(n, plain) else {
            report.show.expect(false, "a ticket is not forged");
            return;
        };
        let refused = (Refusal::OpenedNotARecord, n);
        self.bad_ticket(report, what, ticket, refused);
    }

    // Redeems a ticket that is refused.
    fn bad_ticket(&self, report: &mut Report, what: &str, ticket: Bytes, refused: Refused) {
        let asked = Asked::new(Call::Redeem, ticket);
        self.attempt(report, what, &self.file, &asked, Some(refused));
    }

    // Redeems tickets at one running server, one after the other, and notes what each comes to.
    fn redeem_each<D: WriteSlots>(
        &self,
        server: Held<D, G, S>,
        tickets: &[Bytes; 2],
        state: &mut [u8; ROOM],
        answers: &mut [Option<Result<(usize, u32), Fault>>; 2],
    ) -> Held<D, G, S> {
        let mut scratch = Scratch::new();
        let mut marks = [7; SLOTS];
        let mut server = server?;
        for (ticket, told) in tickets.iter().zip(answers) {
            let (held, answer) = split(server.redeem(
                ticket.part(),
                state,
                &mut marks,
                &mut scratch,
            ));
            *told = Some(answer);
            server = held?;
        }
        Ok(server)
    }

    /// One running server refuses a changed ticket, and then redeems the ticket as it was.
    pub(crate) fn goes_on(&self, report: &mut Report) {
        let good = self.tickets[1];
        let tickets = [edited(&good, 0, &[Edit::Turn(20)]), good];
        let mut row = [0; ROOM];
        let mut answers = [None; 2];
        let mut file = self.file;
        let memory = MEMORY.lay(&mut file, None);
        let server = reopened(Cold::new(memory, self.g, self.s));
        drop(device_of(self.redeem_each(server, &tickets, &mut row, &mut answers)));
        let [first, second] = answers;
        let refused = first.is_some_and(|answer| answer.is_err());
        let Some(Ok((length, calls))) = second else {
            report.show.expect(
                false,
                "the same server does not redeem the ticket as it was",
            );
            return;
        };
        let own = same_bytes(Bytes { row, length }.part(), record(1).part());
        println!(report.show; "  one server, the changed ticket of number 1: refused {refused}");
        println!(report.show;
            "  the same server, the ticket as it was: done, {length} bytes by {calls} generator calls"
        );
        println!(report.show; "  it is the state that was issued: {own}");
        report
            .show
            .expect(refused && own, "the server has not gone on");
    }

    /// Makes calls on one file, one after the other. Answers what the last one gave.
    pub(crate) fn series(
        &self,
        report: &mut Report,
        ground: Ground,
        file: &[u8; ROW],
        steps: &[Step],
    ) -> Bytes {
        let mut row = *file;
        let mut given = Bytes::none();
        for (what, call, n, cut, refused) in steps {
            let asked = Asked::new(*call, self.sent(*call, *n));
            let outcome = self.call(ground, &mut row, *cut, &asked);
            report.tell(what, &outcome, *refused);
            given = outcome.given;
        }
        given
    }

    /// Issues and redeems where all numbers are issued.
    pub(crate) fn all_issued(&self, report: &mut Report) {
        report.show.println("All numbers issued");
        let mut row = self.file;
        change(&mut row[FILE..], &[(0, 7, 1), (0, 9, 0)]);
        self.series(report, MEMORY, &row, &EXHAUSTED);
    }

    /// What hangs on the generator and the sealer.
    pub(crate) fn own_cases(&self, report: &mut Report) {
        self.bad_tickets(report);
        self.goes_on(report);
        report.show.println("Too few free slots");
        self.series(report, MEMORY, &self.file, &CROWDED);
    }
}

// Reopens a server on a sound file.
fn reopened<D: WriteSlots, G: Generator + Copy, S: Sealer + Copy>(
    cold: Cold<D, G, S>,
) -> Held<D, G, S> {
    let (server, _fault) = opened(cold.reopen(&mut [7; SLOTS], &mut Scratch::new()));
    server
}
