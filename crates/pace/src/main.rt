//! Times issue and redeem: on a tree just made and on one whose chain has some three hundred records, over memory and over a journal.
#![tactic(auto)]

use chachaseal::ChaChaSealer;
use device::WriteSlots;
use generators::ChaChaGenerator;
use image::ByteImage;
use journal::Journal;
use memory::Memory;
use octets::same_bytes;
use samples::{Bytes, KEY_NAME, ROOT, Show, session_record};
use scratch::Scratch;
use server::{Cold, Running};
use serving::{Held, device_of, opened, split};
use std::time::{Duration, Instant};
use std::{env, io};

// The raw slots of a device, and its bytes.
const SLOTS: usize = 1024;

const IMAGE: usize = 64 * SLOTS;

// The tickets issued to fill a tree: every second one is redeemed, and each of the others keeps a record of its own.
const FILLING: usize = 600;

// How many calls are timed in each case.
const CALLS: usize = 200;

type Up<D> = Running<D, ChaChaGenerator, ChaChaSealer>;

type Down<D> = Cold<D, ChaChaGenerator, ChaChaSealer>;

type Here<D> = Held<D, ChaChaGenerator, ChaChaSealer>;

// What is lent to the calls, and the time that they took.
#[derive(Drop)]
struct Watch<'a> {
    rt: &'a HostRuntime,
    show: Show<'a>,
    start: Instant,
    issuing: Duration,
    redeeming: Duration,
    // a record of the greatest length, and what issue and redeem wrote last
    record: Bytes,
    ticket: Bytes,
    state: Bytes,
    marks: [u8; SLOTS],
    scratch: Scratch,
}

impl<'a> Watch<'a> {
    fn new(rt: &'a HostRuntime) -> io::Result<Watch<'a>> {
        Ok(Watch {
            rt,
            show: Show::new(rt),
            start: Instant::now(rt)?,
            issuing: Duration::ZERO,
            redeeming: Duration::ZERO,
            record: session_record(&[b'n'; 32], 0x5a),
            ticket: Bytes::none(),
            state: Bytes::none(),
            marks: [0; SLOTS],
            scratch: Scratch::new(),
        })
    }

    // The time since the start.
    fn clock(&mut self) -> Duration {
        let span = self.start.elapsed(self.rt);
        self.show.expect(span.is_ok(), "the clock failed");
        span.unwrap_or(Duration::ZERO)
    }

    // Begins a case anew.
    fn reset(&mut self) {
        self.issuing = Duration::ZERO;
        self.redeeming = Duration::ZERO;
    }

    // Prints a case's time for one call, in nanoseconds.
    fn tell(&mut self, tree: &str, device: &str) {
        for (call, spent) in [("issue", self.issuing), ("redeem", self.redeeming)] {
            println!(self.show;
                "{call}, {tree}, {device}: {}",
                spent.as_nanos() / CALLS as u128
            );
        }
    }
}

// Issued and redeemed are timed each by its own lines, with no closure for the call: it would borrow the watch that times it.
fn issued<D: WriteSlots>(watch: &mut Watch, server: Up<D>) -> Here<D> {
    let from = watch.clock();
    let answer = server.issue(
        watch.record.part(),
        &mut watch.ticket.row,
        &mut watch.marks,
        &mut watch.scratch,
    );
    let span = watch.clock().saturating_sub(from);
    watch.issuing = watch.issuing.saturating_add(span);
    let (server, numbers) = split(answer);
    match numbers {
        Ok((length, _)) => watch.ticket.length = length,
        Err(_) => watch.show.expect(false, "a ticket is not issued"),
    }
    server
}

// Redeems the ticket issued last.
fn redeemed<D: WriteSlots>(watch: &mut Watch, server: Up<D>) -> Here<D> {
    let from = watch.clock();
    let answer = server.redeem(
        watch.ticket.part(),
        &mut watch.state.row,
        &mut watch.marks,
        &mut watch.scratch,
    );
    let span = watch.clock().saturating_sub(from);
    watch.redeeming = watch.redeeming.saturating_add(span);
    let own = same_bytes(&watch.state.row, &watch.record.row);
    watch.show.expect(own, "a ticket does not give its state");
    let (server, _numbers) = split(answer);
    server
}

fn made<D: WriteSlots>(watch: &mut Watch, device: D) -> Here<D> {
    let cold = Cold::new(device, ChaChaGenerator, ChaChaSealer);
    let (server, fault) = opened(cold.make(&ROOT, &KEY_NAME, &mut watch.scratch));
    watch.show.expect(fault.is_none(), "a tree is not made");
    server
}

// The first ticket of a tree.
fn first_ticket<D: WriteSlots>(watch: &mut Watch, device: D) -> Here<D> {
    let server = made(watch, device)?;
    let server = issued(watch, server)?;
    redeemed(watch, server)
}

// Each ticket is the first of its tree.
fn fresh<D: WriteSlots>(watch: &mut Watch, device: D) -> D {
    let mut device = device;
    for _ in 0..CALLS {
        device = device_of(first_ticket(watch, device));
    }
    device
}

// A tree with every second number spent.
fn filled<D: WriteSlots>(watch: &mut Watch, device: D) -> Here<D> {
    let mut server = made(watch, device)?;
    for k in 0..FILLING {
        server = issued(watch, server)?;
        if k % 2 == 0 {
            server = redeemed(watch, server)?;
        }
    }
    Ok(server)
}

// Each ticket is issued and redeemed behind a long chain.
fn full<D: WriteSlots>(watch: &mut Watch, device: D) -> Here<D> {
    let mut server = filled(watch, device)?;
    watch.reset();
    for _ in 0..CALLS {
        server = issued(watch, server)?;
        server = redeemed(watch, server)?;
    }
    Ok(server)
}

fn timed<D: WriteSlots>(watch: &mut Watch, name: &str, device: D) -> D {
    watch.reset();
    let device = fresh(watch, device);
    watch.tell("fresh tree", name);
    let device = device_of(full(watch, device));
    watch.tell("300 records", name);
    device
}

// Whether the word `time` is among the arguments.
fn asked(rt: &HostRuntime) -> io::Result<bool> {
    Ok(env::args(rt)?.skip(1).any(|word| word.as_str() == "time"))
}

fn main(rt: HostRuntime) -> anyhow::Result<()> {
    if !asked(&rt)? {
        println!(rt; "pace time: prints the nanoseconds that issue and redeem take for one call")?;
        return Ok(());
    }
    let mut watch = Watch::new(&rt)?;
    let mut row = [0; IMAGE];
    drop(timed(&mut watch, "memory", Memory::new(&mut row)));
    let journal = Journal::new(ByteImage::new(&mut row));
    drop(timed(&mut watch, "journal", journal));
    watch.show.end()
}
