//! The library in one short program: a tree is made and a ticket issued; the ticket gives its state once, and is refused from then on,
//! after a reopening too.
#![tactic(auto)]

use anyhow::{Context, anyhow};
use chachaseal::ChaChaSealer;
use fault::Fault;
use generators::ChaChaGenerator;
use image::ByteImage;
use journal::Journal;
use scratch::Scratch;
use server::{Answered, Cold, Running};
use session::{MAX_RECORD, SessionState, Suite};
use ticket::MAX_TICKET;

// The server's slots. The image has two more, which the journal keeps for itself.
const SLOTS: usize = 64;

const IMAGE: usize = 64 * (SLOTS + 2);

type Device<'a> = Journal<ByteImage<'a>>;

type Up<'a> = Running<Device<'a>, ChaChaGenerator, ChaChaSealer>;

type Down<'a> = Cold<Device<'a>, ChaChaGenerator, ChaChaSealer>;

fn cold_on(image: &mut [u8; IMAGE]) -> Down<'_> {
    let device = Journal::new(ByteImage::new(image));
    Cold::new(device, ChaChaGenerator, ChaChaSealer)
}

// The server that make or reopen hands back.
fn opened<'a>(answer: Result<Up<'a>, (Down<'a>, Fault)>) -> anyhow::Result<Up<'a>> {
    answer.map_err(|(cold, fault)| {
        drop(cold.into_parts());
        anyhow!("{fault}")
    })
}

// The server that issue or redeem hands back, reopened where the power failed, and how many bytes the call wrote.
fn settled<'a>(
    answered: Answered<Device<'a>, ChaChaGenerator, ChaChaSealer>,
    marks: &mut [u8; SLOTS],
    scratch: &mut Scratch,
) -> anyhow::Result<(Up<'a>, Result<usize, Fault>)> {
    match answered {
        Answered::Done(server, numbers) => Ok((server, Ok(numbers.0))),
        Answered::Refused(server, fault) => Ok((server, Err(fault))),
        Answered::Cut(cold, fault) => Ok((opened(cold.reopen(marks, scratch))?, Err(fault))),
    }
}

fn main(rt: HostRuntime) -> anyhow::Result<()> {
    let mut image = [0; IMAGE];
    // What the calls are lent: rooms for their answers, a mark for each slot, and room for key material.
    let (mut row, mut state) = ([0; MAX_TICKET], [0; MAX_RECORD]);
    let (mut marks, mut scratch) = ([0; SLOTS], Scratch::new());

    let session = SessionState {
        suite: Suite::Aes128GcmSha256,
        issued_at: 1_700_000_000,
        lifetime: 3_600,
        age_add: 7,
        early_data_limit: 16_384,
        secret: [0x33; 32],
        name: *b"the early data of client.example",
        name_length: 32,
    };
    let mut record = [0; MAX_RECORD];
    let length = session.write(&mut record).ok().context("no record")?;
    let record = &record[..length.min(MAX_RECORD)];

    // A tree, of a root value and under a key name; its first ticket; and the ticket comes twice.
    let made = cold_on(&mut image).make(&[0x5a; 32], b"the example tree", &mut scratch);
    let answered = opened(made)?.issue(record, &mut row, &mut marks, &mut scratch);
    let (server, issued) = settled(answered, &mut marks, &mut scratch)?;
    // no bytes where no ticket was given: a `?` here would let go of the server, which does not compile
    let ticket = &row[..issued.unwrap_or(0).min(MAX_TICKET)];
    let answered = server.redeem(ticket, &mut state, &mut marks, &mut scratch);
    let (server, first) = settled(answered, &mut marks, &mut scratch)?;
    let back = first.is_ok() && state.starts_with(record);
    let answered = server.redeem(ticket, &mut state, &mut marks, &mut scratch);
    let (server, second) = settled(answered, &mut marks, &mut scratch)?;
    drop(server.close().into_parts());

    // The same image again, and the same ticket.
    let again = cold_on(&mut image).reopen(&mut marks, &mut scratch);
    let answered = opened(again)?.redeem(ticket, &mut state, &mut marks, &mut scratch);
    let (server, third) = settled(answered, &mut marks, &mut scratch)?;
    drop(server.close().into_parts());

    let second = second.err().context("it opened twice")?;
    let third = third.err().context("it opened again")?;
    println!(rt; "the first time: the state comes back: {back}")?;
    println!(rt; "the second time: {second}")?;
    println!(rt; "after a reopening: {third}")?;
    Ok(())
}
