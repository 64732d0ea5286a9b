//! Goes from a root to a ticket and back, once for each generator with each sealer, and prints every step.
#![tactic(auto)]

mod cases;

use anyhow::Context;
use cases::{CASES, Case};
use chachaseal::ChaChaSealer;
use generator::Generator;
use generators::{ChaChaGenerator, ShaGenerator};
use hmacseal::HmacSealer;
use samples::{Bytes, ROOM, Show, fitting_record};
use sealer::Sealer;
use std::fmt;
use ticket::HEADING;
use tickets::{TOP, key_from, ticket_of};

// Bytes as lower-case hexadecimal digits.
#[derive(Clone, Copy)]
struct Hex<'a>(&'a [u8]);

impl fmt::Display for Hex<'_> {
    fn fmt<W: fmt::Write>(&self, f: &mut fmt::Formatter<W>) -> fmt::Result {
        for b in self.0 {
            write!(f, "{b:02x}")?;
        }
        Ok(())
    }
}

// The key of the case's number, from its root.
fn key_of<G: Generator>(show: &mut Show, generator: &G, case: &Case) -> anyhow::Result<[u8; 32]> {
    let (key, calls) = key_from(generator, &TOP, &case.root(), case.number).context(
        "the root does not cover the number",
    )?;
    println!(show; "key: {}", Hex(&key));
    println!(show; "generator calls: {calls}");
    Ok(key)
}

// What a ticket holds, where it opens.
fn opened<S: Sealer>(sealer: &S, key: &[u8; 32], ticket: &Bytes) -> Option<Bytes> {
    let (front, sealed) = ticket.part().split_first_chunk::<HEADING>()?;
    let mut row = [0; ROOM];
    let length = sealer
        .open(key, front, sealed, &mut row, &mut [0; 64])
        .ok()??;
    Some(Bytes { row, length })
}

// One walk: the key of a number from the root, a ticket under it, the ticket opened again, and the ticket with one byte changed.
fn walk<G: Generator, S: Sealer>(
    show: &mut Show,
    generator: &G,
    sealer: &S,
    case: &Case,
) -> anyhow::Result<()> {
    let record = fitting_record(&case.state()).context("the state makes no record")?;
    println!(show; "root: {}", Hex(&case.root()));
    let name = case.name;
    println!(show; "key name: {}", Hex(name));
    println!(show; "number: {}", case.number);
    println!(show; "generator: {}", generator.number());
    println!(show; "sealer: {}", sealer.number());
    println!(show; "record: {}", Hex(record.part()));
    let key = key_of(show, generator, case)?;
    let ticket = ticket_of(sealer, &key, name, case.number, record.part())
        .ok()
        .context("the record is not sealed")?;
    println!(show; "ticket: {}", Hex(ticket.part()));
    let plain = opened(sealer, &key, &ticket).context("the ticket does not open")?;
    println!(show; "opened: {}", Hex(plain.part()));
    show.expect(plain == record, "the ticket does not hold its record");
    let mut changed = ticket;
    changed.row[HEADING] ^= 1;
    let opens = opened(sealer, &key, &changed).is_some();
    let word = if opens { "opens" } else { "does not open" };
    println!(show; "with one byte changed: {word}");
    Ok(())
}

fn main(rt: HostRuntime) -> anyhow::Result<()> {
    let mut show = Show::new(&rt);
    let [first, second, third, fourth] = CASES;
    walk(&mut show, &ChaChaGenerator, &ChaChaSealer, &first)?;
    walk(&mut show, &ChaChaGenerator, &HmacSealer, &second)?;
    walk(&mut show, &ShaGenerator, &ChaChaSealer, &third)?;
    walk(&mut show, &ShaGenerator, &HmacSealer, &fourth)?;
    show.end()
}
