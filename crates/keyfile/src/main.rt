//! Lays out a key file in memory with one number spent, reads it back, and works out keys from it; then reads it damaged
//! in each way that is refused.
#![tactic(auto)]

ghost use Rattle.std.specs.Prelude.{◌≡◌, take, drop};

mod cases;
mod lay;

use anyhow::Context;
use beds::slot_at;
use cases::DAMAGED;
use chain::{Survey, read_file};
use device::{ReadSlots, SLOT_SIZE, WriteSlots};
use fault::Halt;
use generators::ChaChaGenerator;
use lay::{FILE, SLOTS, SPENT, lay_out};
use layout::Numbers;
use looking::{Look, Records, look_on};
use memory::Memory;
use octets::same_bytes;
use refusal::Refusal;
use row::Cut;
use samples::{ROOT, Show, all_are, change};
use serving::{PAIR, survey};
use tickets::{TOP, key_from};
use tree::Node;

// A record's value: the last 32 bytes of its slot. By their place, and not by `layout`, which laid them.
fn value_in(slot: &[u8; SLOT_SIZE]) -> [u8; 32]
    ensures { result ≡ take 32 (drop 32 slot.now) }
{
    let mut value = [0; 32];
    value.copy_from_slice(&slot[32..]);
    value
}

// The value in a slot; none where it cannot be read.
fn value_at<D: ReadSlots>(device: &D, slot: u16) -> Option<[u8; 32]> {
    let slot = slot_at(device, slot as usize)?;
    Some(value_in(&slot))
}

fn show_head(show: &mut Show, look: &Look) {
    let head = look.head;
    println!(show;
        "head: first index {}, {} issued, generator {}, sealer {}",
        head.first, head.issued, head.numbers.generator, head.numbers.sealer
    );
    println!(show; "chain: {} records", look.records);
}

// Shows the records of the chain, each with its slot.
fn show_chain<D: ReadSlots>(show: &mut Show, device: &D, look: &Look) {
    let mut bytes = [0; SLOT_SIZE];
    for (slot, record) in Records::new(device, look.head.first, look.records, &mut bytes) {
        let (Some(fields), Some(value)) = (record, value_at(device, slot)) else {
            show.expect(false, "a record of the chain cannot be read");
            return;
        };
        let [a, b, c, ..] = value;
        println!(show;
            "  slot {slot}: depth {}, first {}, value {a:02x} {b:02x} {c:02x} ..",
            fields.depth, fields.first
        );
    }
}

// The key of a number, worked out from a node and its value, and the generator calls made.
fn key_of(node: &Node, value: &[u8; 32], n: u32) -> anyhow::Result<([u8; 32], u32)> {
    key_from(&ChaChaGenerator, node, value, n).context("a record does not cover its number")
}

// Works a number's key out from the record that covers it, and compares it with the key from the root.
fn show_key<D: ReadSlots>(show: &mut Show, device: &D, n: u32) -> anyhow::Result<()> {
    let found = survey::<SLOTS, _>(device, PAIR, Some(n))
        .ok()
        .and_then(|survey| survey.found);
    let Some(found) = found else {
        println!(show; "number {n}: under no record, so its key cannot be worked out");
        show.expect(n == SPENT, "a number is under no record");
        return Ok(());
    };
    let Node { depth, first } = found.node;
    let value = value_at(device, found.slot).context("a record cannot be read")?;
    let (key, calls) = key_of(&found.node, &value, n)?;
    let (from_root, _) = key_of(&TOP, &ROOT, n)?;
    let same = same_bytes(&key, &from_root);
    let [a, b, ..] = key;
    println!(show;
        "number {n}: under ({depth}, {first}), key {a:02x} {b:02x} .. by {calls} calls, as from the root: {same}"
    );
    show.expect(same, "a key is not the tree's");
    Ok(())
}

// Shows a reading that has to be refused at a place.
fn refused(
    show: &mut Show,
    what: &str,
    answer: Result<Survey, Halt>,
    refusal: Refusal,
    place: u32,
) {
    match answer {
        Ok(survey) => {
            println!(show; "{what}: read, {} records", survey.length);
            show.expect(false, "a file is read that should be refused");
        }
        Err(halt) => {
            let told = u8::from(halt.refusal);
            println!(show; "{what}: refusal {told} at {}", halt.place);
            let right = halt.refusal == refusal && halt.place == place;
            show.expect(right, "a file is refused otherwise than it should be");
        }
    }
}

// Reads a sound file with another generator, too few marks and no power.
fn refused_sound(show: &mut Show, file: &[u8; FILE]) {
    let mut row = *file;
    let mut device = Memory::new(&mut row);
    let other = Numbers {
        generator: 2,
        ..PAIR
    };
    let answer = survey::<SLOTS, _>(&device, other, None);
    refused(show, "server with generator 2", answer, Refusal::BadHead, 0);
    let mut slot = [7; 64];
    let few = read_file(&device, PAIR, None, &mut [7; 19], &mut slot);
    refused(show, "marks for 19 slots", few, Refusal::ShortBuffer, 0);
    device.appoint(Cut {
        after: 0,
        standing: 0,
    });
    let _cut = device.write(19, &[0; 64]);
    let mut marks = [7; SLOTS];
    let dark = read_file(&device, PAIR, None, &mut marks, &mut slot);
    refused(show, "no power", dark, Refusal::NoPower, 0);
    let clean = all_are(&marks, 0) && all_are(&slot, 0);
    println!(show; "the lent buffers are zero: {clean}");
    show.expect(clean, "a lent buffer is not zero");
}

// Shows the head, the chain and some keys.
fn show_file<D: ReadSlots>(show: &mut Show, device: &D) -> anyhow::Result<()> {
    if let Ok(look) = look_on(device, PAIR, &mut [0; SLOTS], &mut [0; SLOT_SIZE]) {
        show_head(show, &look);
        show_chain(show, device, &look);
    }
    for n in [0, 4, SPENT, 6, 65535] {
        show_key(show, device, n)?;
    }
    Ok(())
}

fn main(rt: HostRuntime) -> anyhow::Result<()> {
    let mut show = Show::new(&rt);
    let mut file = [0; FILE];
    let done = lay_out(&mut Memory::new(&mut file)).is_ok();
    println!(show; "a file of {SLOTS} slots with number {SPENT} spent, laid out: {done}");
    show_file(&mut show, &Memory::new(&mut file))?;
    show.println("damaged");
    for (what, changes, refusal, place) in DAMAGED {
        let mut bad = file;
        change(&mut bad, changes);
        let answer = survey::<SLOTS, _>(&Memory::new(&mut bad), PAIR, None);
        refused(&mut show, what, answer, refusal, place);
    }
    refused_sound(&mut show, &file);
    show.end()
}
