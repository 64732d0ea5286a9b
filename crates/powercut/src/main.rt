//! Shows a power cut in each raw write of a journal's write, the restart after it, and what the slot then holds; then bad input.
#![tactic(auto)]

mod words;

use beds::Medium;
use device::{ReadSlots, SLOT_SIZE, TearSlots, WriteSlots};
use journal::Journal;
use row::Cut;
use samples::{JOURNAL_ROW, Show, all_are, journal_row};
use words::{NEW, Said, Slot};

// The journal's slot that is written.
const SLOT: usize = 3;

// Some cuts, each with the raw write that it meets: how many writes are done before, and how much of the one that is cut stands. A cut is
// made of the two at its turn, since with cuts in it this table takes sixty lines.
const CUTS: [(&str, usize, usize); 8] = [
    ("the copy", 0, 17),
    ("the mark with the target", 1, 2),
    ("the mark with target and flag", 2, 0),
    ("the mark with target and flag", 2, 1),
    ("the slot's own place", 3, 40),
    ("the mark of zeros", 4, 0),
    ("the mark of zeros", 4, 2),
    ("none of them", 9, 64),
];

// What a journal answers to a read of the slot, and what the buffer of that read holds.
fn look<D: TearSlots + Drop>(journal: Journal<D>) -> (Said, Slot) {
    let mut slot = [1; SLOT_SIZE];
    let read = Said(journal.read(SLOT, &mut slot));
    (read, Slot(slot))
}

// The first three bytes of the mark, and the first and the last of the copy and of the slot's own place.
fn show_below(show: &mut Show, row: &[u8; JOURNAL_ROW]) {
    println!(show;
        "  below, the mark begins {:02x} {:02x} {:02x}",
        row[0], row[1], row[2]
    );
    println!(show;
        "  below, the copy runs from {:02x} to {:02x}",
        row[64], row[127]
    );
    println!(show;
        "  below, the slot's place runs from {:02x} to {:02x}",
        row[320], row[383]
    );
}

fn show_write(show: &mut Show, medium: Medium, row: &mut [u8; JOURNAL_ROW], cut: Cut) {
    let mut journal = Journal::new(medium.lay(row, Some(cut)));
    let answer = Said(journal.write(SLOT, &[NEW; SLOT_SIZE]));
    println!(show; "  the write answers: {answer}");
    let (read, slot) = look(journal);
    println!(show; "  a read at once answers: {read}, its buffer holds {slot}");
}

fn show_restart(show: &mut Show, medium: Medium, row: &mut [u8; JOURNAL_ROW]) {
    let mut journal = Journal::new(medium.lay(row, None));
    let answer = Said(journal.restart());
    println!(show; "  the restart answers: {answer}");
    let (read, slot) = look(journal);
    println!(show; "  a read answers: {read}, slot {SLOT} holds {slot}");
}

fn run(show: &mut Show, name: &str, medium: Medium) {
    show.println(name);
    for (step, after, standing) in CUTS {
        println!(show; "cut at {step}, {standing} bytes standing");
        let mut row = journal_row();
        show_write(show, medium, &mut row, Cut { after, standing });
        show_below(show, &row);
        show_restart(show, medium, &mut row);
    }
}

// What a device answers to an index and to a write there.
fn ask<D: TearSlots + Drop>(show: &mut Show, label: &str, mut device: D, index: usize) {
    let mut slot = [1; SLOT_SIZE];
    let count = device.count();
    let read = Said(device.read(index, &mut slot));
    let written = Said(device.write(index, &[NEW; SLOT_SIZE]));
    println!(show;
        "{label}: {count} slots, read {index}: {read}, buffer {}, write {index}: {written}",
        Slot(slot)
    );
}

// Devices asked for a slot that they do not have: what, the image, the bytes that it takes of the row, and the index.
const OUTSIDE: [(&str, Medium, usize, usize); 4] = [
    (
        "byte image, index past the end",
        Medium::Bytes,
        JOURNAL_ROW,
        10,
    ),
    (
        "sector image, index past the end",
        Medium::Sectors,
        JOURNAL_ROW,
        8,
    ),
    ("byte image of 63 bytes", Medium::Bytes, 63, 0),
    ("sector image of 511 bytes", Medium::Sectors, 511, 0),
];

// Devices whose power was cut.
const DARK: [(&str, Medium); 2] = [
    ("byte image, power off", Medium::Bytes),
    ("sector image, power off", Medium::Sectors),
];

fn bad_input(show: &mut Show) {
    show.println("bad input");
    let mut row = [7; JOURNAL_ROW];
    for (label, medium, bytes, index) in OUTSIDE {
        let image = medium.lay(&mut row[..bytes.min(JOURNAL_ROW)], None);
        ask(show, label, image, index);
    }
    show_dark(show, &mut row);
    println!(show; "no byte has changed: {}", all_are(&row, 7));
}

fn show_dark(show: &mut Show, row: &mut [u8; JOURNAL_ROW]) {
    let cut = Cut {
        after: 0,
        standing: 0,
    };
    for (label, medium) in DARK {
        let mut image = medium.lay(row, Some(cut));
        let _cut = image.write(0, &[NEW; SLOT_SIZE]);
        ask(show, label, image, 0);
    }
}

fn no_room(show: &mut Show) {
    let mut row = [7; 2 * SLOT_SIZE];
    let mut journal = Journal::new(Medium::Bytes.lay(&mut row, None));
    let count = journal.count();
    let read = Said(journal.read(0, &mut [1; SLOT_SIZE]));
    let written = Said(journal.write(0, &[NEW; SLOT_SIZE]));
    println!(show; "journal over two slots: {count} slots, read 0: {read}, write 0: {written}");
}

fn main(rt: HostRuntime) -> anyhow::Result<()> {
    let mut show = Show::new(&rt);
    run(&mut show, "a journal over a byte image", Medium::Bytes);
    run(&mut show, "a journal over a sector image", Medium::Sectors);
    bad_input(&mut show);
    no_room(&mut show);
    show.end()
}
