//! Looks at a file: its head, its chain, its free slots, and what is left in them.
use crate::desk::{Desk, SLOTS};
use beds::slot_at;
use chain::{Found, next_free, read_marking};
use device::{ReadSlots, SLOT_SIZE};
use fault::{Call, Halt};
use layout::NodeFields;
use looking::{Look, Records, look_on, record_at};
use samples::all_are;
use serving::{PAIR, survey};

/// Shows what a look told, or why it was declined.
pub(crate) fn show_look(desk: &mut Desk, looked: &Result<Look, Halt>) {
    match looked {
        Ok(look) => println!(desk.show;
            "  file: numbers issued {}, records {}, free slots {}",
            look.head.issued, look.records, look.free
        ),
        Err(halt) => desk.tell(Some(halt.during(Call::Reopen))),
    }
}

/// Shows the file on a device, with or without the records of its chain.
pub(crate) fn show_file<D: ReadSlots>(desk: &mut Desk, device: &D, records: bool) {
    let looked = look_on(device, PAIR, &mut desk.marks, &mut desk.scratch.slot);
    show_look(desk, &looked);
    let Ok(look) = looked else {
        return;
    };
    if records {
        let mut slot = [0; SLOT_SIZE];
        let chain = Records::new(device, look.head.first, look.records, &mut slot);
        show_chain(desk, &look, chain);
    }
    show_left(desk, device);
}

// Prints the depth and the first number of a record.
fn show_record(desk: &mut Desk, record: Option<NodeFields>) {
    match record {
        Some(fields) => print!(desk.show; " ({}, {})", fields.depth, fields.first),
        None => desk.show.print(" (no record)"),
    }
}

/// Prints the chain's records in its order, eight to a line.
pub(crate) fn show_chain<D: ReadSlots>(desk: &mut Desk, look: &Look, records: Records<'_, D>) {
    desk.show.print("  chain:");
    // beside a range, and no enumerate: tried, and the check asks there that the chain's records are fewer than 2 ^ 64, an induction
    for (k, (_, record)) in (0..look.records).zip(records) {
        if k > 0 && k % 8 == 0 {
            desk.show.print("\n        ");
        }
        show_record(desk, record);
    }
    desk.show.println("");
}

/// Prints what the free slots of a file that is read hold, where one is not zero.
pub(crate) fn show_left<D: ReadSlots>(desk: &mut Desk, device: &D) {
    let mut marks = [0; SLOTS];
    let mut slot = [0; SLOT_SIZE];
    if read_marking(device, PAIR, None, &mut marks, &mut slot).is_err() {
        return;
    }
    let mut all_zero = true;
    for index in 1..SLOTS {
        let zero = slot_at(device, index).is_some_and(|slot| all_are(&slot, 0));
        if !zero && next_free(&marks, index, SLOTS) == Some(index) {
            all_zero = false;
            print!(desk.show; "  free slot {index} still holds");
            show_record(desk, record_at(device, index as u16, &mut slot));
            desk.show.println("");
        }
    }
    if all_zero {
        desk.show.println("  every free slot is zero");
    }
}

// None too where the file cannot be read: that is told, and shows in the output.
/// The record that covers a number; none for a spent one.
pub(crate) fn covering<D: ReadSlots>(desk: &mut Desk, device: &D, k: usize) -> Option<Found> {
    let answer = survey::<SLOTS, _>(device, PAIR, Some((k % 65536) as u32));
    desk.tell(answer.err().map(|halt| halt.during(Call::Reopen)));
    answer.ok()?.found
}

/// The slot that the head, or the record in a slot, leads to, as the file names it: 0 after the last record. None where it
/// cannot be read.
pub(crate) fn led_to<D: ReadSlots>(device: &D, slot: u16) -> Option<u16> {
    if slot == 0 {
        survey::<SLOTS, _>(device, PAIR, None)
            .ok()
            .map(|survey| survey.head.first)
    } else {
        record_at(device, slot, &mut [0; SLOT_SIZE]).map(|fields| fields.next)
    }
}
