//! Feeds a server damaged files, tickets and records, and cuts its power: every refusal comes at least once.
#![tactic(auto)]

mod cases;
mod edits;
mod report;
mod stand;
mod trials;

use cases::{ERASED, HEADS, JOINED, LINKS, MADE, NEW_HEAD, OLD_HEAD, RESTORED, TORN, UNCOVERED};
use chachaseal::ChaChaSealer;
use device::{DeviceFault, ReadSlots, WriteSlots};
use generators::{ChaChaGenerator, ShaGenerator};
use hmacseal::HmacSealer;
use memory::Memory;
use octets::same_bytes;
use refusal::Refusal;
use report::{Left, Report};
use samples::all_are;
use stand::{FILE, JOURNAL, MEMORY, ROW, Stand};

type First = Stand<ShaGenerator, HmacSealer>;

// A file of the first pair, opened by servers of others.
fn other_pairs(report: &mut Report, stand: &First) {
    let refused = (Refusal::BadHead, 0);
    let what = "opened by a server of generator 1, sealer 2";
    let other = stand.with(ChaChaGenerator, HmacSealer);
    other.reopen(report, what, &stand.file, refused);
    let what = "opened by a server of generator 2, sealer 1";
    let other = stand.with(ShaGenerator, ChaChaSealer);
    other.reopen(report, what, &stand.file, refused);
}

fn power_cuts(report: &mut Report, stand: &First) {
    report.show.println("Power cuts");
    stand.series(report, MEMORY, &[9; ROW], &MADE);
    for steps in [OLD_HEAD, NEW_HEAD] {
        let ticket = stand.series(report, MEMORY, &stand.file, &steps);
        println!(report.show; "    the ticket's number is {}", ticket.row[19]);
    }
    stand.series(report, MEMORY, &stand.file, &JOINED);
    stand.series(report, MEMORY, &stand.file, &ERASED);
    report.show.println("  over the journal over a byte image:");
    stand.series(report, JOURNAL, &stand.file, &TORN);
}

// Reads and writes past the end of a memory device.
fn go_past(
    row: &mut [u8; ROW],
    slot: &mut [u8; 64],
) -> (Result<(), DeviceFault>, Result<(), DeviceFault>) {
    let mut memory = Memory::new(&mut row[FILE..]);
    let read = memory.read(18, slot);
    (read, memory.write(18, &[7; 64]))
}

fn past_the_end(report: &mut Report, file: &[u8; ROW]) {
    report.show.println("A slot that the device does not have");
    let mut row = *file;
    let mut slot = [7; 64];
    let (read, written) = go_past(&mut row, &mut slot);
    let same = same_bytes(&row, file);
    let clean = all_are(&slot, 0);
    report.outside("read", read, Left { clean, same });
    report.outside("written", written, Left { clean: true, same });
}

fn first_pair(report: &mut Report) {
    let stand = Stand::new(report, ShaGenerator, HmacSealer);
    stand.short_buffers(report);
    stand.slot_counts(report);
    stand.bad_records(report);
    report.show.println("Damaged heads");
    stand.reopen(report, "a file of zeros", &[0; ROW], (Refusal::BadHead, 0));
    stand.bad_files(report, &HEADS);
    other_pairs(report, &stand);
    report.show.println("Damaged records of the chain");
    report
        .show
        .println("  the first three records are in slots 17, 16 and 15");
    stand.bad_files(report, &LINKS);
    report
        .show
        .println("Numbers that are not issued and lie under no record");
    stand.bad_files(report, &UNCOVERED);
    stand.series(report, MEMORY, &stand.file, &RESTORED);
    stand.all_issued(report);
    stand.own_cases(report);
    power_cuts(report, &stand);
    past_the_end(report, &stand.file);
}

fn second_pair(report: &mut Report) {
    let stand = Stand::new(report, ChaChaGenerator, ChaChaSealer);
    stand.own_cases(report);
}

fn main(rt: HostRuntime) -> anyhow::Result<()> {
    let mut report = Report::new(&rt);
    first_pair(&mut report);
    second_pair(&mut report);
    report.sum_up();
    report.show.end()
}
