//! The row that the journal stands on: what it holds before a write, above and below.
use device::SLOT_SIZE;
use samples::{JOURNAL_ROW, journal_row};

/// The slot that is written, and what every byte of it becomes.
pub(crate) const WRITTEN: usize = 3;

pub(crate) const NEW: u8 = 0xee;

// The slot of an earlier write that was left unfinished, and what every byte of it is to become.
const EARLIER: usize = 1;

const PENDING: u8 = 0xcc;

/// The row, with or without an unfinished write.
pub(crate) fn laid_out(unfinished: bool) -> [u8; JOURNAL_ROW] {
    let mut row = journal_row();
    if unfinished {
        row[0] = 1;
        row[2] = EARLIER as u8;
        row[SLOT_SIZE..2 * SLOT_SIZE].fill(PENDING);
    }
    row
}

/// What every byte of a slot holds before the write.
pub(crate) fn before(index: usize, unfinished: bool) -> u8 {
    if unfinished && index == EARLIER {
        PENDING
    } else if index < 8 {
        index as u8 + 2
    } else {
        0
    }
}
