//! One row that a journal stands on, over one of the images, and what is done with it.
use crate::rows::{NEW, WRITTEN, before, laid_out};
use beds::{Medium, slot_at};
use device::{ReadSlots, SLOT_SIZE, TearSlots, WriteSlots};
use journal::Journal;
use row::Cut;
use samples::{JOURNAL_ROW, all_are};

#[derive(Clone, Copy)]
pub(crate) struct Stand {
    medium: Medium,
    // whether an earlier write was left unfinished
    unfinished: bool,
    row: [u8; JOURNAL_ROW],
}

/// What the written slot is found to be.
#[derive(Clone, Copy, PartialEq, Eq)]
pub(crate) enum Found {
    Old,
    New,
    Wrong,
}

// Whether every byte of a slot has a value.
fn is_all<D: ReadSlots>(device: &D, index: usize, value: u8) -> bool {
    slot_at(device, index).is_some_and(|slot| all_are(&slot, value))
}

// Looks at a journal: whether the written slot is old or new, and all others are as before.
fn look<D: ReadSlots>(journal: &D, unfinished: bool) -> Found {
    let others = (0..journal.count()).all(|i| i == WRITTEN
        || is_all(journal, i, before(i, unfinished)));
    if !others {
        Found::Wrong
    } else if is_all(journal, WRITTEN, NEW) {
        Found::New
    } else if is_all(journal, WRITTEN, before(WRITTEN, unfinished)) {
        Found::Old
    } else {
        Found::Wrong
    }
}

// Restarts a journal, and looks where that is done.
fn restarted<D: TearSlots + Drop>(mut journal: Journal<D>, unfinished: bool) -> Found {
    let done = journal.restart().is_ok();
    let found = look(&journal, unfinished);
    if done { found } else { Found::Wrong }
}

// Writes the slot, and answers whether it was done.
fn written<D: TearSlots + Drop>(mut journal: Journal<D>) -> bool {
    journal.write(WRITTEN, &[NEW; SLOT_SIZE]).is_ok()
}

impl Stand {
    pub(crate) fn new(medium: Medium, unfinished: bool) -> Stand {
        Stand {
            medium,
            unfinished,
            row: laid_out(unfinished),
        }
    }

    /// Writes the slot with a cut, and answers whether it was done.
    pub(crate) fn write(&mut self, cut: Cut) -> bool {
        written(Journal::new(self.medium.lay(&mut self.row, Some(cut))))
    }

    /// Restarts, with a cut or none, and looks.
    pub(crate) fn restart(&mut self, cut: Option<Cut>) -> Found {
        let journal = Journal::new(self.medium.lay(&mut self.row, cut));
        restarted(journal, self.unfinished)
    }
}
