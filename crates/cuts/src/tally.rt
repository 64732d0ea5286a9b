//! What is counted over all cuts on one device.
use crate::scene::Story;
use fault::{Call, Fault, Step};
use samples::{Show, add};

#[derive(Clone, Copy, Default)]
pub(crate) struct Tally {
    // cuts met in the scenario, by the call
    in_make: u32,
    in_issue: u32,
    in_redeem: u32,
    // cuts met in the reopening after them, by its step
    in_restart: u32,
    in_sweep: u32,
    // looks taken after it all, and those that found no tree
    looks: u32,
    not_made: u32,
    // chains found to be the cover, with zeros in every slot off them
    clean: u32,
    // the tickets given before those looks, and what became of them
    given: u32,
    before: u32,
    lost: u32,
    later: u32,
    // looks that found anything amiss
    wrong: u32,
}

impl Tally {
    /// The scenario met its cut in a call.
    pub(crate) fn cut_in(&mut self, call: Call) {
        let count = match call {
            Call::Make => &mut self.in_make,
            Call::Issue => &mut self.in_issue,
            Call::Redeem => &mut self.in_redeem,
            // the scenario's own reopening finds nothing to write
            Call::Reopen => &mut self.wrong,
        };
        add(count, 1);
    }

    /// A reopening was to be cut. Answers whether it came to the cut.
    pub(crate) fn cut_again(&mut self, fault: Option<Fault>) -> bool {
        let count = match fault.and_then(|fault| fault.step) {
            Some(Step::Restart) => &mut self.in_restart,
            Some(Step::Sweep) => &mut self.in_sweep,
            _ => return false,
        };
        add(count, 1);
        true
    }

    /// A file holds no tree in the end.
    pub(crate) fn not_made(&mut self) {
        add(&mut self.not_made, 1);
    }

    // What became of the tickets: by what was seen until the cut, and until the end.
    fn count_tickets(&mut self, early: &Story, late: &Story) {
        for (early, late) in early.numbers.iter().zip(&late.numbers) {
            if early.ticket.is_none() {
                continue;
            }
            add(&mut self.given, 1);
            let count = if early.opened > 0 {
                &mut self.before
            } else if late.opened > 0 {
                &mut self.later
            } else {
                &mut self.lost
            };
            add(count, 1);
        }
    }

    /// A look was taken: what was seen until the cut, and until the end.
    pub(crate) fn note(&mut self, early: &Story, late: &Story) {
        add(&mut self.looks, 1);
        add(&mut self.wrong, late.wrong as u32);
        add(&mut self.clean, late.clean);
        self.count_tickets(early, late);
    }

    // The counts that stand alone on their lines, each with its name.
    fn rows(&self) -> [(&'static str, u32); 6] {
        [
            (
                "chains that are the cover, with zeros in every free slot, two for each tree",
                self.clean,
            ),
            ("tickets given before the cut", self.given),
            (
                "  opened before it, and refused as spent after",
                self.before,
            ),
            (
                "  spent by the cut redemption, and refused after",
                self.lost,
            ),
            (
                "  unspent, opened after with their own state, then refused",
                self.later,
            ),
            ("wrong", self.wrong),
        ]
    }

    /// Prints all counts.
    pub(crate) fn print(&self, show: &mut Show) {
        println!(show;
            "  cuts in the scenario: {} in making, {} in issuing, {} in redeeming",
            self.in_make, self.in_issue, self.in_redeem
        );
        println!(show;
            "  further cuts in the reopening after one: {} in its restart, {} in its sweep",
            self.in_restart, self.in_sweep
        );
        println!(show;
            "  files looked at in the end: {}, not made: {}, trees: {}",
            self.looks,
            self.not_made,
            self.looks.saturating_sub(self.not_made)
        );
        for (name, count) in self.rows() {
            println!(show; "  {name}: {count}");
        }
        show.expect(self.wrong == 0, "a file is not what its past makes it");
    }
}
