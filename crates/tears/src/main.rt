//! Cuts a journal's write at every raw write and with every number of bytes standing, over both images, restarts, and compares. Then
//! the same with every cut of the restart's own raw writes.
#![tactic(auto)]

mod rows;
mod stand;

use beds::Medium;
use row::Cut;
use samples::{Show, add};
use stand::{Found, Stand};

// How many bytes can stand of a write that is cut: 0 to 64.
const TEARS: usize = 65;

// The k-th cut: each raw write in turn, with each number of bytes standing.
fn cut_at(k: usize) -> Cut {
    Cut {
        after: k / TEARS,
        standing: k % TEARS,
    }
}

// How often the written slot was found old, and new; anything else is wrong.
#[derive(Clone, Copy, Default)]
struct Tally {
    old: u32,
    new: u32,
    wrong: u32,
}

impl Tally {
    fn add(&mut self, found: Found) {
        let count = match found {
            Found::Old => &mut self.old,
            Found::New => &mut self.new,
            Found::Wrong => &mut self.wrong,
        };
        add(count, 1);
    }

    // A write that is to be cut.
    fn write(&mut self, stand: &mut Stand, cut: Cut) {
        if stand.write(cut) {
            self.add(Found::Wrong);
        }
    }

    // A write that is cut, and a restart.
    fn cut_once(&mut self, mut stand: Stand, cut: Cut) {
        self.write(&mut stand, cut);
        self.add(stand.restart(None));
    }

    // A write that is cut; then every cut of the restart's two raw writes, and a restart after each.
    fn cut_twice(&mut self, mut stand: Stand, cut: Cut) {
        self.write(&mut stand, cut);
        for cut in (0..2 * TEARS).map(cut_at) {
            let mut again = stand;
            let _cut = again.restart(Some(cut));
            self.add(again.restart(None));
        }
    }
}

// Every raw write of the journal's write, with every number of bytes standing from 0 to 64. After an unfinished write there are
// two raw writes more.
fn all_cuts<F: Fn(&mut Tally, Stand, Cut)>(
    show: &mut Show,
    medium: Medium,
    label: &str,
    unfinished: bool,
    one_cut: F,
)
    requires { F.IsAlwaysCallable one_cut }
{
    let writes = if unfinished { 7 } else { 5 };
    let mut tally = Tally::default();
    for cut in (0..writes * TEARS).map(cut_at) {
        one_cut(&mut tally, Stand::new(medium, unfinished), cut);
    }
    let Tally { old, new, wrong } = tally;
    let cases = old.saturating_add(new).saturating_add(wrong);
    println!(show; "  {label}: {cases} cases, {old} old, {new} new, {wrong} wrong");
    show.expect(wrong == 0, "a slot is neither old nor new");
}

// What is cut, and whether after an unfinished write.
const ONCE: [(&str, bool); 2] = [
    ("a write, cut", false),
    ("a write after an unfinished one, cut", true),
];

const TWICE: [(&str, bool); 2] = [
    ("a write, cut, and its restart cut too", false),
    (
        "a write after an unfinished one, cut, and its restart cut too",
        true,
    ),
];

fn run(show: &mut Show, name: &str, medium: Medium) {
    show.println(name);
    for (label, unfinished) in ONCE {
        all_cuts(show, medium, label, unfinished, Tally::cut_once);
    }
    for (label, unfinished) in TWICE {
        all_cuts(show, medium, label, unfinished, Tally::cut_twice);
    }
}

fn main(rt: HostRuntime) -> anyhow::Result<()> {
    let mut show = Show::new(&rt);
    run(&mut show, "byte image", Medium::Bytes);
    run(&mut show, "sector image", Medium::Sectors);
    show.end()
}
