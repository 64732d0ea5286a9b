//! Cuts the power at every raw write of a scenario with a ticket server, over three devices and with several tears, then at every raw
//! write of the reopening too; reopens, and looks whether any ticket opens twice, or is lost without having been spent.
#![tactic(auto)]

mod look;
mod scene;
mod tally;

use beds::{Base, Bed, Medium};
use chachaseal::ChaChaSealer;
use device::WriteSlots;
use fault::Fault;
use generators::ChaChaGenerator;
use look::look_over;
use refusal::Refusal;
use row::Cut;
use samples::Show;
use scene::{Story, play, reopen};
use server::Cold;
use serving::device_of;
use std::array;
use tally::Tally;

// The bytes of the row that the devices stand on: three sectors.
const ROW: usize = 1536;

// More raw writes than the scenario or a reopening has.
const MOST: usize = 1000;

// A device that the scenario is played on: the bytes that it takes of the row, and how many bytes of a cut write stand.
#[derive(Clone, Copy)]
struct Ground {
    label: &'static str,
    base: Base,
    bytes: usize,
    tears: &'static [usize],
}

const GROUNDS: [Ground; 3] = [
    Ground {
        label: "a journal over a byte image, 18 slots",
        base: Base::Journaled(Medium::Bytes),
        bytes: 1280,
        tears: &[0, 1, 3, 33, 64],
    },
    Ground {
        label: "a journal over a sector image, 22 slots",
        base: Base::Journaled(Medium::Sectors),
        bytes: ROW,
        tears: &[0, 1, 3, 33, 64],
    },
    Ground {
        label: "a memory device, 18 slots",
        base: Base::Whole,
        bytes: 1152,
        tears: &[0, 64],
    },
];

impl Ground {
    fn lay<'a>(&self, row: &'a mut [u8; ROW], cut: Option<Cut>) -> Bed<'a> {
        self.base.lay(&mut row[..self.bytes.min(ROW)], cut)
    }

    // Plays the scenario up to a cut.
    fn play(&self, row: &mut [u8; ROW], cut: Cut) -> Story {
        let mut story = Story::new();
        drop(played(self.lay(row, Some(cut)), &mut story));
        story
    }

    // Reopens, with a cut or none.
    fn reopen(&self, row: &mut [u8; ROW], cut: Option<Cut>) -> Option<Fault> {
        let (_bed, fault) = reopened(self.lay(row, cut));
        fault
    }

    // Looks at a tree that was reopened.
    fn look(&self, row: &mut [u8; ROW], story: &mut Story) {
        drop(look_over(self.lay(row, None), story));
    }
}

// Other bytes than a server writes.
fn laid_out() -> [u8; ROW] {
    array::from_fn(|i| (i % 251) as u8 ^ 0x5c)
}

fn played<D: WriteSlots>(device: D, story: &mut Story) -> D {
    let server = Cold::new(device, ChaChaGenerator, ChaChaSealer);
    device_of(play(server, story))
}

fn reopened<D: WriteSlots>(device: D) -> (D, Option<Fault>) {
    let (server, fault) = reopen(Cold::new(device, ChaChaGenerator, ChaChaSealer));
    (device_of(server), fault)
}

// Reopens with no cut and looks at everything. Only a file that was never made may hold no tree.
fn look_after(ground: &Ground, row: &mut [u8; ROW], story: &Story, tally: &mut Tally) {
    let mut late = *story;
    match ground.reopen(row, None) {
        None => ground.look(row, &mut late),
        Some(fault) => {
            late.wrong = late.wrong || story.made || fault.refusal != Refusal::BadHead;
            tally.not_made();
        }
    }
    tally.note(story, &late);
}

// Cuts the reopening at each of its raw writes in turn, and looks each time.
fn all_cuts_again(
    ground: &Ground,
    row: &[u8; ROW],
    standing: usize,
    story: &Story,
    tally: &mut Tally,
) {
    for after in 0..MOST {
        let mut row = *row;
        let fault = ground.reopen(&mut row, Some(Cut { after, standing }));
        if !tally.cut_again(fault) {
            return;
        }
        look_after(ground, &mut row, story, tally);
    }
}

// Runs the scenario with a cut, then looks, with and without a further cut. Answers whether the scenario met its cut.
fn one_cut(ground: &Ground, cut: Cut, tally: &mut Tally) -> bool {
    let mut row = laid_out();
    let story = ground.play(&mut row, cut);
    if let Some(call) = story.cut {
        tally.cut_in(call);
        all_cuts_again(ground, &row, cut.standing, &story, tally);
    }
    look_after(ground, &mut row, &story, tally);
    story.cut.is_some()
}

fn all_tears(ground: &Ground, after: usize, tally: &mut Tally) -> bool {
    let mut met = false;
    for standing in ground.tears {
        let standing = *standing;
        met = one_cut(ground, Cut { after, standing }, tally) || met;
    }
    met
}

fn run(show: &mut Show, ground: &Ground) {
    let mut tally = Tally::default();
    for after in 0..MOST {
        if !all_tears(ground, after, &mut tally) {
            break;
        }
    }
    show.println(ground.label);
    tally.print(show);
}

fn main(rt: HostRuntime) -> anyhow::Result<()> {
    let mut show = Show::new(&rt);
    for ground in &GROUNDS {
        run(&mut show, ground);
    }
    show.end()
}
