//! Looks at a device after reopening: its chain against the cover, its free slots, and every ticket that was given.
//! The cover is worked out apart from the library's own, to compare with.
use crate::scene::{Down, MARKS, NUMBERS, Story, Tickets, Up, redeem, reopen};
use beds::slot_at;
use chachaseal::ChaChaSealer;
use device::{ReadSlots, SLOT_SIZE, WriteSlots};
use fault::{Call, Halt};
use generators::ChaChaGenerator;
use looking::{Look, Records, look_on};
use samples::{add, all_are};
use server::Cold;
use serving::{PAIR, device_of};

// The levels of the tree, and how many numbers it has.
const LEVELS: u8 = 16;

const LEAVES: u32 = 65_536;

fn is_spent(n: u32, numbers: &Tickets) -> bool {
    numbers.get(n as usize).is_some_and(|number| number.spent)
}

// The first number from one on that is not spent.
fn unspent_from(from: u32, numbers: &Tickets) -> u32 {
    (from..LEAVES)
        .find(|n| !is_spent(*n, numbers))
        .unwrap_or(LEAVES)
}

// Whether a spent number lies under a node.
fn is_touched(first: u32, width: u32, numbers: &Tickets) -> bool {
    (0..LEAVES).zip(numbers).any(|(n, number)| number.spent && first <= n && n - first < width)
}

// The depth and the width of the widest node that begins at a number and covers no spent one.
fn widest_at(first: u32, numbers: &Tickets) -> (u8, u32) {
    let depth = (0..LEVELS)
        .find(|depth| {
            let width = LEAVES >> *depth;
            first.checked_rem(width) == Some(0) && !is_touched(first, width, numbers)
        })
        .unwrap_or(LEVELS);
    // the lesser of the two is depth: find tells the check no bound
    (depth, LEAVES >> depth.min(LEVELS))
}

// Looks at the file on a device.
fn looked<D: ReadSlots>(device: &D) -> Result<Look, Halt> {
    look_on(device, PAIR, &mut [0; MARKS], &mut [0; SLOT_SIZE])
}

// Whether the records from a slot on are the cover of the spent numbers, in order.
fn is_cover<D: ReadSlots>(device: &D, look: &Look, numbers: &Tickets) -> bool {
    let mut next = look.head.first;
    let mut from = 0;
    let mut slot = [0; SLOT_SIZE];
    for (_, record) in Records::new(device, next, look.records, &mut slot) {
        from = unspent_from(from, numbers);
        let (depth, width) = widest_at(from, numbers);
        match record {
            Some(fields) if fields.depth == depth && fields.first as u32 == from => {
                next = fields.next;
            }
            _ => return false,
        }
        from = from.saturating_add(width);
    }
    next == 0 && unspent_from(from, numbers) == LEAVES
}

// How many slots but the head's are not zero.
fn used<D: ReadSlots>(device: &D) -> usize {
    (1..device.count())
        .filter(|i| !slot_at(device, *i).is_some_and(|slot| all_are(&slot, 0)))
        .count()
}

// Whether the chain is the cover of the spent numbers, and everything off it is zero.
fn is_clean<D: ReadSlots>(device: &D, numbers: &Tickets) -> bool {
    looked(device).is_ok_and(|look| {
        is_cover(device, &look, numbers) && used(device) == look.records as usize
    })
}

// Notes whether the chain is the cover and all else zero.
fn note_clean<D: ReadSlots>(device: &D, story: &mut Story) {
    if is_clean(device, &story.numbers) {
        add(&mut story.clean, 1);
    } else {
        story.wrong = true;
    }
}

// A number whose join was cut is spent if the chain is the cover with it spent.
fn settle<D: ReadSlots>(device: &D, story: &mut Story) {
    if let Some(n) = story.doubt {
        let mut with = story.numbers;
        with[n % NUMBERS].spent = true;
        if is_clean(device, &with) {
            story.numbers = with;
        }
    }
}

// Whether the head counts the tickets given, or one more where an issue was cut.
fn is_counted<D: ReadSlots>(device: &D, story: &Story) -> bool {
    looked(device).is_ok_and(|look| {
        let given = story.given();
        let issued = look.head.issued as usize;
        let one_more = issued.checked_sub(1) == Some(given);
        issued == given || (one_more && story.cut == Some(Call::Issue))
    })
}

// Redeems every ticket that was given, each twice.
fn redeem_each<D: WriteSlots>(server: Down<D>, story: &mut Story) -> Result<Up<D>, Down<D>> {
    let (server, fault) = reopen(server);
    if fault.is_some() {
        story.wrong = true;
    }
    let mut server = server?;
    for n in 0..story.given() {
        server = redeem(server, n, story)?;
        server = redeem(server, n, story)?;
    }
    Ok(server)
}

/// Looks at a tree that was reopened after a cut: the chain, the free slots, every ticket twice, and the chain once more.
/// What is seen goes on in the story.
pub(crate) fn look_over<D: WriteSlots>(device: D, story: &mut Story) -> D {
    settle(&device, story);
    if !is_counted(&device, story) {
        story.wrong = true;
    }
    note_clean(&device, story);
    let server = Cold::new(device, ChaChaGenerator, ChaChaSealer);
    let device = device_of(redeem_each(server, story));
    note_clean(&device, story);
    device
}
