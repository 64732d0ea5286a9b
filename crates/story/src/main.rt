//! The story of a pension registry's ticket desk: a tree is made over a journal over an image, managers are issued tickets and come
//! back with them, the power fails at the join and at the erasure, and the desk goes on. Every step is printed.
#![tactic(auto)]

mod days;
mod desk;
mod files;

use chachaseal::ChaChaSealer;
use days::{Event, FIRST_DAY, Failing, MANAGERS, SECOND_DAY, state_of};
use desk::{Desk, SLOTS};
use device::{SLOT_SIZE, WriteSlots};
use files::{covering, led_to, show_chain, show_file, show_left, show_look};
use generators::ChaChaGenerator;
use image::ByteImage;
use journal::Journal;
use octets::same_bytes;
use row::Cut;
use samples::{Bytes, KEY_NAME, ROOM, ROOT, add, fitting_record};
use server::{Cold, Running};
use serving::{Held, device_of, opened, split};
use session::MAX_NAME;
use tree::LEVELS;

// The bytes of the image: the journal's mark and copy, and its slots.
const IMAGE: usize = 64 * (SLOTS + 2);

// A slot write of the journal is five raw writes: the copy, the mark with the target, that mark with the flag, the slot's own place, a
// mark of zeros. The slot is the new one once the flag of the third stands.
const RAW_WRITES: usize = 5;

const TURN: usize = 2;

type Device<'a> = Journal<ByteImage<'a>>;

type Up<'a> = Running<Device<'a>, ChaChaGenerator, ChaChaSealer>;

type Down<'a> = Cold<Device<'a>, ChaChaGenerator, ChaChaSealer>;

type Here<'a> = Held<Device<'a>, ChaChaGenerator, ChaChaSealer>;

fn cold_on<'a>(device: Device<'a>) -> Down<'a> {
    Cold::new(device, ChaChaGenerator, ChaChaSealer)
}

fn make<'a>(desk: &mut Desk, image: &'a mut [u8; IMAGE]) -> Here<'a> {
    let cold = cold_on(Journal::new(ByteImage::new(image)));
    let (server, fault) = opened(cold.make(&ROOT, &KEY_NAME, &mut desk.scratch));
    println!(desk.show;
        "  made over a journal of {SLOTS} slots, over an image of {IMAGE} bytes: generator 1, sealer 1"
    );
    desk.tell(fault);
    server
}

fn reopen<'a>(desk: &mut Desk, cold: Down<'a>) -> Here<'a> {
    let (server, fault) = opened(cold.reopen(&mut desk.marks, &mut desk.scratch));
    desk.tell(fault);
    server
}

// Looks at the file of the running server; then closes, shows what its free slots hold, and reopens.
fn look<'a>(desk: &mut Desk, server: Up<'a>) -> Here<'a> {
    let looked = server.look(&mut desk.marks, &mut desk.scratch);
    show_look(desk, &looked);
    if let Ok(look) = looked {
        let mut slot = [0; SLOT_SIZE];
        show_chain(desk, &look, server.records(&look, &mut slot));
    }
    let device = device_of(Ok(server));
    show_left(desk, &device);
    reopen(desk, cold_on(device))
}

// Issues a manager's ticket.
fn issue<'a>(desk: &mut Desk, server: Up<'a>, k: usize) -> Here<'a> {
    let Some(record) = fitting_record(&state_of(k)) else {
        desk.show.expect(false, "a state makes no record");
        return Ok(server);
    };
    let mut row = [0; ROOM];
    let (server, answer) = split(server.issue(
        record.part(),
        &mut row,
        &mut desk.marks,
        &mut desk.scratch,
    ));
    match answer {
        Ok((length, calls)) => {
            desk.given[k % MANAGERS.len()].ticket = Bytes { row, length };
            let (name, lifetime) = MANAGERS[k % MANAGERS.len()];
            println!(desk.show;
                "  ticket {k} to {name}: lifetime {lifetime} s, record {} bytes, ticket {length} bytes, generator calls {calls}",
                record.length
            );
        }
        Err(fault) => desk.tell(Some(fault)),
    }
    server
}

// Prints what a redeemed state says, and whether it is the state that was issued.
fn welcome(desk: &mut Desk, k: usize, state: &[u8], calls: u32) {
    let Ok(opened) = session::read(state) else {
        println!(desk.show; "  ticket {k}: what came out is no state");
        return;
    };
    add(&mut desk.given[k % MANAGERS.len()].states, 1);
    let length = usize::from(opened.name_length).min(MAX_NAME);
    let name = str::from_utf8(&opened.name[..length]).unwrap_or("");
    let own = fitting_record(&state_of(k)).is_some_and(|record| same_bytes(record.part(), state));
    println!(desk.show;
        "  ticket {k} is redeemed: the state of {name}, {} bytes, lifetime {} s, generator calls {calls}; the state issued: {own}",
        state.len(),
        opened.lifetime
    );
}

// Redeems a ticket.
fn redeem<'a>(desk: &mut Desk, server: Up<'a>, k: usize, ticket: &Bytes) -> Here<'a> {
    let mut row = [0; ROOM];
    let (server, answer) = split(server.redeem(
        ticket.part(),
        &mut row,
        &mut desk.marks,
        &mut desk.scratch,
    ));
    match answer {
        Ok((length, calls)) => welcome(desk, k, Bytes { row, length }.part(), calls),
        Err(fault) => desk.tell(Some(fault)),
    }
    server
}

// A manager comes with a ticket.
fn come<'a>(desk: &mut Desk, server: Up<'a>, k: usize) -> Here<'a> {
    println!(desk.show; "  {} sends ticket {k}", MANAGERS[k % MANAGERS.len()].0);
    let ticket = desk.given[k % MANAGERS.len()].ticket;
    redeem(desk, server, k, &ticket)
}

// Somebody sends a ticket with one byte of its sealed part changed.
fn forge<'a>(desk: &mut Desk, server: Up<'a>, k: usize) -> Here<'a> {
    println!(desk.show; "  somebody sends ticket {k} with one byte changed");
    let mut ticket = desk.given[k % MANAGERS.len()].ticket;
    ticket.row[40] ^= 1;
    redeem(desk, server, k, &ticket)
}

// The slot that a join is to write, the slot that it leads to before, and how many new records are written first.
#[derive(Clone, Copy)]
struct Joint {
    slot: u16,
    leads_to: u16,
    new: usize,
}

// The joint of the redemption of a number; none for a spent one.
fn joint_of(desk: &mut Desk, device: &Device, k: usize) -> Option<Joint> {
    let found = covering(desk, device, k)?;
    let new = LEVELS.saturating_sub(found.node.depth) as usize;
    println!(desk.show;
        "  number {k} lies under ({}, {}) in slot {}, to which slot {} leads; new records to write: {new}",
        found.node.depth, found.node.first, found.slot, found.before
    );
    Some(Joint {
        slot: found.before,
        leads_to: found.slot,
        new,
    })
}

// Restarts a device, shows the file before anything is swept, and says whether the join stood: whether its slot leads elsewhere
// than before.
fn restart(desk: &mut Desk, device: &mut Device, joint: &Joint) -> bool {
    match device.restart() {
        Ok(()) => desk.show.println("  the device is restarted"),
        Err(_) => desk.show.println("  the device does not restart"),
    }
    show_file(desk, device, true);
    let Joint { slot, leads_to, .. } = *joint;
    let Some(now) = led_to(device, slot) else {
        desk.show.expect(false, "the slot of a join cannot be read");
        return false;
    };
    let stood = now != leads_to;
    println!(desk.show;
        "  slot {slot} led to slot {leads_to} and now leads to slot {now}: the join stood: {stood}"
    );
    stood
}

// Reopens, shows the file, and says whether a number is spent exactly when its join stood.
fn judge<'a>(desk: &mut Desk, cold: Down<'a>, k: usize, stood: bool) -> Here<'a> {
    let server = reopen(desk, cold)?;
    let device = device_of(Ok(server));
    desk.show.println("  the server is reopened");
    show_file(desk, &device, false);
    let spent = covering(desk, &device, k).is_none();
    println!(desk.show;
        "  number {k} is spent: {spent}; spent exactly when its join stood: {}",
        spent == stood
    );
    desk.show.expect(
        spent == stood,
        "a number is spent otherwise than its join stood",
    );
    reopen(desk, cold_on(device))
}

// A ticket whose redemption meets a power cut; then restart, reopening, and the same ticket again.
fn cut<'a>(
    desk: &mut Desk,
    server: Up<'a>,
    k: usize,
    failing: Failing,
    standing: usize,
) -> Here<'a> {
    let device = device_of(Ok(server));
    let Some(joint) = joint_of(desk, &device, k) else {
        desk.show.expect(false, "a number to be redeemed is spent");
        return reopen(desk, cold_on(device));
    };
    let done = joint.new.saturating_add(failing as usize);
    let after = RAW_WRITES.saturating_mul(done).saturating_add(TURN);
    println!(desk.show;
        "  the power is to fail after {after} raw writes; bytes of the next one that stand: {standing}"
    );
    let mut image = device.into_below();
    image.appoint(Cut { after, standing });
    let server = reopen(desk, cold_on(Journal::new(image)))?;
    let mut device = device_of(come(desk, server, k));
    let stood = restart(desk, &mut device, &joint);
    let server = judge(desk, cold_on(device), k, stood)?;
    come(desk, server, k)
}

fn happen<'a>(desk: &mut Desk, server: Up<'a>, event: Event) -> Here<'a> {
    match event {
        Event::Title(text) => {
            desk.show.println(text);
            Ok(server)
        }
        Event::Look => look(desk, server),
        Event::Issue(k) => issue(desk, server, k),
        Event::Come(k) => come(desk, server, k),
        Event::Forge(k) => forge(desk, server, k),
        Event::Cut(k, failing, standing) => cut(desk, server, k, failing, standing),
    }
}

fn day<'a>(desk: &mut Desk, server: Here<'a>, events: &[Event]) -> Here<'a> {
    let mut server = server?;
    for event in events {
        server = happen(desk, server, *event)?;
    }
    Ok(server)
}

fn first_day(desk: &mut Desk, image: &mut [u8; IMAGE]) {
    desk.show.println("1. The tree is made");
    let made = make(desk, image);
    drop(device_of(day(desk, made, &FIRST_DAY)));
    desk.show.println("  the desk is closed");
}

// The same image, opened again.
fn second_day(desk: &mut Desk, image: &mut [u8; IMAGE]) {
    desk.show.println("8. The same image is opened again");
    let server = reopen(desk, cold_on(Journal::new(ByteImage::new(image))));
    let device = device_of(day(desk, server, &SECOND_DAY));
    sum_up(desk, &device);
}

// Says for every ticket whether the file still covers its number, and how many times its state was given.
fn sum_up(desk: &mut Desk, device: &Device) {
    desk.show.println("10. The tickets at the end");
    for (k, (name, _)) in MANAGERS.iter().enumerate() {
        print!(desk.show; "  ticket {k}, {name}: ");
        match covering(desk, device, k) {
            Some(found) => print!(desk.show;
                "unspent, under ({}, {})",
                found.node.depth, found.node.first
            ),
            None => desk.show.print("spent"),
        }
        println!(desk.show; "; states given {}", desk.given[k % MANAGERS.len()].states);
    }
}

fn main(rt: HostRuntime) -> anyhow::Result<()> {
    let mut image = [0; IMAGE];
    let mut desk = Desk::new(&rt);
    first_day(&mut desk, &mut image);
    second_day(&mut desk, &mut image);
    desk.show.end()
}
