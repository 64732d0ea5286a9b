//! What is done to the bytes that are sent: a record or a ticket.
use samples::Bytes;

/// One change.
#[derive(Clone, Copy)]
pub(crate) enum Edit {
    /// another length
    Length(usize),
    /// so many bytes more than the sealer's overhead
    Beyond(usize),
    /// the last byte is left out
    Shorter,
    /// another byte at a place
    Put(usize, u8),
    /// one bit of the byte at a place is turned over
    Turn(usize),
    /// one bit of the last byte is turned over
    TurnLast,
}

// Put and turn are two, and no closure for the change: its clause would be longer than the second.
fn put(bytes: &mut Bytes, at: usize, to: u8) {
    if let Some(byte) = bytes.row.get_mut(at) {
        *byte = to;
    }
}

fn turn(bytes: &mut Bytes, at: usize) {
    if let Some(byte) = bytes.row.get_mut(at) {
        *byte ^= 1;
    }
}

fn apply(bytes: &mut Bytes, overhead: usize, edit: Edit) {
    let last = bytes.length.saturating_sub(1);
    match edit {
        Edit::Length(length) => bytes.length = length,
        Edit::Beyond(length) => bytes.length = overhead.saturating_add(length),
        Edit::Shorter => bytes.length = last,
        Edit::Put(at, to) => put(bytes, at, to),
        Edit::Turn(at) => turn(bytes, at),
        Edit::TurnLast => turn(bytes, last),
    }
}

/// The bytes after some changes.
pub(crate) fn edited(bytes: &Bytes, overhead: usize, edits: &[Edit]) -> Bytes {
    let mut changed = *bytes;
    for edit in edits {
        apply(&mut changed, overhead, *edit);
    }
    changed
}
