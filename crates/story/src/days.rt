//! The managers that the desk serves, and what happens on its two days.
use session::SessionState;

// Taken by the remainder: to the check an event's number is any number.
/// A manager's name, and how long the ticket may be used, in seconds. Manager k is given ticket k.
pub(crate) const MANAGERS: [(&str, u32); 7] = [
    ("Alder Pensions", 3_600),
    ("Birch Trust", 86_400),
    ("Cedar Fund", 604_800),
    ("Dogwood Mutual", 7_200),
    ("Elm Annuities", 43_200),
    ("Fir Provident", 300),
    ("Hazel Superannuation", 259_200),
];

/// The write of a redemption at which the power fails, by how many writes come between the new records and it.
#[derive(Clone, Copy)]
pub(crate) enum Failing {
    Join = 0,
    Erasure = 1,
}

/// What happens at the desk.
#[derive(Clone, Copy)]
pub(crate) enum Event {
    Title(&'static str),
    /// the file is shown
    Look,
    /// a manager is issued a ticket
    Issue(usize),
    /// a manager comes with the ticket
    Come(usize),
    /// somebody sends a ticket with one byte changed
    Forge(usize),
    /// a manager comes and the power fails, with so many bytes of the raw write standing that raises the journal's flag; then
    /// restart, reopening, and the same ticket again
    Cut(usize, Failing, usize),
}

use Event::{Come, Cut, Forge, Issue, Look, Title};

pub(crate) const FIRST_DAY: [Event; 20] = [
    Look,
    Title("2. Five managers are issued tickets"),
    Issue(0),
    Issue(1),
    Issue(2),
    Issue(3),
    Issue(4),
    Look,
    Title("3. A first flight, and the same flight repeated"),
    Come(1),
    Come(1),
    Look,
    Title("4. The power fails at the join, and the join does not stand"),
    Cut(3, Failing::Join, 0),
    Title("5. The power fails at the join, and the join stands"),
    Cut(4, Failing::Join, 1),
    Title("6. The power fails at the erasure, and the erasure does not stand"),
    Cut(2, Failing::Erasure, 0),
    Title("7. The power fails at the erasure, and the erasure stands"),
    Cut(0, Failing::Erasure, 64),
];

pub(crate) const SECOND_DAY: [Event; 8] = [
    Look,
    Title("9. The desk goes on"),
    Issue(5),
    Issue(6),
    Come(6),
    Come(1),
    Forge(5),
    Look,
];

/// The state of manager k's session.
pub(crate) fn state_of(k: usize) -> SessionState {
    let (name, lifetime) = MANAGERS[k % MANAGERS.len()];
    SessionState {
        lifetime,
        ..samples::session(name.as_bytes(), (k % MANAGERS.len()) as u8)
    }
}
