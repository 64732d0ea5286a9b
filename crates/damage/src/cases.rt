//! The cases, one a row. What has no name is checked alone, and neither shown nor counted.
// Their name is "", since an Option would set Some around every other name.
ghost use Rattle.std.specs.Prelude.{◌≡◌};

use crate::edits::Edit::{self, Beyond, Length, Put, Shorter, Turn, TurnLast};
use fault::Call::{self, Issue, Make, Redeem, Reopen};
use refusal::Refusal::{
    self, BadHead, BadLink, Exhausted, NoFreeSlot, NoPower, NotIssued, OtherName, SealBroken,
    Spent, TicketLength, Uncovered,
};
use row::Cut;
use samples::Change;
use session::MAX_RECORD;
use ticket::MAX_TICKET;

/// A refusal and its place.
pub(crate) type Refused = (Refusal, u32);

/// The library's limits in plain numbers, which the tables here and `Asked::new` hold against it: they take none from it.
pub(crate) fn limits_stand()
    ensures ticket { MAX_TICKET ≡ 139 }
    ensures record { MAX_RECORD ≡ 87 }
{}

/// Lent buffers: what, the call, the bytes lent for the answer, and those for marks.
pub(crate) const SHORT: [(&str, Call, usize, usize); 5] = [
    ("138 bytes for a ticket", Issue, 138, 18),
    ("17 bytes of marks for 18 slots", Issue, 139, 17),
    ("86 bytes for a state", Redeem, 86, 18),
    ("17 bytes of marks for 18 slots", Redeem, 87, 17),
    ("17 bytes of marks for 18 slots", Reopen, 0, 17),
];

/// Devices of too few and too many slots: what, the call, the slots, and the bytes lent for marks.
pub(crate) const COUNTS: [(&str, Call, usize, usize); 4] = [
    ("17 slots", Make, 17, 0),
    ("17 slots", Reopen, 17, 17),
    ("1025 slots", Make, 1025, 0),
    ("1025 slots", Reopen, 1025, 1025),
];

/// What is done to the record to be issued.
pub(crate) const RECORDS: [(&str, &[Edit]); 7] = [
    ("no bytes", &[Length(0)]),
    ("54 bytes", &[Length(54)]),
    ("a byte left over", &[Length(63)]),
    ("suite 1304", &[Put(1, 4)]),
    ("lifetime 604801", &[Put(13, 0x81)]),
    ("lifetime 0", &[Put(11, 0), Put(12, 0), Put(13, 0)]),
    ("a name of 33 bytes", &[Put(54, 33)]),
];

/// What is done to the ticket of a number, and how it is refused.
pub(crate) const TICKETS: [(&str, usize, &[Edit], Refused); 14] = [
    ("no bytes", 1, &[Length(0)], (TicketLength, 0)),
    ("a byte too short", 1, &[Beyond(74)], (TicketLength, 0)),
    ("a byte too long", 1, &[Beyond(108)], (TicketLength, 0)),
    (
        "too short, another key name",
        1,
        &[Beyond(74), Turn(0)],
        (TicketLength, 0),
    ),
    ("another key name", 1, &[Turn(15)], (OtherName, 0)),
    (
        "another key name, number 5",
        1,
        &[Turn(15), Put(19, 5)],
        (OtherName, 0),
    ),
    ("number 5", 1, &[Put(19, 5)], (NotIssued, 5)),
    (
        "number 65536",
        1,
        &[Put(17, 1), Put(19, 0)],
        (NotIssued, 65536),
    ),
    ("number 0 again", 0, &[], (Spent, 0)),
    ("number 0 again, seal broken", 0, &[Turn(30)], (Spent, 0)),
    ("first sealed byte changed", 1, &[Turn(20)], (SealBroken, 1)),
    ("last byte changed", 1, &[TurnLast], (SealBroken, 1)),
    ("last byte missing", 1, &[Shorter], (SealBroken, 1)),
    ("number 1 told as 3", 1, &[Put(19, 3)], (SealBroken, 3)),
];

/// A file that is damaged: the bytes that change, each by its slot, its place there and its new value; and how it is
/// refused. With number 0 spent the chain's record k stands in slot 18 - k: (16, 1) in 17, (15, 2) in 16, (14, 4) in 15.
pub(crate) type FileCase = (&'static str, &'static [Change], Refused);

pub(crate) const HEADS: [FileCase; 9] = [
    ("first byte 2", &[(0, 0, 2)], (BadHead, 0)),
    ("a tree of 17 levels", &[(0, 1, 17)], (BadHead, 0)),
    ("last byte 1", &[(0, 63, 1)], (BadHead, 0)),
    ("65541 numbers issued", &[(0, 7, 1)], (BadHead, 0)),
    ("", &[(0, 26, 1)], (BadHead, 0)),
    ("generator 3", &[(0, 26, 3)], (BadHead, 0)),
    ("", &[(0, 27, 1)], (BadHead, 0)),
    ("sealer 3", &[(0, 27, 3)], (BadHead, 0)),
    ("first index 18", &[(0, 5, 18)], (BadLink, 0)),
];

pub(crate) const LINKS: [FileCase; 13] = [
    ("third, first byte 1", &[(15, 0, 1)], (BadLink, 15)),
    ("third, depth 17", &[(15, 1, 17)], (BadLink, 15)),
    ("third, first number 5", &[(15, 3, 5)], (BadLink, 15)),
    ("", &[(15, 6, 1)], (BadLink, 15)),
    ("third, byte 31 is 1", &[(15, 31, 1)], (BadLink, 15)),
    ("third leads to slot 18", &[(15, 5, 18)], (BadLink, 15)),
    ("third leads far away", &[(15, 4, 0xff)], (BadLink, 15)),
    ("third leads to the first", &[(15, 5, 17)], (BadLink, 17)),
    ("", &[(2, 5, 17)], (BadLink, 17)),
    ("third leads to itself", &[(15, 5, 15)], (BadLink, 15)),
    ("third begins at 0", &[(15, 3, 0)], (BadLink, 15)),
    (
        "second is the sibling of the first",
        &[(17, 3, 0), (16, 1, 16), (16, 3, 1)],
        (BadLink, 16),
    ),
    ("third leads to a free slot", &[(15, 5, 1)], (BadLink, 1)),
];

pub(crate) const UNCOVERED: [FileCase; 5] = [
    ("count of issued numbers 0", &[(0, 9, 0)], (Uncovered, 0)),
    ("last record cut off", &[(3, 5, 0)], (Uncovered, 32768)),
    ("third record left out", &[(16, 5, 14)], (Uncovered, 5)),
    ("", &[(15, 5, 13)], (Uncovered, 8)),
    ("no chain", &[(0, 5, 0)], (Uncovered, 5)),
];

/// A step of a series on one file: the call, the number of the record or ticket, the power cut if there is
/// one, and how it is refused if it is.
pub(crate) type Step = (&'static str, Call, usize, Option<Cut>, Option<Refused>);

pub(crate) const EXHAUSTED: [Step; 2] = [
    (
        "count of issued numbers 65536",
        Issue,
        5,
        None,
        Some((Exhausted, 0)),
    ),
    (
        "in the same file, redeem of number 3",
        Redeem,
        3,
        None,
        None,
    ),
];

/// With 18 slots and number 0 spent one slot is free: number 2 needs one, number 4 two.
pub(crate) const CROWDED: [Step; 4] = [
    (
        "one free slot, number 4",
        Redeem,
        4,
        None,
        Some((NoFreeSlot, 4)),
    ),
    ("one free slot, redeem of number 2", Redeem, 2, None, None),
    (
        "after that, number 4",
        Redeem,
        4,
        None,
        Some((NoFreeSlot, 4)),
    ),
    (
        "after that, number 2 again",
        Redeem,
        2,
        None,
        Some((Spent, 2)),
    ),
];

pub(crate) const MADE: [Step; 3] = [
    (
        "cut at the third write of zeros",
        Make,
        0,
        Some(Cut {
            after: 2,
            standing: 0,
        }),
        Some((NoPower, 2)),
    ),
    (
        "cut at the root's record",
        Make,
        0,
        Some(Cut {
            after: 18,
            standing: 0,
        }),
        Some((NoPower, 1)),
    ),
    (
        "cut at the head",
        Make,
        0,
        Some(Cut {
            after: 19,
            standing: 0,
        }),
        Some((NoPower, 0)),
    ),
];

pub(crate) const RESTORED: [Step; 1] = [(
    "with that byte put back, redeem of number 3",
    Redeem,
    3,
    None,
    None,
)];

pub(crate) const OLD_HEAD: [Step; 2] = [
    (
        "cut at the head, old head left",
        Issue,
        5,
        Some(Cut {
            after: 0,
            standing: 0,
        }),
        Some((NoPower, 0)),
    ),
    ("  restarted, reopened, issue", Issue, 5, None, None),
];

pub(crate) const NEW_HEAD: [Step; 2] = [
    (
        "cut at the head, new head left",
        Issue,
        5,
        Some(Cut {
            after: 0,
            standing: 1,
        }),
        Some((NoPower, 0)),
    ),
    ("  restarted, reopened, issue", Issue, 5, None, None),
];

/// The redemption of number 2 has three writes: the new record, the join, the erasure.
pub(crate) const JOINED: [Step; 6] = [
    (
        "cut at the new record",
        Redeem,
        2,
        Some(Cut {
            after: 0,
            standing: 1,
        }),
        Some((NoPower, 1)),
    ),
    (
        "  then cut at its sweep",
        Reopen,
        2,
        Some(Cut {
            after: 0,
            standing: 0,
        }),
        Some((NoPower, 1)),
    ),
    (
        "  then cut at the join, old record left",
        Redeem,
        2,
        Some(Cut {
            after: 2,
            standing: 0,
        }),
        Some((NoPower, 17)),
    ),
    (
        "  then cut at the join, new record left",
        Redeem,
        2,
        Some(Cut {
            after: 2,
            standing: 1,
        }),
        Some((NoPower, 17)),
    ),
    ("", Reopen, 2, None, None),
    (
        "  restarted, reopened, number 2 again",
        Redeem,
        2,
        None,
        Some((Spent, 2)),
    ),
];

pub(crate) const ERASED: [Step; 3] = [
    (
        "cut at the erasure",
        Redeem,
        2,
        Some(Cut {
            after: 2,
            standing: 0,
        }),
        Some((NoPower, 16)),
    ),
    ("", Reopen, 2, None, None),
    (
        "  restarted, reopened, number 2 again",
        Redeem,
        2,
        None,
        Some((Spent, 2)),
    ),
];

/// The journal makes five raw writes of each write, and the fourth is the slot itself.
pub(crate) const TORN: [Step; 5] = [
    (
        "the join torn after 20 bytes",
        Redeem,
        2,
        Some(Cut {
            after: 8,
            standing: 20,
        }),
        Some((NoPower, 17)),
    ),
    (
        "  the restart torn after 33 bytes",
        Reopen,
        2,
        Some(Cut {
            after: 0,
            standing: 33,
        }),
        Some((NoPower, 0)),
    ),
    (
        "  the next restart cut",
        Reopen,
        2,
        Some(Cut {
            after: 0,
            standing: 0,
        }),
        Some((NoPower, 0)),
    ),
    ("  restarted and reopened", Reopen, 2, None, None),
    ("  number 2 again", Redeem, 2, None, Some((Spent, 2))),
];
