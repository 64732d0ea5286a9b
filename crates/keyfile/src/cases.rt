//! The damaged files, one a row: the bytes that change, each by its slot, its place there and its new value; the refusal and
//! its place. Record k of the chain stands in slot 7 k mod 17 + 1: the first three in slots 1, 8 and 15, the last in slot 4.
use refusal::Refusal::{self, BadHead, BadLink, Uncovered};
use samples::Change;

pub(crate) type FileCase = (&'static str, &'static [Change], Refusal, u32);

pub(crate) const DAMAGED: [FileCase; 13] = [
    ("head of a tree of 17 levels", &[(0, 1, 17)], BadHead, 0),
    (
        "head with a byte that should be zero",
        &[(0, 63, 1)],
        BadHead,
        0,
    ),
    ("head that names generator 2", &[(0, 26, 2)], BadHead, 0),
    ("head that leads to slot 20", &[(0, 5, 20)], BadLink, 0),
    (
        "second record with a byte that should be zero",
        &[(8, 6, 1)],
        BadLink,
        8,
    ),
    ("second record of depth 17", &[(8, 1, 17)], BadLink, 8),
    (
        "second record that leads to slot 20",
        &[(8, 5, 20)],
        BadLink,
        8,
    ),
    ("second record that begins at 3", &[(8, 3, 3)], BadLink, 8),
    (
        "last record that leads to the first",
        &[(4, 5, 1)],
        BadLink,
        1,
    ),
    ("third record off the chain", &[(8, 5, 5)], Uncovered, 6),
    ("last record off the chain", &[(14, 5, 0)], Uncovered, 32768),
    ("only 5 numbers issued", &[(0, 9, 5)], Uncovered, 5),
    (
        "third record that is the second's sibling",
        &[(15, 1, 16), (15, 3, 5)],
        BadLink,
        15,
    ),
];
