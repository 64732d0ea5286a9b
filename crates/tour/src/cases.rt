//! What the four walks start from.
use session::{SECRET_LENGTH, SessionState, Suite};
use std::array;
use ticket::NAME;

/// A session, with the root value, the key name and the ticket number of its walk. A row of bytes is told by the first byte and
/// by what each adds to the one before.
#[derive(Clone, Copy)]
pub(crate) struct Case {
    root: (u8, u8),
    pub(crate) name: &'static [u8; NAME],
    pub(crate) number: u32,
    suite: Suite,
    issued_at: u64,
    lifetime: u32,
    age_add: u32,
    early_data_limit: u32,
    secret: (u8, u8),
    session: &'static str,
}

/// The second session has no name and the longest lifetime, the third the longest name and the shortest lifetime.
pub(crate) const CASES: [Case; 4] = [
    Case {
        root: (0x11, 7),
        name: b"tour key name 01",
        number: 1,
        suite: Suite::Aes128GcmSha256,
        issued_at: 1_700_000_000,
        lifetime: 7_200,
        age_add: 0x0102_0304,
        early_data_limit: 16_384,
        secret: (0xa0, 1),
        session: "alice.example",
    },
    Case {
        root: (0xff, 29),
        name: b"tour key name 02",
        number: 40_000,
        suite: Suite::ChaCha20Poly1305Sha256,
        issued_at: 1_700_003_600,
        lifetime: 604_800,
        age_add: 0xfedc_ba98,
        early_data_limit: 0,
        secret: (3, 5),
        session: "",
    },
    Case {
        root: (0x80, 3),
        name: b"tour key name 03",
        number: 65_535,
        suite: Suite::Aes256GcmSha384,
        issued_at: 4_102_444_800,
        lifetime: 1,
        age_add: 77,
        early_data_limit: 4_294_967_295,
        secret: (0x5a, 11),
        session: "a name of just thirty-two bytes.",
    },
    Case {
        root: (0, 251),
        name: b"tour key name 04",
        number: 258,
        suite: Suite::Aes128GcmSha256,
        issued_at: 1_234_567_890_123,
        lifetime: 86_400,
        age_add: 0x8000_0000,
        early_data_limit: 1_000,
        secret: (0xee, 13),
        session: "bob",
    },
];

fn row((first, step): (u8, u8)) -> [u8; SECRET_LENGTH] {
    array::from_fn(|k| first.wrapping_add(step.wrapping_mul(k as u8)))
}

impl Case {
    /// The root value.
    pub(crate) fn root(&self) -> [u8; SECRET_LENGTH] {
        row(self.root)
    }

    /// The session's state.
    pub(crate) fn state(&self) -> SessionState {
        SessionState {
            suite: self.suite,
            issued_at: self.issued_at,
            lifetime: self.lifetime,
            age_add: self.age_add,
            early_data_limit: self.early_data_limit,
            secret: row(self.secret),
            ..samples::session(self.session.as_bytes(), 0)
        }
    }
}
