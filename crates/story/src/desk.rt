//! The desk: where the story is printed, the tickets that are out, and what is lent to the server's calls.
use crate::days::MANAGERS;
use fault::Fault;
use samples::{Bytes, Show};
use scratch::Scratch;

/// The journal's slots.
pub(crate) const SLOTS: usize = 30;

/// What a manager was given.
#[derive(Clone, Copy)]
pub(crate) struct Given {
    pub(crate) ticket: Bytes,
    /// how many times the state came back
    pub(crate) states: u32,
}

#[derive(Drop)]
pub(crate) struct Desk<'a> {
    pub(crate) show: Show<'a>,
    /// what each manager was given
    pub(crate) given: [Given; MANAGERS.len()],
    pub(crate) marks: [u8; SLOTS],
    pub(crate) scratch: Scratch,
}

impl<'a> Desk<'a> {
    pub(crate) fn new(rt: &'a HostRuntime) -> Desk<'a> {
        let nothing = Given {
            ticket: Bytes::none(),
            states: 0,
        };
        Desk {
            show: Show::new(rt),
            given: [nothing; MANAGERS.len()],
            marks: [0; SLOTS],
            scratch: Scratch::new(),
        }
    }

    /// Says why a call was declined, if it was.
    pub(crate) fn tell(&mut self, fault: Option<Fault>) {
        if let Some(fault) = fault {
            println!(self.show; "  {fault}");
        }
    }
}
