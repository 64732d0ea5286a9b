//! Looking at a key file: its head, how many records and free slots it has, and its records along the chain.
//!
//! It needs a device that can be read, and alters nothing. A running server is looked at through `Running::look` and
//! `Running::records`; here are the same over a bare device.
#![tactic(auto)]

ghost use Rattle.std.specs.Prelude.{◌≡◌, length};
ghost use Rattle.octets.specs.Buffers.{zeros};
ghost use Rattle.device.specs.Effects.{blank};
ghost use Rattle.tree.specs.Nodes.{tree_levels};
ghost use Rattle.chain.specs.Outcome.{reading_of};
ghost use Rattle.looking.specs.Looks.{look_of};
ghost use Rattle.looking.specs.Chains.{record_in, chain_from, ListsChain};

use chain::read_file;
use device::{ReadSlots, SLOT_SIZE};
use fault::Halt;
use layout::{Head, NodeFields, Numbers, decode_node};
use octets::{Wiped, clear};
use tree::LEVELS;

/// What a look tells.
#[derive(Clone, Copy)]
pub struct Look {
    /// the head: the key name, how many numbers are issued, where the chain begins
    pub head: Head,
    /// how many records the chain has
    pub records: u32,
    /// how many slots are neither the head's nor on the chain
    pub free: usize,
}

/// Looks at a file: what reading it comes to, with its refusals. The marks and the lent slot hold zeros afterwards.
pub fn look_on<D: ReadSlots>(
    device: &D,
    numbers: Numbers,
    marks: &mut [u8],
    slot: &mut [u8; SLOT_SIZE],
) -> Result<Look, Halt>
    ensures is { result ≡ look_of (D.state device.now).slots (reading_of tree_levels numbers (length marks.old) (D.state device.now)) }
    ensures marks { marks.new ≡ zeros (length marks.old) }
    ensures wiped { slot.new ≡ blank }
{
    let survey = read_file(device, numbers, None, marks, slot)?;
    Ok(Look {
        head: survey.head,
        records: survey.length,
        free: device.count() - 1 - survey.length as usize,
    })
}

/// The record that a slot holds; none where the slot holds no record, or cannot be read. `bytes` is lent for key material,
/// and zero afterwards.
pub fn record_at<D: ReadSlots>(
    device: &D,
    slot: u16,
    bytes: &mut [u8; SLOT_SIZE],
) -> Option<NodeFields>
    ensures is { result ≡ record_in tree_levels (D.state device.now) slot }
    ensures wiped { bytes.new ≡ blank }
{
    let guard = Wiped { pad: bytes };
    device.read(slot as usize, guard.pad).ok()?;
    decode_node(LEVELS, guard.pad)
}

/// The records of a chain in its order, each with its slot and without its value. None stands for one that cannot be read,
/// and nothing comes after it.
#[derive(Drop)]
pub struct Records<'a, D> {
    device: &'a D,
    // lent for what is read, and zero before and after each record
    pad: &'a mut [u8; SLOT_SIZE],
    // the slot of the next, and how many are to come
    slot: u16,
    left: u32,
}

impl<'a, D: ReadSlots> Records<'a, D> {
    ghost use Rattle.looking.specs.Left.{Lent, records_left};

    /// The records of a chain of so many, of which the first is in a slot. `bytes` is lent for key material, and zero before and
    /// after each record and at the end. Of a file that is read the records are its chain's.
    #[tactic(auto, using(crate::proofs::Listed::lists_chain))]
    pub fn new(
        device: &'a D,
        first: u16,
        count: u32,
        bytes: &'a mut [u8; SLOT_SIZE],
    ) -> Records<'a, D>
        ensures is { records_left D.state result ≡ chain_from tree_levels (D.state device.now) first count }
        ensures lent { Lent bytes.entry result }
        ensures chain { ListsChain }
    {
        clear(bytes);
        Records {
            device,
            pad: bytes,
            slot: first,
            left: count,
        }
    }
}

impl<'a, D: ReadSlots> Iterator for Records<'a, D> {
    ghost use Rattle.std.specs.Iterator.{item_count};
    ghost use Rattle.looking.specs.Left.{records_left, NextRecord};

    type Item = (u16, Option<NodeFields>);

    ghost next_gives = { NextRecord D.state };

    ghost remaining = { item_count (records_left D.state) };

    fn next(&mut self) -> Option<(u16, Option<NodeFields>)> {
        self.left = self.left.checked_sub(1)?;
        let slot = self.slot;
        let record = record_at(self.device, slot, self.pad);
        match record {
            Some(fields) => self.slot = fields.next,
            None => self.left = 0,
        }
        Some((slot, record))
    }
}
