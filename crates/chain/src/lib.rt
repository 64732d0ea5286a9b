//! Reading a key file: its head and its chain of node records, or the first refusal that applies.
//!
//! It needs a device that can be read, and nothing else. What a file is stands in specs/Reading.antt, what the calls
//! answer in specs/Outcome.antt, and what a server asks of the chain in specs/Listing.antt.
#![tactic(auto)]

ghost use Rattle.std.specs.Prelude.{◌≡◌, suc, ◌+◌, ◌^◌, ◌<◌, max, true, List, length, Some, None, Ok};
ghost use Rattle.octets.specs.Buffers.{zeros};
ghost use Rattle.device.specs.Effects.{blank};
ghost use Rattle.fault.specs.Faults.{placed};
ghost use Rattle.refusal.specs.declared.Refusal.TheVariants.{BadLink};
ghost use Rattle.tree.specs.Nodes.{tree_levels, IsNode};
ghost use Rattle.chain.specs.Reading.{Link, end_of, is_twin, may_follow, walk, chain_of};
ghost use Rattle.chain.specs.Listing.{counted, tally_of, none_yet, marked_all};
ghost use Rattle.chain.specs.Outcome.{reading_of, answer_of, marks_of, head_read, record_read};
ghost use Rattle.layout.specs.declared.Head.{Head};
ghost use Rattle.chain.specs.Sound.{FileLaws, FreeAre, FreeCount, free_in};
ghost use Rattle.chain.specs.Steps.{Preceding};
ghost use Rattle.marks.specs.Rows.{first_of};

use device::{ReadSlots, SLOT_SIZE};
use fault::Halt;
use layout::{Head, NodeFields, Numbers, decode_head, decode_node};
use marks::{count_unmarked, first_unmarked, mark, room};
use octets::{Wiped, clear};
use refusal::Refusal;
use steps::read_at;
use tree::{LEVELS, Node};

/// How many numbers the tree has.
pub const LEAVES: u32 = 1 << LEVELS;

/// The number of numbers.
pub fn leaves_stand()
    ensures { LEAVES ≡ 2 ^ tree_levels }
{}

/// A record of the chain, with the slots of its neighbours.
#[derive(Clone, Copy)]
pub struct Found {
    pub slot: u16,
    /// the slot of the record before it, or of the head, which is 0
    pub before: u16,
    pub node: Node,
    /// the slot of the record after it, 0 for none
    // no Option: as in a record
    pub next: u16,
}

/// What reading a file tells.
#[derive(Clone, Copy)]
pub struct Survey {
    pub head: Head,
    /// how many records the chain has
    pub length: u32,
    /// the record that covers the number asked for
    pub found: Option<Found>,
}

// What a walk has met so far.
#[derive(Clone, Copy)]
struct Tally {
    length: u32,
    // the lowest number that is not issued and lies under no record so far
    lowest: u32,
    found: Option<Found>,
}

fn bad_link(slot: u16) -> Halt
    ensures { result ≡ placed BadLink slot }
{
    Halt::at(Refusal::BadLink, u32::from(slot))
}

// Reads the head, which has to name this generator and this sealer.
fn read_head<D: ReadSlots>(
    device: &D,
    numbers: Numbers,
    slot: &mut [u8; SLOT_SIZE],
) -> Result<Head, Halt>
    ensures { result ≡ head_read tree_levels numbers (D.state device.now) }
{
    read_at(device, 0, slot)?;
    decode_head(LEVELS, slot)
        .filter(|head| head.numbers == numbers)
        .ok_or(Halt::plain(Refusal::BadHead))
}

// Reads a record of the chain.
fn read_record<D: ReadSlots>(
    device: &D,
    index: u16,
    slot: &mut [u8; SLOT_SIZE],
) -> Result<NodeFields, Halt>
    ensures { result ≡ record_read tree_levels (D.state device.now) index }
{
    read_at(device, index, slot)?;
    decode_node(LEVELS, slot).ok_or(bad_link(index))
}

// The number after the last one that a node covers.
fn end_of(node: Node) -> u32
    requires { IsNode tree_levels node }
    ensures { result ≡ end_of tree_levels node }
{
    node.first + node.width(LEVELS)
}

// Whether two nodes are the children of one node, the left one first.
fn is_twin(left: Node, right: Node) -> bool
    requires { (IsNode tree_levels left) × (IsNode tree_levels right) }
    ensures { result ≡ is_twin tree_levels left right }
{
    left.has_sibling(LEVELS, &right)
}

// Whether a node may come after the one that ends at `from`.
fn may_follow(from: u32, before: Option<Node>, node: Node) -> bool
    requires { (Preceding tree_levels before from) × (IsNode tree_levels node) }
    ensures { result ≡ may_follow tree_levels from before node }
{
    from <= node.first && before.is_none_or(|left| !is_twin(left, node))
}

impl Tally {
    // One more record.
    fn with(self, wanted: u32, here: Found) -> Tally
        requires { (IsNode tree_levels here.node) × (self.length < 2 ^ tree_levels) }
        ensures { result ≡ counted tree_levels wanted self here }
    {
        let end = end_of(here.node);
        let lowest = if here.node.first <= self.lowest {
            self.lowest.max(end)
        } else {
            self.lowest
        };
        let covers = here.node.first <= wanted && wanted < end;
        Tally {
            length: self.length + 1,
            lowest,
            found: self.found.or(covers.then_some(here)),
        }
    }
}

// Walks along the chain, marks its slots and looks for the record that covers a number. Each record ends after the one
// before it, so the walk ends on every file. That the power is on is asked for, here and above: a device that a call may cut has no
// type that says it.
fn walk_along<D: ReadSlots>(
    device: &D,
    head: &Head,
    wanted: u32,
    marks: &mut [u8],
    slot: &mut [u8; SLOT_SIZE],
) -> Result<Tally, Halt>
    requires { (D.state device.now).power ≡ true }
    ensures is { result ≡ tally_of tree_levels wanted (none_yet head.now.issued) 0 (walk tree_levels (suc (2 ^ tree_levels)) (D.state device.now).slots 0 None 0 head.now.first) }
    ensures marks { (xs : List Link) → walk tree_levels (suc (2 ^ tree_levels)) (D.state device.now).slots 0 None 0 head.now.first ≡ Ok xs → marks.new ≡ marked_all marks.old xs }
{
    let count = device.count();
    let mut tally = Tally {
        length: 0,
        lowest: head.issued,
        found: None,
    };
    let mut before = None;
    // where `before` ends: the walk's definition steps both
    let mut from = 0;
    let mut last = 0;
    let mut next = head.first;
    // links and no index: each record names the next
    while next != 0 {
        if next as usize >= count {
            return Err(bad_link(last));
        }
        let fields = read_record(device, next, slot)?;
        let node = Node::from(fields);
        if !may_follow(from, before, node) {
            return Err(bad_link(next));
        }
        mark(marks, next as usize);
        tally = tally.with(
            wanted,
            Found {
                slot: next,
                before: last,
                node,
                next: fields.next,
            },
        );
        from = end_of(node);
        before = Some(node);
        last = next;
        next = fields.next;
    }
    Ok(tally)
}

// Walks along the chain behind a head; then a number that is not issued has to lie under a record.
fn judge<D: ReadSlots>(
    device: &D,
    head: &Head,
    wanted: u32,
    marks: &mut [u8],
    slot: &mut [u8; SLOT_SIZE],
) -> Result<Survey, Halt>
    requires { (D.state device.now).power ≡ true }
    ensures is { result ≡ answer_of tree_levels (Some wanted) (chain_of tree_levels head.now (D.state device.now).slots) }
    ensures marks { (h : Head) (xs : List Link) → chain_of tree_levels head.now (D.state device.now).slots ≡ Ok (h, xs) → marks.new ≡ marked_all marks.old xs }
{
    let tally = walk_along(device, head, wanted, marks, slot)?;
    if tally.lowest < LEAVES {
        return Err(Halt::at(Refusal::Uncovered, tally.lowest));
    }
    Ok(Survey {
        head: *head,
        length: tally.length,
        found: tally.found,
    })
}

// Marks and slot stay two, here and in the calls: each buffer has its own length and its own promise, and a struct of borrows would be
// made for each call and taken apart in it. What each holds afterwards is a clause of each call: between reading and end the marks stand.
/// Reads a file: its head, its chain's length, and the record that covers the number asked for, or else the number to be
/// issued next. Afterwards just the slots of the chain are marked, and none where reading is declined. `slot` is lent for
/// key material, and zero afterwards.
pub fn read_marking<D: ReadSlots>(
    device: &D,
    numbers: Numbers,
    asked: Option<u32>,
    marks: &mut [u8],
    slot: &mut [u8; SLOT_SIZE],
) -> Result<Survey, Halt>
    ensures is { result ≡ answer_of tree_levels asked (reading_of tree_levels numbers (length marks.old) (D.state device.now)) }
    ensures marks { marks.new ≡ marks_of (length marks.old) (reading_of tree_levels numbers (length marks.old) (D.state device.now)) }
    ensures wiped { slot.new ≡ blank }
{
    let guard = Wiped { pad: slot };
    clear(marks);
    if marks.len() < room(device.count()) {
        return Err(Halt::plain(Refusal::ShortBuffer));
    }
    let head = read_head(device, numbers, guard.pad)?;
    let wanted = asked.unwrap_or(head.issued);
    let survey = judge(device, &head, wanted, marks, guard.pad);
    if survey.is_err() {
        clear(marks);
    }
    survey
}

/// Reads a file as `read_marking` does, and leaves no marks. The laws say what a file that is read is, what is told of one
/// that is not, and that a chain laid out as the cover of the spent numbers is read back.
#[tactic(auto, using(crate::proofs::Backs::file_laws))]
pub fn read_file<D: ReadSlots>(
    device: &D,
    numbers: Numbers,
    asked: Option<u32>,
    marks: &mut [u8],
    slot: &mut [u8; SLOT_SIZE],
) -> Result<Survey, Halt>
    ensures is { result ≡ answer_of tree_levels asked (reading_of tree_levels numbers (length marks.old) (D.state device.now)) }
    ensures marks { marks.new ≡ zeros (length marks.old) }
    ensures wiped { slot.new ≡ blank }
    ensures laws { FileLaws }
{
    let read = read_marking(device, numbers, asked, marks, slot);
    clear(marks);
    read
}

/// How many slots are free, by the marks that a reading left: the slots other than 0 off the chain.
pub fn count_free(marks: &[u8], count: usize) -> usize
    ensures is { result ≡ length (free_in 1 count marks.now) }
    ensures free { FreeAre }
    ensures sum { FreeCount }
{
    count_unmarked(marks, 1, count)
}

/// The lowest free slot from a slot on, by the marks that a reading left.
pub fn next_free(marks: &[u8], from: usize, count: usize) -> Option<usize>
    ensures is { result ≡ first_of (free_in (max from 1) count marks.now) }
    ensures free { FreeAre }
{
    first_unmarked(marks, from.max(1), count)
}
