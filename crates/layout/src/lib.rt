//! The two records of a key file, each the 64 bytes of one slot: the head, and a node of the chain.
//!
//! The layouts stand in specs/Records.antt. A tree has `levels` levels below its root; a node's value is key
//! material and stays where it lies, in the last 32 bytes of its slot.
#![tactic(auto)]

ghost use Rattle.std.specs.Prelude.{◌≡◌, ℕ, ◌^◌, ◌<◌};
ghost use Rattle.tree.specs.Nodes.{node_at};
ghost use Rattle.layout.specs.Records.{encode_head, is_head, head_of, fields_of, encode_node, is_record, node_of, value_of, relinked, recounted};
ghost use Rattle.layout.specs.Trips.{HeadTrip, NodeTrip};

use octets::{get, is_blank, put};
use tree::{Node, has_node, has_numbers};

// A slot has 64 bytes here, and a key name 16, by no constant of crates device and ticket: a layout stands on no device and no ticket.

// The first byte of each record. Bytes and no enum: a slot may begin with any other, and then it holds no record.
const HEAD: u8 = 1;

const NODE: u8 = 2;

// Where the slot of the next record stands: in a head that of the chain's first.
const LINK_AT: usize = 4;

// Where the fields of a head stand.
const ISSUED_AT: usize = 6;

const NAME_AT: usize = 10;

const GENERATOR_AT: usize = 26;

const SEALER_AT: usize = 27;

// Where the first number and the value of a node stand.
const FIRST_AT: usize = 2;

const VALUE_AT: usize = 32;

/// The generator's number and the sealer's, as a key file names them.
// plain numbers: which generators and sealers there are is not known here
#[derive(Clone, Copy, PartialEq, Eq)]
pub struct Numbers {
    pub generator: u8,
    pub sealer: u8,
}

/// What the head of a key file says.
#[derive(Clone, Copy)]
pub struct Head {
    /// the slot of the chain's first record, 0 for none
    // no Option: `Some(0)` would have no bytes of its own, and an Option of a nonzero number would be taken apart wherever an index is
    // read, written or compared
    pub first: u16,
    /// how many numbers are issued
    pub issued: u32,
    /// the key name
    pub name: [u8; 16],
    /// the generator's number and the sealer's
    pub numbers: Numbers,
}

/// What a record of the chain says of its node, beside the value.
#[derive(Clone, Copy)]
pub struct NodeFields {
    pub depth: u8,
    /// the first number that the node covers
    pub first: u16,
    /// the slot of the next record, 0 for none
    // no Option: as in a head
    pub next: u16,
}

impl NodeFields {
    /// The fields of a node's record that leads on to the slot `next`. A record has two bytes for the first number.
    // No From: it takes the next slot too, and asks that the first number has two bytes.
    pub fn of(node: &Node, next: u16) -> NodeFields
        requires { node.now.first < 2 ^ 16 }
        ensures { result ≡ fields_of node.now next }
    {
        NodeFields {
            depth: node.depth,
            first: node.first as u16,
            next,
        }
    }
}

/// The node that a record is of.
impl From<NodeFields> for Node {
    ghost from_gives = { λ fields node. node ≡ node_at fields.depth fields.first };

    fn from(fields: NodeFields) -> Node {
        Node {
            depth: fields.depth,
            first: u32::from(fields.first),
        }
    }
}

/// Lays the head out in a slot.
#[tactic(auto, using(crate::proofs::Trips::head_trip), unfolding(crate::specs::Records::encode_head, octets::specs::Fields::bytes_of))]
pub fn encode_head(levels: u8, head: &Head, slot: &mut [u8; 64])
    ensures is { slot.new ≡ encode_head levels head.now }
    ensures trip { HeadTrip }
{
    *slot = [0; 64];
    slot[0] = HEAD;
    slot[1] = levels;
    put(slot, LINK_AT, head.first);
    put(slot, ISSUED_AT, head.issued);
    slot[GENERATOR_AT] = head.numbers.generator;
    slot[SEALER_AT] = head.numbers.sealer;
    slot[NAME_AT..GENERATOR_AT].copy_from_slice(&head.name);
}

/// The head that a slot holds, if it is laid out as one.
#[tactic(auto, using(crate::proofs::Trips::head_trip), unfolding(crate::specs::Records::head_of))]
pub fn decode_head(levels: u8, slot: &[u8; 64]) -> Option<Head>
    ensures is { result ≡ head_of levels slot.now }
    ensures trip { HeadTrip }
{
    if !is_head(levels, slot) {
        return None;
    }
    Some(Head {
        first: get(slot, LINK_AT),
        issued: get(slot, ISSUED_AT),
        name: slot[NAME_AT..GENERATOR_AT].try_into().ok()?,
        numbers: Numbers {
            generator: slot[GENERATOR_AT],
            sealer: slot[SEALER_AT],
        },
    })
}

// Whether a slot is laid out as the head of a tree of `levels` levels.
fn is_head(levels: u8, slot: &[u8; 64]) -> bool
    ensures { result ≡ is_head levels slot.now }
{
    slot[0] == HEAD
        && slot[1] == levels
        && is_blank(&slot[2..LINK_AT])
        && is_blank(&slot[SEALER_AT + 1..64])
        && has_numbers(levels, get(slot, ISSUED_AT))
}

/// Lays a node out in a slot.
#[tactic(auto, using(crate::proofs::Trips::node_trip), unfolding(crate::specs::Records::encode_node, octets::specs::Fields::bytes_of))]
pub fn encode_node(node: &NodeFields, value: &[u8; 32], slot: &mut [u8; 64])
    ensures is { slot.new ≡ encode_node node.now value.now }
    ensures trip { NodeTrip }
{
    *slot = [0; 64];
    slot[0] = NODE;
    slot[1] = node.depth;
    put(slot, FIRST_AT, node.first);
    put(slot, LINK_AT, node.next);
    slot[VALUE_AT..64].copy_from_slice(value);
}

/// The node that a slot holds, if it is laid out as one of a tree of `levels` levels.
#[tactic(auto, using(crate::proofs::Trips::node_trip), unfolding(crate::specs::Records::node_of))]
pub fn decode_node(levels: u8, slot: &[u8; 64]) -> Option<NodeFields>
    ensures is { result ≡ node_of levels slot.now }
    ensures trip { NodeTrip }
{
    is_record(levels, slot).then_some(NodeFields {
        depth: slot[1],
        first: get(slot, FIRST_AT),
        next: get(slot, LINK_AT),
    })
}

// Whether a slot is laid out as a node of a tree of `levels` levels.
fn is_record(levels: u8, slot: &[u8; 64]) -> bool
    ensures { result ≡ is_record levels slot.now }
{
    slot[0] == NODE
        && is_blank(&slot[LINK_AT + 2..VALUE_AT])
        && has_node(levels, slot[1], u32::from(get::<2, u16>(slot, FIRST_AT)))
}

/// Copies the value out of a node's slot.
#[tactic(auto, using(crate::proofs::Laid::value_whole), unfolding(crate::specs::Records::value_of))]
pub fn copy_value(slot: &[u8; 64], value: &mut [u8; 32])
    ensures { value.new ≡ value_of slot.now }
{
    value.copy_from_slice(&slot[VALUE_AT..64]);
}

/// Lets the head or the record in a slot lead on to the slot `next`.
#[tactic(auto, using(std::proofs::Common::append_assoc), unfolding(octets::specs::Fields::bytes_of))]
pub fn relink(slot: &mut [u8; 64], next: u16)
    ensures { slot.new ≡ relinked next slot.old }
{
    put(slot, LINK_AT, next);
}

/// Puts another count of issued numbers into the head in a slot.
#[tactic(auto, using(std::proofs::Common::append_assoc), unfolding(octets::specs::Fields::bytes_of))]
pub fn recount(slot: &mut [u8; 64], issued: u32)
    ensures { slot.new ≡ recounted issued slot.old }
{
    put(slot, ISSUED_AT, issued);
}
