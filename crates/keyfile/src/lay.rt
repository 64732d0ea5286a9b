//! A key file laid out by hand: the cover of one spent number.
use anyhow::Context;
use device::{DeviceFault, WriteSlots};
use generator::{VALUE_SIZE, Values, descend_keeping};
use generators::ChaChaGenerator;
use layout::{Head, NodeFields, encode_head, encode_node};
use samples::{KEY_NAME, ROOT};
use serving::PAIR;
use tickets::TOP;
use tree::{LEVELS, Node, ROW};

pub(crate) const SLOTS: usize = 20;

/// The bytes of so many slots.
pub(crate) const FILE: usize = 1280;

/// The one spent number.
pub(crate) const SPENT: u32 = 5;

// With one number spent the cover has a node for each level.
const RECORDS: usize = 16;

// The slot of record k: out of order, so that only the links show the way.
fn place(k: usize) -> u16 {
    (k % 17 * 7 % 17 + 1) as u16
}

fn put_head<D: WriteSlots>(device: &mut D) -> Result<(), DeviceFault> {
    let head = Head {
        first: place(0),
        issued: SPENT + 1,
        name: KEY_NAME,
        numbers: PAIR,
    };
    let mut slot = [0; 64];
    encode_head(LEVELS, &head, &mut slot);
    device.write(0, &slot)
}

fn put_record<D: WriteSlots>(
    device: &mut D,
    k: usize,
    node: &Node,
    value: &[u8; 32],
) -> Result<(), DeviceFault> {
    let next = if k < RECORDS - 1 { place(k + 1) } else { 0 };
    // NodeFields::of asks for a first number of two bytes, which the siblings' clause says of no single one: it stays as it is
    let node = Node {
        first: node.first % 65536,
        ..*node
    };
    let mut slot = [0; 64];
    encode_node(&NodeFields::of(&node, next), value, &mut slot);
    device.write(place(k) as usize, &slot)
}

/// Writes the siblings with their values, and the head last.
pub(crate) fn lay_out<D: WriteSlots>(device: &mut D) -> anyhow::Result<()> {
    let nodes = TOP
        .siblings(LEVELS, SPENT)
        .context("the number is not in the tree")?;
    let mut values = Values::new();
    values.value = ROOT;
    let mut row = [[0; VALUE_SIZE]; ROW];
    descend_keeping(&ChaChaGenerator, LEVELS, &TOP, SPENT, &mut values, &mut row).context(
        "the number is not in the tree",
    )?;
    for (k, (node, value)) in nodes.as_slice().iter().zip(&row).enumerate() {
        put_record(device, k, node, value)
            .ok()
            .context("a record is not written")?;
    }
    put_head(device).ok().context("the head is not written")
}
