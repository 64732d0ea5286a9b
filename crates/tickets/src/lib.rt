//! What the programs make apart from a server, to compare it with or to send: the key of a number, and a ticket sealed under it.
#![tactic(auto)]

ghost use Rattle.tree.specs.Nodes.{tree_levels};
ghost use Rattle.ticket.specs.Parts.{heading_of};
ghost use Rattle.tickets.specs.Made.{KeyFrom, TicketOf};

use generator::{Generator, Value, Values, descend};
use refusal::Refusal;
use samples::{Bytes, ROOM};
use sealer::Sealer;
use ticket::{HEADING, NAME, heading};
use tree::{LEVELS, Node};

/// The root's node.
pub const TOP: Node = Node { depth: 0, first: 0 };

/// The key of a number, worked out from a node and its value, and the generator calls made; none where the node does not
/// cover the number.
pub fn key_from<G: Generator>(
    generator: &G,
    node: &Node,
    value: &Value,
    n: u32,
) -> Option<(Value, u32)>
    ensures { KeyFrom (G.meaning generator.now).expansion tree_levels node.now value.now n result }
{
    let mut values = Values::new();
    values.value = *value;
    let calls = descend(generator, LEVELS, node, n, &mut values)?;
    Some((values.value, calls))
}

/// The ticket of a number under a key name: the heading, and a plain sealed under a key.
pub fn ticket_of<S: Sealer>(
    sealer: &S,
    key: &[u8; 32],
    name: &[u8; NAME],
    n: u32,
    plain: &[u8],
) -> Result<Bytes, Refusal>
    ensures { TicketOf ((S.meaning sealer.now).sealing key.now (heading_of name.now n)) (S.meaning sealer.now).overhead (heading_of name.now n) plain.now result }
{
    let mut row = [0; ROOM];
    let (front, rest) = row.split_first_chunk_mut::<HEADING>().unwrap();
    heading(name, n, front);
    let length = sealer.seal(key, front, plain, rest, &mut [0; 64])?;
    Ok(Bytes {
        row,
        length: HEADING + length,
    })
}
