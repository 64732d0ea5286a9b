//! What the programs that run a server share: its answers taken apart, and its file read.
#![tactic(auto)]

ghost use Rattle.std.specs.Prelude.{◌≡◌, ◌<◌, ◌^◌};
ghost use Rattle.serving.specs.Held.{parts_of, opening_of, device_in};
ghost use Rattle.tree.specs.Nodes.{tree_levels};
ghost use Rattle.chain.specs.Outcome.{answer_of, reading_of};

use chain::{Survey, read_file};
use device::{ReadSlots, SLOT_SIZE, WriteSlots};
use fault::{Fault, Halt};
use generator::Generator;
use layout::Numbers;
use sealer::Sealer;
use server::{Answered, Cold, Running};

/// The numbers of the first generator and the first sealer.
pub const PAIR: Numbers = Numbers {
    generator: 1,
    sealer: 1,
};

/// A server that runs, or a cold one.
pub type Held<D, G, S> = Result<Running<D, G, S>, Cold<D, G, S>>;

/// The server that issue or redeem hands back, and the two numbers or the fault.
pub fn split<D, G, S>(answered: Answered<D, G, S>) -> (Held<D, G, S>, Result<(usize, u32), Fault>)
    ensures { result ≡ parts_of answered }
{
    match answered {
        Answered::Done(server, numbers) => (Ok(server), Ok(numbers)),
        Answered::Refused(server, fault) => (Ok(server), Err(fault)),
        Answered::Cut(server, fault) => (Err(server), Err(fault)),
    }
}

/// The server that make or reopen hands back, and the fault where it is declined.
pub fn opened<D, G, S>(
    answer: Result<Running<D, G, S>, (Cold<D, G, S>, Fault)>,
) -> (Held<D, G, S>, Option<Fault>)
    ensures { result ≡ opening_of answer }
{
    match answer {
        Ok(server) => (Ok(server), None),
        Err((server, fault)) => (Err(server), Some(fault)),
    }
}

/// The device of a server, which is closed where it runs.
pub fn device_of<D: WriteSlots, G: Generator + Copy, S: Sealer + Copy>(server: Held<D, G, S>) -> D
    ensures { result ≡ device_in server }
{
    let cold = match server {
        Ok(server) => server.close(),
        Err(server) => server,
    };
    let (device, _, _) = cold.into_parts();
    device
}

/// What reading a file comes to, with marks for so many slots and a slot of its own. No row has as many as 2 ^ 63 bytes.
pub fn survey<const N: usize, D: ReadSlots>(
    device: &D,
    numbers: Numbers,
    asked: Option<u32>,
) -> Result<Survey, Halt>
    requires { N < 2 ^ 63 }
    ensures { result ≡ answer_of tree_levels asked (reading_of tree_levels numbers N (D.state device.now)) }
{
    read_file(device, numbers, asked, &mut [0; N], &mut [0; SLOT_SIZE])
}
