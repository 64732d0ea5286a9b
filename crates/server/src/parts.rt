//! The calls over the parts of a server, lent for the call. What stops a call becomes its fault here, in `told`.
// Device, generator and sealer stay apart, here and in the crates for each call: the device is lent to be written, the two others to
// be read, and behind one `&mut` each contract would also say that they stay. Generator and sealer stay two as well: below each
// call takes one of them, and who makes a server has them apart.
ghost use Rattle.std.specs.Prelude.{◌≡◌, length};
ghost use Rattle.octets.specs.Buffers.{zeros};
ghost use Rattle.scratch.specs.Clean.{Clean};
ghost use Rattle.calls.specs.Kits.{kit_of};
ghost use Rattle.server.specs.Serving.{faulted, MakeWithin, IssueWithin, RedeemWithin, ReopenWithin};

use calls::numbers_of;
use device::WriteSlots;
use fault::{Call, Fault, Halt};
use generator::{Generator, Value};
use issuing::issue_on;
use making::make_on;
use redeeming::redeem_on;
use reopening::reopen_on;
use scratch::Scratch;
use sealer::Sealer;
use ticket::NAME;

// What a call answers: the call and the layer are added to what stopped it.
fn told<T>(call: Call, answer: Result<T, Halt>) -> Result<T, Fault>
    ensures { result ≡ faulted call answer }
{
    answer.map_err(|halt| halt.during(call))
}

pub(super) fn make<D: WriteSlots, G: Generator, S: Sealer>(
    device: &mut D,
    generator: &G,
    sealer: &S,
    root: &Value,
    name: &[u8; NAME],
    scratch: &mut Scratch,
) -> Result<(), Fault>
    ensures did { MakeWithin (kit_of (G.meaning generator.now) (S.meaning sealer.now)) (D.state device.old) root.now name.now result (D.state device.new) }
    ensures clean { Clean scratch.new }
{
    let numbers = numbers_of(generator, sealer);
    let made = make_on(device, root, name, numbers, &mut scratch.slot);
    scratch.wipe();
    told(Call::Make, made)
}

pub(super) fn reopen<D: WriteSlots, G: Generator, S: Sealer>(
    device: &mut D,
    generator: &G,
    sealer: &S,
    marks: &mut [u8],
    scratch: &mut Scratch,
) -> Result<(), Fault>
    ensures did { ReopenWithin (kit_of (G.meaning generator.now) (S.meaning sealer.now)) (D.state device.old) (length marks.old) result (D.state device.new) }
    ensures marks { marks.new ≡ zeros (length marks.old) }
    ensures clean { Clean scratch.new }
{
    let numbers = numbers_of(generator, sealer);
    let reopened = reopen_on(device, numbers, marks, &mut scratch.slot);
    scratch.wipe();
    told(Call::Reopen, reopened)
}

#[tactic(auto, unfolding(issuing::specs::Ends::Issues))]
pub(super) fn issue<D: WriteSlots, G: Generator, S: Sealer>(
    device: &mut D,
    generator: &G,
    sealer: &S,
    record: &[u8],
    ticket: &mut [u8],
    marks: &mut [u8],
    scratch: &mut Scratch,
) -> Result<(usize, u32), Fault>
    ensures did { IssueWithin (kit_of (G.meaning generator.now) (S.meaning sealer.now)) (D.state device.old) «record».now (length ticket.old) (length marks.old) result ticket.new (D.state device.new) }
    ensures marks { marks.new ≡ zeros (length marks.old) }
    ensures clean { Clean scratch.new }
{
    let issued = issue_on(device, generator, sealer, record, ticket, marks, scratch);
    told(Call::Issue, issued)
}

#[tactic(auto, unfolding(redeeming::specs::Steps::Redeems))]
pub(super) fn redeem<D: WriteSlots, G: Generator, S: Sealer>(
    device: &mut D,
    generator: &G,
    sealer: &S,
    ticket: &[u8],
    state: &mut [u8],
    marks: &mut [u8],
    scratch: &mut Scratch,
) -> Result<(usize, u32), Fault>
    ensures did { RedeemWithin (kit_of (G.meaning generator.now) (S.meaning sealer.now)) (D.state device.old) ticket.now (length state.old) (length marks.old) result state.new (D.state device.new) }
    ensures marks { marks.new ≡ zeros (length marks.old) }
    ensures clean { Clean scratch.new }
{
    let redeemed = redeem_on(device, generator, sealer, ticket, state, marks, scratch);
    told(Call::Redeem, redeemed)
}
