//! How a message that isn't supported is sent back.

ghost use Rattle.std.specs.Prelude.{◌≡◌, ◌*◌};
ghost use Rattle.cp_rpc.specs.Viewed.{viewed_message, viewed_descriptor, viewed_resolution, viewed_returned, viewed_target};
ghost use Rattle.cp_vat_machine.specs.Step.{echoed};
ghost use Rattle.cp_vat_state.specs.Halts.{Acts};
ghost use Rattle.cp_vat_state.specs.StateOf.{state_of};
ghost use Rattle.cp_vat.specs.Echoing.{Charges, lists_of_descriptor, lists_of_message, lists_of_resolution, lists_of_returned, lists_of_table, lists_of_target};

use cp_rpc::{
    CapTableView, DescriptorView, Message, MessageIn, ResolutionView, ReturnedView, Source,
    TargetView, tree_of,
};
use cp_tree::{Whole, WriteFault, fits};
use cp_vat_machine::{Effect, PeerFault};
use cp_vat_state::{Core, StepFault};

/// How deep a tree is at most that an Unimplemented holds.
/// The Unimplemented around it adds a level, and the standard limit is 64.
const ECHO_DEPTH: u32 = 63;

/// How much it costs at most.
/// The Unimplemented around it costs three, and the standard limit is 8,388,608.
const ECHO_COST: u64 = 8_388_605;

/// A message that isn't supported is sent back as its tree, if that can be written. Its lists are counted first: a list
/// of few bytes may have millions of elements, and none of them is made where the tree would be too large.
pub(crate) fn echo<S: Source>(
    core: &Core,
    message: &MessageIn<S>,
    effects: &mut Vec<Effect>,
) -> Result<(), StepFault>
    ensures { Acts (λ out. out ≡ echoed (state_of core.now) (viewed_message S.seen message.now)) result effects.old.items effects.new.items (state_of core.now) }
{
    if charge_message(ECHO_COST, message).is_none() {
        return Err(StepFault::Fault(PeerFault::EchoTooLarge));
    }
    send_back(core, &message.message(core.alloc)?, effects)
}

/// A message is sent back as its tree, if that can be written.
fn send_back(core: &Core, message: &Message, effects: &mut Vec<Effect>) -> Result<(), StepFault>
    ensures { Acts (λ out. out ≡ echoed (state_of core.now) message.now) result effects.old.items effects.new.items (state_of core.now) }
{
    if !message.fits() {
        return Err(StepFault::Fault(PeerFault::EchoTooLarge));
    }
    let root = match tree_of(core.alloc, message) {
        Ok(root) => root,
        Err(WriteFault::OutOfMemory) => return Err(StepFault::OutOfMemory),
        // No list is too long, and nothing else is refused.
        Err(_) => unreachable!(),
    };
    if !fits(root.tree(), ECHO_DEPTH, ECHO_COST) {
        return Err(StepFault::Fault(PeerFault::EchoTooLarge));
    }
    let tree = Whole::from_shaped(root.into_tree());
    effects.push(Effect::Send(Message::Unimplemented(tree)))?;
    Ok(())
}

/// What is left of a cost after the lists of a message. `None`: they cost more.
fn charge_message<S: Source>(left: u64, message: &MessageIn<S>) -> Option<u64>
    ensures { Charges left (lists_of_message (viewed_message S.seen message.now)) result }
{
    match message {
        MessageIn::Call(call) => {
            let left = charge_target(left, &call.target)?;
            charge_table(left, &call.params.cap_table)
        }
        MessageIn::Return(returned) => charge_returned(left, &returned.returned),
        MessageIn::Resolve(resolve) => charge_resolution(left, &resolve.resolution),
        MessageIn::Disembargo(disembargo) => charge_target(left, &disembargo.target),
        _ => Some(left),
    }
}

fn charge_target<S: Source>(left: u64, target: &TargetView<S>) -> Option<u64>
    ensures { Charges left (lists_of_target (viewed_target S.seen target.now)) result }
{
    match target {
        // An `Op` is a struct of one word, which costs two.
        TargetView::PromisedAnswer(answer) => charge_each(left, answer.transform.len(), 2),
        _ => Some(left),
    }
}

fn charge_returned<S: Source>(left: u64, returned: &ReturnedView<S>) -> Option<u64>
    ensures { Charges left (lists_of_returned (viewed_returned S.seen returned.now)) result }
{
    match returned {
        ReturnedView::Results(payload) => charge_table(left, &payload.cap_table),
        _ => Some(left),
    }
}

fn charge_resolution<S: Source>(left: u64, resolution: &ResolutionView<S>) -> Option<u64>
    ensures { Charges left (lists_of_resolution (viewed_resolution S.seen resolution.now)) result }
{
    match resolution {
        ResolutionView::Cap(descriptor) => charge_descriptor(left, descriptor),
        _ => Some(left),
    }
}

fn charge_table<S: Source>(left: u64, table: &CapTableView<S>) -> Option<u64>
    ensures { Charges left (lists_of_table table.now) result }
{
    // A descriptor is a struct of one word and one pointer, which costs three.
    let mut rest = charge_each(left, table.len(), 3)?;
    for i in 0..table.len() {
        rest = charge_descriptor(rest, &table.descriptor(i))?;
    }
    Some(rest)
}

fn charge_descriptor<S: Source>(left: u64, descriptor: &DescriptorView<S>) -> Option<u64>
    ensures { Charges left (lists_of_descriptor (viewed_descriptor S.seen descriptor.now)) result }
{
    match descriptor {
        DescriptorView::ReceiverAnswer(answer) => charge_each(left, answer.transform.len(), 2),
        _ => Some(left),
    }
}

/// What is left of a cost after this many elements, each of which costs this.
fn charge_each(left: u64, count: usize, cost: u64) -> Option<u64>
    ensures { Charges left (count * cost) result }
{
    left.checked_sub((count as u64).checked_mul(cost)?)
}
