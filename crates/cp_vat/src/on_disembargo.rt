//! What a Disembargo does.

ghost use Rattle.std.specs.Prelude.{◌≡◌, ◌≢◌, [], None, true};
ghost use Rattle.std.specs.FinMap as map;
ghost use Rattle.cp_refs.specs.Route.{HasRoute};
ghost use Rattle.cp_vat_machine.specs.Answering.{target_faults};
ghost use Rattle.cp_vat_machine.specs.Local.{Local};
ghost use Rattle.cp_vat_machine.specs.Resolving.{Echoes, EchoesAnswer, EchoesExport, EchoesTarget, OnDisembargo, ended_by};
ghost use Rattle.cp_vat_machine.specs.Receiving.{answer_of};
ghost use Rattle.cp_vat_machine.specs.Supported.{is_supported_context, is_supported_target};
ghost use Rattle.cp_vat_state.specs.Halts.{Acts, Quiet};
ghost use Rattle.cp_vat_state.specs.StateOf.{state_of};

use crate::checks::check_target;
use cp_refs::{Cap, Path};
use cp_rpc::{Disembargo, DisembargoContext, Message, Target};
use cp_vat_machine::{Effect, PeerFault};
use cp_vat_rules::promised::path_of;
use cp_vat_rules::receive::answer_of;
use cp_vat_rules::resolve::resolve_cap;
use cp_vat_state::{Core, Fulfillment, StepFault};

/// A senderLoopback is echoed, and a receiverLoopback ends its embargo, whatever its target.
pub(crate) fn on_disembargo(
    core: &mut Core,
    message: &Disembargo,
    effects: &mut Vec<Effect>,
) -> Result<(), StepFault>
    requires context { is_supported_context message.now.context ≡ true }
    requires target { is_supported_target message.now.target ≡ true }
    requires local { Local (state_of core.old) }
    ensures { Acts (OnDisembargo (state_of core.old) message.now.context message.now.target) result effects.old.items effects.new.items (state_of core.new) }
{
    match message.context {
        DisembargoContext::SenderLoopback(number) => {
            if let Err(fault) = check_target(core, &message.target) {
                return Err(StepFault::Fault(fault));
            }
            echo_target(core, number, &message.target, effects)
        }
        // The number alone says which embargo it is.
        DisembargoContext::ReceiverLoopback(number) => end_embargo(core, number),
        DisembargoContext::Accept | DisembargoContext::Provide(_) | DisembargoContext::Unknown(_) =>
            unreachable!(),
    }
}

/// Ends an embargo.
fn end_embargo(core: &mut Core, number: u32) -> Result<(), StepFault>
    ensures { Quiet (λ out. out ≡ ended_by (state_of core.old) number (map.get core.old.marks.embargoes number)) result (state_of core.new) }
{
    let Some(cap) = core.marks.end_embargo(number) else {
        return Err(StepFault::Fault(PeerFault::UnknownEmbargo));
    };
    Ok(core.gates.end(Fulfillment::Embargo(number, cap))?)
}

/// Sends the echo of a Disembargo to the import at which its target ends.
fn echo_target(
    core: &mut Core,
    number: u32,
    target: &Target,
    effects: &mut Vec<Effect>,
) -> Result<(), StepFault>
    requires supported { is_supported_target target.now ≡ true }
    requires local { Local (state_of core.old) }
    requires there { target_faults (state_of core.old) target.now ≡ [] }
    ensures { Acts (EchoesTarget (state_of core.old) number target.now) result effects.old.items effects.new.items (state_of core.new) }
{
    match target {
        Target::ImportedCap(id) => echo_export(core, number, *id, effects),
        Target::PromisedAnswer(answer) => {
            let path = path_of(core.alloc, &answer.transform)?;
            echo_answer(core, number, answer.question_id, path, effects)
        }
        Target::Unknown(_) => unreachable!(),
    }
}

/// Sends the echo of a Disembargo to the import at which an export ends.
fn echo_export(
    core: &Core,
    number: u32,
    id: u32,
    effects: &mut Vec<Effect>,
) -> Result<(), StepFault>
    requires local { Local (state_of core.now) }
    requires there { map.get core.now.exports id ≢ None }
    ensures { Acts (EchoesExport (state_of core.now) number (map.get core.now.exports id)) result effects.old.items effects.new.items (state_of core.now) }
{
    let Some(export) = core.exports.get(id) else {
        unreachable!()
    };
    echo(core, number, &export.kept, effects)
}

/// Sends the echo of a Disembargo to the import at which an answer ends at a path.
fn echo_answer(
    core: &Core,
    number: u32,
    id: u32,
    path: Path,
    effects: &mut Vec<Effect>,
) -> Result<(), StepFault>
    requires local { Local (state_of core.now) }
    requires there { answer_of (state_of core.now) id ≢ None }
    ensures { Acts (EchoesAnswer (state_of core.now) number path (answer_of (state_of core.now) id)) result effects.old.items effects.new.items (state_of core.now) }
{
    match answer_of(core, id) {
        None => unreachable!(),
        // A peer has no reason to ask before the answer is given.
        Some(None) => Err(StepFault::Fault(PeerFault::DisembargoTarget)),
        Some(Some(outcome)) => {
            let cap = outcome.at(core.alloc, path.fields())?;
            echo(core, number, &cap, effects)
        }
    }
}

/// Sends the echo of a Disembargo to the import at which a capability ends.
fn echo(core: &Core, number: u32, cap: &Cap, effects: &mut Vec<Effect>) -> Result<(), StepFault>
    requires { HasRoute core.now.values cap.now }
    ensures { Acts (Echoes (state_of core.now) number cap.now) result effects.old.items effects.new.items (state_of core.now) }
{
    match resolve_cap(core.alloc, core.values.values(), cap)? {
        Cap::Import(id) => {
            // The echo goes the way of the calls that were forwarded before, and so follows them.
            effects.push(Effect::Send(Message::Disembargo(Disembargo {
                context: DisembargoContext::ReceiverLoopback(number),
                target: Target::ImportedCap(id),
            })))?;
            Ok(())
        }
        _ => Err(StepFault::Fault(PeerFault::DisembargoTarget)),
    }
}
