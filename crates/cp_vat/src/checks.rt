//! What a message is checked for before it changes anything.

ghost use Rattle.std.specs.Prelude.{◌≡◌};
ghost use Rattle.cp_vat_machine.specs.Answering.{call_faults, target_faults};
ghost use Rattle.cp_vat_state.specs.StateOf.{state_of};
ghost use Rattle.cp_vat.specs.Judging.{judged};

use cp_rpc::{Call, Target};
use cp_tables::LIMIT;
use cp_vat_machine::PeerFault;
use cp_vat_rules::receive::answer_of;
use cp_vat_state::Core;

/// The first fault of a Call: its number, its target, whether the answers and the tickets are full.
pub(crate) fn check_call(core: &Core, call: &Call) -> Result<(), PeerFault>
    ensures { result ≡ judged (call_faults (state_of core.now) call.now) }
{
    if core.answers.get(call.question_id).is_some() {
        return Err(PeerFault::QuestionInUse);
    }
    check_target(core, &call.target)?;
    if core.answers.len() >= LIMIT || !core.gates.has_ticket() {
        return Err(PeerFault::TableFull);
    }
    Ok(())
}

/// The fault of a target: an export that doesn't exist, or an answer that isn't kept or was finished.
pub(crate) fn check_target(core: &Core, target: &Target) -> Result<(), PeerFault>
    ensures { result ≡ judged (target_faults (state_of core.now) target.now) }
{
    match target {
        Target::ImportedCap(id) => {
            if core.exports.get(*id).is_none() {
                return Err(PeerFault::UnknownExport);
            }
            Ok(())
        }
        Target::PromisedAnswer(answer) => {
            if answer_of(core, answer.question_id).is_none() {
                return Err(PeerFault::UnknownAnswer);
            }
            Ok(())
        }
        Target::Unknown(_) => Ok(()),
    }
}
