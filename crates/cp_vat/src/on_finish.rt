//! What a Finish and a Release do.

ghost use Rattle.cp_vat_machine.specs.Answering.{OnFinish};
ghost use Rattle.cp_vat_machine.specs.Resolving.{OnRelease};
ghost use Rattle.cp_vat_state.specs.Halts.{Quiet};
ghost use Rattle.cp_vat_state.specs.StateOf.{state_of};

use cp_rpc::{Finish, Release};
use cp_tables::Stage;
use cp_vat_machine::PeerFault;
use cp_vat_rules::entry::remove_answer;
use cp_vat_rules::exports::release_exports;
use cp_vat_state::{Core, StepFault};

/// A Finish of an answer that was given takes it out, and lowers the exports that its results named if
/// the peer asks for it. An answer that isn't given stays until it is.
pub(crate) fn on_finish(core: &mut Core, finish: Finish) -> Result<(), StepFault>
    ensures { Quiet (OnFinish (state_of core.old) finish) result (state_of core.new) }
{
    let Some(answer) = core.answers.get(finish.question_id) else {
        return Err(StepFault::Fault(PeerFault::UnknownAnswer));
    };
    match answer.stage {
        Stage::Open => {
            // The call goes on, and its Return will say `Canceled`.
            let _ = core.answers.note_finish(finish.question_id);
            Ok(())
        }
        Stage::Returned => {
            if finish.release_result_caps
                && let Err(fault) = release_exports(&mut core.exports, answer.kept.mentions.ids())
            {
                return Err(StepFault::Fault(fault));
            }
            remove_answer(core, finish.question_id);
            Ok(())
        }
        Stage::Finished => Err(StepFault::Fault(PeerFault::UnknownAnswer)),
    }
}

/// A Release lowers an export by its count.
pub(crate) fn on_release(core: &mut Core, release: Release) -> Result<(), StepFault>
    ensures { Quiet (OnRelease (state_of core.old) release) result (state_of core.new) }
{
    if let Err(fault) = core.exports.release(release.id, release.reference_count) {
        return Err(StepFault::Fault(fault));
    }
    Ok(())
}
