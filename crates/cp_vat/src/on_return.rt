//! What a Return does.

ghost use Rattle.std.specs.Prelude.{◌≡◌, Ok, true, if◌then◌else◌};
ghost use Rattle.cp_rpc.specs.Viewed.{viewed_returned};
ghost use Rattle.cp_vat_machine.specs.Local.{Local};
ghost use Rattle.cp_vat_machine.specs.Asking.{OnReturn, Settles, ReceivesReturned, is_asked};
ghost use Rattle.cp_vat_machine.specs.Supported.{is_supported_returned};
ghost use Rattle.cp_vat_machine.specs.Receiving.{release_exports};
ghost use Rattle.cp_vat_state.specs.Halts.{Acts, Leaves, leaving};
ghost use Rattle.cp_vat_state.specs.StateOf.{state_of};
ghost use Rattle.cp_vat.specs.Receiving.{BeginsReturn, bears};
ghost use Rattle.cp_vat.specs.Returning.{MaySettle};

use cp_refs::Outcome;
use cp_rpc::{ReturnedView, Source};
use cp_tables::Stage;
use cp_vat_machine::{Effect, PeerFault};
use cp_vat_rules::entry::remove_question;
use cp_vat_rules::exports::release_exports;
use cp_vat_rules::give::give_answer;
use cp_vat_rules::give_own::give_own;
use cp_vat_rules::go::finish_effect;
use cp_vat_rules::receive::receive_caps;
use cp_vat_state::{Core, Exported, StepFault};

/// What is left to do of a Return.
enum Remaining {
    /// The application finished the question, so what the Return names isn't looked at.
    Nothing,
    /// What was returned settles the question, and answers the call of the peer's that it forwards.
    Settle { forwards: Option<u32> },
}

/// What a Return bears is taken in, unless the application finished the question.
pub(crate) fn on_return<S: Source>(
    core: &mut Core,
    id: u32,
    release_param_caps: bool,
    returned: &ReturnedView<S>,
    effects: &mut Vec<Effect>,
) -> Result<(), StepFault>
    requires supported { is_supported_returned (viewed_returned S.seen returned.now) ≡ true }
    requires local { Local (state_of core.old) }
    ensures { Acts (OnReturn (state_of core.old) (bears id release_param_caps (viewed_returned S.seen returned.now))) result effects.old.items effects.new.items (state_of core.new) }
{
    match begin(core, id, release_param_caps)? {
        Remaining::Nothing => Ok(()),
        Remaining::Settle { forwards } => {
            let outcome = receive_returned(core, returned)?;
            settle(core, id, forwards, outcome, effects)
        }
    }
}

/// What was returned is taken in as an outcome. A content or an exception is made once nothing is at fault.
fn receive_returned<S: Source>(
    core: &mut Core,
    returned: &ReturnedView<S>,
) -> Result<Outcome, StepFault>
    requires { is_supported_returned (viewed_returned S.seen returned.now) ≡ true }
    ensures { Leaves (ReceivesReturned (state_of core.old) (viewed_returned S.seen returned.now)) result (state_of core.new) }
{
    match returned {
        ReturnedView::Results(payload) => {
            // The table first: it may be at fault, and then no content is made.
            let table = payload.cap_table.cap_table(core.alloc)?;
            let caps = receive_caps(core, table.descriptors())?;
            Ok(Outcome::Results {
                content: payload.content.whole(core.alloc)?,
                caps,
            })
        }
        ReturnedView::Exception(exception) => Ok(Outcome::Failed(exception.exception(core.alloc)?)),
        ReturnedView::Canceled => Ok(Outcome::Canceled),
        _ => unreachable!(),
    }
}

/// Lowers the exports that the params named, if the peer asks for it, and takes a question out that the
/// application finished.
fn begin(core: &mut Core, id: u32, release_param_caps: bool) -> Result<Remaining, StepFault>
    requires { Local (state_of core.old) }
    ensures { BeginsReturn (state_of core.old) id release_param_caps result (state_of core.new) }
{
    let Some(question) = core.questions.get(id) else {
        return Err(StepFault::Fault(PeerFault::UnknownQuestion));
    };
    let stage = question.stage;
    let forwards = question.kept.forwards;
    if !is_asked(question.kept.is_sent, stage) {
        return Err(StepFault::Fault(PeerFault::UnknownQuestion));
    }
    let named = question.kept.mentions.ids();
    if let Err(fault) = lower_if(release_param_caps, &mut core.exports, named) {
        return Err(StepFault::Fault(fault));
    }
    match stage {
        Stage::Open => Ok(Remaining::Settle { forwards }),
        Stage::Finished => {
            // What the table names may be another capability's by now, so it isn't looked at.
            remove_question(core, id);
            Ok(Remaining::Nothing)
        }
        Stage::Returned => unreachable!(),
    }
}

/// Whether a question waits for its Return.
fn is_asked(is_sent: bool, stage: Stage) -> bool
    ensures { result ≡ is_asked is_sent stage }
{
    match stage {
        Stage::Open | Stage::Finished => is_sent,
        Stage::Returned => false,
    }
}

/// Lowers the exports that a message named, if the peer asks for it.
fn lower_if(is_asked_for: bool, exports: &mut Exported, ids: &[u32]) -> Result<(), PeerFault>
    ensures { leaving result exports.new ≡ (if is_asked_for then release_exports exports.old ids.now else Ok exports.old) }
{
    if is_asked_for {
        return release_exports(exports, ids);
    }
    Ok(())
}

/// Settles an own question. One that forwards a call of the peer's is finished, and answers that call.
fn settle(
    core: &mut Core,
    id: u32,
    forwards: Option<u32>,
    outcome: Outcome,
    effects: &mut Vec<Effect>,
) -> Result<(), StepFault>
    requires { MaySettle (state_of core.old) id forwards outcome }
    ensures { Acts (Settles (state_of core.old) id forwards outcome) result effects.old.items effects.new.items (state_of core.new) }
{
    let Some(answer) = forwards else {
        return give_own(core, id, outcome, effects);
    };
    remove_question(core, id);
    // The application releases what the results brought, once the peer's call needs it no more.
    effects.push(finish_effect(id, false))?;
    give_answer(core, answer, outcome, effects)
}
