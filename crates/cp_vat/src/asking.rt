//! What `bootstrap` and `promise` do.

ghost use Rattle.std.specs.Prelude.{◌≡◌, ◌≢◌, [], None, IfOk};
ghost use Rattle.std.specs.FinMap as map;
ghost use Rattle.cp_vat_machine.specs.Calling.{asked};
ghost use Rattle.cp_vat_machine.specs.Doing.{DoBootstrap, DoPromise};
ghost use Rattle.cp_vat_machine.specs.Local.{Local};
ghost use Rattle.cp_vat_machine.specs.Capacity.{Fresh};
ghost use Rattle.cp_vat_machine.specs.declared.event.Value.TheVariants as values;
ghost use Rattle.cp_vat_state.specs.Halts.{IfFault, Meets};
ghost use Rattle.cp_vat_state.specs.StateOf.{state_of};
ghost use Rattle.cp_vat.specs.Stepping.{Calls};

use cp_refs::{PromiseId, QuestionKind};
use cp_rpc::{Bootstrap, Message};
use cp_tables::LIMIT;
use cp_vat_machine::{Effect, Mentions, PeerFault, QuestionEntry, VatFault};
use cp_vat_state::{Core, StepFault};

/// Asks for the peer's bootstrap capability.
pub(crate) fn bootstrap(core: &mut Core, effects: &mut Vec<Effect>) -> Result<u32, VatFault>
    requires { Local (state_of core.old) }
    ensures { Calls (DoBootstrap (state_of core.old)) (λ q. values.Question q) (state_of core.old) result effects.old.items effects.new.items (state_of core.new) }
{
    // A Bootstrap is no call, so it has no ticket.
    let question_id = ask(core, QuestionKind::Wire, None, true)?;
    effects.push(Effect::Send(Message::Bootstrap(Bootstrap { question_id })))?;
    Ok(question_id)
}

/// Makes an open promise.
pub(crate) fn promise(core: &mut Core) -> Result<PromiseId, VatFault>
    ensures { Calls (DoPromise (state_of core.old)) (λ p. values.Promise p) (state_of core.old) result [] [] (state_of core.new) }
{
    let id = core.values.open_promise()?;
    core.own_promises.insert(id)?;
    Ok(id)
}

/// Opens a question of the application's under a free number.
pub(crate) fn ask(
    core: &mut Core,
    kind: QuestionKind,
    ticket: Option<u64>,
    is_sent: bool,
) -> Result<u32, StepFault>
    requires { Local (state_of core.old) }
    ensures fresh { Meets (Fresh core.old.questions) result }
    ensures asked { IfOk result (λ q. state_of core.new ≡ asked (state_of core.old) q kind ticket is_sent) }
    ensures unknown { IfOk result (λ q. map.get core.old.values.questions q ≡ None) }
    ensures unchanged { IfFault result (core.new ≡ core.old) }
{
    if core.questions.len() == LIMIT {
        return Err(StepFault::Fault(PeerFault::TableFull));
    }
    let id = core.questions.open(QuestionEntry {
        forwards: None,
        ticket,
        is_sent,
        is_delivered: false,
        mentions: Mentions::new(Vec::new(core.alloc)),
    })?;
    core.values.open_question(id, kind)?;
    Ok(id)
}
