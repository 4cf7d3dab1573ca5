//! Where calls go.

ghost use Rattle.std.specs.Prelude.{◌≡◌, ◌++◌, OnOk};
ghost use Rattle.cp_refs.specs.Route.{HasRoute};
ghost use Rattle.cp_vat_machine.specs.Go.{Go, GoOut, GoTo, call_of, finish_after, finish_of};
ghost use Rattle.cp_vat_state.specs.Halts.{Acts, IfFault};
ghost use Rattle.cp_vat_state.specs.StateOf.{state_of};
ghost use Rattle.cp_vat_rules.specs.Going.{MayGo, pending_call_of};
ghost use Rattle.cp_vat_rules.specs.Ungiven.{AllEnd, IsUngiven};

use crate::descriptors::{mentioned, write_descriptors};
use crate::entry::{note_delivered, note_mentions, note_sent};
use crate::give::give;
use crate::lists::add;
use crate::promised::promised_answer;
use cp_messages::{Call, CapTable, Finish, Message, Payload, SendResultsTo, Target};
use cp_refs::{Cap, Origin, Outcome, Request, Route, WaitingCall};
use cp_tables::{LIMIT, Stage};
use cp_vat_machine::{Effect, Mentions, PeerFault, QuestionEntry};
use cp_vat_state::{Core, StepFault};
use std::alloc::AllocError;

/// A call on its way.
#[derive(Drop)]
pub struct PendingCall {
    pub ticket: u64,
    pub origin: Origin,
    pub request: Request,
}

/// A call goes by the route of a capability. Where a table is full nothing changes.
pub fn go_to(
    core: &mut Core,
    call: PendingCall,
    cap: &Cap,
    effects: &mut Vec<Effect>,
) -> Result<(), StepFault>
    requires may { MayGo (state_of core.old) (pending_call_of call) }
    requires ends { HasRoute core.old.values cap.now }
    ensures acts { Acts (GoTo (state_of core.old) (pending_call_of call) cap.now) result effects.old.items effects.new.items (state_of core.new) }
    ensures unchanged { IfFault result (core.new ≡ core.old) }
{
    let route = core.values.values().route(cap)?;
    go(core, call, route, effects)
}

/// A call goes by its route. Where a table is full nothing changes.
pub fn go(
    core: &mut Core,
    call: PendingCall,
    route: Route,
    effects: &mut Vec<Effect>,
) -> Result<(), StepFault>
    requires { MayGo (state_of core.old) (pending_call_of call) }
    ensures acts { Acts (Go (state_of core.old) (pending_call_of call) route) result effects.old.items effects.new.items (state_of core.new) }
    ensures unchanged { IfFault result (core.new ≡ core.old) }
{
    match route {
        Route::Deliver(object) => deliver(core, call, object, effects),
        Route::Import(import) => go_out(core, call, Target::ImportedCap(import), effects),
        Route::Pipe(question, path) => {
            let answer = promised_answer(core.alloc, question, &path)?;
            go_out(core, call, Target::PromisedAnswer(answer), effects)
        }
        Route::Wait(gate) => Ok(
            core.gates.hold(WaitingCall {
                ticket: call.ticket,
                origin: call.origin,
                request: call.request,
                gate,
            })?,
        ),
        Route::Fail(exception) => give(core, call.origin, Outcome::Failed(exception), effects),
    }
}

/// The Finish of a question.
pub fn finish_effect(question_id: u32, release_result_caps: bool) -> Effect
    ensures { result ≡ finish_of question_id release_result_caps }
{
    Effect::Send(Message::Finish(Finish {
        question_id,
        release_result_caps,
    }))
}

/// Delivers a call to an object of the application.
fn deliver(
    core: &mut Core,
    call: PendingCall,
    object: u32,
    effects: &mut Vec<Effect>,
) -> Result<(), StepFault>
    ensures acts { Acts (Go (state_of core.old) (pending_call_of call) (Route.Deliver object)) result effects.old.items effects.new.items (state_of core.new) }
    ensures unchanged { IfFault result (core.new ≡ core.old) }
{
    note_delivered(core, call.origin);
    let delivery = Effect::Deliver {
        object,
        origin: call.origin,
        ticket: call.ticket,
        call: call.request,
    };
    add(effects, delivery)?;
    Ok(())
}

/// A call goes to the peer: one of the peer's under a new question, one of the application's under its
/// own.
fn go_out(
    core: &mut Core,
    call: PendingCall,
    target: Target,
    effects: &mut Vec<Effect>,
) -> Result<(), StepFault>
    requires { MayGo (state_of core.old) (pending_call_of call) }
    ensures acts { Acts (GoOut (state_of core.old) (pending_call_of call) target call.origin) result effects.old.items effects.new.items (state_of core.new) }
    ensures unchanged { IfFault result (core.new ≡ core.old) }
{
    match call.origin {
        Origin::Answer(answer) => forward(core, answer, call, target, effects),
        Origin::Own(question) => send_own(core, question, call, target, effects),
    }
}

/// Forwards a call of the peer's under a new question.
fn forward(
    core: &mut Core,
    answer: u32,
    call: PendingCall,
    target: Target,
    effects: &mut Vec<Effect>,
) -> Result<(), StepFault>
    requires { AllEnd core.old.values call.request.caps }
    ensures acts { Acts (GoOut (state_of core.old) (pending_call_of call) target (Origin.Answer answer)) result effects.old.items effects.new.items (state_of core.new) }
    ensures unchanged { IfFault result (core.new ≡ core.old) }
{
    // Tested here for the clause; the table tests it again.
    if core.questions.len() == LIMIT {
        return Err(StepFault::Fault(PeerFault::TableFull));
    }
    let question = core.questions.open(QuestionEntry {
        forwards: Some(answer),
        ticket: Some(call.ticket),
        is_sent: true,
        is_delivered: false,
        mentions: Mentions::new(Vec::new(core.alloc)),
    })?;
    let said = write_descriptors(
        core.alloc,
        core.values.values(),
        &mut core.exports,
        call.request.caps.caps(),
    );
    let table = match said {
        Ok(table) => table,
        Err(step_fault) => {
            // A call that fails changes nothing.
            core.questions.close(question);
            return Err(step_fault);
        }
    };
    let ids = mentioned(core.alloc, table.descriptors())?;
    note_mentions(&mut core.questions, question, ids);
    add(effects, call_effect(question, target, call.request, table))?;
    Ok(())
}

/// The Call of a request under a question's number.
fn call_effect(question_id: u32, target: Target, request: Request, cap_table: CapTable) -> Effect
    ensures { result ≡ call_of question_id target request cap_table }
{
    Effect::Send(Message::Call(Call {
        question_id,
        method_id: request.method,
        send_results_to: SendResultsTo::Caller,
        interface_id: request.interface,
        target,
        params: Payload {
            content: request.content,
            cap_table,
        },
    }))
}

/// Sends a call of the application's. Where it finished the question before, the Finish follows at
/// once.
fn send_own(
    core: &mut Core,
    question: u32,
    call: PendingCall,
    target: Target,
    effects: &mut Vec<Effect>,
) -> Result<(), StepFault>
    requires ungiven { IsUngiven (state_of core.old) (Origin.Own question) }
    requires ends { AllEnd core.old.values call.request.caps }
    ensures acts { Acts (GoOut (state_of core.old) (pending_call_of call) target (Origin.Own question)) result effects.old.items effects.new.items (state_of core.new) }
    ensures unchanged { IfFault result (core.new ≡ core.old) }
{
    let Some(entry) = core.questions.get(question) else {
        unreachable!()
    };
    let stage = entry.stage;
    let table = write_descriptors(
        core.alloc,
        core.values.values(),
        &mut core.exports,
        call.request.caps.caps(),
    )?;
    let ids = mentioned(core.alloc, table.descriptors())?;
    note_sent(&mut core.questions, question, ids);
    add(effects, call_effect(question, target, call.request, table))?;
    finish_after(question, stage, effects)?;
    Ok(())
}

/// Where the application finished a question before its Call was sent, the Finish follows at once.
fn finish_after(question: u32, stage: Stage, effects: &mut Vec<Effect>) -> Result<(), AllocError>
    ensures { OnOk result (effects.new.items ≡ effects.old.items ++ finish_after question stage) }
{
    if stage != Stage::Finished {
        return Ok(());
    }
    // Nothing of the outcome was taken in, so the peer may release all that it names.
    add(effects, finish_effect(question, true))?;
    Ok(())
}
