//! Where a call of the application goes that opened a question.

ghost use Rattle.std.specs.Prelude.{◌≡◌, Some, None, IfOk, option_copied};
ghost use Rattle.cp_refs.specs.Route.{HasRoute};
ghost use Rattle.cp_vat_machine.specs.Calling.{FirstEmbargoed, GoBack, GoByValue, GoFrom, mark_of, old_target, question_reference, reference_of};
ghost use Rattle.cp_vat_state.specs.Halts.{Acts, IfFault};
ghost use Rattle.cp_vat_state.specs.StateOf.{state_of};
ghost use Rattle.cp_vat_rules.specs.Going.{MayGo, pending_call_of};
ghost use Rattle.cp_vat.specs.Doing.{ActsOn};
ghost use Rattle.cp_vat.specs.Ways.{GoMarked, GoesBy, WayEnds, kind_of, seen, value_kind};

use cp_refs::{Cap, Gate, Path, QuestionKind, QuestionState, Route, Values};
use cp_rpc::{Disembargo, DisembargoContext, Message, Target};
use cp_vat_machine::Effect;
use cp_vat_rules::go::{PendingCall, go, go_to};
use cp_vat_rules::promised::promised_answer;
use cp_vat_state::{Core, StepFault};
use std::alloc::{AllocError, Global};

/// What a capability is that the application calls.
#[derive(Drop)]
pub(crate) enum Standing {
    /// It is called as it is.
    Plain,
    /// An import or a question's path that is open on the wire.
    OnWire,
    /// An import or a question's path that came to this.
    CameTo(Cap),
}

pub(crate) fn reference_of(
    alloc: Global,
    values: &Values,
    cap: &Cap,
) -> Result<Standing, AllocError>
    ensures { IfOk result (λ r. seen r ≡ reference_of values.now cap.now) }
{
    match cap {
        Cap::Import(id) => match values.import(*id) {
            Some(None) => Ok(Standing::OnWire),
            Some(Some(value)) => Ok(Standing::CameTo(value.copy(alloc)?)),
            None => Ok(Standing::Plain),
        },
        Cap::Pipelined(id, path) => path_reference(alloc, values.question(*id), path),
        _ => Ok(Standing::Plain),
    }
}

/// The kind of a call's question. A call that goes to the peer at once is on the wire.
pub(crate) fn kind_of(reference: &Standing) -> QuestionKind
    ensures { result ≡ kind_of reference.now }
{
    match reference {
        // Only a reference that came to an import itself goes at once; one that comes to it by a promise is
        // local.
        Standing::OnWire | Standing::CameTo(Cap::Import(_)) => QuestionKind::Wire,
        Standing::Plain | Standing::CameTo(_) => QuestionKind::Local,
    }
}

/// A call of the application's goes, by what it names. Where a table is full nothing changes.
pub(crate) fn go_from(
    core: &mut Core,
    call: PendingCall,
    cap: &Cap,
    reference: Standing,
    effects: &mut Vec<Effect>,
) -> Result<(), StepFault>
    requires may { MayGo (state_of core.old) (pending_call_of call) }
    requires ends { WayEnds core.old.values cap.now reference }
    ensures acts { GoesBy (λ s q r. GoFrom s q r cap.now (seen reference)) (kind_of reference) core.old call result effects.old.items effects.new.items core.new }
    ensures unchanged { IfFault result (core.new ≡ core.old) }
{
    match reference {
        Standing::Plain => go_to(core, call, cap, effects),
        Standing::OnWire => go_marked(core, call, cap, effects),
        Standing::CameTo(value) => go_by_value(core, call, cap, value, effects),
    }
}

fn path_reference(
    alloc: Global,
    question: Option<&QuestionState>,
    path: &Path,
) -> Result<Standing, AllocError>
    ensures { IfOk result (λ r. seen r ≡ question_reference path.now (option_copied question.entry)) }
{
    let Some(question) = question else {
        return Ok(Standing::Plain);
    };
    match &question.outcome {
        Some(outcome) => Ok(Standing::CameTo(outcome.at(alloc, path.fields())?)),
        None => match question.kind {
            QuestionKind::Wire => Ok(Standing::OnWire),
            QuestionKind::Local => Ok(Standing::Plain),
        },
    }
}

/// A call on a reference that is open on the wire marks it, and goes. Where a table is full nothing
/// changes.
fn go_marked(
    core: &mut Core,
    call: PendingCall,
    cap: &Cap,
    effects: &mut Vec<Effect>,
) -> Result<(), StepFault>
    requires may { MayGo (state_of core.old) (pending_call_of call) }
    requires ends { HasRoute core.old.values cap.now }
    ensures acts { Acts (GoMarked (state_of core.old) (pending_call_of call) cap.now) result effects.old.items effects.new.items (state_of core.new) }
    ensures unchanged { IfFault result (core.new ≡ core.old) }
{
    let is_marked = core.marks.mark(cap).is_some();
    core.marks.put_mark(cap)?;
    match go_to(core, call, cap, effects) {
        Ok(()) => Ok(()),
        Err(step_fault) => {
            // A mark from an earlier call stays.
            if !is_marked {
                core.marks.remove_mark(cap);
            }
            Err(step_fault)
        }
    }
}

/// A call on a reference that came to this. The value of an import goes to the peer; null and what
/// fails fail; an object and a promise are of this end. Where a table is full nothing changes.
fn go_by_value(
    core: &mut Core,
    call: PendingCall,
    cap: &Cap,
    value: Cap,
    effects: &mut Vec<Effect>,
) -> Result<(), StepFault>
    requires may { MayGo (state_of core.old) (pending_call_of call) }
    requires ends { HasRoute core.old.values value }
    ensures acts { GoesBy (λ s q r. GoByValue s q r cap.now value) (value_kind value) core.old call result effects.old.items effects.new.items core.new }
    ensures unchanged { IfFault result (core.new ≡ core.old) }
{
    match value {
        // At once, and without a mark on that import.
        Cap::Import(id) => go(core, call, Route::Import(id), effects),
        Cap::Object(_) | Cap::Promise(_) => go_back(core, call, cap, value, effects),
        _ => go_to(core, call, &value, effects),
    }
}

/// A call on a reference that came to something of this end. Unmarked, it takes its value's route;
/// marked, it waits until those that were sent on the reference came back. Where a table is full nothing
/// changes.
fn go_back(
    core: &mut Core,
    call: PendingCall,
    cap: &Cap,
    value: Cap,
    effects: &mut Vec<Effect>,
) -> Result<(), StepFault>
    requires may { MayGo (state_of core.old) (pending_call_of call) }
    requires ends { HasRoute core.old.values value }
    ensures acts { ActsOn (λ s. GoBack s (pending_call_of call) cap.now value (mark_of s cap.now)) core.old result effects.old.items effects.new.items core.new }
    ensures unchanged { IfFault result (core.new ≡ core.old) }
{
    match core.marks.mark(cap) {
        // No call went out on the reference, so none can be overtaken.
        None => go_to(core, call, &value, effects),
        Some(None) => put_embargo(core, call, cap, value, effects),
        Some(Some(number)) => go(core, call, Route::Wait(Gate::Embargo(number)), effects),
    }
}

/// The first call after those that were sent on a reference: a Disembargo follows them, and the call
/// waits for its echo. Where the table of embargoes is full nothing changes.
fn put_embargo(
    core: &mut Core,
    call: PendingCall,
    cap: &Cap,
    value: Cap,
    effects: &mut Vec<Effect>,
) -> Result<(), StepFault>
    requires may { MayGo (state_of core.old) (pending_call_of call) }
    requires marked { mark_of (state_of core.old) cap.now ≡ Some None }
    ensures acts { Acts (FirstEmbargoed (state_of core.old) (pending_call_of call) cap.now value) result effects.old.items effects.new.items (state_of core.new) }
    ensures unchanged { IfFault result (core.new ≡ core.old) }
{
    let number = core.marks.open_embargo(cap, value)?;
    let target = old_target(core.alloc, cap)?;
    effects.push(Effect::Send(Message::Disembargo(Disembargo {
        context: DisembargoContext::SenderLoopback(number),
        target,
    })))?;
    // It waits at its embargo, and not at the import that it named, which may be released meanwhile.
    go(core, call, Route::Wait(Gate::Embargo(number)), effects)
}

/// A reference, as the peer knows it.
fn old_target(alloc: Global, cap: &Cap) -> Result<Target, AllocError>
    ensures { IfOk result (λ target. target ≡ old_target cap.now) }
{
    match cap {
        Cap::Pipelined(question, path) => Ok(Target::PromisedAnswer(promised_answer(
            alloc, *question, path,
        )?)),
        Cap::Import(id) => Ok(Target::ImportedCap(*id)),
        // Only these two are ever marked.
        _ => Ok(Target::ImportedCap(0)),
    }
}
