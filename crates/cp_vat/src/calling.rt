//! What `call` does.

ghost use Rattle.std.specs.Prelude.{◌≡◌, ◌<◌, ◌-◌, ◌^◌, [], None, Ok, Err, IfOk};
ghost use Rattle.std.specs.FinMap as map;
ghost use Rattle.cp_vat_machine.specs.Calling.{DoCall, Opens, call_refusals, called, own_call};
ghost use Rattle.cp_vat_machine.specs.Local.{Local};
ghost use Rattle.cp_vat_machine.specs.Capacity.{Fresh};
ghost use Rattle.cp_vat_machine.specs.declared.event.Value.TheVariants as values;
ghost use Rattle.cp_vat_state.specs.Halts.{IfFault};
ghost use Rattle.cp_vat_state.specs.StateOf.{state_of};
ghost use Rattle.cp_vat_rules.specs.Going.{pending_call_of};
ghost use Rattle.cp_vat.specs.Doing.{CallsOn, OwnsOn};
ghost use Rattle.cp_vat.specs.Ways.{taken_back};

use crate::asking::ask;
use crate::going::{go_from, kind_of, reference_of};
use crate::refusals::check_call;
use cp_refs::{Cap, Origin, QuestionKind, Request};
use cp_vat_machine::{Effect, PeerFault, VatFault};
use cp_vat_rules::go::PendingCall;
use cp_vat_state::{Core, StepFault};

/// Calls a capability: the call opens a question, and goes.
pub(crate) fn call(
    core: &mut Core,
    cap: Cap,
    request: Request,
    effects: &mut Vec<Effect>,
) -> Result<u32, VatFault>
    requires { Local (state_of core.old) }
    ensures { CallsOn (λ s. DoCall s cap request) (λ q. values.Question q) core.old result effects.old.items effects.new.items core.new }
{
    check_call(core, &cap, &request)?;
    Ok(open_call(core, &cap, request, effects)?)
}

/// The call opens a question under a free number, and goes. Where a table is full nothing changes.
fn open_call(
    core: &mut Core,
    cap: &Cap,
    request: Request,
    effects: &mut Vec<Effect>,
) -> Result<u32, StepFault>
    requires local { Local (state_of core.old) }
    requires passed { call_refusals (state_of core.old) cap.now request ≡ [] }
    ensures { OwnsOn (λ s. Opens s cap.now request) (λ q. values.Question q) core.old result effects.old.items effects.new.items core.new }
{
    let reference = reference_of(core.alloc, core.values.values(), cap)?;
    let (question, call) = enter(core, kind_of(&reference), request)?;
    match go_from(core, call, cap, reference, effects) {
        Ok(()) => Ok(question),
        Err(StepFault::Fault(fault)) => {
            // A full table refuses the call (V8), so what it did is taken back.
            take_back(core, question);
            Err(StepFault::Fault(fault))
        }
        // An allocation failure closes the vat, so nothing is taken back.
        Err(StepFault::OutOfMemory) => Err(StepFault::OutOfMemory),
    }
}

/// Opens a question for a call of the application's, and gives it the next ticket.
fn enter(
    core: &mut Core,
    kind: QuestionKind,
    request: Request,
) -> Result<(u32, PendingCall), StepFault>
    requires local { Local (state_of core.old) }
    requires ticket { core.old.gates.next_ticket < 2 ^ 64 - 1 }
    ensures fresh { IfOk result (λ e. Fresh core.old.questions (Ok e.0)) }
    ensures unknown { IfOk result (λ e. map.get core.old.values.questions e.0 ≡ None) }
    ensures called { IfOk result (λ e. state_of core.new ≡ called (state_of core.old) e.0 kind) }
    ensures call { IfOk result (λ e. pending_call_of e.1 ≡ own_call (state_of core.old) e.0 request) }
    ensures free { IfOk result (λ e. map.get core.new.gates.waiting.calls e.1.ticket ≡ None) }
    ensures given { IfOk result (λ e. e.1.ticket < core.new.gates.next_ticket) }
    ensures full { (fault : PeerFault) → result ≡ Err (StepFault.Fault fault) → Fresh core.old.questions (Err fault) }
    ensures unchanged { IfFault result (core.new ≡ core.old) }
{
    // The ticket is taken once the question is open, since opening may fail.
    let ticket = core.gates.next_ticket();
    let question = ask(core, kind, Some(ticket), false)?;
    let call = PendingCall {
        ticket: core.gates.enter(),
        origin: Origin::Own(question),
        request,
    };
    Ok((question, call))
}

/// Takes back what opening a question did, whose ticket was given last.
fn take_back(core: &mut Core, question: u32)
    requires given { 0 < core.old.gates.next_ticket }
    requires free { map.get core.old.gates.waiting.calls (core.old.gates.next_ticket - 1) ≡ None }
    ensures { state_of core.new ≡ taken_back (state_of core.old) question }
{
    core.values.remove_question(question);
    core.questions.close(question);
    core.gates.take_back();
}
