//! What a Call does.

ghost use Rattle.std.specs.Prelude.{◌≡◌, ◌<◌, ◌^◌, ◌-◌, ◌≢◌, [], Some, None, Ok, OnOk, IfOk, true};
ghost use Rattle.std.specs.FinMap as map;
ghost use Rattle.cp_vat_machine.specs.Answering.{GoToAnswer, GoToExport, OnCall, entered, target_faults};
ghost use Rattle.cp_refs.specs.declared.route.Route.TheVariants.{Deliver};
ghost use Rattle.cp_vat_machine.specs.Go.{Go};
ghost use Rattle.cp_vat_machine.specs.Local.{Local};
ghost use Rattle.cp_vat_machine.specs.Receiving.{answer_of};
ghost use Rattle.cp_vat_machine.specs.Supported.{is_supported, is_supported_target};
ghost use Rattle.cp_rpc.specs.Viewed.{viewed_call};
ghost use Rattle.cp_messages.specs.declared.message.Message.TheVariants as messages;
ghost use Rattle.cp_vat_state.specs.Halts.{Acts, OnlyAllocationFails};
ghost use Rattle.cp_vat_state.specs.StateOf.{state_of};
ghost use Rattle.cp_vat_rules.specs.Going.{MayGo};
ghost use Rattle.cp_vat.specs.Arriving.{TakesIn, bearing};
ghost use Rattle.cp_vat.specs.Lending.{ActsLending, deliveries};
ghost use Rattle.cp_vat.specs.Receiving.{Carries, HoldsWithin, Leads, LeadsBy, with_content};

use crate::borrowed_call::BorrowedCall;
use crate::checks::check_call;
use crate::on_bootstrap::open_answer;
use cp_reading::View;
use cp_refs::{Caps, Gate, Origin, Path, Request, Route};
use cp_rpc::{Call, CallView, Payload, Source, Target};
use cp_tree::Whole;
use cp_vat_machine::Effect;
use cp_vat_rules::go::{PendingCall, go};
use cp_vat_rules::promised::path_of;
use cp_vat_rules::receive::{answer_of, receive_caps};
use cp_vat_state::{Core, StepFault};
use std::alloc::{AllocError, Global};

/// Where a Call goes that was taken in, and with what but its content.
#[derive(Drop)]
struct Arrival {
    ticket: u64,
    caps: Caps,
    route: Route,
}

/// A Call is taken in, and goes by its route. Its content comes beside it, and is made last, once it is known where the
/// call goes.
pub(crate) fn on_call<S: Source>(
    core: &mut Core,
    call: Call,
    content: &S,
    effects: &mut Vec<Effect>,
) -> Result<(), StepFault>
    requires supported { is_supported (messages.Call call) ≡ true }
    requires local { Local (state_of core.old) }
    ensures { Acts (OnCall (state_of core.old) (with_content call (S.seen content.now))) result effects.old.items effects.new.items (state_of core.new) }
{
    let arrival = arrive(core, &call)?;
    go_on(core, &call, arrival, content, effects)
}

/// The same of a Call that is read in place. One that goes to an object is lent to it, and its content isn't made.
pub(crate) fn on_call_lending<'a>(
    core: &mut Core,
    call: Call,
    content: View<'a>,
    effects: &mut Vec<Effect>,
) -> Result<Option<BorrowedCall<'a>>, StepFault>
    requires supported { is_supported (messages.Call call) ≡ true }
    requires local { Local (state_of core.old) }
    ensures { ActsLending (OnCall (state_of core.old) (with_content call content.entry)) result effects.old.items effects.new.items (state_of core.new) }
{
    let arrival = arrive(core, &call)?;
    if let Route::Deliver(object) = arrival.route {
        return Ok(Some(lend(core, &call, arrival, object, content)));
    }
    go_on(core, &call, arrival, &content, effects)?;
    Ok(None)
}

/// A Call that is read in place, made but for its content.
pub(crate) fn without_content<S: Source>(
    alloc: Global,
    call: &CallView<S>,
) -> Result<Call, AllocError>
    ensures { IfOk result (λ c. with_content c (S.seen call.now.params.content) ≡ viewed_call S.seen call.now) }
{
    Ok(Call {
        question_id: call.question_id,
        method_id: call.method_id,
        send_results_to: call.send_results_to.send_results_to(alloc)?,
        interface_id: call.interface_id,
        target: call.target.target(alloc)?,
        params: Payload {
            content: Whole::null(),
            cap_table: call.params.cap_table.cap_table(alloc)?,
        },
    })
}

/// A Call's capability table is taken in, it opens an answer and has the next ticket, and takes its target's route.
fn arrive(core: &mut Core, call: &Call) -> Result<Arrival, StepFault>
    requires supported { is_supported (messages.Call call.now) ≡ true }
    requires local { Local (state_of core.old) }
    ensures { TakesIn (state_of core.old) call.now result (state_of core.new) }
{
    if let Err(fault) = check_call(core, call) {
        return Err(StepFault::Fault(fault));
    }
    let caps = receive_caps(core, call.params.cap_table.descriptors())?;
    // The answer opens only now, so a target or a table that names the call's own number is P3.
    let ticket = enter(core, call.question_id)?;
    let route = route_to(core, &call.target)?;
    Ok(Arrival {
        ticket,
        caps,
        route,
    })
}

/// A Call that was taken in goes by its route.
fn go_on<S: Source>(
    core: &mut Core,
    call: &Call,
    arrival: Arrival,
    content: &S,
    effects: &mut Vec<Effect>,
) -> Result<(), StepFault>
    requires { MayGo (state_of core.old) (bearing call.now arrival (S.seen content.now)) }
    ensures { Acts (Go (state_of core.old) (bearing call.now arrival (S.seen content.now)) arrival.route) result effects.old.items effects.new.items (state_of core.new) }
{
    let content = content_for(core.alloc, &arrival.route, content)?;
    let underway = PendingCall {
        ticket: arrival.ticket,
        origin: Origin::Answer(call.question_id),
        request: Request {
            interface: call.interface_id,
            method: call.method_id,
            content,
            caps: arrival.caps,
        },
    };
    go(core, underway, arrival.route, effects)
}

/// A Call that was taken in is lent to its object.
fn lend<'a>(
    core: &mut Core,
    call: &Call,
    arrival: Arrival,
    object: u32,
    content: View<'a>,
) -> BorrowedCall<'a>
    ensures { Go (state_of core.old) (bearing call.now arrival content.entry) (Deliver object) (Ok (deliveries (Some result), state_of core.new)) }
{
    if let Some(kept) = core.answers.kept_mut(call.question_id) {
        kept.is_delivered = true;
    }
    BorrowedCall {
        object,
        origin: Origin::Answer(call.question_id),
        ticket: arrival.ticket,
        interface: call.interface_id,
        method: call.method_id,
        content,
        caps: arrival.caps,
    }
}

/// The content that a call carries which takes this route. One that fails needs none.
fn content_for<S: Source>(alloc: Global, route: &Route, content: &S) -> Result<Whole, AllocError>
    ensures { IfOk result (Carries route.now (S.seen content.now)) }
{
    match route {
        Route::Fail(_) => Ok(Whole::null()),
        _ => content.whole(alloc),
    }
}

/// Opens an answer for a call, and gives it the next ticket.
fn enter(core: &mut Core, id: u32) -> Result<u64, StepFault>
    requires free { map.get core.old.answers id ≡ None }
    requires few { map.len core.old.answers ≢ 65536 }
    requires ticket { core.old.gates.next_ticket < 2 ^ 64 - 1 }
    ensures entered { OnOk result (state_of core.new ≡ entered (state_of core.old) id) }
    ensures ticket { IfOk result (λ ticket. ticket ≡ core.old.gates.next_ticket) }
    ensures free { IfOk result (λ ticket. map.get core.new.gates.waiting.calls ticket ≡ None) }
    ensures memory { OnlyAllocationFails result }
{
    let ticket = core.gates.enter();
    open_answer(core, id, Some(ticket))?;
    Ok(ticket)
}

/// The route of a call on a target.
fn route_to(core: &Core, target: &Target) -> Result<Route, AllocError>
    requires within { HoldsWithin (state_of core.now) }
    requires there { target_faults (state_of core.now) target.now ≡ [] }
    requires supported { is_supported_target target.now ≡ true }
    ensures { IfOk result (Leads (state_of core.now) target.now) }
{
    match target {
        Target::ImportedCap(id) => route_to_export(core, *id),
        Target::PromisedAnswer(answer) => {
            let path = path_of(core.alloc, &answer.transform)?;
            route_to_answer(core, answer.question_id, path)
        }
        // A message with an unknown target isn't supported, and was sent back.
        Target::Unknown(_) => unreachable!(),
    }
}

/// A call on an export takes the route of what was exported.
fn route_to_export(core: &Core, id: u32) -> Result<Route, AllocError>
    requires within { HoldsWithin (state_of core.now) }
    requires there { map.get core.now.exports id ≢ None }
    ensures { IfOk result (LeadsBy (λ call out. GoToExport (state_of core.now) call (map.get core.now.exports id) out) (state_of core.now)) }
{
    let Some(export) = core.exports.get(id) else {
        // `check_call` found the export.
        unreachable!()
    };
    core.values.values().route(&export.kept)
}

/// A call on an answer waits until it is given, and takes the route of what it gave at the path.
fn route_to_answer(core: &Core, id: u32, path: Path) -> Result<Route, AllocError>
    requires within { HoldsWithin (state_of core.now) }
    requires there { answer_of (state_of core.now) id ≢ None }
    ensures { IfOk result (LeadsBy (λ call out. GoToAnswer (state_of core.now) call id path (answer_of (state_of core.now) id) out) (state_of core.now)) }
{
    match answer_of(core, id) {
        None => unreachable!(),
        Some(None) => Ok(Route::Wait(Gate::Answer(id, path))),
        Some(Some(outcome)) => {
            let cap = outcome.at(core.alloc, path.fields())?;
            core.values.values().route(&cap)
        }
    }
}
