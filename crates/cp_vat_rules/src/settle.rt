//! How promises are settled.

ghost use Rattle.std.specs.Prelude.{◌≡◌, ◌∷◌, [], Some, None, IsSome, IfOk, OnOk, option_to_list};
ghost use Rattle.std.specs.FinMap as map;
ghost use Rattle.cp_tables.specs.Table.{with_change};
ghost use Rattle.cp_vat_machine.specs.State.{State, with_exports};
ghost use Rattle.cp_vat_machine.specs.Give.{ResolvesEnd, Settle, Tells, last_for, value_for};
ghost use Rattle.cp_vat_machine.specs.InUse.{caps_of};
ghost use Rattle.cp_vat_machine.specs.Resolving.{given_back};
ghost use Rattle.cp_refs.specs.Route.{HasRoute};
ghost use Rattle.cp_vat_state.specs.Halts.{Acts, IfFault, Leaves};
ghost use Rattle.cp_vat_state.specs.Queue.{with_over};
ghost use Rattle.cp_vat_state.specs.StateOf.{state_of};
ghost use Rattle.cp_vat_rules.specs.Ungiven.{AllEnd, AreOpenOnce};
ghost use Rattle.cp_vat_rules.specs.Settling.{Settles, SettlesBy, SettlesTied, TellsOf, lowered_back, over_settled, raised_by, reopened};

use crate::descriptors::{mention, write_end};
use crate::lists::add;
use crate::resolve::resolve_cap;
use cp_messages::{Message, Resolution, Resolve};
use cp_refs::{Cap, KeptOutcome, PromiseId, failed};
use cp_vat_machine::{Effect, Tied};
use cp_vat_state::{Core, Exported, ExportedCap, Fulfillment, Gates, Resolutions, StepFault};
use std::alloc::{AllocError, Global};

/// A promise that was settled, whose gate is still to be ended.
#[derive(Drop)]
pub(crate) struct SettledPromise {
    pub promise: PromiseId,
    pub value: Cap,
    /// The export that its Resolve raised, if it raised one.
    pub raised: Option<u32>,
}

/// Settles a promise. One whose value leads back to it is broken. Where a table is full nothing changes.
pub fn settle(
    core: &mut Core,
    promise: PromiseId,
    value: Cap,
    effects: &mut Vec<Effect>,
) -> Result<(), StepFault>
    requires unsettled { map.get core.old.values.promises promise ≡ Some None }
    requires ends { HasRoute core.old.values value }
    ensures acts { Acts (Settle (state_of core.old) promise value) result effects.old.items effects.new.items (state_of core.new) }
    ensures unchanged { IfFault result (core.new ≡ core.old) }
{
    let settled = settle_value(
        core.alloc,
        &mut core.values,
        &mut core.exports,
        promise,
        value,
        effects,
    )?;
    core.gates
        .end(Fulfillment::Promise(settled.promise, settled.value))?;
    Ok(())
}

/// Settles the promises tied to an answer to what it gave at their paths, in the order in which they
/// were opened. Their gates are still to be ended. Where a table is full nothing changes.
pub(crate) fn settle_tied(
    alloc: Global,
    values: &mut Resolutions,
    exports: &mut Exported,
    outcome: &KeptOutcome,
    tied: &[Tied],
    effects: &mut Vec<Effect>,
) -> Result<Vec<SettledPromise>, StepFault>
    requires unsettled { AreOpenOnce values.old.promises tied.now }
    requires ends { AllEnd values.old (caps_of outcome.now) }
    ensures settled { SettlesTied outcome.now tied.now values.old exports.old result effects.old.items effects.new.items values.new exports.new (λ v. v.items) }
    ensures promises { IfOk result (λ _. values.new ≡ record values.old { promises = values.new.promises }) }
    ensures unchanged { IfFault result ((values.new ≡ values.old) × (exports.new ≡ exports.old)) }
{
    let mut settled = Vec::new(alloc);
    for one in tied {
        let value = outcome.at(alloc, one.path.fields())?;
        match settle_value(alloc, values, exports, one.promise, value, effects) {
            Ok(one) => add(&mut settled, one)?,
            Err(step_fault) => {
                // The call is refused for a full table, so the promises before it are opened again.
                take_back(values, exports, &settled)?;
                return Err(step_fault);
            }
        }
    }
    Ok(settled)
}

/// Ends the gates of promises that were settled, in their order.
pub(crate) fn end_gates(
    alloc: Global,
    gates: &mut Gates,
    settled: &[SettledPromise],
) -> Result<(), AllocError>
    ensures { OnOk result (gates.new ≡ with_over gates.old (over_settled gates.old.waiting.over settled.now)) }
{
    for one in settled {
        let value = one.value.copy(alloc)?;
        gates.end(Fulfillment::Promise(one.promise, value))?;
    }
    Ok(())
}

/// Settles a promise, whose gate is still to be ended. One whose value leads back to it is broken.
fn settle_value(
    alloc: Global,
    values: &mut Resolutions,
    exports: &mut Exported,
    promise: PromiseId,
    value: Cap,
    effects: &mut Vec<Effect>,
) -> Result<SettledPromise, StepFault>
    requires unsettled { map.get values.old.promises promise ≡ Some None }
    requires ends { HasRoute values.old value }
    ensures settled { SettlesBy (λ s. Settle s promise value) values.old exports.old result effects.old.items effects.new.items values.new exports.new (λ one. one ∷ []) }
    ensures put { IfOk result (λ one. values.new ≡ record values.old { promises = map.insert values.old.promises promise (Some one.value) }) }
    ensures back { IfOk result (λ one. lowered_back exports.new (option_to_list one.raised) ≡ exports.old) }
    ensures named { IfOk result (λ one. one.promise ≡ promise) }
    ensures ends { IfOk result (λ one. HasRoute values.new one.value) }
    ensures unchanged { IfFault result ((values.new ≡ values.old) × (exports.new ≡ exports.old)) }
{
    let reached = resolve_cap(alloc, values.values(), &value)?;
    let value = value_for(alloc, promise, &reached, value)?;
    let last = last_for(alloc, promise, reached)?;
    let told = tell(alloc, exports, promise, &last, effects);
    // For the proof: it is dropped at one place, and not under a `?`.
    drop(last);
    let raised = told?;
    put_value(alloc, values, promise, &value)?;
    Ok(SettledPromise {
        promise,
        value,
        raised,
    })
}

/// Keeps what a promise that exists was settled to.
fn put_value(
    alloc: Global,
    values: &mut Resolutions,
    promise: PromiseId,
    value: &Cap,
) -> Result<(), AllocError>
    requires { IsSome (map.get values.old.promises promise) }
    ensures { OnOk result (values.new ≡ record values.old { promises = map.insert values.old.promises promise (Some value.now) }) }
{
    let kept = value.copy(alloc)?;
    values.settle_promise(promise, kept)?;
    Ok(())
}

/// What a promise is settled to, by what its value comes to.
fn value_for(alloc: Global, promise: PromiseId, last: &Cap, value: Cap) -> Result<Cap, AllocError>
    ensures { IfOk result (λ v. v ≡ value_for promise last.now value) }
{
    match last {
        Cap::Promise(id) => {
            if *id == promise {
                drop(value);
                Ok(Cap::Broken(failed(alloc, "promise loop")?))
            } else {
                Ok(value)
            }
        }
        _ => Ok(value),
    }
}

/// What the value of a promise comes to once it is settled. It came to this before.
fn last_for(alloc: Global, promise: PromiseId, reached: Cap) -> Result<Cap, AllocError>
    ensures { IfOk result (λ last. last ≡ last_for promise reached) }
{
    match reached {
        Cap::Promise(id) => {
            drop(reached);
            if id == promise {
                Ok(Cap::Broken(failed(alloc, "promise loop")?))
            } else {
                Ok(Cap::Promise(id))
            }
        }
        other => Ok(other),
    }
}

/// Tells the peer what a promise came to, if it is exported. Gives the export that this raised.
fn tell(
    alloc: Global,
    exports: &mut Exported,
    promise: PromiseId,
    last: &Cap,
    effects: &mut Vec<Effect>,
) -> Result<Option<u32>, StepFault>
    ensures told { TellsOf promise last.now exports.old result effects.old.items effects.new.items exports.new }
    ensures back { IfOk result (λ raised. lowered_back exports.new (option_to_list raised) ≡ exports.old) }
    ensures unchanged { IfFault result (exports.new ≡ exports.old) }
{
    let Some(promise_id) = exports.number(ExportedCap::Promise(promise)) else {
        return Ok(None);
    };
    let resolution = resolve_end(alloc, exports, last)?;
    let raised = raised_of(&resolution);
    let report = Message::Resolve(Resolve {
        promise_id,
        resolution,
    });
    add(effects, Effect::Send(report))?;
    Ok(raised)
}

/// How what a promise came to is reported.
fn resolve_end(alloc: Global, exports: &mut Exported, last: &Cap) -> Result<Resolution, StepFault>
    ensures said { (s : State) → Leaves (ResolvesEnd (with_exports s exports.old) last.now) result (with_exports s exports.new) }
    ensures back { IfOk result (λ r. lowered_back exports.new (given_back r) ≡ exports.old) }
    ensures unchanged { IfFault result (exports.new ≡ exports.old) }
{
    match last {
        Cap::Broken(x) => Ok(Resolution::Exception(x.copy(alloc)?)),
        _ => {
            let said = write_end(alloc, exports, last)?;
            Ok(Resolution::Cap(said))
        }
    }
}

/// The export that a resolution names.
fn raised_of(resolution: &Resolution) -> Option<u32>
    ensures { option_to_list result ≡ given_back resolution.now }
{
    match resolution {
        Resolution::Cap(descriptor) => mention(descriptor),
        _ => None,
    }
}

/// Takes back what settling promises did, the last first.
fn take_back(
    values: &mut Resolutions,
    exports: &mut Exported,
    settled: &[SettledPromise],
) -> Result<(), AllocError>
    ensures values { OnOk result (values.new ≡ record values.old { promises = reopened values.old.promises settled.now }) }
    ensures exports { OnOk result (exports.new ≡ lowered_back exports.old (raised_by settled.now)) }
{
    for index in (0..settled.len()).rev() {
        take_one_back(values, exports, &settled[index])?;
    }
    Ok(())
}

/// Takes back what settling a promise did.
fn take_one_back(
    values: &mut Resolutions,
    exports: &mut Exported,
    one: &SettledPromise,
) -> Result<(), AllocError>
    ensures values { OnOk result (values.new ≡ record values.old { promises = with_change values.old.promises one.now.promise (λ _. None) }) }
    ensures exports { OnOk result (exports.new ≡ lowered_back exports.old (option_to_list one.now.raised)) }
{
    values.reopen_promise(one.promise)?;
    if let Some(id) = one.raised {
        exports.take_back(id);
    }
    Ok(())
}
