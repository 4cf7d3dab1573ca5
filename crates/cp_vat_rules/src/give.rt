//! How outcomes are given to answers.

ghost use Rattle.std.specs.Prelude.{◌≡◌, [], Some, IfOk, OnOk, false};
ghost use Rattle.std.specs.FinMap as map;
ghost use Rattle.cp_tables.specs.declared.exchange.Stage.TheVariants as stages;
ghost use Rattle.cp_vat_machine.specs.State.{State};
ghost use Rattle.cp_vat_machine.specs.Give.{Give, GiveAnswer, Returns, gone, return_of, returned_mentions};
ghost use Rattle.cp_vat_machine.specs.InUse.{caps_of};
ghost use Rattle.cp_vat_state.specs.Halts.{Acts, IfFault, Leaves};
ghost use Rattle.cp_vat_state.specs.Overs.{over_with};
ghost use Rattle.cp_vat_state.specs.Queue.{with_over};
ghost use Rattle.cp_vat_state.specs.StateOf.{state_of};
ghost use Rattle.cp_vat_rules.specs.Giving.{GivesAnswer, NotesGiven};
ghost use Rattle.cp_vat_rules.specs.Leading.{with_parts};
ghost use Rattle.cp_vat_rules.specs.Ungiven.{AllEnd, IsUngiven};
ghost use Rattle.cp_vat_rules.specs.Settling.{IsUntied, OnlySettles, SettlesTiedTo, lowered_back, over_settled, settling};

use crate::descriptors::{mentioned, write_descriptors};
use crate::entry::{note_given, remove_answer};
use crate::exports::withdraw_exports;
use crate::give_own::give_own;
use crate::lists::add;
use crate::settle::{SettledPromise, end_gates, settle_tied};
use cp_messages::{Message, Payload, Return, Returned};
use cp_refs::{KeptOutcome, Origin, Outcome, Values};
use cp_tables::Stage;
use cp_vat_machine::{AnswerEntry, Effect, Mentions};
use cp_vat_state::{Core, Exported, Fulfillment, StepFault};
use std::alloc::{AllocError, Global};

/// Gives an outcome to whom a call's outcome is for. Where a table is full nothing changes.
pub fn give(
    core: &mut Core,
    origin: Origin,
    outcome: Outcome,
    effects: &mut Vec<Effect>,
) -> Result<(), StepFault>
    requires ungiven { IsUngiven (state_of core.old) origin }
    requires ends { AllEnd core.old.values (caps_of outcome) }
    ensures acts { Acts (Give (state_of core.old) origin outcome) result effects.old.items effects.new.items (state_of core.new) }
    ensures unchanged { IfFault result (core.new ≡ core.old) }
{
    match origin {
        Origin::Answer(id) => give_answer(core, id, outcome, effects),
        Origin::Own(id) => give_own(core, id, outcome, effects),
    }
}

/// Gives an answer: its Return goes out, and the promises tied to it are settled. Where a table is full
/// nothing changes.
pub fn give_answer(
    core: &mut Core,
    id: u32,
    outcome: Outcome,
    effects: &mut Vec<Effect>,
) -> Result<(), StepFault>
    requires ungiven { IsUngiven (state_of core.old) (Origin.Answer id) }
    requires ends { AllEnd core.old.values (caps_of outcome) }
    ensures acts { Acts (GiveAnswer (state_of core.old) id outcome) result effects.old.items effects.new.items (state_of core.new) }
    ensures unchanged { IfFault result (core.new ≡ core.old) }
{
    let Some(answer) = core.answers.get(id) else {
        unreachable!()
    };
    let is_tied = has_tied(&answer.kept);
    match answer.stage {
        Stage::Open => give_open(core, id, is_tied, outcome, effects),
        Stage::Finished => give_finished(core, id, is_tied, outcome, effects),
        // An answer is given once.
        Stage::Returned => unreachable!(),
    }
}

/// Whether promises are tied to an answer.
fn has_tied(entry: &AnswerEntry) -> bool
    ensures { result ≡ false → entry.now.tied ≡ [] }
{
    !entry.tied.promises().is_empty()
}

/// Gives an answer that wasn't finished.
fn give_open(
    core: &mut Core,
    id: u32,
    is_tied: bool,
    outcome: Outcome,
    effects: &mut Vec<Effect>,
) -> Result<(), StepFault>
    requires untied { is_tied ≡ false → IsUntied core.old id }
    requires ungiven { IsUngiven (state_of core.old) (Origin.Answer id) }
    requires ends { AllEnd core.old.values (caps_of outcome) }
    ensures acts { GivesAnswer stages.Open core.old id outcome result effects.old.items effects.new.items core.new }
    ensures unchanged { IfFault result (core.new ≡ core.old) }
{
    // Made twice, for the answer and for its gate. Sharing one would cost an allocation each time; of an
    // outcome without capabilities the second takes no memory.
    let kept = KeptOutcome::of(core.alloc, &outcome)?;
    let fulfillment = KeptOutcome::of(core.alloc, &outcome)?;
    let said = returned(core.alloc, core.values.values(), &mut core.exports, outcome)?;
    let ids = mentions(core.alloc, &said)?;
    add(effects, return_effect(id, said))?;
    let settled = match settle_promises(core, id, is_tied, &kept, effects) {
        Ok(settled) => settled,
        Err(step_fault) => {
            withdraw_exports(&mut core.exports, ids.ids());
            return Err(step_fault);
        }
    };
    // No table can be full any more: gates end only now, since that can't be taken back.
    let ended = end_answer(core, id, kept, fulfillment, ids, &settled);
    drop(settled);
    Ok(ended?)
}

/// Keeps what an open answer came to, and ends its gate and those of the promises that were settled.
fn end_answer(
    core: &mut Core,
    id: u32,
    kept: KeptOutcome,
    fulfillment: KeptOutcome,
    ids: Mentions,
    settled: &[SettledPromise],
) -> Result<(), AllocError>
    ensures answers { OnOk result (NotesGiven core.old.answers id ids core.new.answers) }
    ensures values { OnOk result (core.new.values ≡ record core.old.values { answers = map.insert core.old.values.answers id (Some kept) }) }
    ensures gates { let over = over_with core.old.gates.waiting.over (Fulfillment.Answer id fulfillment) in
        OnOk result (core.new.gates ≡ with_over core.old.gates (over_settled over settled.now)) }
    ensures rest { OnOk result (core.new ≡ record core.old { values = core.new.values; answers = core.new.answers; gates = core.new.gates }) }
{
    note_given(core.alloc, &mut core.answers, id, ids);
    core.gates.end(Fulfillment::Answer(id, fulfillment))?;
    core.values.put_answer(id, Some(kept))?;
    end_gates(core.alloc, &mut core.gates, settled)?;
    Ok(())
}

/// Gives an answer after its Finish: its Return says that it was canceled.
fn give_finished(
    core: &mut Core,
    id: u32,
    is_tied: bool,
    outcome: Outcome,
    effects: &mut Vec<Effect>,
) -> Result<(), StepFault>
    requires untied { is_tied ≡ false → IsUntied core.old id }
    requires ungiven { IsUngiven (state_of core.old) (Origin.Answer id) }
    requires ends { AllEnd core.old.values (caps_of outcome) }
    ensures acts { GivesAnswer stages.Finished core.old id outcome result effects.old.items effects.new.items core.new }
    ensures unchanged { IfFault result (core.new ≡ core.old) }
{
    let copied = KeptOutcome::of(core.alloc, &outcome);
    // For the proof: it is dropped at one place, and not under a `?`.
    drop(outcome);
    let kept = copied?;
    // The peer gave the question up, and takes nothing of its outcome.
    add(effects, return_effect(id, Returned::Canceled))?;
    let settled = settle_promises(core, id, is_tied, &kept, effects)?;
    let ended = end_finished(core, id, kept, &settled);
    drop(settled);
    Ok(ended?)
}

/// Takes out an answer that was finished, and ends its gate and those of the promises that were settled.
fn end_finished(
    core: &mut Core,
    id: u32,
    kept: KeptOutcome,
    settled: &[SettledPromise],
) -> Result<(), AllocError>
    ensures { let old = gone (state_of core.old) id kept in
        OnOk result (state_of core.new ≡ settling old core.old.values.promises core.old.exports settled.now) }
{
    core.gates.end(Fulfillment::Answer(id, kept))?;
    remove_answer(core, id);
    end_gates(core.alloc, &mut core.gates, settled)?;
    Ok(())
}

/// Settles the promises tied to an answer. Their gates are still to be ended. Where a table is full
/// nothing changes. Mostly none are tied, and then the answer isn't looked up.
fn settle_promises(
    core: &mut Core,
    id: u32,
    is_tied: bool,
    outcome: &KeptOutcome,
    effects: &mut Vec<Effect>,
) -> Result<Vec<SettledPromise>, StepFault>
    requires untied { is_tied ≡ false → IsUntied core.old id }
    requires ungiven { IsUngiven (state_of core.old) (Origin.Answer id) }
    requires ends { AllEnd core.old.values (caps_of outcome.now) }
    ensures settled { SettlesTiedTo core.old id outcome.now result effects.old.items effects.new.items core.new (λ v. v.items) }
    ensures promises { OnOk result (OnlySettles core.old core.new) }
    ensures unchanged { IfFault result (core.new ≡ core.old) }
{
    if !is_tied {
        return Ok(Vec::new(core.alloc));
    }
    let Some(answer) = core.answers.get(id) else {
        unreachable!()
    };
    settle_tied(
        core.alloc,
        &mut core.values,
        &mut core.exports,
        outcome,
        answer.kept.tied.promises(),
        effects,
    )
}

/// The Return of an answer. It leaves the exports that the params named as they are.
fn return_effect(answer_id: u32, returned: Returned) -> Effect
    ensures { result ≡ return_of answer_id returned }
{
    // `releaseParamCaps` is false, though its default is true: the application releases what the params
    // brought.
    Effect::Send(Message::Return(Return {
        answer_id,
        release_param_caps: false,
        returned,
    }))
}

/// How an outcome is returned. Its content goes into the Return.
fn returned(
    alloc: Global,
    values: &Values,
    exports: &mut Exported,
    outcome: Outcome,
) -> Result<Returned, StepFault>
    requires { AllEnd values.now (caps_of outcome) }
    ensures said { (s : State) → Leaves (Returns (with_parts s values.now exports.old) outcome) result (with_parts s values.now exports.new) }
    ensures back { IfOk result (λ r. lowered_back exports.new (returned_mentions r) ≡ exports.old) }
    ensures unchanged { IfFault result (exports.new ≡ exports.old) }
{
    match outcome {
        Outcome::Results { content, caps } => {
            let cap_table = write_descriptors(alloc, values, exports, caps.caps())?;
            Ok(Returned::Results(Payload { content, cap_table }))
        }
        Outcome::Failed(x) => Ok(Returned::Exception(x)),
        Outcome::Canceled => Ok(Returned::Canceled),
    }
}

/// The exports that a Return names.
fn mentions(alloc: Global, returned: &Returned) -> Result<Mentions, AllocError>
    ensures { IfOk result (λ ids. ids ≡ returned_mentions returned.now) }
{
    match returned {
        Returned::Results(payload) => mentioned(alloc, payload.cap_table.descriptors()),
        _ => Ok(Mentions::new(Vec::new(alloc))),
    }
}
