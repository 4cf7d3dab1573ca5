//! How outcomes are given to the application's questions.

ghost use Rattle.std.specs.Prelude.{◌≡◌, Some, OnOk};
ghost use Rattle.cp_tables.specs.declared.exchange.Stage.TheVariants as stages;
ghost use Rattle.cp_vat_machine.specs.Give.{GiveOwn, question_over, without_question};
ghost use Rattle.cp_vat_state.specs.Halts.{Acts, IfFault};
ghost use Rattle.cp_vat_state.specs.StateOf.{state_of};
ghost use Rattle.cp_vat_rules.specs.Giving.{GivesQuestion};
ghost use Rattle.cp_vat_rules.specs.Ungiven.{IsUngiven};

use crate::entry::remove_question;
use crate::lists::add;
use cp_refs::{KeptOutcome, Origin, Outcome};
use cp_tables::Stage;
use cp_vat_machine::Effect;
use cp_vat_state::{Core, Fulfillment, StepFault};
use std::alloc::AllocError;

/// Settles a question of the application's, which is reported unless it finished the question.
pub fn give_own(
    core: &mut Core,
    id: u32,
    outcome: Outcome,
    effects: &mut Vec<Effect>,
) -> Result<(), StepFault>
    requires { IsUngiven (state_of core.old) (Origin.Own id) }
    ensures acts { Acts (GiveOwn (state_of core.old) id outcome) result effects.old.items effects.new.items (state_of core.new) }
    ensures unchanged { IfFault result (core.new ≡ core.old) }
{
    let Some(question) = core.questions.get(id) else {
        unreachable!()
    };
    match question.stage {
        Stage::Open => settle_question(core, id, outcome, effects),
        Stage::Finished => {
            let ended = end_question(core, id, &outcome);
            drop(outcome);
            Ok(ended?)
        }
        // A question is settled once.
        Stage::Returned => unreachable!(),
    }
}

/// Settles a question that wasn't finished.
fn settle_question(
    core: &mut Core,
    id: u32,
    outcome: Outcome,
    effects: &mut Vec<Effect>,
) -> Result<(), StepFault>
    ensures acts { GivesQuestion stages.Open core.old id outcome result effects.old.items effects.new.items core.new }
    ensures unchanged { IfFault result (core.new ≡ core.old) }
{
    let fulfillment = KeptOutcome::of(core.alloc, &outcome)?;
    core.gates.end(Fulfillment::Question(id, fulfillment))?;
    let kept = KeptOutcome::of(core.alloc, &outcome)?;
    core.values.settle_question(id, kept)?;
    let _ = core.questions.note_return(id);
    let settled = Effect::Settled {
        question: id,
        outcome,
    };
    add(effects, settled)?;
    Ok(())
}

/// Ends the gate of a question that was finished, and takes the question out.
fn end_question(core: &mut Core, id: u32, outcome: &Outcome) -> Result<(), AllocError>
    ensures { OnOk result (state_of core.new ≡ without_question (question_over (state_of core.old) id outcome.now) id) }
{
    let fulfillment = KeptOutcome::of(core.alloc, outcome)?;
    core.gates.end(Fulfillment::Question(id, fulfillment))?;
    remove_question(core, id);
    Ok(())
}
