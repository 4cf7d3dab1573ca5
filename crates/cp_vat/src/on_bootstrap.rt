//! What a Bootstrap does.

ghost use Rattle.std.specs.Prelude.{◌≡◌, ◌≢◌, None, IfOk, OnOk};
ghost use Rattle.std.specs.FinMap as map;
ghost use Rattle.cp_vat_machine.specs.Answering.{bootstrap_outcome, with_answer, OnBootstrap};
ghost use Rattle.cp_vat_state.specs.Halts.{Acts, OnlyAllocationFails};
ghost use Rattle.cp_vat_state.specs.StateOf.{state_of};

use cp_refs::{Cap, Caps, Outcome, failed};
use cp_tables::LIMIT;
use cp_tree::{Tree, Whole};
use cp_vat_machine::{AnswerEntry, Effect, Mentions, PeerFault, TiedPromises};
use cp_vat_rules::give::give_answer;
use cp_vat_state::{Core, StepFault};
use std::alloc::{AllocError, Global};

/// A Bootstrap is answered at once.
pub(crate) fn on_bootstrap(
    core: &mut Core,
    id: u32,
    effects: &mut Vec<Effect>,
) -> Result<(), StepFault>
    ensures { Acts (OnBootstrap (state_of core.old) id) result effects.old.items effects.new.items (state_of core.new) }
{
    if core.answers.get(id).is_some() {
        return Err(StepFault::Fault(PeerFault::QuestionInUse));
    }
    if core.answers.len() == LIMIT {
        return Err(StepFault::Fault(PeerFault::TableFull));
    }
    open_answer(core, id, None)?;
    let outcome = bootstrap_outcome(core.alloc, core.bootstrap)?;
    give_answer(core, id, outcome, effects)
}

/// Keeps an answer from now on, of a call with this ticket or of a Bootstrap.
pub(crate) fn open_answer(core: &mut Core, id: u32, ticket: Option<u64>) -> Result<(), StepFault>
    requires free { map.get core.old.answers id ≡ None }
    requires few { map.len core.old.answers ≢ LIMIT }
    ensures opened { OnOk result (state_of core.new ≡ with_answer (state_of core.old) id ticket) }
    ensures memory { OnlyAllocationFails result }
{
    core.answers.open(
        id,
        AnswerEntry {
            ticket,
            is_delivered: false,
            mentions: Mentions::new(Vec::new(core.alloc)),
            tied: TiedPromises::new(Vec::new(core.alloc)),
        },
    )?;
    core.values.put_answer(id, None)?;
    Ok(())
}

/// What a Bootstrap is answered with.
fn bootstrap_outcome(alloc: Global, bootstrap: Option<u32>) -> Result<Outcome, AllocError>
    ensures { IfOk result (λ o. o ≡ bootstrap_outcome bootstrap) }
{
    let Some(object) = bootstrap else {
        return Ok(Outcome::Failed(failed(alloc, "no bootstrap")?));
    };
    let Ok(content) = Whole::new(Tree::Cap(0)) else {
        // A message can hold a capability.
        unreachable!()
    };
    let mut caps = Vec::new(alloc);
    caps.push(Cap::Object(object))?;
    Ok(Outcome::Results {
        content,
        caps: Caps::new(caps),
    })
}
