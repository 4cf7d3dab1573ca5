//! What `answer` and `resolve` do.

ghost use Rattle.std.specs.Prelude.{◌≡◌, IsTrue};
ghost use Rattle.cp_vat_machine.specs.Doing.{DoAnswer, DoResolve};
ghost use Rattle.cp_vat_machine.specs.Local.{Local};
ghost use Rattle.cp_vat_machine.specs.declared.event.Value.TheVariants as values;
ghost use Rattle.cp_vat_state.specs.StateOf.{state_of};
ghost use Rattle.cp_vat.specs.Doing.{CallsOn};

use crate::refusals::{check_answer, check_resolve, check_value};
use cp_refs::{Cap, Origin, Outcome, PromiseId};
use cp_vat_machine::{Effect, VatFault};
use cp_vat_rules::give::give;
use cp_vat_rules::resolve::resolve_cap;
use cp_vat_rules::settle::settle;
use cp_vat_state::Core;

/// Gives the outcome of a call that was delivered.
pub(crate) fn answer(
    core: &mut Core,
    origin: Origin,
    outcome: Outcome,
    effects: &mut Vec<Effect>,
) -> Result<(), VatFault>
    requires { Local (state_of core.old) }
    ensures { CallsOn (λ s. DoAnswer s origin outcome) (λ _. values.Nothing) core.old result effects.old.items effects.new.items core.new }
{
    check_answer(core, origin, &outcome)?;
    give(core, origin, outcome, effects)?;
    Ok(())
}

/// Settles a promise that the application made. Its value must not lead back to it.
pub(crate) fn resolve(
    core: &mut Core,
    promise: PromiseId,
    value: Cap,
    effects: &mut Vec<Effect>,
) -> Result<(), VatFault>
    requires { Local (state_of core.old) }
    ensures { CallsOn (λ s. DoResolve s promise value) (λ _. values.Nothing) core.old result effects.old.items effects.new.items core.new }
{
    check_resolve(core, promise, &value)?;
    // By what it comes to, so that a path of a settled question leads back too (V4).
    let last = resolve_cap(core.alloc, core.values.values(), &value)?;
    if is_promise(&last, promise) {
        return Err(VatFault::PromiseCycle);
    }
    check_value(core, &value)?;
    settle(core, promise, value, effects)?;
    Ok(())
}

/// Whether a capability is this promise.
fn is_promise(cap: &Cap, promise: PromiseId) -> bool
    ensures yes { IsTrue result → cap.now ≡ Cap.Promise promise }
    ensures no { cap.now ≡ Cap.Promise promise → IsTrue result }
{
    match cap {
        Cap::Promise(id) => *id == promise,
        _ => false,
    }
}
