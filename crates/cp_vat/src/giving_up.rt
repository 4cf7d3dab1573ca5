//! What `finish`, `release`, `forget` and `idle` do.

ghost use Rattle.std.specs.Prelude.{◌≡◌, ◌++◌, [], OnOk, IsSome};
ghost use Rattle.std.specs.FinMap as map;
ghost use Rattle.cp_tables.specs.Counted.{count_of};
ghost use Rattle.cp_vat_machine.specs.Doing.{DoFinish, DoForget, DoIdle, DoRelease, told_if, without_import};
ghost use Rattle.cp_vat_machine.specs.Go.{finish_of};
ghost use Rattle.cp_vat_machine.specs.declared.event.Value.TheVariants as values;
ghost use Rattle.cp_vat_state.specs.StateOf.{state_of};
ghost use Rattle.cp_vat.specs.Stepping.{Calls};

use crate::on_resolve::release_effect;
use crate::refusals::is_own_question;
use cp_refs::PromiseId;
use cp_tables::Stage;
use cp_vat_machine::{Effect, Idle, VatFault};
use cp_vat_rules::entry::remove_question;
use cp_vat_rules::go::finish_effect;
use cp_vat_state::Core;
use std::alloc::AllocError;

/// Gives a question up. After its outcome the question is gone; before it, it stays until then. The
/// peer gets a Finish where the call was sent.
pub(crate) fn finish(core: &mut Core, id: u32, effects: &mut Vec<Effect>) -> Result<(), VatFault>
    ensures { Calls (DoFinish (state_of core.old) id) (λ _. values.Nothing) (state_of core.old) result effects.old.items effects.new.items (state_of core.new) }
{
    if !is_own_question(core, id) {
        return Err(VatFault::UnknownQuestion);
    }
    // Calls that wait for its outcome would have none.
    if core.is_question_used(id) {
        return Err(VatFault::InUse);
    }
    let Some(question) = core.questions.get(id) else {
        unreachable!()
    };
    let is_sent = question.kept.is_sent;
    match question.stage {
        Stage::Open => {
            // It stays until its Return, which would be of an unknown question (P2) otherwise.
            let _ = core.questions.note_finish(id);
            // Nothing of the outcome was taken in, so the peer may release all that it names.
            tell_if(is_sent, id, true, effects)?;
            Ok(())
        }
        Stage::Returned => {
            remove_question(core, id);
            // The application releases what it took in.
            tell_if(is_sent, id, false, effects)?;
            Ok(())
        }
        Stage::Finished => unreachable!(),
    }
}

/// Gives an import back, with its whole count.
pub(crate) fn release(core: &mut Core, id: u32, effects: &mut Vec<Effect>) -> Result<(), VatFault>
    ensures { Calls (DoRelease (state_of core.old) id) (λ _. values.Nothing) (state_of core.old) result effects.old.items effects.new.items (state_of core.new) }
{
    if core.is_import_used(id) {
        return Err(VatFault::InUse);
    }
    let Some(import) = core.imports.get(id) else {
        return Err(VatFault::UnknownImport);
    };
    let count = import.count;
    remove_import(core, id, count);
    effects.push(release_effect(id, count))?;
    Ok(())
}

/// Drops a settled promise.
pub(crate) fn forget(core: &mut Core, id: PromiseId) -> Result<(), VatFault>
    ensures { Calls (DoForget (state_of core.old) id) (λ _. values.Nothing) (state_of core.old) result [] [] (state_of core.new) }
{
    match core.values.values().promise(id) {
        None => return Err(VatFault::UnknownPromise),
        Some(None) => return Err(VatFault::Unsettled),
        Some(Some(_)) => {}
    }
    if core.is_promise_used(id) {
        return Err(VatFault::InUse);
    }
    core.values.remove_promise(id);
    core.own_promises.remove(id);
    Ok(())
}

/// The imports and the promises that aren't in use.
pub(crate) fn idle(core: &Core) -> Result<Idle, VatFault>
    ensures { Calls (DoIdle (state_of core.now)) (λ idle. values.Idle idle.imports idle.promises) (state_of core.now) result [] [] (state_of core.now) }
{
    let imports = core.idle_imports()?;
    let promises = core.idle_promises()?;
    Ok(Idle { imports, promises })
}

/// Tells the peer that a question was finished, if its call was sent.
fn tell_if(
    is_sent: bool,
    id: u32,
    release: bool,
    effects: &mut Vec<Effect>,
) -> Result<(), AllocError>
    ensures { OnOk result (effects.new.items ≡ effects.old.items ++ told_if is_sent (finish_of id release)) }
{
    if is_sent {
        effects.push(finish_effect(id, release))?;
    }
    Ok(())
}

/// Takes an import out that has this count.
fn remove_import(core: &mut Core, id: u32, count: u32)
    requires there { IsSome (map.get core.old.imports id) }
    requires count { count ≡ count_of core.old.imports id }
    ensures { state_of core.new ≡ without_import (state_of core.old) id }
{
    core.values.remove_import(id);
    core.marks.remove_import(id);
    let _ = core.imports.lower(id, count);
}
