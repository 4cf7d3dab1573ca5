//! How descriptors are taken in.

ghost use Rattle.std.specs.Prelude.{◌≡◌, Some, None, Ok, true, option_copied};
ghost use Rattle.std.specs.List.{list_all};
ghost use Rattle.std.specs.FinMap as map;
ghost use Rattle.cp_vat_machine.specs.Then.{Then};
ghost use Rattle.cp_vat_machine.specs.Supported.{is_supported_descriptor};
ghost use Rattle.cp_vat_machine.specs.Receiving.{ReceivesCap, ReceivesCaps, ReceivesAnswer, answer_of, held_import, taken_export};
ghost use Rattle.cp_vat_state.specs.Halts.{Becomes, Leaves};
ghost use Rattle.cp_vat_state.specs.StateOf.{state_of};

use crate::lists::add;
use crate::promised::path_of;
use cp_messages::Descriptor;
use cp_refs::{Cap, Caps, KeptOutcome, Path};
use cp_tables::{LIMIT, Stage};
use cp_vat_machine::{ImportKind, PeerFault, Tied};
use cp_vat_state::{Core, StepFault};

/// Takes in a capability table, one descriptor after another.
pub fn receive_caps(core: &mut Core, table: &[Descriptor]) -> Result<Caps, StepFault>
    requires { list_all is_supported_descriptor table.now ≡ true }
    ensures { Leaves (ReceivesCaps (state_of core.old) table.now) result (state_of core.new) }
{
    let mut caps = Vec::with_capacity(core.alloc, table.len())?;
    for descriptor in table {
        add(&mut caps, receive_cap(core, descriptor)?)?;
    }
    Ok(Caps::new(caps))
}

/// Takes in a descriptor as a capability. The peer's own is imported, and held once more; this end's
/// is what was exported.
pub fn receive_cap(core: &mut Core, descriptor: &Descriptor) -> Result<Cap, StepFault>
    requires { is_supported_descriptor descriptor.now ≡ true }
    ensures { Leaves (ReceivesCap (state_of core.old) descriptor.now) result (state_of core.new) }
{
    match descriptor {
        Descriptor::None => Ok(Cap::None),
        Descriptor::SenderHosted(id) => receive_import(core, *id, ImportKind::Hosted),
        Descriptor::SenderPromise(id) => receive_import(core, *id, ImportKind::Promise),
        Descriptor::ReceiverHosted(id) => receive_export(core, *id),
        Descriptor::ReceiverAnswer(answer) => {
            let path = path_of(core.alloc, &answer.transform)?;
            receive_answer(core, answer.question_id, path)
        }
        // The vat refused these before, as messages that it doesn't support.
        Descriptor::ThirdPartyHosted(_) | Descriptor::Unknown(_) => unreachable!(),
    }
}

/// What an answer came to that is kept and whose Finish hasn't come.
pub fn answer_of(core: &Core, id: u32) -> Option<&Option<KeptOutcome>>
    ensures { option_copied result ≡ answer_of (state_of core.now) id }
{
    let entry = core.answers.get(id)?;
    if entry.stage == Stage::Finished {
        return None;
    }
    core.values.values().answer(id)
}

fn receive_import(core: &mut Core, id: u32, kind: ImportKind) -> Result<Cap, StepFault>
    ensures { Leaves (Then (λ held. held ≡ held_import (state_of core.old) id kind) (λ new out. out ≡ Ok (Cap.Import id, new))) result (state_of core.new) }
{
    hold_import(core, id, kind)?;
    Ok(Cap::Import(id))
}

/// Holds an import once more, or from now on.
fn hold_import(core: &mut Core, id: u32, kind: ImportKind) -> Result<(), StepFault>
    ensures { Becomes (held_import (state_of core.old) id kind) result (state_of core.new) }
{
    let Some(import) = core.imports.get(id) else {
        return open_import(core, id, kind);
    };
    // A count that can't rise is as a full table.
    if import.count == u32::MAX {
        return Err(StepFault::Fault(PeerFault::TableFull));
    }
    // The import keeps the kind that it was first sent as.
    let _ = core.imports.raise(id, kind);
    Ok(())
}

fn open_import(core: &mut Core, id: u32, kind: ImportKind) -> Result<(), StepFault>
    requires { map.get core.old.imports id ≡ None }
    ensures { Becomes (held_import (state_of core.old) id kind) result (state_of core.new) }
{
    if core.imports.len() == LIMIT {
        return Err(StepFault::Fault(PeerFault::TableFull));
    }
    core.imports.raise(id, kind)?;
    core.values.put_import(id, None)?;
    Ok(())
}

/// What the peer names by one of this end's exports.
fn receive_export(core: &mut Core, id: u32) -> Result<Cap, StepFault>
    ensures { Leaves (λ out. out ≡ taken_export (state_of core.old) (map.get core.old.exports id)) result (state_of core.new) }
{
    let Some(export) = core.exports.get(id) else {
        return Err(StepFault::Fault(PeerFault::UnknownExport));
    };
    Ok(export.kept.copy(core.alloc)?)
}

/// What the peer names by an answer and a path: what it gave there, or a new promise where it isn't
/// given.
fn receive_answer(core: &mut Core, id: u32, path: Path) -> Result<Cap, StepFault>
    ensures { Leaves (ReceivesAnswer (state_of core.old) id path (answer_of (state_of core.old) id)) result (state_of core.new) }
{
    match answer_of(core, id) {
        None => Err(StepFault::Fault(PeerFault::UnknownAnswer)),
        Some(None) => tie(core, id, path),
        Some(Some(outcome)) => Ok(outcome.at(core.alloc, path.fields())?),
    }
}

/// Opens a promise for what an answer will give at a path.
fn tie(core: &mut Core, id: u32, path: Path) -> Result<Cap, StepFault>
    ensures { Leaves (ReceivesAnswer (state_of core.old) id path (Some None)) result (state_of core.new) }
{
    let promise = core.values.open_promise()?;
    if let Some(kept) = core.answers.kept_mut(id) {
        kept.tied.push(Tied { promise, path })?;
    }
    Ok(Cap::Promise(promise))
}
