//! How capabilities are sent.

ghost use Rattle.std.specs.Prelude.{◌≡◌, IfOk, option_to_list};
ghost use Rattle.cp_refs.specs.Route.{HasRoute};
ghost use Rattle.cp_vat_machine.specs.State.{State, with_exports};
ghost use Rattle.cp_vat_machine.specs.Writing.{WritesDescriptor, WritesEnd, WritesDescriptors, mentioned_by, mentions_of};
ghost use Rattle.cp_vat_state.specs.Halts.{IfFault, Leaves};
ghost use Rattle.cp_vat_rules.specs.Leading.{with_parts};
ghost use Rattle.cp_vat_rules.specs.Settling.{lowered_back};
ghost use Rattle.cp_vat_rules.specs.Ungiven.{AllEnd};

use crate::exports::withdraw_exports;
use crate::lists::add;
use crate::promised::promised_answer;
use crate::resolve::resolve_cap;
use cp_messages::{CapTable, Descriptor};
use cp_refs::{Cap, Values};
use cp_vat_machine::Mentions;
use cp_vat_state::{Exported, ExportedCap, StepFault};
use std::alloc::{AllocError, Global};

/// Sends a capability table, one capability after another. Where a table is full nothing is raised.
pub fn write_descriptors(
    alloc: Global,
    values: &Values,
    exports: &mut Exported,
    caps: &[Cap],
) -> Result<CapTable, StepFault>
    requires { AllEnd values.now caps.now }
    ensures said { (s : State) → Leaves (WritesDescriptors (with_parts s values.now exports.old) caps.now) result (with_parts s values.now exports.new) }
    ensures back { IfOk result (λ table. lowered_back exports.new (mentions_of table) ≡ exports.old) }
    ensures unchanged { IfFault result (exports.new ≡ exports.old) }
{
    let mut table = Vec::with_capacity(alloc, caps.len())?;
    for cap in caps {
        match write_descriptor(alloc, values, exports, cap) {
            Ok(descriptor) => add(&mut table, descriptor)?,
            Err(step_fault) => {
                let ids = mentioned(alloc, &table)?;
                withdraw_exports(exports, ids.ids());
                return Err(step_fault);
            }
        }
    }
    Ok(CapTable::new(table))
}

/// Sends a capability as what it comes to.
pub fn write_descriptor(
    alloc: Global,
    values: &Values,
    exports: &mut Exported,
    cap: &Cap,
) -> Result<Descriptor, StepFault>
    requires { HasRoute values.now cap.now }
    ensures said { (s : State) → Leaves (WritesDescriptor (with_parts s values.now exports.old) cap.now) result (with_parts s values.now exports.new) }
    ensures back { IfOk result (λ d. lowered_back exports.new (mentioned_by d) ≡ exports.old) }
    ensures unchanged { IfFault result (exports.new ≡ exports.old) }
{
    let last = resolve_cap(alloc, values, cap)?;
    let said = write_end(alloc, exports, &last)?;
    Ok(said)
}

/// Sends what a capability came to.
pub(crate) fn write_end(
    alloc: Global,
    exports: &mut Exported,
    last: &Cap,
) -> Result<Descriptor, StepFault>
    ensures said { (s : State) → Leaves (WritesEnd (with_exports s exports.old) last.now) result (with_exports s exports.new) }
    ensures back { IfOk result (λ d. lowered_back exports.new (mentioned_by d) ≡ exports.old) }
    ensures unchanged { IfFault result (exports.new ≡ exports.old) }
{
    match last {
        Cap::None => Ok(Descriptor::None),
        Cap::Object(k) => Ok(Descriptor::SenderHosted(exports.raise(ExportedCap::Object(*k))?)),
        Cap::Promise(p) => Ok(Descriptor::SenderPromise(exports.raise(ExportedCap::Promise(*p))?)),
        Cap::Import(i) => Ok(Descriptor::ReceiverHosted(*i)),
        Cap::Pipelined(q, path) => Ok(Descriptor::ReceiverAnswer(promised_answer(
            alloc, *q, path,
        )?)),
        // No descriptor says that a capability is broken; calls on null fail too.
        Cap::Broken(_) => Ok(Descriptor::None),
    }
}

/// The exports that descriptors name, as often as they name each.
pub fn mentioned(alloc: Global, table: &[Descriptor]) -> Result<Mentions, AllocError>
    ensures { IfOk result (λ ids. ids ≡ mentions_of table.now) }
{
    let mut ids = Vec::new(alloc);
    for descriptor in table {
        if let Some(id) = mention(descriptor) {
            ids.push(id)?;
        }
    }
    Ok(Mentions::new(ids))
}

/// The export that a descriptor names.
pub(crate) fn mention(descriptor: &Descriptor) -> Option<u32>
    ensures { option_to_list result ≡ mentioned_by descriptor.now }
{
    match descriptor {
        Descriptor::SenderHosted(id) | Descriptor::SenderPromise(id) => Some(*id),
        _ => None,
    }
}
