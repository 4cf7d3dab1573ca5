//! Capabilities that are promised by questions that were refused.

ghost use Rattle.std.specs.Prelude.{◌≡◌, IfOk, map};
ghost use Rattle.std.specs.List.{list_any};
ghost use Rattle.cp_messages.specs.declared.descriptor.Descriptor.{Descriptor};
ghost use Rattle.cp_rpc.specs.Viewed.{viewed_target, viewed_descriptor, viewed_payload};
ghost use Rattle.cp_tables.specs.Table.{Table};
ghost use Rattle.cp_relay.specs.State.{target_cause, descriptor_cause, is_broken, without_broken, payload_without};

use crate::ruling::Cause;
use cp_reading::View;
use cp_rpc::{
    CapTable, CapTableView, Descriptor, DescriptorView, Payload, PayloadView, Source, TargetView,
};
use cp_tables::Entries;
use std::alloc::{AllocError, Global};

/// Why what a call or a Disembargo goes to is broken, if its question was refused.
pub(crate) fn target_cause(refused: &Entries<Cause>, target: &TargetView<View>) -> Option<Cause>
    ensures { result ≡ target_cause refused.now (viewed_target (λ t. t) target.now) }
{
    match target {
        TargetView::PromisedAnswer(answer) => refused.get(answer.question_id).copied(),
        TargetView::ImportedCap(_) => None,
        TargetView::Unknown(_) => None,
    }
}

/// Why a capability is broken, if its question was refused.
pub(crate) fn descriptor_cause(
    refused: &Entries<Cause>,
    descriptor: &DescriptorView<View>,
) -> Option<Cause>
    ensures { result ≡ descriptor_cause refused.now (viewed_descriptor (λ t. t) descriptor.now) }
{
    match descriptor {
        DescriptorView::ReceiverAnswer(answer) => refused.get(answer.question_id).copied(),
        DescriptorView::None => None,
        DescriptorView::SenderHosted(_) => None,
        DescriptorView::SenderPromise(_) => None,
        DescriptorView::ReceiverHosted(_) => None,
        DescriptorView::ThirdPartyHosted(_) => None,
        DescriptorView::Unknown(_) => None,
    }
}

/// Whether a capability of a table is broken.
pub(crate) fn has_broken(refused: &Entries<Cause>, table: &CapTableView<View>) -> bool
    ensures { result ≡ list_any (is_broken refused.now) table.now }
{
    for i in 0..table.len() {
        if descriptor_cause(refused, &table.descriptor(i)).is_some() {
            return true;
        }
    }
    false
}

/// A payload with none in the place of each broken capability.
pub(crate) fn payload_without(
    alloc: Global,
    refused: &Entries<Cause>,
    payload: &PayloadView<View>,
) -> Result<Payload, AllocError>
    ensures { IfOk result (λ p. p ≡ payload_without refused.now (viewed_payload (λ t. t) payload.now)) }
{
    Ok(Payload {
        content: payload.content.whole(alloc)?,
        cap_table: table_without(alloc, refused, &payload.cap_table)?,
    })
}

/// A table with none in the place of each broken capability.
fn table_without(
    alloc: Global,
    refused: &Entries<Cause>,
    table: &CapTableView<View>,
) -> Result<CapTable, AllocError>
    ensures { IfOk result (λ t. t ≡ map (without_broken refused.now) table.now) }
{
    let count = table.len();
    let mut descriptors = Vec::with_capacity(alloc, count)?;
    for i in 0..count {
        descriptors.push(without_broken(alloc, refused, &table.descriptor(i))?)?;
    }
    Ok(CapTable::new(descriptors))
}

/// A descriptor, or none if it is broken.
fn without_broken(
    alloc: Global,
    refused: &Entries<Cause>,
    descriptor: &DescriptorView<View>,
) -> Result<Descriptor, AllocError>
    ensures { IfOk result (λ d. d ≡ without_broken refused.now (viewed_descriptor (λ t. t) descriptor.now)) }
{
    match descriptor_cause(refused, descriptor) {
        Some(_) => Ok(Descriptor::None),
        None => descriptor.descriptor(alloc),
    }
}
