//! Reading what a call or a return carries.

ghost use Rattle.std.specs.Prelude.{◌≡◌, ◌<◌, length, flat_map, slice_index_or, IfOk};
ghost use Rattle.cp_messages.specs.Fields.{IsStructField, items_of};
ghost use Rattle.cp_rpc.specs.Answers.{Checks, Gives};
ghost use Rattle.cp_messages.specs.Denoted.{descriptors_denoted, payload_denoted};
ghost use Rattle.cp_messages.specs.Faults.{descriptor_faults, payload_faults};
ghost use Rattle.cp_rpc.specs.Viewed.{viewed_descriptor, viewed_payload};
ghost use Rattle.cp_messages.specs.declared.descriptor.Descriptor.{Descriptor};

use crate::descriptor::DescriptorView;
use crate::field::{item_count, list_field};
use crate::source::Source;
use cp_messages::{CapTable, Field, Payload, SchemaFault};
use std::alloc::{AllocError, Global};
use std::marker::Model;

/// A capability table that is read in place. Contracts see it as the list of its descriptors.
#[derive(Drop)]
pub struct CapTableView<S: Source> {
    source: S,
}

impl<S: Source> Model for CapTableView<S> {
    ghost use Rattle.std.specs.Prelude.{◌≡◌, List, []};
    ghost use Rattle.cp_messages.specs.declared.descriptor.Descriptor.{Descriptor};

    ghost Value = { List Descriptor };

    ghost use Rattle.std.specs.Coded.{coded_list};
    ghost use Rattle.cp_messages.specs.contracts.descriptor.Descriptor.{the_row};

    ghost coded = { coded_list the_row.coded };

    ghost use Rattle.cp_messages.specs.Denoted.{descriptors_denoted};
    ghost use Rattle.std.specs.Prelude.{flat_map};
    ghost use Rattle.cp_messages.specs.Fields.{items_of};
    ghost use Rattle.cp_messages.specs.Faults.{descriptor_faults};

    ghost view = { λ t. descriptors_denoted (S.seen t.source) };

    ghost invariant = { λ t. flat_map descriptor_faults (items_of (S.seen t.source)) ≡ [] };
}

impl<S: Source> CapTableView<S> {
    /// Checks the table that a list says.
    fn check(source: &S) -> Result<(), SchemaFault>
        ensures { Checks (flat_map descriptor_faults (items_of (S.seen source.now))) result }
    {
        for i in 0..item_count(source) {
            DescriptorView::check(&source.item(i))?;
        }
        Ok(())
    }

    /// The table that a list says.
    #[inline(always)]
    fn of(source: S) -> Result<CapTableView<S>, SchemaFault>
        ensures { Gives (λ t. t) (descriptors_denoted (S.seen source)) (flat_map descriptor_faults (items_of (S.seen source))) result }
    {
        // All at once, so that `descriptor` can't fail later.
        CapTableView::check(&source)?;
        Ok(CapTableView { source })
    }

    /// The number of descriptors.
    pub fn len(&self) -> usize
        ensures { result ≡ length self.now }
    {
        item_count(&self.source)
    }

    /// Descriptor `i`.
    pub fn descriptor(&self, i: usize) -> DescriptorView<S>
        requires { i < length self.now }
        ensures { (d : Descriptor) → viewed_descriptor S.seen result ≡ slice_index_or self.now i d }
    {
        match DescriptorView::of(&self.source.item(i)) {
            Ok(descriptor) => descriptor,
            // All descriptors were checked when the table was made.
            Err(_) => unreachable!(),
        }
    }

    /// The table, owned.
    pub fn cap_table(&self, alloc: Global) -> Result<CapTable, AllocError>
        ensures { IfOk result (λ t. t ≡ self.now) }
    {
        let count = self.len();
        let mut descriptors = Vec::with_capacity(alloc, count)?;
        for i in 0..count {
            descriptors.push(self.descriptor(i).descriptor(alloc)?)?;
        }
        Ok(CapTable::new(descriptors))
    }
}

/// A payload that is read in place.
#[derive(Drop)]
pub struct PayloadView<S: Source> {
    pub content: S,
    pub cap_table: CapTableView<S>,
}

impl<S: Source> PayloadView<S> {
    /// Checks the payload that a struct says.
    pub(crate) fn check(t: &S) -> Result<(), SchemaFault>
        requires { IsStructField (S.seen t.now) }
        ensures { Checks (payload_faults (S.seen t.now)) result }
    {
        let table = list_field(t, Payload::CAP_TABLE, Field::PayloadCapTable)?;
        CapTableView::check(&table)
    }

    /// The payload that a struct says.
    #[inline(always)]
    pub(crate) fn of(t: &S) -> Result<PayloadView<S>, SchemaFault>
        requires { IsStructField (S.seen t.now) }
        ensures { Gives (viewed_payload S.seen) (payload_denoted (S.seen t.now)) (payload_faults (S.seen t.now)) result }
    {
        let table = list_field(t, Payload::CAP_TABLE, Field::PayloadCapTable)?;
        Ok(PayloadView {
            content: t.pointer(Payload::CONTENT),
            cap_table: CapTableView::of(table)?,
        })
    }

    /// The payload, owned.
    pub fn payload(&self, alloc: Global) -> Result<Payload, AllocError>
        ensures { IfOk result (λ p. p ≡ viewed_payload S.seen self.now) }
    {
        Ok(Payload {
            content: self.content.whole(alloc)?,
            cap_table: self.cap_table.cap_table(alloc)?,
        })
    }
}
