//! What a call or a return carries.

ghost use Rattle.std.specs.Prelude.{◌≡◌, ◌<◌, All, IfOk};
ghost use Rattle.std.specs.List.{list_all};
ghost use Rattle.cp_tree.specs.DraftOf.{draft_of};
ghost use Rattle.cp_messages.specs.Fitting.{descriptor_fits, payload_fits};
ghost use Rattle.cp_messages.specs.Representable.{IsDescriptor, IsPayload};
ghost use Rattle.cp_messages.specs.Written.{cap_table_written, payload_written};

use crate::descriptor::Descriptor;
use crate::draft::{lent, list_of, null, pair_of};
use cp_tree::{Draft, Whole};
use std::alloc::{AllocError, Global};
use std::marker::Model;

/// `capTable @1 :List(CapDescriptor)` of `struct Payload`. Contracts see it as the list of its
/// descriptors.
pub struct CapTable {
    descriptors: Vec<Descriptor>,
}

// Not derived: a crate that lets one go calls this function, and need not prove the drop of all that it holds.
impl Drop for CapTable {
    fn drop(self) {
        let CapTable { descriptors: _ } = self;
    }
}

impl Model for CapTable {
    ghost use Rattle.std.specs.Prelude.{List};
    ghost use Rattle.cp_messages.specs.declared.descriptor.Descriptor.{Descriptor};

    ghost Value = { List Descriptor };

    ghost use Rattle.std.specs.Coded.{coded_list};
    ghost use Rattle.cp_messages.specs.contracts.descriptor.Descriptor.{the_row};

    ghost coded = { coded_list the_row.coded };

    ghost view = { λ t. t.descriptors.items };
}

impl CapTable {
    /// These descriptors, in order.
    pub fn new(descriptors: Vec<Descriptor>) -> CapTable
        ensures { result ≡ descriptors.items }
    {
        CapTable { descriptors }
    }

    /// The descriptors, lent.
    pub fn descriptors(&self) -> &[Descriptor]
        ensures { result.now ≡ self.now }
    {
        &self.descriptors
    }

    /// The descriptors themselves.
    pub fn into_descriptors(self) -> Vec<Descriptor>
        ensures { result.items ≡ self }
    {
        let CapTable { descriptors } = self;
        descriptors
    }

    /// An equal table.
    pub fn copy(&self, alloc: Global) -> Result<CapTable, AllocError>
        ensures { IfOk result (λ t. t ≡ self.now) }
    {
        let descriptors = self.descriptors();
        let mut copied = Vec::with_capacity(alloc, descriptors.len())?;
        for descriptor in descriptors {
            copied.push(descriptor.copy(alloc)?)?;
        }
        Ok(CapTable::new(copied))
    }

    /// Whether each list of the descriptors is short enough.
    fn descriptors_fit(&self) -> bool
        ensures { result ≡ list_all descriptor_fits self.now }
    {
        for descriptor in self.descriptors() {
            if !descriptor.fits() {
                return false;
            }
        }
        true
    }

    /// The list that the table is written as.
    fn draft(&self, alloc: Global) -> Result<Draft<'_>, AllocError>
        ensures made { IfOk result (λ d. draft_of d ≡ cap_table_written self.now) }
        ensures held { IfOk result (λ d. All IsDescriptor self.now) }
    {
        let descriptors = self.descriptors();
        // Null is read as the empty list.
        if descriptors.is_empty() {
            return Ok(null());
        }
        let mut items = Vec::with_capacity(alloc, descriptors.len())?;
        for descriptor in descriptors {
            items.push(descriptor.body(alloc)?)?;
        }
        Ok(list_of(1, 1, items))
    }
}

/// `struct Payload` of rpc.capnp.
#[derive(Drop)]
pub struct Payload {
    /// `content @0 :AnyPointer`.
    pub content: Whole,
    /// `capTable @1 :List(CapDescriptor)`.
    pub cap_table: CapTable,
}

impl Payload {
    /// `content @0 :AnyPointer`, a pointer.
    pub const CONTENT: u32 = 0;
    /// `capTable @1 :List(CapDescriptor)`, a pointer.
    pub const CAP_TABLE: u32 = 1;

    /// An equal payload.
    pub fn copy(&self, alloc: Global) -> Result<Payload, AllocError>
        ensures { IfOk result (λ p. p ≡ self.now) }
    {
        Ok(Payload {
            content: self.content.copy(alloc)?,
            cap_table: self.cap_table.copy(alloc)?,
        })
    }

    /// Whether each list of the struct that the payload is written as is short enough.
    pub(crate) fn fits(&self) -> bool
        ensures { result ≡ payload_fits self.now }
    {
        // A descriptor takes two words, and a list has fewer than 2^29.
        self.cap_table.descriptors().len() < 1 << 28 && self.cap_table.descriptors_fit()
    }

    /// The struct that the payload is written as.
    pub(crate) fn draft(&self, alloc: Global) -> Result<Draft<'_>, AllocError>
        ensures made { IfOk result (λ d. draft_of d ≡ payload_written self.now) }
        ensures held { IfOk result (λ d. IsPayload self.now) }
    {
        let cap_table = self.cap_table.draft(alloc)?;
        pair_of(alloc, &[], lent(&self.content), cap_table)
    }
}
