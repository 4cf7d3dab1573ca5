//! The exports, with the way from a capability to its export.

ghost use Rattle.std.specs.Prelude.{◌≡◌, Some, None, IfOk, OnOk, OnErr, MatchOption, option_copied};
ghost use Rattle.std.specs.FinMap as map;

use crate::step_fault::StepFault;
use cp_refs::{Cap, PromiseId};
use cp_tables::{Counted, Entries, Exports, LIMIT};
use cp_vat_machine::PeerFault;
use std::alloc::{AllocError, Global};
use std::marker::Model;

/// A capability that can be exported.
#[derive(Clone, Copy)]
pub enum ExportedCap {
    Object(u32),
    Promise(PromiseId),
}

impl ExportedCap {
    ghost use Rattle.std.specs.Prelude.{◌≡◌};
    ghost use Rattle.cp_vat_state.specs.Index.{cap_of, exported_cap_of};

    /// The capability.
    pub fn cap(self) -> Cap
        ensures { result ≡ cap_of self }
    {
        match self {
            ExportedCap::Object(object) => Cap::Object(object),
            ExportedCap::Promise(id) => Cap::Promise(id),
        }
    }

    /// The capability, if it is one that can be exported.
    pub fn of(cap: &Cap) -> Option<ExportedCap>
        ensures { result ≡ exported_cap_of cap.now }
    {
        match cap {
            Cap::Object(object) => Some(ExportedCap::Object(*object)),
            Cap::Promise(id) => Some(ExportedCap::Promise(*id)),
            _ => None,
        }
    }
}

/// The exports. Each capability has one at most, which is found by it. Contracts see them as the
/// table alone.
pub struct Exported {
    exports: Exports<Cap>,
    index: Index,
}

// Not derived: a crate that lets one go calls this function, and need not prove the drop of all that it holds.
impl Drop for Exported {
    fn drop(self) {
        let Exported {
            exports: _,
            index: _,
        } = self;
    }
}

impl Model for Exported {
    ghost use Rattle.std.specs.FinMap as map;
    ghost use Rattle.std.specs.Coded.{coded_ℕ};
    ghost use Rattle.cp_tables.specs.Table.{Table};
    ghost use Rattle.cp_tables.specs.declared.counted.Counted.{Counted};
    ghost use Rattle.cp_tables.specs.Counted.{counted_code};
    ghost use Rattle.cp_refs.specs.declared.cap.Cap.{Cap};
    ghost use Rattle.cp_refs.specs.contracts.cap.Cap.{the_row};

    ghost Value = { Table (Counted Cap) };

    ghost coded = { map.code coded_ℕ (counted_code the_row.coded) };

    ghost use Rattle.cp_vat_state.specs.Index.{AreIndexed};

    ghost view = { λ e. e.exports };

    ghost invariant = { λ e. AreIndexed e.exports e.index };
}

impl Exported {
    ghost use Rattle.std.specs.Prelude.{◌≡◌};
    ghost use Rattle.std.specs.FinMap as map;
    ghost use Rattle.cp_vat_machine.specs.State.{State, with_exports};
    ghost use Rattle.cp_vat_machine.specs.Writing.{Raise, HasNoExport, IsExport};
    ghost use Rattle.cp_vat_machine.specs.Receiving.{lowered_by, released};
    ghost use Rattle.cp_vat_state.specs.Halts.{IfFault, Leaves, leaving};
    ghost use Rattle.cp_vat_state.specs.Index.{cap_of};

    /// No exports.
    pub fn new(alloc: Global) -> Exported
        ensures { result ≡ map.empty }
    {
        Exported {
            exports: Exports::new(alloc),
            index: Index {
                objects: Entries::new(alloc),
                promises: Entries::new(alloc),
            },
        }
    }

    /// The export under this number.
    pub fn get(&self, id: u32) -> Option<&Counted<Cap>>
        ensures { option_copied result ≡ map.get self.now id }
    {
        self.exports.get(id)
    }

    /// The number of a capability's export.
    pub fn number(&self, hosted: ExportedCap) -> Option<u32>
        ensures { (s : State) → MatchOption result (HasNoExport (with_exports s self.now) (cap_of hosted)) (λ e. IsExport (with_exports s self.now) e (cap_of hosted)) }
    {
        self.index.number(hosted)
    }

    /// Counts a capability's export once more, or opens one for it under a free number.
    pub fn raise(&mut self, hosted: ExportedCap) -> Result<u32, StepFault>
        ensures raised { (s : State) → Leaves (Raise (with_exports s self.old) (cap_of hosted)) result (with_exports s self.new) }
        ensures back { IfOk result (λ id. lowered_by self.new id 1 ≡ self.old) }
        ensures unchanged { IfFault result (self.new ≡ self.old) }
    {
        if let Some(id) = self.index.number(hosted) {
            let Some(export) = self.exports.get(id) else {
                // The index has only exports that exist.
                unreachable!()
            };
            // A count that can't rise is as a full table.
            if export.count == u32::MAX {
                return Err(StepFault::Fault(PeerFault::TableFull));
            }
            // An export that exists keeps its capability, so none is handed over.
            let _ = self.exports.raise(Some(id), Cap::None);
            return Ok(id);
        }
        if self.exports.len() == LIMIT {
            return Err(StepFault::Fault(PeerFault::TableFull));
        }
        let id = self.exports.raise(None, hosted.cap())?;
        // Without its index entry the export would be opened twice.
        if let Err(error) = self.index.put(hosted, id) {
            let _ = self.exports.lower(id, 1);
            return Err(error.into());
        }
        Ok(id)
    }

    /// Takes back what was raised last: it leaves the exports as they were before.
    pub fn take_back(&mut self, id: u32)
        ensures { self.new ≡ lowered_by self.old id 1 }
    {
        let _ = self.release(id, 1);
    }

    /// Counts an export this many times less. At 0 it is gone.
    pub fn release(&mut self, id: u32, n: u32) -> Result<(), PeerFault>
        ensures released { released self.old id n ≡ leaving result self.new }
        ensures err { OnErr result (self.new ≡ self.old) }
    {
        let Some(export) = self.exports.get(id) else {
            return Err(PeerFault::UnknownExport);
        };
        if export.count < n {
            return Err(PeerFault::ReleaseTooLarge);
        }
        if export.count == n {
            let Some(hosted) = ExportedCap::of(&export.kept) else {
                unreachable!()
            };
            self.index.remove(hosted);
            let _ = self.exports.lower(id, n);
            return Ok(());
        }
        let _ = self.exports.lower(id, n);
        Ok(())
    }
}

/// The numbers of exports by their capability.
#[derive(Drop)]
struct Index {
    objects: Entries<u32>,
    promises: Entries<u32>,
}

impl Index {
    ghost use Rattle.std.specs.Prelude.{◌≡◌, OnOk, OnErr};
    ghost use Rattle.cp_vat_state.specs.Index.{number_of, with_number, without_number, cap_of};

    fn number(&self, hosted: ExportedCap) -> Option<u32>
        ensures { result ≡ number_of self.now (cap_of hosted) }
    {
        match hosted {
            ExportedCap::Object(object) => self.objects.get(object).copied(),
            ExportedCap::Promise(id) => self.promises.get(id).copied(),
        }
    }

    fn put(&mut self, hosted: ExportedCap, number: u32) -> Result<(), AllocError>
        ensures put { OnOk result (self.new ≡ with_number self.old (cap_of hosted) number) }
        ensures err { OnErr result (self.new ≡ self.old) }
    {
        match hosted {
            ExportedCap::Object(object) => self.objects.put(object, number),
            ExportedCap::Promise(id) => self.promises.put(id, number),
        }
    }

    fn remove(&mut self, hosted: ExportedCap)
        ensures { self.new ≡ without_number self.old (cap_of hosted) }
    {
        match hosted {
            ExportedCap::Object(object) => drop(self.objects.remove(object)),
            ExportedCap::Promise(id) => drop(self.promises.remove(id)),
        }
    }
}
