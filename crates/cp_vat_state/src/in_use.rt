//! What is in use, by the numbers of its holders.

ghost use Rattle.std.specs.Prelude.{◌≡◌};
ghost use Rattle.std.specs.List.{list_any};
ghost use Rattle.std.specs.FinMap as map;
ghost use Rattle.cp_vat_machine.specs.InUse.{is_bootstrap, is_object, is_promise, is_unsettled};
ghost use Rattle.cp_vat_state.specs.Sought.{is_sought};

use crate::exports::{Exported, ExportedCap};
use crate::parts::Core;
use crate::sought::Sought;
use cp_refs::{PromiseId, Values};
use cp_vat_machine::Ids;
use std::alloc::AllocError;

impl Core {
    ghost use Rattle.std.specs.Prelude.{◌≡◌, IfOk};
    ghost use Rattle.std.specs.List.{list_any};
    ghost use Rattle.cp_vat_machine.specs.InUse.{kept_caps, is_import_used, is_promise_used, is_object_used, is_question_used, idle_imports, idle_promises};
    ghost use Rattle.cp_vat_state.specs.StateOf.{state_of};

    /// Whether an import is kept, or is another import's value.
    pub fn is_import_used(&self, id: u32) -> bool
        ensures { result ≡ is_import_used (state_of self.now) id }
    {
        self.is_kept(Sought::Import(id)) || self.values.is_value_of_another(id)
    }

    /// Whether a promise is kept or an import's value, is open or exported, calls wait at it, or an
    /// embargo leads to it.
    pub fn is_promise_used(&self, id: PromiseId) -> bool
        ensures { result ≡ is_promise_used (state_of self.now) id }
    {
        self.is_kept(Sought::Promise(id))
            || self.values.is_import_value(Sought::Promise(id))
            || is_open(self.values.values(), id)
            || is_exported(&self.exports, id)
            || self.gates.is_at_promise(id)
            || self.marks.lead_to(id)
    }

    /// Whether an object is kept, an import's value or exported, is given to a Bootstrap, or an embargo
    /// leads to it.
    pub fn is_object_used(&self, id: u32) -> bool
        ensures { result ≡ is_object_used (state_of self.now) id }
    {
        self.is_kept(Sought::Object(id))
            || self.values.is_import_value(Sought::Object(id))
            || is_object_exported(&self.exports, id)
            || self.marks.lead_to_object(id)
            || is_bootstrap(self.bootstrap, id)
    }

    /// Whether calls wait at a question, or a waiting call's table names it.
    pub fn is_question_used(&self, id: u32) -> bool
        ensures { result ≡ is_question_used (state_of self.now) id }
    {
        self.gates.is_at_question(id) || self.gates.is_named(Sought::PathOf(id))
    }

    /// The imports that aren't in use, rising.
    pub fn idle_imports(&self) -> Result<Ids, AllocError>
        ensures { IfOk result (λ ids. ids ≡ idle_imports (state_of self.now)) }
    {
        let mut idle = Vec::new(self.alloc);
        for id in self.imports.ids() {
            if !self.is_import_used(*id) {
                idle.push(*id)?;
            }
        }
        Ok(Ids::new(idle))
    }

    /// The promises that aren't in use, rising.
    pub fn idle_promises(&self) -> Result<Ids, AllocError>
        ensures { IfOk result (λ ids. ids ≡ idle_promises (state_of self.now)) }
    {
        let mut idle = Vec::new(self.alloc);
        for (id, _) in self.values.values().promises() {
            if !self.is_promise_used(*id) {
                idle.push(*id)?;
            }
        }
        Ok(Ids::new(idle))
    }

    /// Whether it is the value of a promise, is in a kept answer or in an unfinished question's
    /// results, or in a waiting call's table.
    fn is_kept(&self, sought: Sought) -> bool
        ensures { result ≡ list_any (is_sought sought) (kept_caps (state_of self.now)) }
    {
        self.values.is_kept(sought) || self.gates.is_named(sought)
    }
}

/// Whether the promise has no value yet.
fn is_open(values: &Values, id: PromiseId) -> bool
    ensures { result ≡ is_unsettled (map.get values.now.promises id) }
{
    matches!(values.promise(id), Some(None))
}

fn is_object_exported(exports: &Exported, id: u32) -> bool
    ensures { result ≡ list_any (λ entry. is_object id entry.kept) (map.values exports.now) }
{
    exports.number(ExportedCap::Object(id)).is_some()
}

/// Whether a Bootstrap gets the object.
fn is_bootstrap(bootstrap: Option<u32>, id: u32) -> bool
    ensures { result ≡ is_bootstrap id bootstrap }
{
    match bootstrap {
        Some(other) => other == id,
        None => false,
    }
}

fn is_exported(exports: &Exported, id: PromiseId) -> bool
    ensures { result ≡ list_any (λ entry. is_promise id entry.kept) (map.values exports.now) }
{
    exports.number(ExportedCap::Promise(id)).is_some()
}
