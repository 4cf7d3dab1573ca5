//! The embargoes, and how often they lead to each capability.

ghost use Rattle.std.specs.Prelude.{◌≡◌, ◌≢◌, ◌≤◌, ◌↔◌, Some, None, IsOk, IsSome, IfOk, OnOk, IsOkUnless, IsErrOf, OnErr, option_copied};
ghost use Rattle.std.specs.List.{list_any};
ghost use Rattle.std.specs.FinMap as map;
ghost use Rattle.cp_vat_machine.specs.InUse.{is_object, is_promise};

use crate::holders::Holders;
use crate::sought::Sought;
use cp_refs::{Cap, PromiseId};
use cp_tables::{Embargoes, LIMIT, TableFault};
use slab::Iter;
use std::alloc::Global;
use std::marker::Model;

/// The open embargoes, with what each leads to. Contracts see them as the table alone.
pub(crate) struct CountedEmbargoes {
    embargoes: Embargoes<Cap>,
    led_to: Holders,
}

// Not derived: a function that lets one go calls this one, and need not prove the drop of all that it holds.
impl Drop for CountedEmbargoes {
    fn drop(self) {
        let CountedEmbargoes {
            embargoes: _,
            led_to: _,
        } = self;
    }
}

impl Model for CountedEmbargoes {
    ghost use Rattle.std.specs.FinMap as map;
    ghost use Rattle.std.specs.Coded.{coded_ℕ};
    ghost use Rattle.cp_tables.specs.Table.{Table};
    ghost use Rattle.cp_refs.specs.declared.cap.Cap.{Cap};
    ghost use Rattle.cp_refs.specs.contracts.cap.Cap.{the_row};
    ghost use Rattle.cp_vat_state.specs.Holding.{AreLedTo};

    ghost Value = { Table Cap };

    ghost coded = { map.code coded_ℕ the_row.coded };

    ghost view = { λ c. c.embargoes };

    ghost invariant = { λ c. AreLedTo c.embargoes c.led_to };
}

impl CountedEmbargoes {
    /// No embargoes.
    pub(crate) fn new(alloc: Global) -> CountedEmbargoes
        ensures { result ≡ map.empty }
    {
        CountedEmbargoes {
            embargoes: Embargoes::new(alloc),
            led_to: Holders::new(alloc),
        }
    }

    /// How many embargoes there are.
    pub(crate) fn len(&self) -> usize
        ensures value { result ≡ map.len self.now }
        ensures few { result ≤ LIMIT }
    {
        self.embargoes.len()
    }

    /// What the embargo under this number leads to.
    pub(crate) fn get(&self, id: u32) -> Option<&Cap>
        ensures { option_copied result ≡ map.get self.now id }
    {
        self.embargoes.get(id)
    }

    /// What the embargoes lead to, with their numbers, rising.
    pub(crate) fn iter(&self) -> Iter<'_, Cap>
        ensures { result ≡ map.entries self.now }
    {
        self.embargoes.iter()
    }

    /// Whether an embargo leads to the promise.
    pub(crate) fn lead_to(&self, id: PromiseId) -> bool
        ensures { result ≡ list_any (is_promise id) (map.values self.now) }
    {
        self.led_to.has(Sought::Promise(id))
    }

    /// Whether an embargo leads to the object.
    pub(crate) fn lead_to_object(&self, id: u32) -> bool
        ensures { result ≡ list_any (is_object id) (map.values self.now) }
    {
        self.led_to.has(Sought::Object(id))
    }

    /// Opens an embargo under a free number.
    ///
    /// # Errors
    ///
    /// `Full` where the table is, and `OutOfMemory`.
    pub(crate) fn open(&mut self, cap: Cap) -> Result<u32, TableFault>
        ensures free { IfOk result (λ id. map.get self.old id ≡ None) }
        ensures opened { IfOk result (λ id. self.new ≡ map.insert self.old id cap) }
        ensures full { IsErrOf result TableFault.Full ↔ (map.len self.old ≡ LIMIT) }
        ensures else_opened { map.len self.old ≢ LIMIT → IsOkUnless result TableFault.OutOfMemory }
        ensures err { OnErr result (self.new ≡ self.old) }
    {
        // Tested here for the clause; the table tests it again.
        if self.embargoes.len() == LIMIT {
            return Err(TableFault::Full);
        }
        let named = Sought::named_by(&cap);
        self.led_to.raise(named)?;
        match self.embargoes.open(cap) {
            Ok(id) => Ok(id),
            Err(fault) => {
                self.led_to.lower(named);
                Err(fault)
            }
        }
    }

    /// Closes the embargo and gives what it led to. Its number is free again.
    ///
    /// # Errors
    ///
    /// `Unknown` where there is no such embargo.
    pub(crate) fn close(&mut self, id: u32) -> Result<Cap, TableFault>
        ensures unknown { IsErrOf result TableFault.Unknown ↔ (map.get self.old id ≡ None) }
        ensures kept { IfOk result (λ kept. map.get self.old id ≡ Some kept) }
        ensures closed { OnOk result (self.new ≡ map.remove self.old id) }
        ensures else_closed { IsSome (map.get self.old id) → IsOk result }
        ensures err { OnErr result (self.new ≡ self.old) }
    {
        let cap = self.embargoes.close(id)?;
        self.led_to.lower(Sought::named_by(&cap));
        Ok(cap)
    }
}
