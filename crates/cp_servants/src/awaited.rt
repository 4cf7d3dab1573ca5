//! The calls that are answered later.

ghost use Rattle.std.specs.Prelude.{◌≡◌, OnOk};
ghost use Rattle.std.specs.FinMap as map;

use cp_refs::Origin;
use std::alloc::{AllocError, Global};
use std::collections::BTreeMap;
use std::marker::Model;

/// Whom the outcomes are for that objects give later, by the tickets of their calls.
#[derive(Drop)]
pub struct Awaited {
    origins: BTreeMap<u64, Origin>,
}

impl Model for Awaited {
    ghost use Rattle.std.specs.FinMap as map;
    ghost use Rattle.std.specs.Coded.{coded_ℕ};
    ghost use Rattle.cp_tables.specs.Table.{Table};
    ghost use Rattle.cp_refs.specs.declared.call.Origin.{Origin};
    ghost use Rattle.cp_refs.specs.contracts.call.Origin.{the_row};

    ghost Value = { Table Origin };

    ghost coded = { map.code coded_ℕ the_row.coded };

    ghost view = { λ a. map.from_entries a.origins.entries };
}

impl Awaited {
    /// None is awaited.
    pub fn new(alloc: Global) -> Awaited
        ensures { result ≡ map.empty }
    {
        Awaited {
            origins: BTreeMap::new(alloc),
        }
    }

    /// One more outcome is awaited.
    pub fn put(&mut self, ticket: u64, origin: Origin) -> Result<(), AllocError>
        ensures { OnOk result (self.new ≡ map.insert self.old ticket origin) }
    {
        let _ = self.origins.insert(ticket, origin)?;
        Ok(())
    }

    /// An outcome is awaited no more. `None` says that it wasn't.
    pub fn remove(&mut self, ticket: u64) -> Option<Origin>
        ensures value { result ≡ map.get self.old ticket }
        ensures removed { self.new ≡ map.remove self.old ticket }
    {
        self.origins.remove(&ticket)
    }
}
