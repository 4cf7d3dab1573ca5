//! Entries under numbers that `slab` picks.

ghost use Rattle.std.specs.Prelude.{◌≡◌, ◌≢◌, ◌≤◌, ◌↔◌, Some, None, IfNone, IfOk, IsOkUnless, IsErrOf, OnErr, option_copied};
ghost use Rattle.std.specs.Option.{option_copied_mut};
ghost use Rattle.std.specs.Borrow.{LendsIf, sem};
ghost use Rattle.std.specs.FinMap as map;

use crate::LIMIT;
use crate::fault::TableFault;
use slab::{Iter, Slab};
use std::alloc::Global;
use std::marker::Model;

/// Entries under numbers that are picked here.
#[derive(Drop)]
pub(crate) struct Slots<V> {
    slab: Slab<V>,
}

impl<V> Model for Slots<V> {
    ghost use Rattle.std.specs.Prelude.{◌≤◌};
    ghost use Rattle.std.specs.FinMap as map;
    ghost use Rattle.std.specs.Coded.{coded_ℕ};
    ghost use Rattle.slab.specs.Slab.{entries, slab_len};
    ghost use Rattle.cp_tables.specs.declared.TheConstants.{LIMIT};
    ghost use Rattle.cp_tables.specs.Table.{Table};

    ghost Value = { Table V };

    ghost coded = { map.code coded_ℕ V.code };

    ghost view = { λ s. map.from_entries (entries s.slab) };

    ghost invariant = { λ s. slab_len s.slab ≤ LIMIT };
}

impl<V> Slots<V> {
    ghost use Rattle.cp_tables.specs.contracts.slots.Slots.{the_row};

    pub(crate) fn new(alloc: Global) -> Slots<V>
        ensures { result ≡ map.empty }
    {
        Slots {
            slab: Slab::new(alloc),
        }
    }

    pub(crate) fn len(&self) -> usize
        ensures value { result ≡ map.len self.now }
        ensures few { result ≤ LIMIT }
    {
        self.slab.len()
    }

    pub(crate) fn get(&self, id: u32) -> Option<&V>
        ensures { option_copied result ≡ map.get self.now id }
    {
        self.slab.get(id as usize)
    }

    /// The entries with their numbers, rising.
    pub(crate) fn iter(&self) -> Iter<'_, V>
        ensures { result ≡ map.entries self.now }
    {
        self.slab.iter()
    }

    /// The entry under a number, for writing.
    pub(crate) fn get_mut(&mut self, id: u32) -> Option<&mut V>
        ensures* writes_back { sem 𝓛 (LendsIf (the_row V.row) V.row self.entry result (map.insert self.entry.now id) self.entry.now) }
        ensures value { option_copied_mut result ≡ map.get self.old id }
    {
        match self.slab.get_mut(id as usize) {
            Some(entry) => Some(entry),
            None => None,
        }
    }

    /// Puts the entry under a number that is free.
    pub(crate) fn open(&mut self, entry: V) -> Result<u32, TableFault>
    where
        V: Drop,
        ensures opened { IfOk result (λ id. (map.get self.old id ≡ None) × (self.new ≡ map.insert self.old id entry)) }
        ensures full { IsErrOf result TableFault.Full ↔ (map.len self.old ≡ LIMIT) }
        ensures else_opened { map.len self.old ≢ LIMIT → IsOkUnless result TableFault.OutOfMemory }
        ensures err { OnErr result (self.new ≡ self.old) }
    {
        if self.len() == LIMIT {
            return Err(TableFault::Full);
        }
        let key = self.slab.vacant_key();
        // The slab promises of its keys only that they are below its capacity, which memory alone
        // bounds. So a key that is no number is reported as an allocation failure.
        if key > u32::MAX as usize {
            return Err(TableFault::OutOfMemory);
        }
        self.slab.insert(entry)?;
        Ok(key as u32)
    }

    pub(crate) fn remove(&mut self, id: u32) -> Option<V>
        ensures value { result ≡ map.get self.old id }
        ensures removed { self.new ≡ map.remove self.old id }
        ensures absent { IfNone result (self.new ≡ self.old) }
    {
        self.slab.try_remove(id as usize)
    }
}
