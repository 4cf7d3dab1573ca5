//! WideEntries under numbers.

ghost use Rattle.std.specs.Prelude.{◌≡◌, IfErr, OnOk, OnErr, option_copied};
ghost use Rattle.std.specs.Option.{option_copied_mut};
ghost use Rattle.std.specs.Borrow.{LendsIf, sem};
ghost use Rattle.std.specs.FinMap as map;

use std::alloc::{AllocFailed, Global};
use std::collections::BTreeMap;
use std::collections::btree_map::Iter;
use std::marker::Model;

/// Entries under numbers of 64 bits. Contracts see them as a finite map. They have a type of their own, since contracts
/// don't see a key that is a type parameter as a number.
#[derive(Drop)]
pub(crate) struct WideEntries<V> {
    entries: BTreeMap<u64, V>,
}

impl<V> Model for WideEntries<V> {
    ghost use Rattle.std.specs.FinMap as map;
    ghost use Rattle.std.specs.Coded.{coded_ℕ};
    ghost use Rattle.cp_tables.specs.Table.{Table};

    ghost Value = { Table V };

    ghost coded = { map.code coded_ℕ V.code };

    ghost view = { λ e. map.from_entries e.entries.entries };
}

impl<V> WideEntries<V> {
    ghost use Rattle.cp_refs.specs.contracts.entries.WideEntries.{the_row};

    pub(crate) fn new(alloc: Global) -> WideEntries<V>
        ensures { result ≡ map.empty }
    {
        WideEntries {
            entries: BTreeMap::new(alloc),
        }
    }

    pub(crate) fn get(&self, id: u64) -> Option<&V>
        ensures { option_copied result ≡ map.get self.now id }
    {
        self.entries.get(&id)
    }

    /// The entries with their numbers, rising.
    pub(crate) fn iter(&self) -> Iter<'_, u64, V>
        ensures { result ≡ map.entries self.now }
    {
        self.entries.iter()
    }

    /// The entry under a number, for writing.
    pub(crate) fn get_mut(&mut self, id: u64) -> Option<&mut V>
        ensures* writes_back { sem 𝓛 (LendsIf (the_row V.row) V.row self.entry result (map.insert self.entry.now id) self.entry.now) }
        ensures value { option_copied_mut result ≡ map.get self.old id }
    {
        match self.entries.get_mut(&id) {
            Some(entry) => Some(entry),
            None => None,
        }
    }

    /// Puts the entry under the number, in place of an earlier one. Where memory runs out the entry
    /// comes back.
    pub(crate) fn put(&mut self, id: u64, entry: V) -> Result<(), AllocFailed<V>>
    where
        V: Drop,
        ensures put { OnOk result (self.new ≡ map.insert self.old id entry) }
        ensures back { IfErr result (λ failed. failed.value ≡ entry) }
        ensures err { OnErr result (self.new ≡ self.old) }
    {
        if let Err(failed) = self.entries.insert(id, entry) {
            return Err(AllocFailed {
                value: failed.value.1,
            });
        }
        Ok(())
    }

    pub(crate) fn remove(&mut self, id: u64) -> Option<V>
        ensures value { result ≡ map.get self.old id }
        ensures removed { self.new ≡ map.remove self.old id }
    {
        self.entries.remove(&id)
    }
}
