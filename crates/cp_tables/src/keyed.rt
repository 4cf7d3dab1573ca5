//! Entries under numbers that the peer picks.

ghost use Rattle.std.specs.Prelude.{◌≡◌, ◌≢◌, ◌≤◌, ◌↔◌, Some, None, IsTrue, IsSome, OnOk, IsOkUnless, IsErrOf, OnErr, option_copied};
ghost use Rattle.std.specs.Option.{option_copied_mut};
ghost use Rattle.std.specs.Borrow.{LendsIf, sem};
ghost use Rattle.std.specs.FinMap as map;

use crate::LIMIT;
use crate::fault::TableFault;
use std::alloc::Global;
use std::collections::BTreeMap;
use std::collections::btree_map::Keys;
use std::marker::Model;

/// Entries under numbers that come with them.
#[derive(Drop)]
pub(crate) struct Keyed<V> {
    entries: BTreeMap<u32, V>,
}

impl<V> Model for Keyed<V> {
    ghost use Rattle.std.specs.Prelude.{◌≤◌};
    ghost use Rattle.std.specs.BTreeMap.{btree_map_len};
    ghost use Rattle.std.specs.FinMap as map;
    ghost use Rattle.std.specs.Coded.{coded_ℕ};
    ghost use Rattle.cp_tables.specs.declared.TheConstants.{LIMIT};
    ghost use Rattle.cp_tables.specs.Table.{Table};

    ghost Value = { Table V };

    ghost coded = { map.code coded_ℕ V.code };

    ghost view = { λ k. map.from_entries k.entries.entries };

    ghost invariant = { λ k. btree_map_len k.entries ≤ LIMIT };
}

impl<V> Keyed<V> {
    ghost use Rattle.cp_tables.specs.contracts.keyed.Keyed.{the_row};

    pub(crate) fn new(alloc: Global) -> Keyed<V>
        ensures { result ≡ map.empty }
    {
        Keyed {
            entries: BTreeMap::new(alloc),
        }
    }

    pub(crate) fn len(&self) -> usize
        ensures value { result ≡ map.len self.now }
        ensures few { result ≤ LIMIT }
    {
        self.entries.len()
    }

    pub(crate) fn get(&self, id: u32) -> Option<&V>
        ensures { option_copied result ≡ map.get self.now id }
    {
        self.entries.get(&id)
    }

    pub(crate) fn contains(&self, id: u32) -> bool
        ensures { IsTrue result ↔ IsSome (map.get self.now id) }
    {
        self.get(id).is_some()
    }

    /// The numbers, rising.
    pub(crate) fn ids(&self) -> Keys<'_, u32, V>
        ensures { result ≡ map.keys self.now }
    {
        self.entries.keys()
    }

    /// The entry under a number, for writing.
    pub(crate) fn get_mut(&mut self, id: u32) -> Option<&mut V>
        ensures* writes_back { sem 𝓛 (LendsIf (the_row V.row) V.row self.entry result (map.insert self.entry.now id) self.entry.now) }
        ensures value { option_copied_mut result ≡ map.get self.old id }
    {
        match self.entries.get_mut(&id) {
            Some(entry) => Some(entry),
            None => None,
        }
    }

    /// Puts the entry under a number that has none.
    pub(crate) fn open(&mut self, id: u32, entry: V) -> Result<(), TableFault>
    where
        V: Drop,
        requires { map.get self.old id ≡ None }
        ensures opened { OnOk result (self.new ≡ map.insert self.old id entry) }
        ensures full { IsErrOf result TableFault.Full ↔ (map.len self.old ≡ LIMIT) }
        ensures else_opened { map.len self.old ≢ LIMIT → IsOkUnless result TableFault.OutOfMemory }
        ensures err { OnErr result (self.new ≡ self.old) }
    {
        if self.len() == LIMIT {
            return Err(TableFault::Full);
        }
        let _ = self.entries.insert(id, entry)?;
        Ok(())
    }

    pub(crate) fn remove(&mut self, id: u32) -> Option<V>
        ensures value { result ≡ map.get self.old id }
        ensures removed { self.new ≡ map.remove self.old id }
    {
        self.entries.remove(&id)
    }
}
