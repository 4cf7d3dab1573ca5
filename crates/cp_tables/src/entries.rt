//! Entries under numbers.

ghost use Rattle.std.specs.Prelude.{◌≡◌, ◌↔◌, Some, None, IsTrue, IsSome, IfOk, IfErr, OnOk, OnErr, option_copied};
ghost use Rattle.std.specs.Option.{option_copied_mut};
ghost use Rattle.std.specs.Borrow.{Lends, LendsIf, sem};
ghost use Rattle.std.specs.FinMap as map;

use std::alloc::{AllocError, AllocFailed, Global};
use std::collections::BTreeMap;
use std::collections::btree_map::Iter;
use std::marker::Model;

/// Entries under numbers. Contracts see them as a finite map.
#[derive(Drop)]
pub struct Entries<V> {
    entries: BTreeMap<u32, V>,
}

impl<V> Model for Entries<V> {
    ghost use Rattle.std.specs.FinMap as map;
    ghost use Rattle.std.specs.Coded.{coded_ℕ};
    ghost use Rattle.cp_tables.specs.Table.{Table};

    ghost Value = { Table V };

    ghost coded = { map.code coded_ℕ V.code };

    ghost view = { λ e. map.from_entries e.entries.entries };
}

impl<V> Entries<V> {
    ghost use Rattle.cp_tables.specs.contracts.entries.Entries.{the_row};

    /// No entries.
    pub fn new(alloc: Global) -> Entries<V>
        ensures { result ≡ map.empty }
    {
        Entries {
            entries: BTreeMap::new(alloc),
        }
    }

    /// The entry under this number.
    pub fn get(&self, id: u32) -> Option<&V>
        ensures { option_copied result ≡ map.get self.now id }
    {
        self.entries.get(&id)
    }

    /// Whether there is an entry under this number.
    pub fn contains(&self, id: u32) -> bool
        ensures { IsTrue result ↔ IsSome (map.get self.now id) }
    {
        self.get(id).is_some()
    }

    /// The entries with their numbers, rising.
    pub fn iter(&self) -> Iter<'_, u32, V>
        ensures { result ≡ map.entries self.now }
    {
        self.entries.iter()
    }

    /// The entry under a number that has one, for writing.
    pub fn entry_mut(&mut self, id: u32) -> &mut V
        requires { IsSome (map.get self.old id) }
        ensures* writes_back { sem 𝓛 (Lends (the_row V.row) V.row self.entry result (map.insert self.entry.now id)) }
        ensures value { map.get self.old id ≡ Some result.now }
    {
        self.entries.get_mut(&id).unwrap()
    }

    /// The entry under this number, for writing.
    pub fn get_mut(&mut self, id: u32) -> Option<&mut V>
        ensures* writes_back { sem 𝓛 (LendsIf (the_row V.row) V.row self.entry result (map.insert self.entry.now id) self.entry.now) }
        ensures value { option_copied_mut result ≡ map.get self.old id }
    {
        match self.entries.get_mut(&id) {
            Some(entry) => Some(entry),
            None => None,
        }
    }

    /// Puts the entry under the number, in place of an earlier one.
    pub fn put(&mut self, id: u32, entry: V) -> Result<(), AllocError>
    where
        V: Drop,
        ensures put { OnOk result (self.new ≡ map.insert self.old id entry) }
        ensures err { OnErr result (self.new ≡ self.old) }
    {
        let _ = self.entries.insert(id, entry)?;
        Ok(())
    }

    /// Puts the entry under the number, and gives the earlier one. Where memory runs out the
    /// entry comes back.
    pub fn replace(&mut self, id: u32, entry: V) -> Result<Option<V>, AllocFailed<V>>
        ensures value { IfOk result (λ old. old ≡ map.get self.old id) }
        ensures put { OnOk result (self.new ≡ map.insert self.old id entry) }
        ensures back { IfErr result (λ failed. failed.value ≡ entry) }
        ensures err { OnErr result (self.new ≡ self.old) }
    {
        Ok(match self.entries.insert(id, entry) {
            Ok(old) => old,
            Err(failed) => {
                return Err(AllocFailed {
                    value: failed.value.1,
                });
            }
        })
    }

    /// Takes the entry under this number out.
    pub fn remove(&mut self, id: u32) -> Option<V>
        ensures value { result ≡ map.get self.old id }
        ensures removed { self.new ≡ map.remove self.old id }
    {
        self.entries.remove(&id)
    }
}
