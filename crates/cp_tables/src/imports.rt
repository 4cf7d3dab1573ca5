//! The imports.

ghost use Rattle.std.specs.Prelude.{◌≡◌, ◌≢◌, ◌≤◌, ◌<◌, ◌+◌, ◌-◌, ◌↔◌, None, IsTrue, IsOk, IsSome, IsSomeAnd, MatchOption, OnOk, IsOkAnd, IsOkUnless, IsErrOf, OnErr, Some, option_copied};
ghost use Rattle.std.specs.Option.{option_map, option_copied_mut};
ghost use Rattle.std.specs.Borrow.{LendsIf, sem};
ghost use Rattle.std.specs.FinMap as map;

use crate::LIMIT;
use crate::counted::Counted;
use crate::fault::TableFault;
use crate::keyed::Keyed;
use std::alloc::Global;
use std::collections::btree_map::Keys;
use std::marker::Model;

/// The imports of an end: the capabilities that it received, under numbers that its peer picks
/// (rpc.capnp, `ImportId`).
///
/// A number is in use until every time that it was received is released.
#[derive(Drop)]
pub struct Imports<T> {
    entries: Keyed<Counted<T>>,
}

impl<T> Model for Imports<T> {
    ghost use Rattle.std.specs.FinMap as map;
    ghost use Rattle.std.specs.Coded.{coded_ℕ};
    ghost use Rattle.cp_tables.specs.declared.counted.Counted.{Counted};
    ghost use Rattle.cp_tables.specs.Table.{Table};
    ghost use Rattle.cp_tables.specs.Counted.{counted_code, AreCounts};

    ghost Value = { Table (Counted T) };

    ghost coded = { map.code coded_ℕ (counted_code T.code) };

    ghost view = { λ t. t.entries };

    ghost invariant = { λ t. AreCounts t.entries };
}

impl<T: Drop> Imports<T> {
    ghost use Rattle.cp_tables.specs.contracts.imports.Imports.{the_row};
    ghost use Rattle.cp_tables.specs.Counted.{new_counted, count_of, AreCounts, with_count, with_kept};

    /// No imports.
    pub fn new(alloc: Global) -> Imports<T>
        ensures { result ≡ map.empty }
    {
        Imports {
            entries: Keyed::new(alloc),
        }
    }

    /// How many imports there are.
    pub fn len(&self) -> usize
        ensures value { result ≡ map.len self.now }
        ensures few { result ≤ LIMIT }
    {
        self.entries.len()
    }

    /// Whether there are none.
    pub fn is_empty(&self) -> bool
        ensures { IsTrue result ↔ (map.len self.now ≡ 0) }
    {
        self.len() == 0
    }

    /// The import under this number.
    pub fn get(&self, id: u32) -> Option<&Counted<T>>
        ensures value { option_copied result ≡ map.get self.now id }
        ensures counts { AreCounts self.now }
    {
        self.entries.get(id)
    }

    /// The numbers of the imports, rising.
    pub fn ids(&self) -> Keys<'_, u32, Counted<T>>
        ensures { result ≡ map.keys self.now }
    {
        self.entries.ids()
    }

    /// What is kept with the import under this number, for writing.
    pub fn kept_mut(&mut self, id: u32) -> Option<&mut T>
        ensures* writes_back { sem 𝓛 (LendsIf (the_row T.row) T.row self.entry result (with_kept self.entry.now id) self.entry.now) }
        ensures value { option_copied_mut result ≡ option_map (λ entry. entry.kept) (map.get self.old id) }
    {
        match self.entries.get_mut(id) {
            Some(entry) => Some(&mut entry.kept),
            None => None,
        }
    }

    /// Counts the import under this number once more, or opens it with count 1. Only a new import
    /// keeps `kept`.
    ///
    /// # Errors
    ///
    /// `Full` where its count is at 2^32 - 1 or a new one finds the table full, and `OutOfMemory`
    /// for a new one.
    pub fn raise(&mut self, id: u32, kept: T) -> Result<(), TableFault>
        // The table is full for a new import, or the count for one that exists.
        ensures full { IsErrOf result TableFault.Full ↔ MatchOption (map.get self.old id) (map.len self.old ≡ LIMIT) (λ import. import.count ≡ u32.MAX) }

        // A new import, unless memory runs out.
        ensures opened { map.get self.old id ≡ None → OnOk result (self.new ≡ map.insert self.old id (new_counted kept)) }
        ensures else_opened { map.get self.old id ≡ None → map.len self.old ≢ LIMIT → IsOkUnless result TableFault.OutOfMemory }

        // One that exists already.
        ensures raised { IsSome (map.get self.old id) → OnOk result (self.new ≡ with_count self.old id (count_of self.old id + 1)) }
        ensures else_raised { IsSome (map.get self.old id) → count_of self.old id ≢ u32.MAX → IsOk result }
        ensures err { OnErr result (self.new ≡ self.old) }
    {
        match self.entries.get_mut(id) {
            Some(import) => import.raise(),
            None => self.entries.open(id, Counted { count: 1, kept }),
        }
    }

    /// Counts the import `n` times less. At 0 its number is free again.
    ///
    /// # Errors
    ///
    /// `Unknown` where there is no such import, and `TooMany` where its count is below `n`.
    pub fn lower(&mut self, id: u32, n: u32) -> Result<(), TableFault>
        // Each fault comes exactly at its cause.
        ensures unknown { IsErrOf result TableFault.Unknown ↔ (map.get self.old id ≡ None) }
        ensures too_many { IsErrOf result TableFault.TooMany ↔ IsSomeAnd (map.get self.old id) (λ entry. entry.count < n) }

        // By less than the count it is lowered, and by the whole count it goes.
        ensures lowered { n < count_of self.old id → IsOkAnd result (λ _. self.new ≡ with_count self.old id (count_of self.old id - n)) }
        ensures gone { IsSome (map.get self.old id) → n ≡ count_of self.old id → IsOkAnd result (λ _. self.new ≡ map.remove self.old id) }
        ensures unchanged_by_0 { n ≡ 0 → self.new ≡ self.old }
        ensures err { OnErr result (self.new ≡ self.old) }
    {
        let Some(import) = self.entries.get_mut(id) else {
            return Err(TableFault::Unknown);
        };
        if import.lower(n)? {
            drop(self.entries.remove(id));
        }
        Ok(())
    }
}
