//! The exports.

ghost use Rattle.std.specs.Prelude.{◌≡◌, ◌≢◌, ◌≤◌, ◌<◌, ◌+◌, ◌-◌, ◌↔◌, None, IsTrue, IsOk, IsSome, IsSomeAnd, IfSome, IfNone, MatchOption, IfOk, IsOkAnd, IsOkUnless, IsErrOf, OnErr, Some, option_copied};
ghost use Rattle.std.specs.Option.{option_map, option_copied_mut};
ghost use Rattle.std.specs.Borrow.{LendsIf, sem};
ghost use Rattle.std.specs.FinMap as map;

use crate::LIMIT;
use crate::counted::Counted;
use crate::fault::TableFault;
use crate::slots::Slots;
use std::alloc::Global;
use std::marker::Model;

/// The exports of an end: the capabilities that it sent, under numbers that it picks (rpc.capnp,
/// `ExportId`).
///
/// A number is in use until every time that it was sent is released.
#[derive(Drop)]
pub struct Exports<T> {
    slots: Slots<Counted<T>>,
}

impl<T> Model for Exports<T> {
    ghost use Rattle.std.specs.FinMap as map;
    ghost use Rattle.std.specs.Coded.{coded_ℕ};
    ghost use Rattle.cp_tables.specs.declared.counted.Counted.{Counted};
    ghost use Rattle.cp_tables.specs.Table.{Table};
    ghost use Rattle.cp_tables.specs.Counted.{counted_code, AreCounts};

    ghost Value = { Table (Counted T) };

    ghost coded = { map.code coded_ℕ (counted_code T.code) };

    ghost view = { λ t. t.slots };

    ghost invariant = { λ t. AreCounts t.slots };
}

impl<T: Drop> Exports<T> {
    ghost use Rattle.cp_tables.specs.contracts.exports.Exports.{the_row};
    ghost use Rattle.cp_tables.specs.Counted.{new_counted, count_of, AreCounts, with_count, with_kept};

    /// No exports.
    pub fn new(alloc: Global) -> Exports<T>
        ensures { result ≡ map.empty }
    {
        Exports {
            slots: Slots::new(alloc),
        }
    }

    /// How many exports there are.
    pub fn len(&self) -> usize
        ensures value { result ≡ map.len self.now }
        ensures few { result ≤ LIMIT }
    {
        self.slots.len()
    }

    /// Whether there are none.
    pub fn is_empty(&self) -> bool
        ensures { IsTrue result ↔ (map.len self.now ≡ 0) }
    {
        self.len() == 0
    }

    /// The export under this number.
    pub fn get(&self, id: u32) -> Option<&Counted<T>>
        ensures value { option_copied result ≡ map.get self.now id }
        ensures counts { AreCounts self.now }
    {
        self.slots.get(id)
    }

    /// What is kept with the export under this number, for writing.
    pub fn kept_mut(&mut self, id: u32) -> Option<&mut T>
        ensures* writes_back { sem 𝓛 (LendsIf (the_row T.row) T.row self.entry result (with_kept self.entry.now id) self.entry.now) }
        ensures value { option_copied_mut result ≡ option_map (λ entry. entry.kept) (map.get self.old id) }
    {
        match self.slots.get_mut(id) {
            Some(entry) => Some(&mut entry.kept),
            None => None,
        }
    }

    /// Counts the export under this number once more, or opens one under a free number, with count
    /// 1. Answers its number. Only a new export keeps `kept`.
    ///
    /// # Errors
    ///
    /// `Unknown` where there is no such export, `Full` where its count is at 2^32 - 1 or a new one
    /// finds the table full, and `OutOfMemory` for a new one.
    pub fn raise(&mut self, id: Option<u32>, kept: T) -> Result<u32, TableFault>
        // Each fault comes exactly at its cause: `Full` where the table is, for a new export, or the
        // count, for one that exists.
        ensures unknown { IsErrOf result TableFault.Unknown ↔ IsSomeAnd id (λ k. map.get self.old k ≡ None) }
        ensures full { IsErrOf result TableFault.Full ↔ MatchOption id (map.len self.old ≡ LIMIT) (λ k. count_of self.old k ≡ u32.MAX) }

        // A new export, unless memory runs out.
        ensures free { IfNone id (IfOk result (λ k. map.get self.old k ≡ None)) }
        ensures opened { IfNone id (IfOk result (λ k. self.new ≡ map.insert self.old k (new_counted kept))) }
        ensures else_opened { IfNone id (map.len self.old ≢ LIMIT → IsOkUnless result TableFault.OutOfMemory) }

        // One that exists already.
        ensures raised { IfSome id (λ k. IfOk result (λ same. (same ≡ k) × (self.new ≡ with_count self.old k (count_of self.old k + 1)))) }
        ensures else_raised { IfSome id (λ k. IsSome (map.get self.old k) → count_of self.old k ≢ u32.MAX → IsOk result) }
        ensures err { OnErr result (self.new ≡ self.old) }
    {
        let Some(id) = id else {
            return self.slots.open(Counted { count: 1, kept });
        };
        let Some(export) = self.slots.get_mut(id) else {
            return Err(TableFault::Unknown);
        };
        export.raise()?;
        Ok(id)
    }

    /// Counts the export `n` times less. At 0 its number is free again.
    ///
    /// # Errors
    ///
    /// `Unknown` where there is no such export, and `TooMany` where its count is below `n`.
    pub fn lower(&mut self, id: u32, n: u32) -> Result<(), TableFault>
        // Each fault comes exactly at its cause.
        ensures unknown { IsErrOf result TableFault.Unknown ↔ (map.get self.old id ≡ None) }
        ensures too_many { IsErrOf result TableFault.TooMany ↔ IsSomeAnd (map.get self.old id) (λ entry. entry.count < n) }

        // By less than the count it is lowered, and by the whole count it goes.
        ensures lowered { n < count_of self.old id → IsOkAnd result (λ _. self.new ≡ with_count self.old id (count_of self.old id - n)) }
        ensures gone { IsSome (map.get self.old id) → n ≡ count_of self.old id → IsOkAnd result (λ _. self.new ≡ map.remove self.old id) }
        ensures unchanged_by_0 { n ≡ 0 → self.new ≡ self.old }
        ensures err { OnErr result (self.new ≡ self.old) }
    {
        let Some(export) = self.slots.get_mut(id) else {
            return Err(TableFault::Unknown);
        };
        if export.lower(n)? {
            drop(self.slots.remove(id));
        }
        Ok(())
    }
}
