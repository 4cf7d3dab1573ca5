//! The embargoes.

ghost use Rattle.std.specs.Prelude.{◌≡◌, ◌≢◌, ◌≤◌, ◌↔◌, None, IsTrue, IsOk, IsSome, IfOk, OnOk, IsOkUnless, IsErrOf, OnErr, Some, option_copied};
ghost use Rattle.std.specs.Option.{option_copied_mut};
ghost use Rattle.std.specs.Borrow.{LendsIf, sem};
ghost use Rattle.std.specs.FinMap as map;

use crate::LIMIT;
use crate::fault::TableFault;
use crate::slots::Slots;
use slab::Iter;
use std::alloc::Global;
use std::marker::Model;

/// The embargoes of an end, under numbers that it picks (rpc.capnp, `EmbargoId` of `Disembargo`).
///
/// A number is in use from the `senderLoopback` sent until its `receiverLoopback` came.
#[derive(Drop)]
pub struct Embargoes<T> {
    slots: Slots<T>,
}

impl<T> Model for Embargoes<T> {
    ghost use Rattle.std.specs.FinMap as map;
    ghost use Rattle.std.specs.Coded.{coded_ℕ};
    ghost use Rattle.cp_tables.specs.Table.{Table};

    ghost Value = { Table T };

    ghost coded = { map.code coded_ℕ T.code };

    ghost view = { λ t. t.slots };
}

impl<T: Drop> Embargoes<T> {
    ghost use Rattle.cp_tables.specs.contracts.embargoes.Embargoes.{the_row};

    /// No embargoes.
    pub fn new(alloc: Global) -> Embargoes<T>
        ensures { result ≡ map.empty }
    {
        Embargoes {
            slots: Slots::new(alloc),
        }
    }

    /// How many embargoes there are.
    pub fn len(&self) -> usize
        ensures value { result ≡ map.len self.now }
        ensures few { result ≤ LIMIT }
    {
        self.slots.len()
    }

    /// Whether there are none.
    pub fn is_empty(&self) -> bool
        ensures { IsTrue result ↔ (map.len self.now ≡ 0) }
    {
        self.len() == 0
    }

    /// What is kept with the embargo under this number.
    pub fn get(&self, id: u32) -> Option<&T>
        ensures { option_copied result ≡ map.get self.now id }
    {
        self.slots.get(id)
    }

    /// What is kept with the embargoes, with their numbers, rising.
    pub fn iter(&self) -> Iter<'_, T>
        ensures { result ≡ map.entries self.now }
    {
        self.slots.iter()
    }

    /// What is kept with the embargo under this number, for writing.
    pub fn kept_mut(&mut self, id: u32) -> Option<&mut T>
        ensures* writes_back { sem 𝓛 (LendsIf (the_row T.row) T.row self.entry result (map.insert self.entry.now id) self.entry.now) }
        ensures value { option_copied_mut result ≡ map.get self.old id }
    {
        self.slots.get_mut(id)
    }

    /// Opens an embargo under a free number.
    ///
    /// # Errors
    ///
    /// `Full` where the table is, and `OutOfMemory`.
    pub fn open(&mut self, kept: T) -> Result<u32, TableFault>
        ensures free { IfOk result (λ id. map.get self.old id ≡ None) }
        ensures opened { IfOk result (λ id. self.new ≡ map.insert self.old id kept) }
        ensures full { IsErrOf result TableFault.Full ↔ (map.len self.old ≡ LIMIT) }

        // Where the table isn't full it opens, unless memory runs out.
        ensures else_opened { map.len self.old ≢ LIMIT → IsOkUnless result TableFault.OutOfMemory }
        ensures err { OnErr result (self.new ≡ self.old) }
    {
        self.slots.open(kept)
    }

    /// Closes the embargo and gives what was kept with it. Its number is free again.
    ///
    /// # Errors
    ///
    /// `Unknown` where there is no such embargo.
    pub fn close(&mut self, id: u32) -> Result<T, TableFault>
        ensures unknown { IsErrOf result TableFault.Unknown ↔ (map.get self.old id ≡ None) }
        ensures kept { IfOk result (λ kept. map.get self.old id ≡ Some kept) }
        ensures closed { OnOk result (self.new ≡ map.remove self.old id) }
        ensures else_closed { IsSome (map.get self.old id) → IsOk result }
        ensures err { OnErr result (self.new ≡ self.old) }
    {
        self.slots.remove(id).ok_or(TableFault::Unknown)
    }
}
