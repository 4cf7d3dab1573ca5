//! Values under keys.

ghost use Rattle.std.specs.Prelude.{◌≡◌, OnOk, option_copied};
ghost use Rattle.std.specs.FinMap as map;
ghost use Rattle.cp_dispatch.specs.Work.{key_at, key_of};

use cp_refs::Origin;
use std::alloc::{AllocError, Global};
use std::collections::BTreeMap;
use std::marker::Model;

/// Values under keys of 128 bits. Contracts see them as a finite map.
#[derive(Drop)]
pub(crate) struct Keyed<V> {
    values: BTreeMap<u128, V>,
}

impl<V> Model for Keyed<V> {
    ghost use Rattle.std.specs.FinMap as map;
    ghost use Rattle.std.specs.Coded.{coded_ℕ};
    ghost use Rattle.cp_tables.specs.Table.{Table};

    ghost Value = { Table V };

    ghost coded = { map.code coded_ℕ V.code };

    ghost view = { λ k. map.from_entries k.values.entries };
}

impl<V: Drop> Keyed<V> {
    /// No values.
    pub(crate) fn new(alloc: Global) -> Keyed<V>
        ensures { result ≡ map.empty }
    {
        Keyed {
            values: BTreeMap::new(alloc),
        }
    }

    /// The value under this key.
    pub(crate) fn get(&self, key: u128) -> Option<&V>
        ensures { option_copied result ≡ map.get self.now key }
    {
        self.values.get(&key)
    }

    /// Puts a value under a key, in place of an earlier one.
    pub(crate) fn put(&mut self, key: u128, value: V) -> Result<(), AllocError>
        ensures { OnOk result (self.new ≡ map.insert self.old key value) }
    {
        let _ = self.values.insert(key, value)?;
        Ok(())
    }

    /// Takes the value under this key out.
    pub(crate) fn remove(&mut self, key: u128) -> Option<V>
        ensures value { result ≡ map.get self.old key }
        ensures removed { self.new ≡ map.remove self.old key }
    {
        self.values.remove(&key)
    }
}

/// The key of a call that is owed: the number of its answer, and where it is the application's, the number of its question past all
/// answers.
pub(crate) fn key_of(origin: Origin) -> u128
    ensures { result ≡ key_of origin }
{
    match origin {
        Origin::Answer(answer) => u128::from(answer),
        Origin::Own(question) => u128::from(question) + 4_294_967_296,
    }
}

/// The key of a call that an object made: the number of the object, and the call's number below.
pub(crate) fn key_at(number: u32, call_id: u64) -> u128
    ensures { result ≡ key_at number call_id }
{
    u128::from(number) * 18_446_744_073_709_551_616 + u128::from(call_id)
}
