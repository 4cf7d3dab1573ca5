//! Entries under numbers that the peer picks, side by side.

ghost use Rattle.std.specs.Prelude.{◌≡◌, Some, None, IfOk, IfErr, IfSome, OnOk, OnErr, option_copied};
ghost use Rattle.std.specs.Option.{option_copied_mut};
ghost use Rattle.std.specs.Borrow.{LendsIf, sem};
ghost use Rattle.std.specs.FinMap as map;
ghost use Rattle.slab.specs.Slab.{SameValues};

use crate::entries::Entries;
use slab::Slab;
use std::alloc::{AllocFailed, Global};
use std::marker::Model;
use std::mem;

/// Entries under numbers. Contracts see them as a finite map.
///
/// They lie side by side, so that a look-up passes small nodes alone. Most look-ups are of the number that was put
/// last, and take no search.
#[derive(Drop)]
pub struct Placed<V> {
    /// Where each number's entry lies.
    places: Entries<usize>,
    slots: Slab<V>,
    /// The number that was put last, while it is there, with its place.
    last: Option<(u32, usize)>,
}

impl<V> Model for Placed<V> {
    ghost use Rattle.std.specs.FinMap as map;
    ghost use Rattle.std.specs.Coded.{coded_ℕ};
    ghost use Rattle.slab.specs.Slab.{entries};
    ghost use Rattle.cp_tables.specs.Table.{Table};
    ghost use Rattle.cp_tables.specs.Placed.{placed, IsPlaced};

    ghost Value = { Table V };

    ghost coded = { map.code coded_ℕ V.code };

    ghost view = { λ p. placed p.places (map.from_entries (entries p.slots)) };

    ghost invariant = { λ p. IsPlaced p.places (map.from_entries (entries p.slots)) p.last };
}

impl<V> Placed<V> {
    ghost use Rattle.cp_tables.specs.contracts.placed.Placed.{the_row};

    /// No entries.
    pub fn new(alloc: Global) -> Placed<V>
        ensures { result ≡ map.empty }
    {
        Placed {
            places: Entries::new(alloc),
            slots: Slab::new(alloc),
            last: None,
        }
    }

    /// How many entries there are.
    pub fn len(&self) -> usize
        ensures { result ≡ map.len self.now }
    {
        self.slots.len()
    }

    /// The entry under this number.
    pub fn get(&self, id: u32) -> Option<&V>
        ensures { option_copied result ≡ map.get self.now id }
    {
        match place_of(self.last, &self.places, id) {
            Some(place) => self.slots.get(place),
            None => None,
        }
    }

    /// The entry under this number, for writing.
    pub fn get_mut(&mut self, id: u32) -> Option<&mut V>
        ensures* writes_back { sem 𝓛 (LendsIf (the_row V.row) V.row self.entry result (map.insert self.entry.now id) self.entry.now) }
        ensures value { option_copied_mut result ≡ map.get self.old id }
    {
        let Some(place) = place_of(self.last, &self.places, id) else {
            return None;
        };
        match self.slots.get_mut(place) {
            Some(entry) => Some(entry),
            None => None,
        }
    }

    /// Puts the entry under the number, and gives the earlier one. Where memory runs out the
    /// entry comes back.
    pub fn replace(&mut self, id: u32, entry: V) -> Result<Option<V>, AllocFailed<V>>
        ensures value { IfOk result (λ old. old ≡ map.get self.old id) }
        ensures put { OnOk result (self.new ≡ map.insert self.old id entry) }
        ensures back { IfErr result (λ failed. failed.value ≡ entry) }
        ensures err { OnErr result (self.new ≡ self.old) }
    {
        if let Some((number, place)) = self.last {
            if number == id {
                return match self.slots.get_mut(place) {
                    Some(old) => Ok(Some(mem::replace(old, entry))),
                    // What was put last is there.
                    None => unreachable!(),
                };
            }
        }
        self.put(id, entry)
    }

    /// The same by a search.
    fn put(&mut self, id: u32, entry: V) -> Result<Option<V>, AllocFailed<V>>
        ensures value { IfOk result (λ old. old ≡ map.get self.old id) }
        ensures put { OnOk result (self.new ≡ map.insert self.old id entry) }
        ensures back { IfErr result (λ failed. failed.value ≡ entry) }
        ensures err { OnErr result (self.new ≡ self.old) }
    {
        let place = match self.slots.insert(entry) {
            Ok(place) => place,
            Err(failed) => return Err(failed),
        };
        match self.places.replace(id, place) {
            Ok(before) => {
                self.last = Some((id, place));
                match before {
                    Some(before) => Ok(self.slots.try_remove(before)),
                    None => Ok(None),
                }
            }
            Err(_) => Err(AllocFailed {
                value: self.slots.remove(place),
            }),
        }
    }

    /// Puts the entry under a number that has none. Where it has one, or memory runs out, the entry comes back.
    pub(crate) fn put_new(&mut self, id: u32, entry: V) -> Result<(), V>
        ensures put { OnOk result ((map.get self.old id ≡ None) × (self.new ≡ map.insert self.old id entry)) }
        ensures back { IfErr result (λ it. it ≡ entry) }
        ensures err { OnErr result (self.new ≡ self.old) }
    {
        let place = match self.slots.insert(entry) {
            Ok(place) => place,
            Err(failed) => return Err(failed.value),
        };
        match self.places.replace(id, place) {
            Ok(None) => {
                self.last = Some((id, place));
                Ok(())
            }
            Ok(Some(before)) => {
                *self.places.entry_mut(id) = before;
                Err(self.slots.remove(place))
            }
            Err(_) => Err(self.slots.remove(place)),
        }
    }

    /// Takes the entry under this number out.
    pub fn remove(&mut self, id: u32) -> Option<V>
    where
        V: Drop,
        ensures value { result ≡ map.get self.old id }
        ensures removed { self.new ≡ map.remove self.old id }
    {
        self.last = None;
        match self.places.remove(id) {
            Some(place) => {
                let entry = self.slots.try_remove(place);
                let_go(&mut self.slots);
                entry
            }
            None => None,
        }
    }
}

/// A table that is empty keeps this many slots at most.
const KEPT_SLOTS: usize = 64;

/// Gives back the memory of many slots once none is in use.
fn let_go<V: Drop>(slots: &mut Slab<V>)
    ensures { SameValues slots.old slots.new }
{
    if slots.is_empty() && slots.capacity() > KEPT_SLOTS {
        slots.shrink_to_fit();
    }
}

/// Where the number's entry lies.
fn place_of(last: Option<(u32, usize)>, places: &Entries<usize>, id: u32) -> Option<usize>
    requires { IfSome last (λ found. map.get places.now found.0 ≡ Some found.1) }
    ensures { result ≡ map.get places.now id }
{
    if let Some((number, place)) = last {
        if number == id {
            return Some(place);
        }
    }
    places.get(id).copied()
}
