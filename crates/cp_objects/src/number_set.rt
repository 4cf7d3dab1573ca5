//! Sets of numbers.

ghost use Rattle.std.specs.Prelude.{◌≡◌, OnOk, OnErr};
ghost use Rattle.std.specs.BTreeSet.{contains};
ghost use Rattle.std.specs.FinSet as set;
ghost use Rattle.std.specs.Ordering.{nat_cmp};
ghost use Rattle.cp_objects.specs.Numbers.{IsFirst, IsFirstBy, inserted};

use std::alloc::{AllocError, Global};
use std::collections::BTreeSet;
use std::marker::Model;

/// A set of numbers. Contracts see it as that.
pub(crate) struct NumberSet {
    numbers: BTreeSet<u32>,
}

// Not derived: a function that lets one go calls this one, and need not prove the drop of what it holds.
impl Drop for NumberSet {
    fn drop(self) {
        let NumberSet { numbers: _ } = self;
    }
}

impl Model for NumberSet {
    ghost use Rattle.std.specs.FinSet as set;
    ghost use Rattle.std.specs.Ordering.{nat_cmp};
    ghost use Rattle.std.specs.Coded.{coded_ℕ};

    ghost Value = { set.FinSet nat_cmp };

    ghost coded = { set.code coded_ℕ };

    ghost view = { λ s. set.from_list s.numbers.keys };
}

impl NumberSet {
    /// None.
    pub(crate) fn new(alloc: Global) -> NumberSet
        ensures { result ≡ set.empty }
    {
        NumberSet {
            numbers: BTreeSet::new(alloc),
        }
    }

    /// Whether it has a number.
    pub(crate) fn contains(&self, number: u32) -> bool
        ensures { result ≡ set.contains self.now number }
    {
        self.numbers.contains(&number)
    }

    /// Its first from this number on.
    pub(crate) fn first_from(&self, number: u32) -> Option<u32>
        ensures { IsFirst number result self.now }
    {
        first_key(&self.numbers, number)
    }

    /// One more.
    pub(crate) fn insert(&mut self, number: u32) -> Result<(), AllocError>
        ensures put { OnOk result (self.new ≡ set.insert self.old number) }
        ensures err { OnErr result (self.new ≡ self.old) }
    {
        let _ = self.numbers.insert(number)?;
        Ok(())
    }

    /// One less.
    pub(crate) fn remove(&mut self, number: u32)
        ensures { self.new ≡ set.remove self.old number }
    {
        let _ = self.numbers.remove(&number);
    }
}

/// The first key from this number on.
fn first_key(numbers: &BTreeSet<u32>, from: u32) -> Option<u32>
    ensures { IsFirstBy (λ k. contains nat_cmp numbers.now k) from result }
{
    match numbers.range(from..).next() {
        Some(key) => Some(*key),
        None => None,
    }
}

/// These numbers are in it, too.
pub(crate) fn insert_each(known: &mut NumberSet, numbers: &[u32]) -> Result<(), AllocError>
    ensures { OnOk result (known.new ≡ inserted numbers.now known.old) }
{
    for number in numbers {
        known.insert(*number)?;
    }
    Ok(())
}
