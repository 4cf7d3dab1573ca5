//! How often numbers were added.

ghost use Rattle.std.specs.Prelude.{◌≡◌, ◌++◌, ℕ, List, OnOk, OnErr, is_some};
ghost use Rattle.std.specs.FinMap as maps;
ghost use Rattle.cp_objects.specs.Counts.{AreCounts, count_of, lowered, raised};

use cp_tables::Entries;
use std::alloc::{AllocError, Global};

/// How often each number was added and not taken out again. One that wasn't takes no memory.
#[derive(Drop)]
pub(crate) struct Counts {
    counts: Entries<u64>,
}

impl Counts {
    /// None was added.
    pub(crate) fn new(alloc: Global) -> Counts
        ensures { result.counts ≡ maps.empty }
    {
        Counts {
            counts: Entries::new(alloc),
        }
    }

    /// Whether a number is there.
    pub(crate) fn has(&self, number: u32) -> bool
        ensures { result ≡ is_some (maps.get self.now.counts number) }
    {
        self.counts.get(number).is_some()
    }

    /// A number is there once more. A count that can't rise is refused as a failed allocation is: there is no memory for 2^64 numbers.
    pub(crate) fn raise(&mut self, number: u32) -> Result<(), AllocError>
        ensures raised { OnOk result (self.new.counts ≡ raised self.old.counts number) }
        ensures err { OnErr result (self.new ≡ self.old) }
    {
        let Some(count) = self.of(number).checked_add(1) else {
            return Err(AllocError);
        };
        self.counts.put(number, count)
    }

    /// A number is there once less.
    pub(crate) fn lower(&mut self, number: u32)
        ensures { self.new.counts ≡ lowered self.old.counts number }
    {
        let count = self.of(number);
        if count > 1 {
            *self.counts.entry_mut(number) = count - 1;
            return;
        }
        drop(self.counts.remove(number));
    }

    /// These numbers are there once more. Where memory runs out none is.
    pub(crate) fn raise_each(&mut self, numbers: &[u32]) -> Result<(), AllocError>
        ensures raised { OnOk result ((ns : List ℕ) → AreCounts self.old.counts ns → AreCounts self.new.counts (numbers.now ++ ns)) }
        ensures err { OnErr result ((ns : List ℕ) → AreCounts self.old.counts ns → AreCounts self.new.counts ns) }
    {
        for place in 0..numbers.len() {
            match self.raise(numbers[place]) {
                Ok(()) => {}
                Err(error) => {
                    self.lower_each(&numbers[..place]);
                    return Err(error);
                }
            }
        }
        Ok(())
    }

    /// These numbers are there once less.
    pub(crate) fn lower_each(&mut self, numbers: &[u32])
        ensures { (ns : List ℕ) → AreCounts self.old.counts (numbers.now ++ ns) → AreCounts self.new.counts ns }
    {
        for number in numbers {
            self.lower(*number);
        }
    }

    /// How often a number is there.
    fn of(&self, number: u32) -> u64
        ensures { result ≡ count_of self.now.counts number }
    {
        self.counts.get(number).copied().unwrap_or(0)
    }
}
