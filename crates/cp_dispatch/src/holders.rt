//! How many objects hold each import.

ghost use Rattle.std.specs.Prelude.{◌≡◌, ℕ, ◌<◌, ◌≤◌, ◌+◌, ◌-◌, true, false, OnOk, OnErr, take};
ghost use Rattle.std.specs.FinMap as map;
ghost use Rattle.cp_dispatch.specs.Holders.{holders, held_by_one_more, held_by_less, held_by_more, lowered};

use cp_tables::Entries;
use std::alloc::{AllocError, Global};

/// How many objects hold each import. One that no object holds takes no memory.
#[derive(Drop)]
pub(crate) struct ImportHolders {
    counts: Entries<u64>,
}

impl ImportHolders {
    /// No import is held.
    pub(crate) fn new(alloc: Global) -> ImportHolders
        ensures { result.counts ≡ map.empty }
    {
        ImportHolders {
            counts: Entries::new(alloc),
        }
    }

    /// How many objects hold an import.
    pub(crate) fn of(&self, import: u32) -> u64
        ensures { result ≡ holders self.now.counts import }
    {
        self.counts.get(import).copied().unwrap_or(0)
    }

    /// How many imports are held.
    pub(crate) fn len(&self) -> usize
        ensures { result ≡ map.len self.now.counts }
    {
        self.counts.iter().len()
    }

    /// One object more holds each of these imports. Where memory runs out, that is so of the first of them, or of none.
    pub(crate) fn raise_each(&mut self, imports: &[u32]) -> Result<(), AllocError>
        ensures raised { OnOk result (self.new.counts ≡ held_by_more self.old.counts imports.now) }
        ensures err { OnErr result ((n : ℕ) × (self.new.counts ≡ held_by_more self.old.counts (take n imports.now))) }
    {
        for import in imports {
            self.raise(*import)?;
        }
        Ok(())
    }

    /// One object less holds an import. Says whether others hold it still.
    pub(crate) fn lower(&mut self, import: u32) -> bool
        ensures others { result ≡ true → 1 < holders self.old.counts import }
        ensures less { result ≡ true → self.new.counts ≡ map.insert self.old.counts import (holders self.old.counts import - 1) }
        ensures last { result ≡ false → holders self.old.counts import ≤ 1 }
        ensures none { result ≡ false → self.new.counts ≡ map.remove self.old.counts import }
        ensures lowered { self.new.counts ≡ lowered self.old.counts import }
    {
        let count = self.of(import);
        if count > 1 {
            *self.counts.entry_mut(import) = count - 1;
            return true;
        }
        drop(self.counts.remove(import));
        false
    }

    /// One object less holds each of these imports.
    pub(crate) fn lower_each(&mut self, imports: &[u32])
        ensures { self.new.counts ≡ held_by_less self.old.counts imports.now }
    {
        for import in imports {
            let _ = self.lower(*import);
        }
    }

    /// One object more holds an import. A count that can't rise is refused as a failed allocation is: there is no
    /// memory for 2^64 capabilities.
    fn raise(&mut self, import: u32) -> Result<(), AllocError>
        ensures raised { OnOk result (self.new.counts ≡ held_by_one_more self.old.counts import) }
        ensures err { OnErr result (self.new ≡ self.old) }
    {
        let Some(count) = self.of(import).checked_add(1) else {
            return Err(AllocError);
        };
        self.counts.put(import, count)
    }
}
