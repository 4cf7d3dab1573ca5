//! How often numbers were counted.

ghost use Rattle.std.specs.Prelude.{◌≡◌, ◌+◌, ◌-◌, ◌==◌, ℕ, OnOk, OnErr};
ghost use Rattle.std.specs.FinMap as map;
ghost use Rattle.cp_vat_state.specs.Counts.{count_at, once};

use std::alloc::{AllocError, Global};
use std::collections::BTreeMap;
use std::marker::Model;

/// How often numbers were counted. One that is counted 0 times takes no memory. Contracts see them as a finite map.
pub(crate) struct Counts {
    counts: BTreeMap<u64, u64>,
}

// Not derived: a function that lets one go calls this one, and need not prove the drop of all that it holds.
impl Drop for Counts {
    fn drop(self) {
        let Counts { counts: _ } = self;
    }
}

impl Model for Counts {
    ghost use Rattle.std.specs.Prelude.{ℕ};
    ghost use Rattle.std.specs.FinMap as map;
    ghost use Rattle.std.specs.Coded.{coded_ℕ};
    ghost use Rattle.cp_tables.specs.Table.{Table};

    ghost Value = { Table ℕ };

    ghost coded = { map.code coded_ℕ coded_ℕ };

    ghost view = { λ c. map.from_entries c.counts.entries };
}

impl Counts {
    /// No number was counted.
    pub(crate) fn new(alloc: Global) -> Counts
        ensures { result ≡ map.empty }
    {
        Counts {
            counts: BTreeMap::new(alloc),
        }
    }

    /// How often the number was counted.
    pub(crate) fn get(&self, id: u64) -> u64
        ensures { result ≡ count_at self.now id }
    {
        self.counts.get(&id).copied().unwrap_or(0)
    }

    /// Counts the number once more. A count that can't rise is refused as a failed allocation is: there is no
    /// memory for 2^64 capabilities.
    pub(crate) fn raise(&mut self, id: u64) -> Result<(), AllocError>
        ensures raised { OnOk result ((n : ℕ) → count_at self.new n ≡ count_at self.old n + once (id == n)) }
        ensures err { OnErr result (self.new ≡ self.old) }
    {
        let Some(count) = self.get(id).checked_add(1) else {
            return Err(AllocError);
        };
        let _ = self.counts.insert(id, count)?;
        Ok(())
    }

    /// Counts the number once less, unless it is counted 0 times.
    pub(crate) fn lower(&mut self, id: u64)
        ensures { (n : ℕ) → count_at self.new n ≡ count_at self.old n - once (id == n) }
    {
        let count = self.get(id);
        if count > 1 {
            match self.counts.insert(id, count - 1) {
                Ok(_) => {}
                // It is counted, and only a number that isn't takes memory.
                Err(_) => unreachable!(),
            }
        } else {
            let _ = self.counts.remove(&id);
        }
    }
}
