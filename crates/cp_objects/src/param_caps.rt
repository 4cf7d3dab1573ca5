//! What the params of calls name that are answered later.

ghost use Rattle.std.specs.Prelude.{◌≡◌, OnOk};
ghost use Rattle.std.specs.List.{list_any};
ghost use Rattle.std.specs.FinMap as maps;
ghost use Rattle.cp_objects.specs.Numbers.{is_among};

use crate::counts::Counts;
use crate::numbers::Numbers;
use std::alloc::{AllocError, Global};
use std::collections::BTreeMap;
use std::marker::Model;

/// The objects and promises that the params of calls name which are answered later, by the tickets of these.
pub(crate) struct ParamCaps {
    named: BTreeMap<u64, Numbers>,
    /// How often each of them is named: so whether it is needs no look at each call.
    counts: Counts,
}

// Not derived: a function that lets one go calls this one, and need not prove the drop of what it holds.
impl Drop for ParamCaps {
    fn drop(self) {
        let ParamCaps {
            named: _,
            counts: _,
        } = self;
    }
}

impl Model for ParamCaps {
    ghost use Rattle.std.specs.Prelude.{ℕ, List};
    ghost use Rattle.std.specs.FinMap as map;
    ghost use Rattle.std.specs.Coded.{coded_list, coded_ℕ};
    ghost use Rattle.cp_tables.specs.Table.{Table};

    ghost Value = { Table (List ℕ) };

    ghost coded = { map.code coded_ℕ (coded_list coded_ℕ) };

    ghost view = { λ l. map.from_entries l.named.entries };

    ghost use Rattle.std.specs.Ordering.{nat_cmp};
    ghost use Rattle.cp_objects.specs.Counts.{AreCounts};
    ghost use Rattle.cp_objects.specs.Numbers.{joined_lists};

    ghost invariant = { λ l. AreCounts l.counts.counts (joined_lists (map.values (map.from_entries {R = nat_cmp} l.named.entries))) };
}

impl ParamCaps {
    /// No call is answered later.
    pub(crate) fn new(alloc: Global) -> ParamCaps
        ensures { result ≡ maps.empty }
    {
        ParamCaps {
            named: BTreeMap::new(alloc),
            counts: Counts::new(alloc),
        }
    }

    /// The params of this call name these.
    pub(crate) fn put(&mut self, ticket: u64, named: Numbers) -> Result<(), AllocError>
        ensures { OnOk result (self.new ≡ maps.insert self.old ticket named) }
    {
        if let Err(error) = self.counts.raise_each(named.numbers()) {
            drop(named);
            return Err(error);
        }
        match self.named.insert(ticket, named) {
            Ok(Some(before)) => {
                self.counts.lower_each(before.numbers());
                drop(before);
                Ok(())
            }
            Ok(None) => Ok(()),
            Err(failed) => {
                let (_, named) = failed.value;
                self.counts.lower_each(named.numbers());
                drop(named);
                Err(AllocError)
            }
        }
    }

    /// This call was answered.
    pub(crate) fn remove(&mut self, ticket: u64)
        ensures { self.new ≡ maps.remove self.old ticket }
    {
        if let Some(named) = self.named.remove(&ticket) {
            self.counts.lower_each(named.numbers());
            drop(named);
        }
    }

    /// Whether a call names an object or a promise.
    pub(crate) fn names(&self, number: u32) -> bool
        ensures { result ≡ list_any (λ named. is_among number named) (maps.values self.now) }
    {
        self.counts.has(number)
    }
}
