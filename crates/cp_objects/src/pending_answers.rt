//! Who answers calls later.

ghost use Rattle.std.specs.Prelude.{◌≡◌, OnOk};
ghost use Rattle.std.specs.FinMap as maps;
ghost use Rattle.cp_objects.specs.Numbers.{is_among, is_number};

use crate::counts::Counts;
use std::alloc::{AllocError, Global};
use std::collections::BTreeMap;
use std::marker::Model;

/// Who answers the calls that are answered later, by their tickets.
pub(crate) struct PendingAnswers {
    owners: BTreeMap<u64, u32>,
    /// How many of them each object answers: so whether it does needs no look at each call.
    counts: Counts,
}

// Not derived: a function that lets one go calls this one, and need not prove the drop of what it holds.
impl Drop for PendingAnswers {
    fn drop(self) {
        let PendingAnswers {
            owners: _,
            counts: _,
        } = self;
    }
}

impl Model for PendingAnswers {
    ghost use Rattle.std.specs.Prelude.{ℕ};
    ghost use Rattle.std.specs.FinMap as map;
    ghost use Rattle.std.specs.Coded.{coded_ℕ};
    ghost use Rattle.cp_tables.specs.Table.{Table};

    ghost Value = { Table ℕ };

    ghost coded = { map.code coded_ℕ coded_ℕ };

    ghost view = { λ o. map.from_entries o.owners.entries };

    ghost use Rattle.std.specs.Ordering.{nat_cmp};
    ghost use Rattle.cp_objects.specs.Counts.{AreCounts};

    ghost invariant = { λ o. AreCounts o.counts.counts (map.values (map.from_entries {R = nat_cmp} o.owners.entries)) };
}

impl PendingAnswers {
    /// No call is answered later.
    pub(crate) fn new(alloc: Global) -> PendingAnswers
        ensures { result ≡ maps.empty }
    {
        PendingAnswers {
            owners: BTreeMap::new(alloc),
            counts: Counts::new(alloc),
        }
    }

    /// This object answers a call later.
    pub(crate) fn put(&mut self, ticket: u64, object: u32) -> Result<(), AllocError>
        ensures { OnOk result (self.new ≡ maps.insert self.old ticket object) }
    {
        self.counts.raise(object)?;
        match self.owners.insert(ticket, object) {
            Ok(Some(before)) => {
                self.counts.lower(before);
                Ok(())
            }
            Ok(None) => Ok(()),
            Err(_) => {
                self.counts.lower(object);
                Err(AllocError)
            }
        }
    }

    /// A call was answered.
    pub(crate) fn remove(&mut self, ticket: u64)
        ensures { self.new ≡ maps.remove self.old ticket }
    {
        if let Some(object) = self.owners.remove(&ticket) {
            self.counts.lower(object);
        }
    }

    /// Who answers a call, if it is answered later.
    pub(crate) fn owner(&self, ticket: u64) -> Option<u32>
        ensures { result ≡ maps.get self.now ticket }
    {
        self.owners.get(&ticket).copied()
    }

    /// Whether a call is one that this object answers.
    pub(crate) fn is_of(&self, ticket: u64, object: u32) -> bool
        ensures { result ≡ is_number object (maps.get self.now ticket) }
    {
        match self.owners.get(&ticket) {
            Some(owner) => *owner == object,
            None => false,
        }
    }

    /// Whether an object answers a call later.
    pub(crate) fn owes(&self, object: u32) -> bool
        ensures { result ≡ is_among object (maps.values self.now) }
    {
        self.counts.has(object)
    }
}
