//! The promises that the application made.

ghost use Rattle.std.specs.Prelude.{◌≡◌, OnOk, OnErr};

use cp_refs::PromiseId;
use std::alloc::{AllocError, Global};
use std::collections::BTreeSet;
use std::marker::Model;

/// The promises that the application made. Contracts see them as the set of their numbers.
pub struct OwnPromises {
    ids: BTreeSet<u32>,
}

// Not derived: a crate that lets one go calls this function, and need not prove the drop of all that it holds.
impl Drop for OwnPromises {
    fn drop(self) {
        let OwnPromises { ids: _ } = self;
    }
}

impl Model for OwnPromises {
    ghost use Rattle.std.specs.FinSet as set;
    ghost use Rattle.std.specs.Ordering.{nat_cmp};
    ghost use Rattle.std.specs.Coded.{coded_ℕ};

    ghost Value = { set.FinSet nat_cmp };

    ghost coded = { set.code coded_ℕ };

    ghost view = { λ p. set.from_list p.ids.keys };
}

impl OwnPromises {
    ghost use Rattle.std.specs.FinSet as set;

    /// None.
    pub fn new(alloc: Global) -> OwnPromises
        ensures { result ≡ set.empty }
    {
        OwnPromises {
            ids: BTreeSet::new(alloc),
        }
    }

    /// Whether the application made this promise.
    pub fn contains(&self, id: PromiseId) -> bool
        ensures { result ≡ set.contains self.now id }
    {
        self.ids.contains(&id)
    }

    /// Puts a promise in.
    pub fn insert(&mut self, id: PromiseId) -> Result<(), AllocError>
        ensures put { OnOk result (self.new ≡ set.insert self.old id) }
        ensures err { OnErr result (self.new ≡ self.old) }
    {
        let _ = self.ids.insert(id)?;
        Ok(())
    }

    /// Takes a promise out.
    pub fn remove(&mut self, id: PromiseId)
        ensures { self.new ≡ set.remove self.old id }
    {
        let _ = self.ids.remove(&id);
    }
}
