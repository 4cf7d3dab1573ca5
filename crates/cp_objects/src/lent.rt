//! What a session lends to the others of its host.

ghost use Rattle.std.specs.Prelude.{◌≡◌, OnOk, OnErr};
ghost use Rattle.std.specs.FinMap as maps;
ghost use Rattle.cp_objects.specs.Lending.{imports_in, is_import_of, lowered_by, raised_by};

use crate::counts::Counts;
use crate::shared_cap::SharedCap;
use cp_refs::Cap;
use std::alloc::{AllocError, Global};
use std::collections::BTreeMap;
use std::marker::Model;

/// What a session lends to the others of its host, by keys, none of which is given twice. Contracts see it as a finite map.
pub(crate) struct Lent {
    caps: BTreeMap<u64, SharedCap>,
    /// How many of them are each import.
    imports: Counts,
}

// Not derived: a function that lets one go calls this one, and need not prove the drop of what it holds.
impl Drop for Lent {
    fn drop(self) {
        let Lent {
            caps: _,
            imports: _,
        } = self;
    }
}

impl Model for Lent {
    ghost use Rattle.std.specs.FinMap as map;
    ghost use Rattle.std.specs.Coded.{coded_ℕ};
    ghost use Rattle.cp_objects.specs.contracts.shared_cap.LentCap.{the_row};
    ghost use Rattle.cp_objects.specs.declared.shared_cap.LentCap.{LentCap};
    ghost use Rattle.cp_tables.specs.Table.{Table};

    ghost Value = { Table LentCap };

    ghost coded = { map.code coded_ℕ the_row.coded };

    ghost view = { λ l. map.from_entries l.caps.entries };

    ghost use Rattle.std.specs.Ordering.{nat_cmp};
    ghost use Rattle.cp_objects.specs.Counts.{AreCounts};
    ghost use Rattle.cp_objects.specs.Lending.{imports_in};

    ghost invariant = { λ l. AreCounts l.imports.counts (imports_in (map.values (map.from_entries {R = nat_cmp} l.caps.entries))) };
}

impl Lent {
    /// Nothing is lent.
    pub(crate) fn new(alloc: Global) -> Lent
        ensures { result ≡ maps.empty }
    {
        Lent {
            caps: BTreeMap::new(alloc),
            imports: Counts::new(alloc),
        }
    }

    /// How many are lent.
    pub(crate) fn len(&self) -> usize
        ensures { result ≡ maps.len self.now }
    {
        self.caps.len()
    }

    /// Whether this is an import that is lent.
    pub(crate) fn names(&self, cap: &Cap) -> bool
        ensures { result ≡ is_import_of cap.now (imports_in (maps.values self.now)) }
    {
        match cap {
            Cap::Import(import) => self.imports.has(*import),
            _ => false,
        }
    }

    /// One more is lent.
    pub(crate) fn put(&mut self, shared: SharedCap) -> Result<(), AllocError>
        ensures { OnOk result (self.new ≡ maps.insert self.old shared.key shared) }
    {
        if let Err(error) = raise(&mut self.imports, shared.cap()) {
            drop(shared);
            return Err(error);
        }
        match self.caps.insert(shared.key(), shared) {
            Ok(Some(before)) => {
                lower(&mut self.imports, before.cap());
                drop(before);
                Ok(())
            }
            Ok(None) => Ok(()),
            Err(failed) => {
                let (_, shared) = failed.value;
                lower(&mut self.imports, shared.cap());
                drop(shared);
                Err(AllocError)
            }
        }
    }

    /// Takes out the one of this key, if it is lent.
    pub(crate) fn take(&mut self, key: u64) -> Option<SharedCap>
        ensures taken { result ≡ maps.get self.old key }
        ensures left { self.new ≡ maps.remove self.old key }
    {
        let shared = self.caps.remove(&key)?;
        lower(&mut self.imports, shared.cap());
        Some(shared)
    }

    /// Whether nobody else has the one of this key, which is lent. A contract knows nothing of that.
    pub(crate) fn is_alone(&self, key: u64) -> bool {
        match self.caps.get(&key) {
            Some(shared) => shared.is_alone(),
            None => false,
        }
    }

    /// The keys of those that nobody else has. A contract knows nothing of that.
    pub(crate) fn alone(&self, alloc: Global) -> Result<Vec<u64>, AllocError> {
        let mut keys = Vec::new(alloc);
        for (key, shared) in &self.caps {
            if shared.is_alone() {
                keys.push(*key)?;
            }
        }
        Ok(keys)
    }
}

/// One more is lent, which may be an import.
fn raise(imports: &mut Counts, cap: &Cap) -> Result<(), AllocError>
    ensures raised { OnOk result (imports.new.counts ≡ raised_by cap.now imports.old.counts) }
    ensures err { OnErr result (imports.new ≡ imports.old) }
{
    match cap {
        Cap::Import(import) => imports.raise(*import),
        _ => Ok(()),
    }
}

/// One fewer is.
fn lower(imports: &mut Counts, cap: &Cap)
    ensures { imports.new.counts ≡ lowered_by cap.now imports.old.counts }
{
    if let Cap::Import(import) = cap {
        imports.lower(*import);
    }
}
