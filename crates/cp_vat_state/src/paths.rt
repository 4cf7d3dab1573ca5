//! Marks under paths of fields.

ghost use Rattle.std.specs.Prelude.{◌≡◌, Some, IsSome, OnOk, OnErr, option_copied};
ghost use Rattle.std.specs.FinMap as map;

use std::alloc::{AllocError, Global};
use std::collections::BTreeMap;
use std::marker::Model;

/// Marks under paths of fields, each with its embargo once one was asked for. Contracts see them as
/// a finite map from the list of the fields.
pub(crate) struct Paths {
    marks: BTreeMap<Vec<u16>, Option<u32>>,
}

// Not derived: a function that lets one go calls this one, and need not prove the drop of all that it holds.
impl Drop for Paths {
    fn drop(self) {
        let Paths { marks: _ } = self;
    }
}

impl Model for Paths {
    ghost use Rattle.std.specs.Coded.{coded_ℕ, coded_list, coded_option};
    ghost use Rattle.std.specs.FinMap.{code};
    ghost use Rattle.cp_vat_state.specs.Paths.{Marked, by_fields, fields_of, AreInOrder};

    ghost Value = { Marked };

    ghost coded = { code (coded_list coded_ℕ) (coded_option coded_ℕ) };

    ghost view = { λ p. by_fields fields_of p.marks.entries };

    ghost invariant = { λ p. AreInOrder p.marks };
}

impl Paths {
    pub(crate) fn new(alloc: Global) -> Paths
        ensures { result ≡ map.empty }
    {
        Paths {
            marks: BTreeMap::new(alloc),
        }
    }

    /// How many marks there are.
    pub(crate) fn len(&self) -> usize
        ensures { result ≡ map.len self.now }
    {
        self.marks.len()
    }

    /// The mark under this path.
    pub(crate) fn get(&self, path: &[u16]) -> Option<Option<u32>>
        ensures { result ≡ map.get self.now path.now }
    {
        self.marks.get(path).copied()
    }

    /// Puts a mark under this path.
    pub(crate) fn put(&mut self, path: Vec<u16>, embargo: Option<u32>) -> Result<(), AllocError>
        ensures put { OnOk result (self.new ≡ map.insert self.old path.items embargo) }
        ensures err { OnErr result (self.new ≡ self.old) }
    {
        let _ = self.marks.insert(path, embargo)?;
        Ok(())
    }

    /// Puts an embargo with the mark under a path that has one.
    pub(crate) fn set(&mut self, path: &[u16], embargo: u32)
        requires { IsSome (map.get self.old path.now) }
        ensures { self.new ≡ map.insert self.old path.now (Some embargo) }
    {
        let mark = self.marks.get_mut(path).unwrap();
        *mark = Some(embargo);
    }

    /// Takes the mark under this path out.
    pub(crate) fn remove(&mut self, path: &[u16]) -> Option<Option<u32>>
        ensures value { result ≡ map.get self.old path.now }
        ensures removed { self.new ≡ map.remove self.old path.now }
    {
        self.marks.remove(path)
    }
}
