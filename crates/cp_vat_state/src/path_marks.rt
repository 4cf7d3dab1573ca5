//! The marks of what questions will give at their paths.

ghost use Rattle.std.specs.Prelude.{◌≡◌, ◌∷◌, ◌<◌, Some, None, IsSome, OnOk, OnErr};
ghost use Rattle.std.specs.FinMap as map;

use crate::paths::Paths;
use cp_tables::Entries;
use std::alloc::{AllocError, Global};
use std::marker::Model;

/// The marks of questions' paths, each with its embargo once one was asked for. Contracts see them
/// as a finite map from the list of a question and its fields.
pub struct PathMarks {
    alloc: Global,
    questions: Entries<Paths>,
    count: usize,
}

// Not derived: a crate that lets one go calls this function, and need not prove the drop of all that it holds.
impl Drop for PathMarks {
    fn drop(self) {
        let PathMarks {
            alloc: _,
            questions: _,
            count: _,
        } = self;
    }
}

impl Model for PathMarks {
    ghost use Rattle.std.specs.Coded.{coded_ℕ, coded_list, coded_option};
    ghost use Rattle.std.specs.FinMap.{code};
    ghost use Rattle.cp_vat_state.specs.Paths.{Marked};

    ghost Value = { Marked };

    ghost coded = { code (coded_list coded_ℕ) (coded_option coded_ℕ) };

    ghost use Rattle.cp_vat_state.specs.Joined.{joined, IsCounted};

    ghost view = { λ p. joined p.questions };

    ghost invariant = { λ p. IsCounted p.questions p.count };
}

impl PathMarks {
    ghost use Rattle.std.specs.Prelude.{not};
    ghost use Rattle.cp_vat_machine.specs.Give.{is_path_of};

    /// No marks.
    pub fn new(alloc: Global) -> PathMarks
        ensures { result ≡ map.empty }
    {
        PathMarks {
            alloc,
            questions: Entries::new(alloc),
            count: 0,
        }
    }

    /// How many paths are marked.
    pub fn len(&self) -> usize
        ensures { result ≡ map.len self.now }
    {
        self.count
    }

    /// The mark of a question's path.
    pub fn get(&self, question: u32, path: &[u16]) -> Option<Option<u32>>
        ensures { result ≡ map.get self.now (question ∷ path.now) }
    {
        match self.questions.get(question) {
            Some(paths) => paths.get(path),
            None => None,
        }
    }

    /// Marks a path that isn't marked.
    pub fn mark(&mut self, question: u32, path: &[u16]) -> Result<(), AllocError>
        requires unmarked { map.get self.old (question ∷ path.now) ≡ None }
        requires few { map.len self.old < 65536 }
        ensures put { OnOk result (self.new ≡ map.insert self.old (question ∷ path.now) None) }
        ensures err { OnErr result (self.new ≡ self.old) }
    {
        let fields = Vec::from_slice(self.alloc, path)?;
        if let Some(paths) = self.questions.get_mut(question) {
            paths.put(fields, None)?;
            self.count += 1;
            return Ok(());
        }
        let mut paths = Paths::new(self.alloc);
        paths.put(fields, None)?;
        self.questions.put(question, paths)?;
        self.count += 1;
        Ok(())
    }

    /// Puts an embargo with the mark of a path that is marked.
    pub fn set(&mut self, question: u32, path: &[u16], embargo: u32)
        requires { IsSome (map.get self.old (question ∷ path.now)) }
        ensures { self.new ≡ map.insert self.old (question ∷ path.now) (Some embargo) }
    {
        let Some(paths) = self.questions.get_mut(question) else {
            unreachable!()
        };
        paths.set(path, embargo);
    }

    /// Takes the mark of a path that is marked out.
    pub fn remove(&mut self, question: u32, path: &[u16])
        requires { IsSome (map.get self.old (question ∷ path.now)) }
        ensures { self.new ≡ map.remove self.old (question ∷ path.now) }
    {
        let Some(paths) = self.questions.get_mut(question) else {
            unreachable!()
        };
        let _ = paths.remove(path);
        self.count -= 1;
    }

    /// Takes the marks of all paths of a question out.
    pub fn remove_question(&mut self, question: u32)
        ensures { self.new ≡ map.retain_keys self.old (λ key. not (is_path_of question key)) }
    {
        if let Some(paths) = self.questions.remove(question) {
            self.count -= paths.len();
        }
    }
}
