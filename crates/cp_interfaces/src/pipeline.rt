//! What a question will give, by the places of the fields.

ghost use Rattle.std.specs.Prelude.{◌≡◌, ◌++◌, ◌∷◌, [], IfOk};
ghost use Rattle.cp_interfaces.specs.Promises.{along, promise_of, promised_cap};

use crate::target::CallTarget;
use cp_objects::SessionCap;
use cp_refs::{Cap, Path};
use std::alloc::{AllocError, Global};
use std::marker::Model;

/// What a question of a session will give at a path of pointer fields of its results. Contracts see it as the session's number, the
/// question's, and the path.
pub struct Pipeline {
    alloc: Global,
    session: u64,
    question: u32,
    path: Vec<u16>,
}

impl Model for Pipeline {
    ghost use Rattle.cp_interfaces.specs.Promises.{Promise, promise_code};

    ghost Value = { Promise };

    ghost coded = { promise_code };

    ghost view = { λ p. record { session = p.session; question = p.question; path = p.path.items } };
}

// Not derived: a crate that lets one go calls this function, and need not prove the drop of all that it holds.
impl Drop for Pipeline {
    fn drop(self) {
        let Pipeline {
            alloc: _,
            session: _,
            question: _,
            path: _,
        } = self;
    }
}

impl Pipeline {
    /// The results of a question of this session.
    pub fn of(alloc: Global, session: u64, question: u32) -> Pipeline
        ensures { result ≡ promise_of session question }
    {
        Pipeline {
            alloc,
            session,
            question,
            path: Vec::new(alloc),
        }
    }

    /// The number of the question.
    pub fn question(&self) -> u32
        ensures { result ≡ self.now.question }
    {
        self.question
    }

    /// What a pointer field of it will be.
    pub fn field(&self, field: u16) -> Result<Pipeline, AllocError>
        ensures { IfOk result (λ p. p ≡ along self.now field) }
    {
        Ok(Pipeline {
            alloc: self.alloc,
            session: self.session,
            question: self.question,
            path: self.path_to(field)?,
        })
    }

    /// What a pointer field of it will be, as a capability that may be called at once.
    pub fn target(&self, field: u16) -> Result<CallTarget, AllocError>
        ensures { IfOk result (λ t. t ≡ promised_cap self.now field) }
    {
        let path = Path::new(self.path_to(field)?);
        let cap = SessionCap::new(self.session, Cap::Pipelined(self.question, path));
        Ok(CallTarget::new(self.alloc, cap))
    }

    /// The path to a pointer field.
    fn path_to(&self, field: u16) -> Result<Vec<u16>, AllocError>
        ensures { IfOk result (λ path. path.items ≡ self.now.path ++ field ∷ []) }
    {
        let mut path = Vec::with_capacity(self.alloc, self.path.len().saturating_add(1))?;
        path.extend_from_slice(&self.path)?;
        path.push(field)?;
        Ok(path)
    }
}
