//! Questions.

ghost use Rattle.std.specs.Prelude.{◌≡◌, [], IfOk};
ghost use Rattle.cp_refs.specs.declared.cap.Cap.TheVariants.{Pipelined};

use cp_refs::{Cap, Path};
use std::alloc::{AllocError, Global};

/// A question that a client asked.
#[derive(Clone, Copy, PartialEq, Eq, Debug)]
pub struct Question {
    pub number: u32,
}

impl Question {
    /// What it will give, as a capability that may be called at once: for a bootstrap the peer's object.
    pub fn cap(self, alloc: Global) -> Cap
        ensures { result ≡ Pipelined self.number [] }
    {
        Cap::Pipelined(self.number, Path::new(Vec::new(alloc)))
    }

    /// What it will give at a path of pointer fields of its results, as a capability that may be called at once.
    pub fn at(self, alloc: Global, path: &[u16]) -> Result<Cap, AllocError>
        ensures { IfOk result (λ cap. cap ≡ Pipelined self.number path.now) }
    {
        let fields = Vec::from_slice(alloc, path)?;
        Ok(Cap::Pipelined(self.number, Path::new(fields)))
    }
}
