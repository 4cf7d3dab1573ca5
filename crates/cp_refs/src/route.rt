//! Where a call goes.

use crate::cap::{Path, PromiseId};
use cp_messages::Exception;
use std::alloc::{AllocError, Global};

/// What a call waits for.
#[derive(Drop)]
pub enum Gate {
    /// An answer, for what it gives at a path.
    Answer(u32, Path),
    /// A promise.
    Promise(PromiseId),
    /// A question, for what it gives at a path.
    Question(u32, Path),
    /// The echo of an embargo.
    Embargo(u32),
}

impl Gate {
    ghost use Rattle.std.specs.Prelude.{◌≡◌, IfOk};

    /// An equal gate.
    pub fn copy(&self, alloc: Global) -> Result<Gate, AllocError>
        ensures { IfOk result (λ g. g ≡ self.now) }
    {
        Ok(match self {
            Gate::Answer(id, path) => Gate::Answer(*id, path.copy(alloc)?),
            Gate::Promise(id) => Gate::Promise(*id),
            Gate::Question(id, path) => Gate::Question(*id, path.copy(alloc)?),
            Gate::Embargo(id) => Gate::Embargo(*id),
        })
    }
}

/// Where a call goes.
#[derive(Drop)]
pub enum Route {
    /// To an object of this application.
    Deliver(u32),
    /// To a capability of the peer.
    Import(u32),
    /// To what a question that is open on the wire will give at a path.
    Pipe(u32, Path),
    /// Nowhere yet.
    Wait(Gate),
    /// It fails.
    Fail(Exception),
}
