//! Calls.

use crate::cap::Caps;
use crate::route::Gate;
use cp_tree::Whole;
use std::alloc::{AllocError, Global};

/// What a call asks for (rpc.capnp, `Call`), with the capabilities as the application names them.
#[derive(Drop)]
pub struct Request {
    /// `interfaceId @2 :UInt64`.
    pub interface: u64,
    /// `methodId @3 :UInt16`.
    pub method: u16,
    /// `content @0 :AnyPointer` of its params.
    pub content: Whole,
    /// The capability table of its params.
    pub caps: Caps,
}

impl Request {
    ghost use Rattle.std.specs.Prelude.{◌≡◌, IfOk};

    /// An equal request.
    pub fn copy(&self, alloc: Global) -> Result<Request, AllocError>
        ensures { IfOk result (λ r. r ≡ self.now) }
    {
        Ok(Request {
            interface: self.interface,
            method: self.method,
            content: self.content.copy(alloc)?,
            caps: self.caps.copy(alloc)?,
        })
    }
}

/// Whom a call's outcome is for.
#[derive(Clone, Copy, PartialEq, Eq, Debug)]
pub enum Origin {
    /// The peer, under the number of an answer.
    Answer(u32),
    /// This end's application, under the number of a question.
    Own(u32),
}

/// A call that waits.
#[derive(Drop)]
pub struct WaitingCall {
    /// Its place in the order in which calls came.
    pub ticket: u64,
    pub origin: Origin,
    pub request: Request,
    /// Where it waits.
    pub gate: Gate,
}
