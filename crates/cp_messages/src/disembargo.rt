//! Disembargoes.

ghost use Rattle.std.specs.Prelude.{◌≡◌, IfOk};
ghost use Rattle.cp_messages.specs.Representable.{IsContext, IsDisembargo};
ghost use Rattle.cp_messages.specs.Written.{context_number, context_id, disembargo_written};
ghost use Rattle.cp_tree.specs.DraftOf.{draft_of};

use crate::data::{u16_part, u32_part};
use crate::draft::struct_of;
use crate::target::Target;
use cp_tree::{Draft, UnknownEnumerant};
use std::alloc::{AllocError, Global};

/// `context` of `struct Disembargo` of rpc.capnp.
#[derive(Clone, Copy, PartialEq, Eq, Debug)]
pub enum DisembargoContext {
    /// `senderLoopback @1 :EmbargoId`.
    SenderLoopback(u32),
    /// `receiverLoopback @2 :EmbargoId`.
    ReceiverLoopback(u32),
    /// `accept @3 :Void`.
    Accept,
    /// `provide @4 :QuestionId`.
    Provide(u32),
    /// Any other number.
    Unknown(UnknownEnumerant<3>),
}

/// `struct Disembargo` of rpc.capnp.
#[derive(Drop)]
pub struct Disembargo {
    /// `context :union`.
    pub context: DisembargoContext,
    /// `target @0 :MessageTarget`.
    pub target: Target,
}

impl DisembargoContext {
    /// Its member's number, and the number that the member carries.
    fn parts(&self) -> (u16, u32)
        ensures number { result.0 ≡ context_number self.now }
        ensures id { result.1 ≡ context_id self.now }
        ensures held { IsContext self.now }
    {
        match self {
            DisembargoContext::SenderLoopback(number) => (0, *number),
            DisembargoContext::ReceiverLoopback(number) => (1, *number),
            DisembargoContext::Accept => (2, 0),
            DisembargoContext::Provide(number) => (3, *number),
            DisembargoContext::Unknown(which) => (which.number(), 0),
        }
    }
}

impl Disembargo {
    /// `senderLoopback @1 :EmbargoId`, `receiverLoopback @2 :EmbargoId` and
    /// `provide @4 :QuestionId`, u32.
    pub const NUMBER: u32 = 0;
    /// The number of `context :union`, u16.
    pub const CONTEXT: u32 = 2;
    /// `target @0 :MessageTarget`, a pointer.
    pub const TARGET: u32 = 0;

    /// An equal disembargo.
    pub fn copy(&self, alloc: Global) -> Result<Disembargo, AllocError>
        ensures { IfOk result (λ d. d ≡ self.now) }
    {
        Ok(Disembargo {
            context: self.context,
            target: self.target.copy(alloc)?,
        })
    }

    /// The struct that the disembargo is written as.
    pub(crate) fn draft<'a>(&self, alloc: Global) -> Result<Draft<'a>, AllocError>
        ensures made { IfOk result (λ d. draft_of d ≡ disembargo_written self.now) }
        ensures held { IfOk result (λ d. IsDisembargo self.now) }
    {
        let (which, number) = self.context.parts();
        let word = u32_part(Disembargo::NUMBER, number) + u16_part(Disembargo::CONTEXT, which);
        let target = self.target.draft(alloc)?;
        struct_of(alloc, &[word], target)
    }
}
