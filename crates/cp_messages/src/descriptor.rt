//! What a capability in a payload is.

ghost use Rattle.std.specs.Prelude.{◌≡◌, IfOk};
ghost use Rattle.cp_messages.specs.Fitting.{descriptor_fits};
ghost use Rattle.cp_messages.specs.Representable.{IsDescriptor};
ghost use Rattle.cp_messages.specs.Written.{body_written, descriptor_number, descriptor_id, descriptor_pointer, descriptor_written};
ghost use Rattle.cp_tree.specs.DraftOf.{draft_of, draft_body_of};

use crate::data::{u16_part, u32_part};
use crate::draft::{body_of, lent, null};
use crate::promised_answer::PromisedAnswer;
use cp_tree::{Draft, DraftBody, UnknownEnumerant, Whole};
use std::alloc::{AllocError, Global};

/// `struct CapDescriptor` of rpc.capnp.
#[derive(Drop)]
pub enum Descriptor {
    /// `none @0 :Void`.
    None,
    /// `senderHosted @1 :ExportId`.
    SenderHosted(u32),
    /// `senderPromise @2 :ExportId`.
    SenderPromise(u32),
    /// `receiverHosted @3 :ImportId`.
    ReceiverHosted(u32),
    /// `receiverAnswer @4 :PromisedAnswer`.
    ReceiverAnswer(PromisedAnswer),
    /// `thirdPartyHosted @5 :ThirdPartyCapDescriptor`, not looked into.
    ThirdPartyHosted(Whole),
    /// Any other number.
    Unknown(UnknownEnumerant<5>),
}

impl Descriptor {
    /// The union's number, u16.
    pub const WHICH: u32 = 0;
    /// `senderHosted @1 :ExportId`, `senderPromise @2 :ExportId` and `receiverHosted @3 :ImportId`,
    /// u32.
    pub const ID: u32 = 1;
    /// `receiverAnswer @4 :PromisedAnswer` and `thirdPartyHosted @5`, a pointer.
    pub const POINTER: u32 = 0;

    /// An equal descriptor.
    pub fn copy(&self, alloc: Global) -> Result<Descriptor, AllocError>
        ensures { IfOk result (λ d. d ≡ self.now) }
    {
        Ok(match self {
            Descriptor::None => Descriptor::None,
            Descriptor::SenderHosted(id) => Descriptor::SenderHosted(*id),
            Descriptor::SenderPromise(id) => Descriptor::SenderPromise(*id),
            Descriptor::ReceiverHosted(id) => Descriptor::ReceiverHosted(*id),
            Descriptor::ReceiverAnswer(answer) => Descriptor::ReceiverAnswer(answer.copy(alloc)?),
            Descriptor::ThirdPartyHosted(tree) => Descriptor::ThirdPartyHosted(tree.copy(alloc)?),
            Descriptor::Unknown(number) => Descriptor::Unknown(*number),
        })
    }

    /// Whether each list of the struct that the descriptor is written as is short enough.
    pub(crate) fn fits(&self) -> bool
        ensures { result ≡ descriptor_fits self.now }
    {
        match self {
            Descriptor::ReceiverAnswer(answer) => answer.fits(),
            _ => true,
        }
    }

    /// Its member's number, the number that the member carries, and what its pointer stands for.
    fn parts(&self, alloc: Global) -> (u16, u32, Result<Draft<'_>, AllocError>)
        ensures number { result.0 ≡ descriptor_number self.now }
        ensures id { result.1 ≡ descriptor_id self.now }
        ensures pointer { IfOk result.2 (λ d. draft_of d ≡ descriptor_pointer self.now) }
        ensures held { IfOk result.2 (λ d. IsDescriptor self.now) }
    {
        match self {
            Descriptor::None => (0, 0, Ok(null())),
            Descriptor::SenderHosted(id) => (1, *id, Ok(null())),
            Descriptor::SenderPromise(id) => (2, *id, Ok(null())),
            Descriptor::ReceiverHosted(id) => (3, *id, Ok(null())),
            Descriptor::ReceiverAnswer(answer) => (4, 0, answer.draft(alloc)),
            Descriptor::ThirdPartyHosted(tree) => (5, 0, Ok(lent(tree))),
            Descriptor::Unknown(number) => (number.number(), 0, Ok(null())),
        }
    }

    /// The struct that the descriptor is written as, as a list holds it.
    pub(crate) fn body(&self, alloc: Global) -> Result<DraftBody<'_>, AllocError>
        ensures made { IfOk result (λ b. draft_body_of b ≡ body_written (descriptor_written self.now)) }
        ensures held { IfOk result (λ b. IsDescriptor self.now) }
    {
        let (number, id, pointer) = self.parts(alloc);
        let word = u16_part(Descriptor::WHICH, number) + u32_part(Descriptor::ID, id);
        body_of(alloc, &[word], pointer?)
    }

    /// The struct that the descriptor is written as.
    pub(crate) fn draft(&self, alloc: Global) -> Result<Draft<'_>, AllocError>
        ensures made { IfOk result (λ d. draft_of d ≡ descriptor_written self.now) }
        ensures held { IfOk result (λ d. IsDescriptor self.now) }
    {
        Ok(Draft::Struct(self.body(alloc)?))
    }
}
