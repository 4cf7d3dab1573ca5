//! Returns.

ghost use Rattle.std.specs.Prelude.{◌≡◌, true, IfOk};
ghost use Rattle.cp_messages.specs.Fitting.{returned_fits};
ghost use Rattle.cp_messages.specs.Representable.{IsReturned, IsReturn};
ghost use Rattle.cp_messages.specs.Written.{returned_number, returned_question, returned_pointer, return_written};
ghost use Rattle.cp_tree.specs.DraftOf.{draft_of};

use crate::data::{bit_part, u16_part, u32_part};
use crate::draft::{lent, null, struct_of};
use crate::exception::Exception;
use crate::payload::Payload;
use cp_tree::{Draft, UnknownEnumerant, Whole};
use std::alloc::{AllocError, Global};

/// The union of `struct Return` of rpc.capnp.
#[derive(Drop)]
pub enum Returned {
    /// `results @2 :Payload`.
    Results(Payload),
    /// `exception @3 :Exception`.
    Exception(Exception),
    /// `canceled @4 :Void`.
    Canceled,
    /// `resultsSentElsewhere @5 :Void`.
    ResultsSentElsewhere,
    /// `takeFromOtherQuestion @6 :QuestionId`.
    TakeFromOtherQuestion(u32),
    /// `acceptFromThirdParty @7 :ThirdPartyCapId`, not looked into.
    AcceptFromThirdParty(Whole),
    /// Any other number.
    Unknown(UnknownEnumerant<5>),
}

/// `struct Return` of rpc.capnp.
#[derive(Drop)]
pub struct Return {
    /// `answerId @0 :AnswerId`.
    pub answer_id: u32,
    /// `releaseParamCaps @1 :Bool = true`.
    pub release_param_caps: bool,
    /// Its union.
    pub returned: Returned,
}

impl Return {
    /// `answerId @0 :AnswerId`, u32.
    pub const ANSWER_ID: u32 = 0;
    /// `releaseParamCaps @1 :Bool = true`, a bit whose default is true.
    pub const RELEASE_PARAM_CAPS: u32 = 32;
    /// The union's number, u16.
    pub const WHICH: u32 = 3;
    /// `takeFromOtherQuestion @6 :QuestionId`, u32.
    pub const TAKE_FROM_OTHER_QUESTION: u32 = 2;
    /// `results @2 :Payload`, `exception @3 :Exception` and `acceptFromThirdParty @7`, a pointer.
    pub const MEMBER: u32 = 0;

    /// An equal return.
    pub fn copy(&self, alloc: Global) -> Result<Return, AllocError>
        ensures { IfOk result (λ r. r ≡ self.now) }
    {
        Ok(Return {
            answer_id: self.answer_id,
            release_param_caps: self.release_param_caps,
            returned: self.returned.copy(alloc)?,
        })
    }

    /// The struct that the return is written as.
    pub(crate) fn draft(&self, alloc: Global) -> Result<Draft<'_>, AllocError>
        requires { returned_fits self.now.returned ≡ true }
        ensures made { IfOk result (λ d. draft_of d ≡ return_written self.now) }
        ensures held { IfOk result (λ d. IsReturn self.now) }
    {
        let (number, question, pointer) = self.returned.parts(alloc);
        // The flag's default is true, so its bit is stored inverted.
        let first = u32_part(Return::ANSWER_ID, self.answer_id)
            + bit_part(Return::RELEASE_PARAM_CAPS, !self.release_param_caps)
            + u16_part(Return::WHICH, number);
        let second = u32_part(Return::TAKE_FROM_OTHER_QUESTION, question);
        struct_of(alloc, &[first, second], pointer?)
    }
}

impl Returned {
    /// An equal value.
    pub fn copy(&self, alloc: Global) -> Result<Returned, AllocError>
        ensures { IfOk result (λ r. r ≡ self.now) }
    {
        Ok(match self {
            Returned::Results(payload) => Returned::Results(payload.copy(alloc)?),
            Returned::Exception(exception) => Returned::Exception(exception.copy(alloc)?),
            Returned::Canceled => Returned::Canceled,
            Returned::ResultsSentElsewhere => Returned::ResultsSentElsewhere,
            Returned::TakeFromOtherQuestion(question) => Returned::TakeFromOtherQuestion(*question),
            Returned::AcceptFromThirdParty(tree) => Returned::AcceptFromThirdParty(tree.copy(
                alloc,
            )?),
            Returned::Unknown(number) => Returned::Unknown(*number),
        })
    }

    /// Whether each list of what its member is written as is short enough.
    pub(crate) fn fits(&self) -> bool
        ensures { result ≡ returned_fits self.now }
    {
        match self {
            Returned::Results(payload) => payload.fits(),
            Returned::Exception(exception) => exception.fits(),
            _ => true,
        }
    }

    /// Its member's number, the number that the member carries, and what its pointer stands for.
    fn parts(&self, alloc: Global) -> (u16, u32, Result<Draft<'_>, AllocError>)
        requires { returned_fits self.now ≡ true }
        ensures number { result.0 ≡ returned_number self.now }
        ensures question { result.1 ≡ returned_question self.now }
        ensures pointer { IfOk result.2 (λ d. draft_of d ≡ returned_pointer self.now) }
        ensures held { IfOk result.2 (λ d. IsReturned self.now) }
    {
        match self {
            Returned::Results(payload) => (0, 0, payload.draft(alloc)),
            Returned::Exception(exception) => (1, 0, exception.draft(alloc)),
            Returned::Canceled => (2, 0, Ok(null())),
            Returned::ResultsSentElsewhere => (3, 0, Ok(null())),
            Returned::TakeFromOtherQuestion(question) => (4, *question, Ok(null())),
            Returned::AcceptFromThirdParty(tree) => (5, 0, Ok(lent(tree))),
            Returned::Unknown(number) => (number.number(), 0, Ok(null())),
        }
    }
}
