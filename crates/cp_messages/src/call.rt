//! Calls.

ghost use Rattle.std.specs.Prelude.{◌≡◌, IfOk};
ghost use Rattle.cp_messages.specs.Fitting.{call_fits};
ghost use Rattle.cp_messages.specs.Representable.{IsSendResultsTo, IsCall};
ghost use Rattle.cp_messages.specs.Written.{send_results_to_number, third_party_written, call_written};
ghost use Rattle.cp_tree.specs.DraftOf.{draft_of};

use crate::data::{u16_part, u32_part, u64_part};
use crate::draft::{lent, null, triple_of};
use crate::payload::Payload;
use crate::target::Target;
use cp_tree::{Draft, UnknownEnumerant, Whole};
use std::alloc::{AllocError, Global};

/// `sendResultsTo` of `struct Call` of rpc.capnp.
#[derive(Drop)]
pub enum SendResultsTo {
    /// `caller @5 :Void`.
    Caller,
    /// `yourself @6 :Void`.
    Yourself,
    /// `thirdParty @7 :RecipientId`, not looked into.
    ThirdParty(Whole),
    /// Any other number.
    Unknown(UnknownEnumerant<2>),
}

/// `struct Call` of rpc.capnp.
#[derive(Drop)]
pub struct Call {
    /// `questionId @0 :QuestionId`.
    pub question_id: u32,
    /// `methodId @3 :UInt16`.
    pub method_id: u16,
    /// `sendResultsTo :union`.
    pub send_results_to: SendResultsTo,
    /// `interfaceId @2 :UInt64`.
    pub interface_id: u64,
    /// `target @1 :MessageTarget`.
    pub target: Target,
    /// `params @4 :Payload`.
    pub params: Payload,
}

impl Call {
    /// `questionId @0 :QuestionId`, u32.
    pub const QUESTION_ID: u32 = 0;
    /// `methodId @3 :UInt16`.
    pub const METHOD_ID: u32 = 2;
    /// The number of `sendResultsTo :union`, u16.
    pub const SEND_RESULTS_TO: u32 = 3;
    /// `interfaceId @2 :UInt64`.
    pub const INTERFACE_ID: u32 = 1;
    /// `target @1 :MessageTarget`, a pointer.
    pub const TARGET: u32 = 0;
    /// `params @4 :Payload`, a pointer.
    pub const PARAMS: u32 = 1;
    /// `thirdParty @7 :RecipientId`, a pointer.
    pub const THIRD_PARTY: u32 = 2;

    /// An equal call.
    pub fn copy(&self, alloc: Global) -> Result<Call, AllocError>
        ensures { IfOk result (λ c. c ≡ self.now) }
    {
        Ok(Call {
            question_id: self.question_id,
            method_id: self.method_id,
            send_results_to: self.send_results_to.copy(alloc)?,
            interface_id: self.interface_id,
            target: self.target.copy(alloc)?,
            params: self.params.copy(alloc)?,
        })
    }

    /// Whether each list of the struct that the call is written as is short enough.
    pub(crate) fn fits(&self) -> bool
        ensures { result ≡ call_fits self.now }
    {
        self.target.fits() && self.params.fits()
    }

    /// The struct that the call is written as.
    pub(crate) fn draft(&self, alloc: Global) -> Result<Draft<'_>, AllocError>
        ensures made { IfOk result (λ d. draft_of d ≡ call_written self.now) }
        ensures held { IfOk result (λ d. IsCall self.now) }
    {
        let target = self.target.draft(alloc)?;
        let params = self.params.draft(alloc)?;
        let (number, third_party) = self.send_results_to.parts();
        let first = u32_part(Call::QUESTION_ID, self.question_id)
            + u16_part(Call::METHOD_ID, self.method_id)
            + u16_part(Call::SEND_RESULTS_TO, number);
        // The third word has later fields, of which no flag is set.
        let words = [first, u64_part(self.interface_id), 0];
        triple_of(alloc, &words, target, params, third_party)
    }
}

impl SendResultsTo {
    /// An equal value.
    pub fn copy(&self, alloc: Global) -> Result<SendResultsTo, AllocError>
        ensures { IfOk result (λ s. s ≡ self.now) }
    {
        Ok(match self {
            SendResultsTo::Caller => SendResultsTo::Caller,
            SendResultsTo::Yourself => SendResultsTo::Yourself,
            SendResultsTo::ThirdParty(tree) => SendResultsTo::ThirdParty(tree.copy(alloc)?),
            SendResultsTo::Unknown(number) => SendResultsTo::Unknown(*number),
        })
    }

    /// Its member's number, and what its pointer stands for.
    fn parts(&self) -> (u16, Draft<'_>)
        ensures number { result.0 ≡ send_results_to_number self.now }
        ensures pointer { draft_of result.1 ≡ third_party_written self.now }
        ensures held { IsSendResultsTo self.now }
    {
        match self {
            SendResultsTo::Caller => (0, null()),
            SendResultsTo::Yourself => (1, null()),
            SendResultsTo::ThirdParty(tree) => (2, lent(tree)),
            SendResultsTo::Unknown(number) => (number.number(), null()),
        }
    }
}
