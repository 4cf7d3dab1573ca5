//! Reading returns.

ghost use Rattle.std.specs.Prelude.{◌≡◌, IfOk};
ghost use Rattle.cp_messages.specs.Fields.{IsStructField};
ghost use Rattle.cp_rpc.specs.Answers.{Checks, Gives};
ghost use Rattle.cp_messages.specs.Denoted.{returned_denoted, return_denoted};
ghost use Rattle.cp_messages.specs.Faults.{return_faults};
ghost use Rattle.cp_rpc.specs.Viewed.{viewed_returned, viewed_return};

use crate::exception::ExceptionView;
use crate::field::struct_field;
use crate::payload::PayloadView;
use crate::source::Source;
use cp_fields::{bit_at, u16_at, u32_at};
use cp_messages::{Field, Return, Returned, SchemaFault};
use cp_tree::UnknownEnumerant;
use std::alloc::{AllocError, Global};

/// What was returned, read in place.
#[derive(Drop)]
pub enum ReturnedView<S: Source> {
    Results(PayloadView<S>),
    Exception(ExceptionView<S>),
    Canceled,
    ResultsSentElsewhere,
    TakeFromOtherQuestion(u32),
    AcceptFromThirdParty(S),
    Unknown(UnknownEnumerant<5>),
}

/// A return that is read in place.
#[derive(Drop)]
pub struct ReturnView<S: Source> {
    pub answer_id: u32,
    pub release_param_caps: bool,
    pub returned: ReturnedView<S>,
}

impl<S: Source> ReturnedView<S> {
    /// What a return's struct says was returned.
    #[inline(always)]
    fn of(t: &S) -> Result<ReturnedView<S>, SchemaFault>
        requires { IsStructField (S.seen t.now) }
        ensures { Gives (viewed_returned S.seen) (returned_denoted (S.seen t.now)) (return_faults (S.seen t.now)) result }
    {
        let words = t.data();
        match u16_at(words, Return::WHICH) {
            0 => {
                let member = struct_field(t, Return::MEMBER, Field::ReturnResults)?;
                Ok(ReturnedView::Results(PayloadView::of(&member)?))
            }
            1 => {
                let member = struct_field(t, Return::MEMBER, Field::ReturnException)?;
                Ok(ReturnedView::Exception(ExceptionView::of(&member)?))
            }
            2 => Ok(ReturnedView::Canceled),
            3 => Ok(ReturnedView::ResultsSentElsewhere),
            4 => {
                let question = u32_at(words, Return::TAKE_FROM_OTHER_QUESTION);
                Ok(ReturnedView::TakeFromOtherQuestion(question))
            }
            5 => Ok(ReturnedView::AcceptFromThirdParty(t.pointer(Return::MEMBER))),
            number => Ok(ReturnedView::Unknown(UnknownEnumerant::of(number))),
        }
    }

    /// What was returned, owned.
    pub fn returned(&self, alloc: Global) -> Result<Returned, AllocError>
        ensures { IfOk result (λ r. r ≡ viewed_returned S.seen self.now) }
    {
        Ok(match self {
            ReturnedView::Results(payload) => Returned::Results(payload.payload(alloc)?),
            ReturnedView::Exception(exception) => Returned::Exception(exception.exception(alloc)?),
            ReturnedView::Canceled => Returned::Canceled,
            ReturnedView::ResultsSentElsewhere => Returned::ResultsSentElsewhere,
            ReturnedView::TakeFromOtherQuestion(question) => {
                Returned::TakeFromOtherQuestion(*question)
            }
            ReturnedView::AcceptFromThirdParty(tree) => {
                Returned::AcceptFromThirdParty(tree.whole(alloc)?)
            }
            ReturnedView::Unknown(number) => Returned::Unknown(*number),
        })
    }
}

impl<S: Source> ReturnView<S> {
    /// Checks the return that a struct says.
    #[inline(never)]
    pub(crate) fn check(t: &S) -> Result<(), SchemaFault>
        requires { IsStructField (S.seen t.now) }
        ensures { Checks (return_faults (S.seen t.now)) result }
    {
        match u16_at(t.data(), Return::WHICH) {
            0 => PayloadView::check(&struct_field(t, Return::MEMBER, Field::ReturnResults)?),
            1 => ExceptionView::check(&struct_field(t, Return::MEMBER, Field::ReturnException)?),
            _ => Ok(()),
        }
    }

    /// The return that a struct says.
    #[inline(always)]
    pub(crate) fn of(t: &S) -> Result<ReturnView<S>, SchemaFault>
        requires { IsStructField (S.seen t.now) }
        ensures { Gives (viewed_return S.seen) (return_denoted (S.seen t.now)) (return_faults (S.seen t.now)) result }
    {
        let words = t.data();
        Ok(ReturnView {
            answer_id: u32_at(words, Return::ANSWER_ID),
            release_param_caps: !bit_at(words, Return::RELEASE_PARAM_CAPS),
            returned: ReturnedView::of(t)?,
        })
    }

    /// The return, owned.
    pub fn owned(&self, alloc: Global) -> Result<Return, AllocError>
        ensures { IfOk result (λ r. r ≡ viewed_return S.seen self.now) }
    {
        Ok(Return {
            answer_id: self.answer_id,
            release_param_caps: self.release_param_caps,
            returned: self.returned.returned(alloc)?,
        })
    }
}
