//! Reading calls.

ghost use Rattle.std.specs.Prelude.{◌≡◌, IfOk};
ghost use Rattle.cp_messages.specs.Fields.{IsStructField};
ghost use Rattle.cp_rpc.specs.Answers.{Checks, Gives};
ghost use Rattle.cp_messages.specs.Denoted.{send_results_to_denoted, call_denoted};
ghost use Rattle.cp_messages.specs.Faults.{call_faults};
ghost use Rattle.cp_rpc.specs.Viewed.{viewed_send_results_to, viewed_call};

use crate::field::struct_field;
use crate::payload::PayloadView;
use crate::source::Source;
use crate::target::TargetView;
use cp_fields::{u16_at, u32_at, u64_at};
use cp_messages::{Call, Field, SchemaFault, SendResultsTo};
use cp_tree::UnknownEnumerant;
use std::alloc::{AllocError, Global};

/// Where results are sent to, read in place.
#[derive(Drop)]
pub enum SendResultsToView<S: Source> {
    Caller,
    Yourself,
    ThirdParty(S),
    Unknown(UnknownEnumerant<2>),
}

/// A call that is read in place.
#[derive(Drop)]
pub struct CallView<S: Source> {
    pub question_id: u32,
    pub method_id: u16,
    pub send_results_to: SendResultsToView<S>,
    pub interface_id: u64,
    pub target: TargetView<S>,
    pub params: PayloadView<S>,
}

impl<S: Source> SendResultsToView<S> {
    /// Where a call's struct says that results are sent to.
    fn of(t: &S) -> SendResultsToView<S>
        requires { IsStructField (S.seen t.now) }
        ensures { viewed_send_results_to S.seen result ≡ send_results_to_denoted (S.seen t.now) }
    {
        match u16_at(t.data(), Call::SEND_RESULTS_TO) {
            0 => SendResultsToView::Caller,
            1 => SendResultsToView::Yourself,
            2 => SendResultsToView::ThirdParty(t.pointer(Call::THIRD_PARTY)),
            number => SendResultsToView::Unknown(UnknownEnumerant::of(number)),
        }
    }

    /// The same, owned.
    pub fn send_results_to(&self, alloc: Global) -> Result<SendResultsTo, AllocError>
        ensures { IfOk result (λ s. s ≡ viewed_send_results_to S.seen self.now) }
    {
        Ok(match self {
            SendResultsToView::Caller => SendResultsTo::Caller,
            SendResultsToView::Yourself => SendResultsTo::Yourself,
            SendResultsToView::ThirdParty(tree) => SendResultsTo::ThirdParty(tree.whole(alloc)?),
            SendResultsToView::Unknown(number) => SendResultsTo::Unknown(*number),
        })
    }
}

impl<S: Source> CallView<S> {
    /// Checks the call that a struct says.
    #[inline(never)]
    pub(crate) fn check(t: &S) -> Result<(), SchemaFault>
        requires { IsStructField (S.seen t.now) }
        ensures { Checks (call_faults (S.seen t.now)) result }
    {
        // In the order of the struct's fields, which decides which fault is reported.
        TargetView::check(&struct_field(t, Call::TARGET, Field::CallTarget)?)?;
        PayloadView::check(&struct_field(t, Call::PARAMS, Field::CallParams)?)
    }

    /// The call that a struct says.
    #[inline(always)]
    pub(crate) fn of(t: &S) -> Result<CallView<S>, SchemaFault>
        requires { IsStructField (S.seen t.now) }
        ensures { Gives (viewed_call S.seen) (call_denoted (S.seen t.now)) (call_faults (S.seen t.now)) result }
    {
        let target = TargetView::of(&struct_field(t, Call::TARGET, Field::CallTarget)?)?;
        let params = PayloadView::of(&struct_field(t, Call::PARAMS, Field::CallParams)?)?;
        let words = t.data();
        Ok(CallView {
            question_id: u32_at(words, Call::QUESTION_ID),
            method_id: u16_at(words, Call::METHOD_ID),
            send_results_to: SendResultsToView::of(t),
            interface_id: u64_at(words, Call::INTERFACE_ID),
            target,
            params,
        })
    }

    /// The call, owned.
    pub fn call(&self, alloc: Global) -> Result<Call, AllocError>
        ensures { IfOk result (λ c. c ≡ viewed_call S.seen self.now) }
    {
        Ok(Call {
            question_id: self.question_id,
            method_id: self.method_id,
            send_results_to: self.send_results_to.send_results_to(alloc)?,
            interface_id: self.interface_id,
            target: self.target.target(alloc)?,
            params: self.params.payload(alloc)?,
        })
    }
}
