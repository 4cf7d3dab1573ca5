//! What comes of the peer's messages.

ghost use Rattle.std.specs.Prelude.{◌≡◌, ◌&&◌, ◌∷◌, IfOk, OnOk};
ghost use Rattle.std.specs.Option.{option_map};
ghost use Rattle.std.specs.FinMap.{get};
ghost use Rattle.cp_rpc.specs.Viewed.{viewed, viewed_call, viewed_return};
ghost use Rattle.cp_tail_calls.specs.declared.forwarding.ForwardedMessage.TheVariants.{ToPeer};
ghost use Rattle.cp_tail_calls.specs.Receiving.{finish_of, finish_taken, given, is_due, is_to_sender, is_untaken, let_go, receive_call, receive_finish, receive_return, return_of_none, return_to, sent_elsewhere, taken, to_caller, with_owed};

use crate::behind::OrdinaryVat;
use crate::forwarding::ForwardedMessage;
use crate::progress::{Progress, Taker};
use crate::seen::seen_from_here;
use crate::tail_calls::TailCalls;
use cp_messages::{Finish, Message, Return, Returned};
use cp_reading::View;
use cp_rpc::{CallView, MessageIn, MessageView, ReturnView, ReturnedView, SendResultsToView};
use cp_tables::Stage;
use std::alloc::AllocError;

/// A number that no question has: a vat takes the lowest that are free, and has at most 65,536 questions.
const NO_QUESTION: u32 = 4_294_967_295;

impl TailCalls {
    /// A call with results to its sender becomes one with results to its caller.
    pub(crate) fn receive_call<'a, V: OrdinaryVat>(
        &mut self,
        vat: &V,
        call: CallView<View<'a>>,
    ) -> Result<CallView<View<'a>>, AllocError>
        ensures { IfOk result (λ c. receive_call (V.acts_on vat.now) self.old (viewed_call (λ t. t) call.entry) ≡ (viewed_call (λ t. t) c, self.new)) }
    {
        if !is_tail_call(vat, &call) {
            return Ok(call);
        }
        let call = to_caller(call);
        if !self.calls.contains(call.question_id) {
            self.calls.put(call.question_id, Progress::Untaken)?;
        }
        Ok(call)
    }

    /// A question takes the results of a call, or any other Return.
    pub(crate) fn receive_return<'a, V: OrdinaryVat>(
        &mut self,
        vat: &V,
        message: ReturnView<View<'a>>,
    ) -> Result<Option<MessageView<'a>>, AllocError>
        ensures { IfOk result (λ on. receive_return (V.stage vat.now) self.old (viewed_return (λ t. t) message.entry) ≡ (option_map viewed on, self.new)) }
    {
        if self.takers.contains(message.answer_id) {
            return Ok(Some(MessageIn::Return(return_of_none())));
        }
        let ReturnedView::TakeFromOtherQuestion(call) = message.returned else {
            return Ok(Some(MessageIn::Return(message)));
        };
        if !is_due(vat.stage_of(message.answer_id)) || !self.is_untaken(call) {
            return Ok(Some(MessageIn::Return(message)));
        }
        let taker = Taker {
            question: message.answer_id,
            release_param_caps: message.release_param_caps,
            is_finished: false,
        };
        self.take(call, taker)?;
        Ok(None)
    }

    /// Whether no question took the results of a call with results to its sender.
    fn is_untaken(&self, call: u32) -> bool
        ensures { result ≡ is_untaken (get self.now.calls call) }
    {
        matches!(self.calls.get(call), Some(Progress::Untaken))
    }

    /// A question takes the results of a call: they are there, or it gets them once they are.
    fn take(&mut self, call: u32, taker: Taker) -> Result<(), AllocError>
        ensures { OnOk result (self.new ≡ taken self.old call taker (get self.old.results call)) }
    {
        if !self.results.contains(call) {
            self.calls.put(call, Progress::Taken(taker))?;
            return self.takers.put(taker.question, call);
        }
        let Some(message) = self.results.remove(call) else {
            unreachable!()
        };
        match self.calls.put(call, Progress::Given) {
            Ok(()) => self.give_kept(call, taker, message),
            Err(fault) => {
                drop(message);
                Err(fault)
            }
        }
    }

    /// Results that were kept are given: the peer gets the Return of the call, and the vat that of the question.
    fn give_kept(&mut self, call: u32, taker: Taker, message: Return) -> Result<(), AllocError>
        ensures { OnOk result (self.new ≡ with_owed self.old (ToPeer (sent_elsewhere call message.release_param_caps) ∷ given call taker message.returned)) }
    {
        let Return {
            release_param_caps,
            returned,
            ..
        } = message;
        let elsewhere = sent_elsewhere(call, release_param_caps);
        match self.owe(ForwardedMessage::ToPeer(elsewhere)) {
            Ok(()) => self.give(call, taker, returned),
            Err(fault) => {
                drop(returned);
                Err(fault)
            }
        }
    }

    /// The vat gets results as the Return of the question that takes them, and then the Finish of their call, if that was finished.
    pub(crate) fn give(
        &mut self,
        call: u32,
        taker: Taker,
        returned: Returned,
    ) -> Result<(), AllocError>
        ensures { OnOk result (self.new ≡ with_owed self.old (given call taker returned)) }
    {
        self.owe(ForwardedMessage::ToVat(return_to(taker, returned)))?;
        if taker.is_finished {
            self.owe(ForwardedMessage::ToVat(Message::Finish(finish_of(call))))?;
        }
        Ok(())
    }

    /// A Finish of a call with results to its sender, or any other.
    pub(crate) fn receive_finish(&mut self, finish: Finish) -> Result<Option<Finish>, AllocError>
        ensures { IfOk result (λ on. receive_finish self.old finish ≡ (on, self.new)) }
    {
        let call = finish.question_id;
        match self.calls.get(call).copied() {
            Some(Progress::Untaken) => {
                self.finish_untaken(call)?;
                Ok(Some(finish_of(call)))
            }
            Some(Progress::Taken(taker)) => self.finish_taken(finish, taker),
            Some(Progress::Given) => {
                let _ = self.calls.remove(call);
                Ok(Some(finish_of(call)))
            }
            Some(Progress::GivenUp) | None => Ok(Some(finish)),
        }
    }

    /// A call is finished whose results no question took: they are let go, or won't be kept.
    fn finish_untaken(&mut self, call: u32) -> Result<(), AllocError>
        ensures { OnOk result (self.new ≡ let_go self.old call (get self.old.results call)) }
    {
        let Some(message) = self.results.get(call) else {
            return self.calls.put(call, Progress::GivenUp);
        };
        let release = message.release_param_caps;
        drop(self.results.remove(call));
        let _ = self.calls.remove(call);
        self.owe(ForwardedMessage::ToPeer(sent_elsewhere(call, release)))
    }

    /// A call is finished before it has the results that a question takes: the vat gets that after them. A second Finish is a fault,
    /// which the vat finds when it gets both.
    fn finish_taken(&mut self, finish: Finish, taker: Taker) -> Result<Option<Finish>, AllocError>
        ensures { IfOk result (λ on. finish_taken self.old finish taker ≡ (on, self.new)) }
    {
        let call = finish.question_id;
        if taker.is_finished {
            self.owe(ForwardedMessage::ToVat(Message::Finish(finish_of(call))))?;
            return Ok(Some(finish));
        }
        let finished = Taker {
            question: taker.question,
            release_param_caps: taker.release_param_caps,
            is_finished: true,
        };
        self.calls.put(call, Progress::Taken(finished))?;
        Ok(None)
    }
}

/// Whether results of a call go to its sender, and the vat acts on it but for that.
fn is_tail_call<V: OrdinaryVat>(vat: &V, call: &CallView<View>) -> bool
    ensures { result ≡ (is_to_sender (viewed_call (λ t. t) call.now).send_results_to && V.acts_on vat.now (viewed_call (λ t. t) call.now)) }
{
    matches!(&call.send_results_to, SendResultsToView::Yourself) && vat.acts_on(call)
}

/// The call with results to its caller.
fn to_caller<'a>(call: CallView<View<'a>>) -> CallView<View<'a>>
    ensures { viewed_call (λ t. t) result ≡ to_caller (viewed_call (λ t. t) call.entry) }
{
    CallView {
        question_id: call.question_id,
        method_id: call.method_id,
        send_results_to: SendResultsToView::Caller,
        interface_id: call.interface_id,
        target: call.target,
        params: call.params,
    }
}

/// Whether a question's Return is due.
fn is_due(stage: Option<Stage>) -> bool
    ensures { result ≡ is_due stage }
{
    matches!(stage, Some(Stage::Open) | Some(Stage::Finished))
}

/// What the vat takes for a second Return of a question.
fn return_of_none<'a>() -> ReturnView<View<'a>>
    ensures { viewed_return (λ t. t) result ≡ return_of_none }
{
    ReturnView {
        answer_id: NO_QUESTION,
        release_param_caps: false,
        returned: ReturnedView::Canceled,
    }
}

/// The Return of a call whose results were sent elsewhere.
pub(crate) fn sent_elsewhere(call: u32, release_param_caps: bool) -> Message
    ensures { result ≡ sent_elsewhere call release_param_caps }
{
    Message::Return(Return {
        answer_id: call,
        release_param_caps,
        returned: Returned::ResultsSentElsewhere,
    })
}

/// The Return of a question, with the results that the vat gave a call of the peer's.
fn return_to(taker: Taker, returned: Returned) -> Message
    ensures { result ≡ return_to taker returned }
{
    Message::Return(Return {
        answer_id: taker.question,
        release_param_caps: taker.release_param_caps,
        returned: seen_from_here(returned),
    })
}

/// The Finish of a call. The peer never got the exports that its results named, so the vat lowers them.
fn finish_of(call: u32) -> Finish
    ensures { result ≡ finish_of call }
{
    Finish {
        question_id: call,
        release_result_caps: true,
    }
}
