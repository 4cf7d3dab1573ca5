//! What a guard knows of a connection's questions.

ghost use Rattle.std.specs.Prelude.{◌≡◌, IfOk, IfNone};
ghost use Rattle.cp_rpc.specs.Viewed.{viewed, viewed_call, viewed_return, viewed_resolve, viewed_target};
ghost use Rattle.cp_relay.specs.State.{limit_cause, call_cause, may_go, CountsOneMore, with_one_more};
ghost use Rattle.cp_relay.specs.Judged.{ruled, ruled_back, call_judged, bootstrap_judged, finish_judged, return_judged, resolve_judged, target_judged, refused_so, passed_call, returning, is_elsewhere};

use crate::answer::{answer_of, exception_of};
use crate::caps::{descriptor_cause, has_broken, payload_without, target_cause};
use crate::references::References;
use crate::rules::{MethodId, Rules};
use crate::ruling::{Breach, Cause, Ruling};
use cp_reading::View;
use cp_rpc::{
    Call, CallView, Message, MessageIn, MessageView, Resolution, ResolutionView, Resolve,
    ResolveView, Return, ReturnView, Returned, ReturnedView, SendResultsToView, TargetView,
};
use cp_tables::Entries;
use std::alloc::{AllocError, Global};

/// The most questions that were refused and aren't finished.
const MOST_UNFINISHED: u32 = 65_536;

/// What a guard knows of a connection's questions.
#[derive(Drop)]
pub(crate) struct GuardState {
    /// Why questions of the caller were refused, by their numbers, up to their Finish.
    pub refused: Entries<Cause>,
    /// How many these are.
    pub unfinished: u32,
    /// How many questions went and aren't answered.
    pub under_way: u32,
    /// How many went in this second.
    pub opened: u32,
    /// What the ends gave each other, if a rule is on what calls gave.
    pub references: References,
}

impl GuardState {
    /// What becomes of a message of the caller.
    pub(crate) fn judge(
        &mut self,
        alloc: Global,
        rules: &Rules,
        message: &MessageView,
    ) -> Result<Ruling, AllocError>
        ensures { IfOk result (λ v. record { ruling = v; state = self.new } ≡ ruled rules.now self.old (viewed message.now)) }
    {
        match message {
            MessageIn::Call(call) => self.judge_call(alloc, rules, call),
            MessageIn::Bootstrap(bootstrap) => {
                self.judge_bootstrap(alloc, rules, bootstrap.question_id)
            }
            MessageIn::Finish(finish) => Ok(self.judge_finish(finish.question_id)),
            MessageIn::Return(returned) => self.judge_return(alloc, rules, returned),
            MessageIn::Resolve(resolve) => self.judge_resolve(alloc, rules, resolve),
            MessageIn::Disembargo(disembargo) => Ok(self.judge_target(&disembargo.target)),
            MessageIn::Unimplemented(_) => Ok(Ruling::Passes),
            MessageIn::Abort(_) => Ok(Ruling::Passes),
            MessageIn::Release(_) => Ok(Ruling::Passes),
            MessageIn::Other { .. } => Ok(Ruling::Passes),
        }
    }

    /// What becomes of a message of the callee.
    pub(crate) fn judge_back(&mut self, message: &MessageView) -> Ruling
        ensures { record { ruling = result; state = self.new } ≡ ruled_back self.old (viewed message.now) }
    {
        match message {
            MessageIn::Return(returned) => {
                if self.refused.contains(returned.answer_id) {
                    return Ruling::Closes(Breach::Answered(returned.answer_id));
                }
                self.under_way = self.under_way.saturating_sub(1);
                Ruling::Passes
            }
            _ => Ruling::Passes,
        }
    }

    /// A call: it is refused, or it goes.
    fn judge_call(
        &mut self,
        alloc: Global,
        rules: &Rules,
        call: &CallView<View>,
    ) -> Result<Ruling, AllocError>
        ensures { IfOk result (λ v. record { ruling = v; state = self.new } ≡ call_judged rules.now self.old (viewed_call (λ t. t) call.now)) }
    {
        let question = call.question_id;
        if self.refused.contains(question) {
            return Ok(Ruling::Closes(Breach::Reused(question)));
        }
        if let Some(cause) = self.call_cause(rules, call) {
            return self.refuse(alloc, rules, question, is_elsewhere(call), cause);
        }
        let ruling = self.pass_call(alloc, call)?;
        self.open();
        Ok(ruling)
    }

    /// A Bootstrap: it is refused, or it goes.
    fn judge_bootstrap(
        &mut self,
        alloc: Global,
        rules: &Rules,
        question: u32,
    ) -> Result<Ruling, AllocError>
        ensures { IfOk result (λ v. record { ruling = v; state = self.new } ≡ bootstrap_judged rules.now self.old question) }
    {
        if self.refused.contains(question) {
            return Ok(Ruling::Closes(Breach::Reused(question)));
        }
        if let Some(cause) = self.limit_cause(rules) {
            return self.refuse(alloc, rules, question, false, cause);
        }
        self.open();
        Ok(Ruling::Passes)
    }

    /// A Finish: that of a question that was refused doesn't go.
    fn judge_finish(&mut self, question: u32) -> Ruling
        ensures { record { ruling = result; state = self.new } ≡ finish_judged self.old question }
    {
        if self.refused.contains(question) {
            let _ = self.refused.remove(question);
            self.unfinished = self.unfinished.saturating_sub(1);
            Ruling::Drops
        } else {
            Ruling::Passes
        }
    }

    /// A Return of the caller's, to a question of the callee.
    fn judge_return(
        &self,
        alloc: Global,
        rules: &Rules,
        returned: &ReturnView<View>,
    ) -> Result<Ruling, AllocError>
        ensures { IfOk result (λ v. v ≡ return_judged rules.now self.now.refused (viewed_return (λ t. t) returned.now)) }
    {
        match &returned.returned {
            ReturnedView::Results(payload) => {
                if !has_broken(&self.refused, &payload.cap_table) {
                    return Ok(Ruling::Passes);
                }
                let payload = payload_without(alloc, &self.refused, payload)?;
                Ok(returning(returned, Returned::Results(payload)))
            }
            ReturnedView::TakeFromOtherQuestion(question) => {
                let Some(cause) = self.refused.get(*question) else {
                    return Ok(Ruling::Passes);
                };
                let exception = exception_of(alloc, rules, *cause)?;
                Ok(returning(returned, Returned::Exception(exception)))
            }
            ReturnedView::Exception(_) => Ok(Ruling::Passes),
            ReturnedView::Canceled => Ok(Ruling::Passes),
            ReturnedView::ResultsSentElsewhere => Ok(Ruling::Passes),
            ReturnedView::AcceptFromThirdParty(_) => Ok(Ruling::Passes),
            ReturnedView::Unknown(_) => Ok(Ruling::Passes),
        }
    }

    /// A Resolve: a promise that would become a broken capability is broken.
    fn judge_resolve(
        &self,
        alloc: Global,
        rules: &Rules,
        resolve: &ResolveView<View>,
    ) -> Result<Ruling, AllocError>
        ensures { IfOk result (λ v. v ≡ resolve_judged rules.now self.now.refused (viewed_resolve (λ t. t) resolve.now)) }
    {
        let ResolutionView::Cap(descriptor) = &resolve.resolution else {
            return Ok(Ruling::Passes);
        };
        let Some(cause) = descriptor_cause(&self.refused, descriptor) else {
            return Ok(Ruling::Passes);
        };
        Ok(Ruling::Changes(Message::Resolve(Resolve {
            promise_id: resolve.promise_id,
            resolution: Resolution::Exception(exception_of(alloc, rules, cause)?),
        })))
    }

    /// A Disembargo: none goes to a question that was refused.
    fn judge_target(&self, target: &TargetView<View>) -> Ruling
        ensures { result ≡ target_judged self.now.refused (viewed_target (λ t. t) target.now) }
    {
        match target {
            TargetView::PromisedAnswer(answer) => {
                if self.refused.contains(answer.question_id) {
                    Ruling::Closes(Breach::Disembargoed(answer.question_id))
                } else {
                    Ruling::Passes
                }
            }
            TargetView::ImportedCap(_) => Ruling::Passes,
            TargetView::Unknown(_) => Ruling::Passes,
        }
    }

    /// Why a call is refused, if it is.
    fn call_cause(&self, rules: &Rules, call: &CallView<View>) -> Option<Cause>
        ensures cause { result ≡ call_cause rules.now self.now (viewed_call (λ t. t) call.now) }
        ensures few { IfNone result (CountsOneMore self.now) }
    {
        if !self.may_go(rules, call) {
            return Some(Cause::NotAllowed {
                interface: call.interface_id,
                method: call.method_id,
            });
        }
        match target_cause(&self.refused, &call.target) {
            Some(cause) => Some(cause),
            None => self.limit_cause(rules),
        }
    }

    /// Whether the rules allow a call.
    fn may_go(&self, rules: &Rules, call: &CallView<View>) -> bool
        ensures { result ≡ may_go rules.now self.now (viewed_call (λ t. t) call.now) }
    {
        let method = MethodId {
            interface: call.interface_id,
            method: call.method_id,
        };
        if !rules.follows() {
            return rules.may_call(method);
        }
        if target_cause(&self.refused, &call.target).is_some() {
            return true;
        }
        match self.references.callee.marks_of(&call.target) {
            Some(marks) => rules.may_call(method) || rules.is_granted(marks, method),
            None => false,
        }
    }

    /// The limit that one more question would pass, if there is one.
    fn limit_cause(&self, rules: &Rules) -> Option<Cause>
        ensures cause { result ≡ limit_cause rules.now.limits self.now }
        ensures few { IfNone result (CountsOneMore self.now) }
    {
        if self.under_way >= rules.limits.under_way {
            Some(Cause::TooMany)
        } else if self.opened >= rules.limits.a_second {
            Some(Cause::TooFast)
        } else {
            None
        }
    }

    /// A call that goes, with none in the place of each broken capability.
    fn pass_call(&self, alloc: Global, call: &CallView<View>) -> Result<Ruling, AllocError>
        ensures { IfOk result (λ v. v ≡ passed_call self.now.refused (viewed_call (λ t. t) call.now)) }
    {
        if !has_broken(&self.refused, &call.params.cap_table) {
            return Ok(Ruling::Passes);
        }
        Ok(Ruling::Changes(Message::Call(Call {
            question_id: call.question_id,
            method_id: call.method_id,
            send_results_to: call.send_results_to.send_results_to(alloc)?,
            interface_id: call.interface_id,
            target: call.target.target(alloc)?,
            params: payload_without(alloc, &self.refused, &call.params)?,
        })))
    }

    /// Refuses a question, which gets its answer here.
    fn refuse(
        &mut self,
        alloc: Global,
        rules: &Rules,
        question: u32,
        elsewhere: bool,
        cause: Cause,
    ) -> Result<Ruling, AllocError>
        ensures { IfOk result (λ v. record { ruling = v; state = self.new } ≡ refused_so rules.now self.old question elsewhere cause) }
    {
        if rules.strict {
            return Ok(Ruling::Closes(Breach::Refused(cause)));
        }
        // A caller that finishes nothing would have the guard keep all its questions.
        if self.unfinished >= MOST_UNFINISHED {
            return Ok(Ruling::Closes(Breach::Unfinished));
        }
        let answer = answer_of(alloc, rules, question, elsewhere, cause)?;
        self.refused.put(question, cause)?;
        self.unfinished += 1;
        Ok(Ruling::Answers(answer))
    }

    /// Counts a question that goes.
    fn open(&mut self)
        requires { CountsOneMore self.old }
        ensures { self.new ≡ with_one_more self.old }
    {
        self.under_way += 1;
        self.opened += 1;
    }
}

/// The Return with this in place of what it returns.
fn returning(view: &ReturnView<View>, returned: Returned) -> Ruling
    ensures { result ≡ returning (viewed_return (λ t. t) view.now) returned }
{
    Ruling::Changes(Message::Return(Return {
        answer_id: view.answer_id,
        release_param_caps: view.release_param_caps,
        returned,
    }))
}

/// Whether a call asks for its results to be kept for another question.
fn is_elsewhere(call: &CallView<View>) -> bool
    ensures { result ≡ is_elsewhere (viewed_call (λ t. t) call.now).send_results_to }
{
    match call.send_results_to {
        SendResultsToView::Yourself => true,
        SendResultsToView::Caller => false,
        SendResultsToView::ThirdParty(_) => false,
        SendResultsToView::Unknown(_) => false,
    }
}
