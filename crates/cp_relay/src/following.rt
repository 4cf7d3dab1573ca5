//! What is kept of messages that go, where rules are on what calls gave.

ghost use Rattle.std.specs.Prelude.{◌≡◌, IfOk, OnOk};
ghost use Rattle.cp_rpc.specs.Viewed.{viewed, viewed_call, viewed_return, viewed_resolve};
ghost use Rattle.cp_relay.specs.References.{finished, finished_stage};
ghost use Rattle.cp_relay.specs.Followed.{finding, sending, between, followed, followed_from, asked, gained, return_followed, results_followed, resolve_followed};

use crate::numbers::{Numbers, resolved_number};
use crate::references::{Question, QuestionStage, References, Side, lower, raise, raise_all};
use crate::rules::{Grant, MethodId, Rules, marks_after};
use crate::ruling::Breach;
use cp_reading::View;
use cp_rpc::{CallView, Finish, MessageIn, MessageView, ResolveView, ReturnView};
use std::alloc::{AllocError, Global};

impl References {
    /// A message of the callee goes, or of the caller. Says why the connection is closed, if it is.
    pub(crate) fn follow(
        &mut self,
        alloc: Global,
        rules: &Rules,
        comes_back: bool,
        message: &MessageView,
    ) -> Result<Option<Breach>, AllocError>
        ensures { IfOk result (λ b. finding b self.new ≡ followed_from comes_back rules.now self.old (viewed message.now)) }
    {
        if comes_back {
            // The rules are on the caller's calls alone.
            return follow(&mut self.callee, &mut self.caller, alloc, &[], message);
        }
        let grants = rules.grants.as_slice();
        follow(&mut self.caller, &mut self.callee, alloc, grants, message)
    }
}

impl Side {
    /// The marks of what a call to this end gives: those of the rules after its method, and those of what it goes to.
    fn gained(&self, grants: &[Grant], call: &CallView<View>) -> u64
        ensures { result ≡ gained grants.now self.now (viewed_call (λ t. t) call.now) }
    {
        let method = MethodId {
            interface: call.interface_id,
            method: call.method_id,
        };
        let after = marks_after(grants, method);
        match self.marks_of(&call.target) {
            Some(marks) => after | marks,
            None => after,
        }
    }

    /// A Finish of a question to this end goes.
    fn finish(&mut self, alloc: Global, finish: &Finish) -> Result<(), AllocError>
        ensures { OnOk result (self.new ≡ finished self.old finish.now) }
    {
        let id = finish.question_id;
        let Some(question) = self.questions.get(id) else {
            return Ok(());
        };
        let (stage, marks, release) = (question.stage, question.marks, finish.release_result_caps);
        let next = match stage {
            QuestionStage::Returned => {
                self.close(id, release);
                return Ok(());
            }
            QuestionStage::Open => finished_stage(release),
            // A second Finish has no meaning. What the results give isn't callable then.
            QuestionStage::Finished => QuestionStage::Released,
            QuestionStage::Released => QuestionStage::Released,
        };
        self.note(alloc, id, marks, next)
    }

    /// A Return of this end goes.
    fn follow_return(
        &mut self,
        alloc: Global,
        returned: &ReturnView<View>,
    ) -> Result<Option<Breach>, AllocError>
        ensures { IfOk result (λ b. sending b self.new ≡ return_followed self.old (viewed_return (λ t. t) returned.now)) }
    {
        let id = returned.answer_id;
        let Some(question) = self.questions.get(id) else {
            return Ok(Some(Breach::Unasked(id)));
        };
        let (stage, marks) = (question.stage, question.marks);
        match stage {
            QuestionStage::Returned => Ok(Some(Breach::Unasked(id))),
            QuestionStage::Released => {
                self.close(id, false);
                Ok(None)
            }
            QuestionStage::Open => {
                let numbers = Numbers::of_returned(alloc, &returned.returned)?;
                self.follow_results(id, marks, numbers)
            }
            QuestionStage::Finished => {
                let numbers = Numbers::of_returned(alloc, &returned.returned)?;
                match self.follow_results(id, marks, numbers)? {
                    Some(breach) => Ok(Some(breach)),
                    None => {
                        self.close(id, false);
                        Ok(None)
                    }
                }
            }
        }
    }

    /// A question's results give references under these numbers.
    fn follow_results(
        &mut self,
        question: u32,
        marks: u64,
        numbers: Numbers,
    ) -> Result<Option<Breach>, AllocError>
        ensures { IfOk result (λ b. sending b self.new ≡ results_followed self.old question marks numbers) }
    {
        let count = numbers.len();
        if !self.has_room(count) {
            drop(numbers);
            return Ok(Some(Breach::Full));
        }
        if let Err(error) = raise_all(&mut self.given, self.shares, numbers.as_slice(), marks) {
            drop(numbers);
            return Err(error);
        }
        self.kept += count;
        let stage = QuestionStage::Returned;
        self.questions.put(
            question,
            Question {
                stage,
                marks,
                numbers,
            },
        )?;
        Ok(None)
    }

    /// A Resolve of this end goes, which gives a reference as the promise was given.
    fn follow_resolve(&mut self, resolve: &ResolveView<View>) -> Result<Option<Breach>, AllocError>
        ensures { IfOk result (λ b. sending b self.new ≡ resolve_followed self.old (viewed_resolve (λ t. t) resolve.now)) }
    {
        let Some(id) = resolved_number(&resolve.resolution) else {
            return Ok(None);
        };
        if !self.has_room(1) {
            return Ok(Some(Breach::Full));
        }
        let marks = match self.given.get(resolve.promise_id) {
            Some(promise) => promise.marks,
            None => 0,
        };
        raise(&mut self.given, self.shares, id, marks)?;
        Ok(None)
    }
}

/// A message goes from one end to the other, where these rules are on what calls give. Says why the connection is closed, if it is.
fn follow(
    from: &mut Side,
    to: &mut Side,
    alloc: Global,
    grants: &[Grant],
    message: &MessageView,
) -> Result<Option<Breach>, AllocError>
    ensures { IfOk result (λ b. between b from.new to.new ≡ followed grants.now from.old to.old (viewed message.now)) }
{
    match message {
        MessageIn::Call(call) => {
            let marks = to.gained(grants, call);
            let numbers = Numbers::of_table(alloc, &call.params.cap_table)?;
            ask(from, to, alloc, call.question_id, marks, numbers)
        }
        MessageIn::Bootstrap(bootstrap) => {
            let numbers = Numbers::new(alloc);
            ask(from, to, alloc, bootstrap.question_id, 0, numbers)
        }
        MessageIn::Finish(finish) => {
            to.finish(alloc, finish)?;
            Ok(None)
        }
        MessageIn::Release(release) => {
            lower(&mut to.given, release.id, release.reference_count);
            Ok(None)
        }
        MessageIn::Return(returned) => {
            let breach = from.follow_return(alloc, returned)?;
            if breach.is_none() {
                to.answer(returned.answer_id, returned.release_param_caps);
            }
            Ok(breach)
        }
        MessageIn::Resolve(resolve) => from.follow_resolve(resolve),
        // It may give back what a Resolve gave, which isn't kept.
        MessageIn::Unimplemented(_) => Ok(Some(Breach::Unimplemented)),
        MessageIn::Abort(_) => Ok(None),
        MessageIn::Disembargo(_) => Ok(None),
        MessageIn::Other { .. } => Ok(None),
    }
}

/// A question is asked, whose params give references under these numbers.
fn ask(
    from: &mut Side,
    to: &mut Side,
    alloc: Global,
    question: u32,
    marks: u64,
    numbers: Numbers,
) -> Result<Option<Breach>, AllocError>
    ensures { IfOk result (λ b. between b from.new to.new ≡ asked from.old to.old question marks numbers) }
{
    if to.questions.contains(question) {
        drop(numbers);
        return Ok(Some(Breach::Reused(question)));
    }
    if !to.has_room(1) || !from.has_room(numbers.len()) {
        drop(numbers);
        return Ok(Some(Breach::Full));
    }
    from.lend(question, marks, numbers)?;
    to.open(alloc, question, marks)?;
    Ok(None)
}

/// How far a question has come by a Finish before its Return.
fn finished_stage(release: bool) -> QuestionStage
    ensures { result ≡ finished_stage release }
{
    if release {
        QuestionStage::Released
    } else {
        QuestionStage::Finished
    }
}
