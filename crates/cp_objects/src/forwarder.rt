//! What makes the calls that other sessions forward.

ghost use Rattle.std.specs.Prelude.{◌≡◌, IfOk, OnOk};
ghost use Rattle.std.specs.FinMap as maps;
ghost use Rattle.cp_objects.specs.Context.{context_of};
ghost use Rattle.cp_objects.specs.Forwarding.{GivesUp, LetsGoAll, NextCalls, OnResponse, TakesLetter, failing_each, is_time, letting_go, letting_go_each, new_forwarder, outcome_shared, placed, sharing_outcome};

use crate::context::Context;
use crate::forwarded_calls::ForwardedCalls;
use crate::lent::Lent;
use crate::letters::{Caller, ForwardedCall, LetterBody, SharedOutcome, answer_to};
use cp_refs::{Outcome, Request, failed};
use cp_servants::OutgoingCall;
use std::alloc::{AllocError, Global};

/// How often all that is lent is looked at, in milliseconds: no letter says that a program dropped one.
const LOOK: u64 = 1_000;

/// The object of a session that holds what the session lends to the others of its host, and makes the calls that these forward.
#[derive(Drop)]
pub(crate) struct Forwarder {
    pub(crate) lent: Lent,
    pub(crate) calls: ForwardedCalls,
    /// When all that is lent was looked at last, if something is.
    looked: Option<u64>,
}

impl Forwarder {
    /// One that lends nothing.
    pub(crate) fn new(alloc: Global) -> Forwarder
        ensures { result ≡ new_forwarder }
    {
        Forwarder {
            lent: Lent::new(alloc),
            calls: ForwardedCalls::new(alloc),
            looked: None,
        }
    }

    /// Takes what another session says: a call to be made, one that was given up, or that it dropped something that is lent.
    pub(crate) fn take<M: Drop>(
        &mut self,
        body: LetterBody,
        context: &mut Context<M>,
    ) -> Result<(), AllocError>
        ensures { OnOk result (TakesLetter body self.old (context_of context.old) (context_of context.new) self.new) }
    {
        match body {
            LetterBody::Call(call) => self.calls.add(call),
            LetterBody::Cancel(caller) => self.give_up(caller, context),
            LetterBody::Dropped(key) => {
                if self.lent.is_alone(key) {
                    return self.let_go(key, context);
                }
                Ok(())
            }
            other => {
                drop(other);
                Ok(())
            }
        }
    }

    /// Once a second, while something is lent, lets go what nobody else has any more.
    pub(crate) fn poll<M: Drop>(&mut self, context: &mut Context<M>) -> Result<(), AllocError>
        ensures { OnOk result (LetsGoAll self.old (context_of context.old) (context_of context.new) self.new) }
    {
        if self.lent.len() == 0 {
            self.looked = None;
            return Ok(());
        }
        let now = context.now();
        if !is_time(now, self.looked) {
            return Ok(());
        }
        self.looked = Some(now);
        context.wake_after(LOOK)?;
        let keys = self.lent.alone(context.alloc())?;
        self.let_go_each(keys, context)
    }

    /// The first call that is yet to be made.
    pub(crate) fn next_call<M: Drop>(
        &mut self,
        context: &mut Context<M>,
    ) -> Result<Option<OutgoingCall>, AllocError>
        ensures { IfOk result (λ call. NextCalls self.old (context_of context.old) call (context_of context.new) self.new) }
    {
        let Some((number, call)) = self.calls.next() else {
            return Ok(None);
        };
        let ForwardedCall {
            target,
            interface,
            method,
            content,
            caps,
            caller: _,
        } = call;
        let caps = context.here_each(&caps)?;
        Ok(Some(OutgoingCall {
            cap: target.cap().copy(context.alloc())?,
            request: Request {
                interface,
                method,
                content,
                caps,
            },
            call_id: number,
        }))
    }

    /// What a call came to is told to who asked.
    pub(crate) fn on_response<M: Drop>(
        &mut self,
        call_id: u64,
        outcome: Outcome,
        context: &mut Context<M>,
    ) -> Result<(), AllocError>
        ensures { OnOk result (OnResponse self.old call_id outcome (context_of context.old) (context_of context.new) self.new) }
    {
        let outcome = shared_outcome(outcome, context)?;
        let Some(caller) = self.calls.answer(call_id) else {
            drop(outcome);
            return Ok(());
        };
        context.post(answer_to(caller, outcome))
    }

    /// It goes: each call fails that isn't answered.
    pub(crate) fn end<M: Drop>(&self, context: &mut Context<M>) -> Result<(), AllocError>
        ensures { OnOk result (context_of context.new ≡ failing_each (maps.entries self.now.calls.callers) (context_of context.old)) }
    {
        for (_, caller) in self.calls.callers() {
            context.post(answer_to(*caller, SharedOutcome::Disconnected))?;
        }
        Ok(())
    }

    /// A call was given up: of one that was made the question is finished.
    fn give_up<M: Drop>(
        &mut self,
        caller: Caller,
        context: &mut Context<M>,
    ) -> Result<(), AllocError>
        ensures { OnOk result (GivesUp caller self.old (context_of context.old) (context_of context.new) self.new) }
    {
        let Some(number) = self.calls.cancel(caller) else {
            return Ok(());
        };
        context.cancel(number)
    }

    /// Holds no more what is lent under these keys.
    fn let_go_each<M: Drop>(
        &mut self,
        keys: Vec<u64>,
        context: &mut Context<M>,
    ) -> Result<(), AllocError>
        ensures { OnOk result (placed self.new (context_of context.new) ≡ letting_go_each keys.items (placed self.old (context_of context.old))) }
    {
        for key in keys {
            self.let_go(key, context)?;
        }
        Ok(())
    }

    /// Holds no more what is lent under this key. An import stays that is lent under another key.
    fn let_go<M: Drop>(&mut self, key: u64, context: &mut Context<M>) -> Result<(), AllocError>
        ensures { OnOk result (placed self.new (context_of context.new) ≡ letting_go key (placed self.old (context_of context.old))) }
    {
        let Some(shared) = self.lent.take(key) else {
            return Ok(());
        };
        if self.lent.names(shared.cap()) {
            return Ok(());
        }
        context.give_up_own(shared.cap())
    }
}

/// Whether it is time to look at all that is lent, which was looked at last at that time.
fn is_time(now: u64, looked: Option<u64>) -> bool
    ensures { result ≡ is_time now looked }
{
    match looked {
        Some(looked) => now.saturating_sub(looked) >= LOOK,
        None => true,
    }
}

/// An outcome as all sessions name it.
fn shared_outcome<M: Drop>(
    outcome: Outcome,
    context: &mut Context<M>,
) -> Result<SharedOutcome, AllocError>
    ensures shared { IfOk result (λ shared. shared ≡ outcome_shared outcome (context_of context.old)) }
    ensures noted { OnOk result (context_of context.new ≡ sharing_outcome outcome (context_of context.old)) }
{
    match outcome {
        Outcome::Results { content, caps } => Ok(SharedOutcome::Results {
            content,
            caps: context.share_each(&caps)?,
        }),
        Outcome::Failed(exception) => Ok(SharedOutcome::Failed(exception)),
        Outcome::Canceled => Ok(SharedOutcome::Failed(failed(context.alloc(), "canceled")?)),
    }
}
