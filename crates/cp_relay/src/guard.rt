//! A guard of a connection.

ghost use Rattle.std.specs.Prelude.{◌≡◌, IfOk, Some};
ghost use Rattle.cp_rpc.specs.Viewed.{viewed};
ghost use Rattle.cp_relay.specs.declared.ruling.Ruling.{Ruling};
ghost use Rattle.cp_relay.specs.Guard.{breach_of, call_in, IsFresh, IsSame, IsSecondLater, IsRuled, IsFollowed, IsJudged, Begins, IsSameStanding};

use crate::references::References;
use crate::rules::{MethodId, Rules};
use crate::ruling::{Breach, Cause, Ruling};
use crate::state::GuardState;
use crate::visitor::Visitor;
use cp_rpc::{MessageIn, MessageView};
use cp_tables::Entries;
use std::alloc::{AllocError, Global};
use std::mem;

/// A call, and why it was refused, if it was.
#[derive(Clone, Copy)]
pub struct JudgedCall {
    pub question: u32,
    pub method: MethodId,
    pub cause: Option<Cause>,
}

/// A guard of a connection. It stands between a caller, whose questions it judges by rules, and a callee. The filters of both
/// directions share it, and where one stops, both do. It keeps the numbers of the questions that it refused, and no message.
pub struct Guard<'r> {
    pub(crate) alloc: Global,
    pub(crate) rules: &'r Rules,
    pub(crate) state: GuardState,
    /// Whether the next message is one of the callee.
    pub(crate) comes_back: bool,
    /// What becomes of the last message.
    pub(crate) ruling: Option<Ruling>,
    /// The last message's call, if it is one.
    pub(crate) call: Option<JudgedCall>,
    /// Whether a filter has stopped, so that nothing more goes.
    pub(crate) closed: bool,
}

impl<'r> Drop for Guard<'r> {
    fn drop(self) {
        let Guard {
            alloc: _,
            rules: _,
            state: _,
            comes_back: _,
            ruling,
            call: _,
            closed: _,
        } = self;
        drop(ruling);
    }
}

impl<'r> Guard<'r> {
    /// A guard of a connection on which nothing was sent.
    pub fn new(alloc: Global, rules: &'r Rules) -> Guard<'r>
        ensures { IsFresh rules.now result }
    {
        Guard {
            alloc,
            rules,
            state: GuardState {
                refused: Entries::new(alloc),
                unfinished: 0,
                under_way: 0,
                opened: 0,
                references: References::new(alloc),
            },
            comes_back: false,
            ruling: None,
            call: None,
            closed: false,
        }
    }

    /// A second has passed, so its questions count no more.
    pub fn pass_second(&mut self)
        ensures { IsSecondLater self.old self.new }
    {
        self.state.opened = 0;
    }

    /// Why the connection is closed, if the last message closed it.
    pub fn breach(&self) -> Option<Breach>
        ensures { result ≡ breach_of self.now.ruling }
    {
        match &self.ruling {
            Some(ruling) => ruling.breach(),
            None => None,
        }
    }

    /// What the last message calls, if it is a call of the caller.
    pub fn last_call(&self) -> Option<JudgedCall>
        ensures { result ≡ self.now.call }
    {
        self.call
    }

    /// Forgets the last message. The next is one of the callee, or of the caller.
    pub(crate) fn begin(&mut self, comes_back: bool)
        ensures { Begins comes_back self.old self.new }
    {
        self.comes_back = comes_back;
        self.call = None;
        drop(self.ruling.take());
    }

    /// What became of the last message. What wasn't judged doesn't go.
    pub(crate) fn take_ruling(&mut self) -> Ruling
        ensures ruling { (v : Ruling) → self.old.ruling ≡ Some v → result ≡ v }
        ensures same { IsSame self.old self.new }
    {
        match self.ruling.take() {
            Some(ruling) => ruling,
            None => Ruling::Drops,
        }
    }

    /// What becomes of a message.
    fn judge(&mut self, message: &MessageView) -> Result<Ruling, AllocError>
        ensures judged { IfOk result (λ ruling. IsJudged self.old (viewed message.now) ruling self.new) }
        ensures rules { self.new.rules.now ≡ self.old.rules.now }
        ensures comes_back { self.new.comes_back ≡ self.old.comes_back }
        ensures closed { self.new.closed ≡ self.old.closed }
    {
        let ruling = self.rule(message)?;
        if !self.rules.follows() || !ruling.goes() {
            return Ok(ruling);
        }
        match self.follow(message) {
            Ok(None) => Ok(ruling),
            Ok(Some(breach)) => {
                drop(ruling);
                Ok(Ruling::Closes(breach))
            }
            Err(error) => {
                drop(ruling);
                Err(error)
            }
        }
    }

    /// What becomes of it by the questions that were refused.
    fn rule(&mut self, message: &MessageView) -> Result<Ruling, AllocError>
        ensures ruled { IfOk result (λ ruling. IsRuled self.old (viewed message.now) ruling self.new) }
        ensures same { IsSameStanding self.old self.new }
    {
        if self.comes_back {
            return Ok(self.state.judge_back(message));
        }
        self.state.judge(self.alloc, self.rules, message)
    }

    /// What is kept of it, and why that closes the connection, if it does.
    fn follow(&mut self, message: &MessageView) -> Result<Option<Breach>, AllocError>
        ensures followed { IfOk result (λ breach. IsFollowed self.old (viewed message.now) breach self.new) }
        ensures state { self.new.state ≡ record self.old.state { references = self.new.state.references } }
        ensures same { IsSameStanding self.old self.new }
    {
        let references = &mut self.state.references;
        references.follow(self.alloc, self.rules, self.comes_back, message)
    }

    /// The call that a message of the caller is.
    fn call_in(&self, message: &MessageView) -> Option<JudgedCall>
        ensures { result ≡ call_in self.now.comes_back self.now.state.refused (viewed message.now) }
    {
        let MessageIn::Call(call) = message else {
            return None;
        };
        if self.comes_back {
            return None;
        }
        Some(JudgedCall {
            question: call.question_id,
            method: MethodId {
                interface: call.interface_id,
                method: call.method_id,
            },
            cause: self.state.refused.get(call.question_id).copied(),
        })
    }
}

impl<'r> Visitor for Guard<'r> {
    ghost use Rattle.cp_relay.specs.Guard.{Judges};

    ghost says = { Judges };

    fn visit(&mut self, message: &MessageView) -> Result<bool, AllocError> {
        // One message at a time: what became of the one before is taken first.
        if self.ruling.is_some() {
            return Ok(false);
        }
        let ruling = self.judge(message)?;
        let goes_on = ruling.breach().is_none();
        drop(mem::replace(&mut self.ruling, Some(ruling)));
        self.call = self.call_in(message);
        Ok(goes_on)
    }
}
