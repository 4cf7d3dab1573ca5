//! What goes from one session of a host to another.

ghost use Rattle.std.specs.Prelude.{◌≡◌, IfOk};
ghost use Rattle.cp_objects.specs.Letters.{answer_to, bounced};
ghost use Rattle.cp_servants.specs.Outcomes.{exception_of};

use crate::shared_cap::{SharedCap, SharedCaps};
use crate::waker::Waker;
use cp_rpc::{Exception, ExceptionKind, Text};
use cp_tree::Whole;
use std::alloc::{AllocError, Global};

/// What goes from one session of a host to another. Its driver delivers them in order, each once, to the session of the number `to`
/// (`Session::deliver`). Where that isn't there any more, it delivers what `bounced` gives, if that is something.
#[derive(Drop)]
pub struct Letter {
    pub to: u64,
    pub body: LetterBody,
}

/// What a letter says.
#[derive(Drop)]
pub enum LetterBody {
    /// This object is to be woken.
    Wake(u32),
    /// What the session lends is called.
    Call(ForwardedCall),
    /// The call of this ticket, on a proxy of this number, came to this.
    Answer {
        object: u32,
        ticket: u64,
        outcome: SharedOutcome,
    },
    /// This call was given up.
    Cancel(Caller),
    /// One that stood for what the session lends under this key is gone.
    Dropped(u64),
}

/// A call that goes to another session, with the capabilities as all sessions name them.
#[derive(Drop)]
pub struct ForwardedCall {
    pub target: SharedCap,
    pub interface: u64,
    pub method: u16,
    pub content: Whole,
    pub caps: SharedCaps,
    pub caller: Caller,
}

/// Who is told what a call comes to: a proxy, and the ticket of its call.
#[derive(Clone, Copy)]
pub struct Caller {
    pub proxy: Waker,
    pub ticket: u64,
}

/// What a call came to in another session.
#[derive(Drop)]
pub enum SharedOutcome {
    Results { content: Whole, caps: SharedCaps },
    Failed(Exception),
    /// The session ended that was to make it.
    Disconnected,
}

impl Letter {
    /// What goes back where the session is gone that this is for: a call fails with `Disconnected`, and all else needs no answer.
    pub fn bounced(self) -> Option<Letter>
        ensures { result ≡ bounced self }
    {
        match self.body {
            LetterBody::Call(call) => {
                let caller = call.caller;
                drop(call);
                Some(answer_to(caller, SharedOutcome::Disconnected))
            }
            other => {
                drop(other);
                None
            }
        }
    }
}

/// What says what a call came to.
pub(crate) fn answer_to(caller: Caller, outcome: SharedOutcome) -> Letter
    ensures { result ≡ answer_to caller outcome }
{
    Letter {
        to: caller.proxy.session,
        body: LetterBody::Answer {
            object: caller.proxy.object,
            ticket: caller.ticket,
            outcome,
        },
    }
}

/// An exception without a trace.
pub(crate) fn exception(
    alloc: Global,
    kind: ExceptionKind,
    reason: &str,
) -> Result<Exception, AllocError>
    ensures { IfOk result (λ e. e ≡ exception_of kind reason.now) }
{
    Ok(Exception {
        kind,
        reason: Text::new(String::from_str(alloc, reason)?),
        trace: Text::new(String::new(alloc)),
    })
}
