//! What stands for another session's capability.

ghost use Rattle.std.specs.Prelude.{◌≡◌, IfOk, OnOk, is_some, option_copied};
ghost use Rattle.std.specs.FinMap as maps;
ghost use Rattle.cp_servants.specs.Outcomes.{named_imports};
ghost use Rattle.cp_servants.specs.declared.servant.Reply.TheVariants.{Now};
ghost use Rattle.cp_refs.specs.Memory.{counted, request_memory};
ghost use Rattle.cp_servants.specs.Requests.{request_of};
ghost use Rattle.cp_objects.specs.Context.{context_of};
ghost use Rattle.cp_objects.specs.Proxying.{Takes, TakesLetter, answering, broken_of, canceling, closing, discharging, forwarding, giving_up_call, leaving, naming_outcome, new_proxy, outcome_here, settled_so};

use crate::context::Context;
use crate::letters::{Caller, ForwardedCall, Letter, LetterBody, SharedOutcome, exception};
use crate::shared_cap::SharedCap;
use cp_refs::{Cap, Outcome, Request, failed};
use cp_rpc::{Exception, ExceptionKind};
use cp_servants::{Reply, RequestView, Settled, named_imports};
use cp_vat_machine::Ids;
use std::alloc::{AllocError, Global};
use std::collections::BTreeMap;
use std::collections::btree_map::Iter;
use std::marker::Model;

/// The bytes of forwarded calls of a session that aren't answered, past which no more are taken.
const MOST: u64 = 16_777_216;

/// An object that stands for a capability of another session: what it is called that is called.
pub(crate) struct Proxy {
    target: SharedCap,
    /// The bytes of its calls that aren't answered, by their tickets.
    pending: BTreeMap<u64, u64>,
}

// Not derived: a function that lets one go calls this one, and need not prove the drop of what it holds.
impl Drop for Proxy {
    fn drop(self) {
        let Proxy {
            target: _,
            pending: _,
        } = self;
    }
}

impl Model for Proxy {
    ghost use Rattle.cp_objects.specs.Proxying.{ProxyState};
    ghost use Rattle.cp_objects.specs.SharingCode.{proxy_code};
    ghost use Rattle.std.specs.FinMap as map;

    ghost Value = { ProxyState };

    ghost coded = { proxy_code };

    ghost view = { λ p. record { target = p.target; pending = map.from_entries p.pending.entries } };
}

impl Proxy {
    /// One that stands for this.
    pub(crate) fn new(alloc: Global, target: SharedCap) -> Proxy
        ensures { result ≡ new_proxy target }
    {
        Proxy {
            target,
            pending: BTreeMap::new(alloc),
        }
    }

    /// Has the call made in the other session.
    pub(crate) fn call<M: Drop>(
        &mut self,
        ticket: u64,
        request: RequestView<'_>,
        context: &mut Context<M>,
    ) -> Result<Reply, AllocError>
        ensures { IfOk result (λ reply. Takes self.old ticket (request_of request.entry) (context_of context.old) reply (context_of context.new) self.new) }
    {
        if let Some(exception) = self.broken() {
            let exception = exception.copy(context.alloc())?;
            return refuse(request, Outcome::Failed(exception), context.alloc());
        }
        if context.forwarded >= MOST {
            let kind = ExceptionKind::Overloaded;
            let overloaded = exception(context.alloc(), kind, "too many calls are open")?;
            return refuse(request, Outcome::Failed(overloaded), context.alloc());
        }
        let request = request.request(context.alloc())?;
        self.forward(ticket, request, context)?;
        Ok(Reply::Later)
    }

    /// Takes what the other session says: what a call came to. No other letter is for it.
    pub(crate) fn take<M: Drop>(
        &mut self,
        body: LetterBody,
        context: &mut Context<M>,
    ) -> Result<(), AllocError>
        ensures { OnOk result (TakesLetter body self.old (context_of context.old) (context_of context.new) self.new) }
    {
        match body {
            LetterBody::Answer {
                ticket,
                outcome,
                ..
            } => self.answer(ticket, outcome, context),
            other => {
                drop(other);
                Ok(())
            }
        }
    }

    /// A call came to this in the other session. Nothing is done where it was given up.
    fn answer<M: Drop>(
        &mut self,
        ticket: u64,
        outcome: SharedOutcome,
        context: &mut Context<M>,
    ) -> Result<(), AllocError>
        ensures told { OnOk result (context_of context.new ≡ answering ticket outcome (maps.get self.old.pending ticket) (context_of context.old)) }
        ensures closed { OnOk result (self.new ≡ closing ticket self.old) }
    {
        if !self.close(ticket, context) {
            drop(outcome);
            return Ok(());
        }
        let outcome = outcome_here(outcome, context)?;
        context.settle(settled(context.alloc(), ticket, outcome))
    }

    /// A call was given up: so it is in the other session.
    pub(crate) fn cancel<M: Drop>(
        &mut self,
        ticket: u64,
        context: &mut Context<M>,
    ) -> Result<(), AllocError>
        ensures told { OnOk result (context_of context.new ≡ canceling self.old.target ticket (maps.get self.old.pending ticket) (context_of context.old)) }
        ensures closed { OnOk result (self.new ≡ closing ticket self.old) }
    {
        if !self.close(ticket, context) {
            return Ok(());
        }
        self.give_up(ticket, context)?;
        let canceled = failed(context.alloc(), "canceled")?;
        context.settle(settled(context.alloc(), ticket, Outcome::Failed(canceled)))
    }

    /// It goes: its calls are given up, and the other session may let go what it stood for.
    pub(crate) fn end<M: Drop>(&self, context: &mut Context<M>) -> Result<(), AllocError>
        ensures { OnOk result (context_of context.new ≡ leaving self.now (context_of context.old)) }
    {
        for (ticket, bytes) in self.open_calls() {
            context.forwarded = context.forwarded.saturating_sub(*bytes);
            self.give_up(*ticket, context)?;
        }
        context.post(Letter {
            to: self.target.session(),
            body: LetterBody::Dropped(self.target.key()),
        })
    }

    /// The exception with which its calls fail, if it stands for a broken capability.
    fn broken(&self) -> Option<&Exception>
        ensures { option_copied result ≡ broken_of self.now.target.cap }
    {
        match self.target.cap() {
            Cap::Broken(exception) => Some(exception),
            _ => None,
        }
    }

    /// The bytes of its calls that aren't answered, by their tickets.
    fn open_calls(&self) -> Iter<'_, u64, u64>
        ensures { result ≡ maps.entries self.now.pending }
    {
        self.pending.iter()
    }

    /// Puts a call on its way.
    fn forward<M: Drop>(
        &mut self,
        ticket: u64,
        request: Request,
        context: &mut Context<M>,
    ) -> Result<(), AllocError>
        ensures posted { OnOk result (context_of context.new ≡ forwarding self.old.target ticket request (context_of context.old)) }
        ensures pending { OnOk result (self.new ≡ record self.old { pending = maps.insert self.old.pending ticket (counted (request_memory request)) }) }
    {
        let bytes = request.memory();
        let Request {
            interface,
            method,
            content,
            caps,
        } = request;
        let caps = context.share_each(&caps)?;
        let _ = self.pending.insert(ticket, bytes)?;
        context.forwarded = context.forwarded.saturating_add(bytes);
        let call = ForwardedCall {
            target: self.target.copy()?,
            interface,
            method,
            content,
            caps,
            caller: Caller {
                proxy: context.waker(),
                ticket,
            },
        };
        context.post(Letter {
            to: self.target.session(),
            body: LetterBody::Call(call),
        })
    }

    /// A call isn't open any more, if it was.
    fn close<M: Drop>(&mut self, ticket: u64, context: &mut Context<M>) -> bool
        ensures open { result ≡ is_some (maps.get self.old.pending ticket) }
        ensures noted { context_of context.new ≡ discharging (maps.get self.old.pending ticket) (context_of context.old) }
        ensures closed { self.new ≡ closing ticket self.old }
    {
        let Some(bytes) = self.pending.remove(&ticket) else {
            return false;
        };
        context.forwarded = context.forwarded.saturating_sub(bytes);
        true
    }

    /// Tells the other session that nobody waits for a call any more.
    fn give_up<M: Drop>(&self, ticket: u64, context: &mut Context<M>) -> Result<(), AllocError>
        ensures { OnOk result (context_of context.new ≡ giving_up_call self.now.target ticket (context_of context.old)) }
    {
        let caller = Caller {
            proxy: context.waker(),
            ticket,
        };
        context.post(Letter {
            to: self.target.session(),
            body: LetterBody::Cancel(caller),
        })
    }
}

/// A call comes to this at once, and what it named is given up.
pub(crate) fn refuse(
    request: RequestView<'_>,
    outcome: Outcome,
    alloc: Global,
) -> Result<Reply, AllocError>
    ensures { IfOk result (λ reply. reply ≡ Now outcome (named_imports request.entry.caps)) }
{
    match named_imports(alloc, &request.caps) {
        Ok(gives_up) => Ok(Reply::Now { outcome, gives_up }),
        Err(error) => {
            drop(outcome);
            Err(error)
        }
    }
}

/// What a call comes to that gives up nothing.
fn settled(alloc: Global, ticket: u64, outcome: Outcome) -> Settled
    ensures { result ≡ settled_so ticket outcome }
{
    Settled {
        ticket,
        outcome,
        gives_up: Ids::new(Vec::new(alloc)),
    }
}

/// An outcome as this session names it.
fn outcome_here<M: Drop>(
    outcome: SharedOutcome,
    context: &mut Context<M>,
) -> Result<Outcome, AllocError>
    ensures named { IfOk result (λ here. here ≡ outcome_here outcome (context_of context.old)) }
    ensures noted { OnOk result (context_of context.new ≡ naming_outcome outcome (context_of context.old)) }
{
    match outcome {
        SharedOutcome::Results { content, caps } => Ok(Outcome::Results {
            content,
            caps: context.here_each(&caps)?,
        }),
        SharedOutcome::Failed(exception) => Ok(Outcome::Failed(exception)),
        SharedOutcome::Disconnected => {
            let kind = ExceptionKind::Disconnected;
            let reason = "the object's connection ended";
            Ok(Outcome::Failed(exception(context.alloc(), kind, reason)?))
        }
    }
}
