//! Objects that answer calls.

ghost use Rattle.std.specs.Prelude.{IfOk, OnOk};
ghost use Rattle.cp_servants.specs.Requests.{request_of};
ghost use Rattle.cp_servants.specs.Servant.{Kind, any, NextCalls, OnResponse};

use crate::request::RequestView;
use cp_refs::{Cap, Outcome, Request};
use cp_vat_machine::Ids;
use std::alloc::{AllocError, Global};

/// What an object answers to a call.
#[derive(Drop)]
pub enum Reply {
    /// This is what the call came to, and these imports aren't needed any more.
    Now { outcome: Outcome, gives_up: Ids },
    /// A poll will say what it came to.
    Later,
}

/// What a call came to that was to be answered later.
#[derive(Drop)]
pub struct Settled {
    /// The ticket of the call.
    pub ticket: u64,
    pub outcome: Outcome,
    /// Imports that aren't needed any more.
    pub gives_up: Ids,
}

/// A call that an object makes.
/// Objects are asked for calls and don't get the connection: so they need no lifetime, and no call comes in the middle of another.
#[derive(Drop)]
pub struct OutgoingCall {
    /// An import that the object was given, or an object or a promise of this end.
    pub cap: Cap,
    pub request: Request,
    /// With it the object is told what the call came to.
    pub call_id: u64,
}

/// An object that answers calls, at once or when it is polled. `Err` ends the serving.
/// What it does is a relation on the object itself, so that a box has that of what is in it.
pub trait Servant: Drop {
    /// What objects of this kind do. Of an object that doesn't say it nothing is known.
    ghost kind: { Kind Self } = { any };

    /// Takes a call. No other call of the connection has its ticket.
    fn call(&mut self, ticket: u64, request: Request) -> Result<Reply, AllocError>
        ensures { IfOk result (λ reply. kind.takes self.old ticket request reply self.new) };

    /// Takes a call whose params are lent, as `call` takes one. Unless the object does it otherwise, a tree of them is made for `call`.
    fn call_view(
        &mut self,
        alloc: Global,
        ticket: u64,
        request: RequestView<'_>,
    ) -> Result<Reply, AllocError>
        ensures { IfOk result (λ reply. kind.takes self.old ticket (request_of request.entry) reply self.new) }
    {
        let request = request.request(alloc)?;
        self.call(ticket, request)
    }

    /// Says what one of the calls came to that were to be answered later, if any did.
    fn poll(&mut self) -> Result<Option<Settled>, AllocError>
        ensures { IfOk result (λ settled. kind.polls self.old settled self.new) };

    /// Whether a further poll may give more, though nothing more comes to the object: then a driver that could wait
    /// for its peer polls again first. An object that gives all as it is called says `false`. `serve` asks no object for this, as its
    /// rounds follow the messages.
    fn has_more(&self) -> bool
        ensures { kind.says_more result self.now };

    /// The next call that the object makes, if it makes one more. A driver that lets objects call asks for these after
    /// each call, poll and outcome that the object got, until there is none. `serve` lets none call.
    fn next_call(&mut self) -> Result<Option<OutgoingCall>, AllocError>
        ensures { IfOk result (λ call. NextCalls kind self.old call self.new) }
    {
        // The contract allows this of every kind, so this body serves any object.
        Ok(None)
    }

    /// What a call of the object's came to, with the call's number. The question is finished then: its imports stay until
    /// the object gives them up.
    fn on_response(&mut self, call_id: u64, outcome: Outcome) -> Result<(), AllocError>
        ensures { OnOk result (OnResponse kind self.old call_id outcome self.new) }
    {
        let _ = (call_id, outcome);
        Ok(())
    }
}

/// A boxed object is of the kind of the object in the box: so objects of many kinds stand in one list.
impl Servant for Box<dyn Servant> {
    ghost use Rattle.cp_servants.specs.Servant.{boxed};

    ghost kind = { boxed (λ b. (Servant-box b).kind) };

    fn call(&mut self, ticket: u64, request: Request) -> Result<Reply, AllocError> {
        (**self).call(ticket, request)
    }

    fn call_view(
        &mut self,
        alloc: Global,
        ticket: u64,
        request: RequestView<'_>,
    ) -> Result<Reply, AllocError> {
        (**self).call_view(alloc, ticket, request)
    }

    fn poll(&mut self) -> Result<Option<Settled>, AllocError> {
        (**self).poll()
    }

    fn has_more(&self) -> bool {
        (**self).has_more()
    }

    fn next_call(&mut self) -> Result<Option<OutgoingCall>, AllocError> {
        (**self).next_call()
    }

    fn on_response(&mut self, call_id: u64, outcome: Outcome) -> Result<(), AllocError> {
        (**self).on_response(call_id, outcome)
    }
}
