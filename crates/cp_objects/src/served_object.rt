//! Objects that may make others.

ghost use Rattle.std.specs.Prelude.{◌≡◌, IfOk, OnOk};
ghost use Rattle.cp_servants.specs.Requests.{request_of};
ghost use Rattle.cp_objects.specs.Context.{context_of};
ghost use Rattle.cp_objects.specs.ServedObject.{Ends, ServedObjectKind, any_served_object};

use crate::context::Context;
use cp_refs::Outcome;
use cp_servants::{OutgoingCall, Reply, RequestView, Settled};
use std::alloc::{AllocError, Global};

/// An object that may make others of its connection. It does what a `Servant` does, and is given a `Context` meanwhile. `Err` ends the
/// serving.
pub trait ServedObject: Drop {
    /// The one type of all objects of the connection: an enum, where there are several kinds.
    type Makes: Drop;

    /// What objects of this kind do. Of an object that doesn't say it nothing is known.
    ghost makes: { ServedObjectKind Self Self.Makes } = { any_served_object };

    /// Takes a call, whose params are lent: what the object keeps of them it copies. No other call of the connection has its ticket.
    fn call(
        &mut self,
        ticket: u64,
        request: RequestView<'_>,
        context: &mut Context<Self::Makes>,
    ) -> Result<Reply, AllocError>
        ensures { IfOk result (λ reply. makes.takes self.old ticket (request_of request.entry) (context_of context.old) reply (context_of context.new) self.new) };

    /// Says what one of the calls of the object came to that were to be answered later, if any did. Another object's call isn't settled
    /// by it. An object is polled once after each call of it
    /// and each outcome of a call of its own; again after a poll that gave something, or after which it says `has_more`; and once it
    /// is woken.
    fn poll(&mut self, context: &mut Context<Self::Makes>) -> Result<Option<Settled>, AllocError>
        ensures { IfOk result (λ given. makes.polls self.old (context_of context.old) given (context_of context.new) self.new) };

    /// Whether a further poll may give more, though nothing more comes to the object: `false` for one that gives all as it is called.
    fn has_more(&self) -> bool
        ensures { makes.says_more result self.now };

    /// The next call that the object makes, if it makes one more. It is asked once all calls that it sent (`Context::send`) are made.
    fn next_call(
        &mut self,
        context: &mut Context<Self::Makes>,
    ) -> Result<Option<OutgoingCall>, AllocError>
        ensures { IfOk result (λ call. makes.next_calls self.old (context_of context.old) call (context_of context.new) self.new) };

    /// What a call of the object's came to, with the call's number.
    fn on_response(
        &mut self,
        call_id: u64,
        outcome: Outcome,
        context: &mut Context<Self::Makes>,
    ) -> Result<(), AllocError>
        ensures { OnOk result (makes.on_response self.old call_id outcome (context_of context.old) (context_of context.new) self.new) };

    /// Tells the object that a call of its own was given up which it is to answer later: the peer finished it, and takes no results of it.
    /// It is told once, and never after the answer. Its answer, if it still gives one, is dropped; but calls that the peer made on
    /// its results take it. So an object that works for nobody else lets go what it keeps for the call, its `LaterCall` too.
    fn on_cancel(
        &mut self,
        ticket: u64,
        context: &mut Context<Self::Makes>,
    ) -> Result<(), AllocError>
        ensures { OnOk result (makes.on_cancel self.old ticket (context_of context.old) (context_of context.new) self.new) };

    /// Tells the object its end, once, just before it goes: as nothing refers to it any more, or as its connection ended. It can't stop
    /// that. The calls that it makes (`Context::send`), unless the connection ended, and whom it wakes, what it resolves and settles, and the
    /// imports that it gives up or hands over, are done. What it makes isn't kept, nor an object for another one. It isn't told what its
    /// calls come to.
    fn ended(&mut self, context: &mut Context<Self::Makes>) -> Result<(), AllocError>
        ensures { OnOk result (Ends makes self.old (context_of context.old) (context_of context.new) self.new) }
    {
        // The contract allows this of every kind, so this body serves any object.
        let _ = context;
        Ok(())
    }
}
