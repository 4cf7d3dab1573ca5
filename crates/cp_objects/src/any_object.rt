//! What stands under a number of a connection.

ghost use Rattle.std.specs.Prelude.{◌≡◌, OnOk};
ghost use Rattle.cp_objects.specs.AnyObject.{TakesLetter, lent_by, with_lent};
ghost use Rattle.cp_objects.specs.Context.{context_of};

use crate::context::Context;
use crate::forwarder::Forwarder;
use crate::letters::LetterBody;
use crate::proxy::{Proxy, refuse};
use crate::served_object::ServedObject;
use crate::shared_cap::SharedCap;
use cp_refs::Outcome;
use cp_servants::{OutgoingCall, Reply, RequestView, Settled, no_such_object};
use std::alloc::AllocError;

/// What stands under a number of a connection.
#[derive(Drop)]
pub(crate) enum AnyObject<O> {
    /// An object of the program's.
    Own(O),
    /// What stands for another session's capability.
    Proxy(Proxy),
    /// What makes the calls that other sessions forward.
    Forwarder(Forwarder),
}

impl<O: Drop> AnyObject<O> {
    /// Takes what another session says to it. An object of the program's is told nothing.
    pub(crate) fn take(
        &mut self,
        body: LetterBody,
        context: &mut Context<O>,
    ) -> Result<(), AllocError>
        ensures { OnOk result (TakesLetter body self.old (context_of context.old) (context_of context.new) self.new) }
    {
        match self {
            AnyObject::Own(_) => {
                drop(body);
                Ok(())
            }
            AnyObject::Proxy(proxy) => proxy.take(body, context),
            AnyObject::Forwarder(forwarder) => forwarder.take(body, context),
        }
    }
}

impl<O> AnyObject<O> {
    /// It lends this from now on, if it is what lends.
    pub(crate) fn lend(&mut self, shared: SharedCap) -> Result<(), AllocError>
        ensures { OnOk result (self.new ≡ with_lent shared self.old) }
    {
        match self {
            AnyObject::Forwarder(forwarder) => forwarder.lent.put(shared),
            _ => {
                drop(shared);
                Ok(())
            }
        }
    }

    /// How many capabilities it lends.
    pub(crate) fn lent(&self) -> usize
        ensures { result ≡ lent_by self.now }
    {
        match self {
            AnyObject::Forwarder(forwarder) => forwarder.lent.len(),
            _ => 0,
        }
    }
}

impl<O: ServedObject<Makes = O>> ServedObject for AnyObject<O> {
    type Makes = O;

    ghost use Rattle.cp_objects.specs.AnyObject.{any_object};

    ghost makes = { any_object O.makes };

    fn call(
        &mut self,
        ticket: u64,
        request: RequestView<'_>,
        context: &mut Context<O>,
    ) -> Result<Reply, AllocError> {
        match self {
            AnyObject::Own(object) => object.call(ticket, request, context),
            AnyObject::Proxy(proxy) => proxy.call(ticket, request, context),
            // No capability names it, so no call comes to it.
            AnyObject::Forwarder(_) => {
                let outcome = no_such_object(context.alloc())?;
                refuse(request, outcome, context.alloc())
            }
        }
    }

    fn poll(&mut self, context: &mut Context<O>) -> Result<Option<Settled>, AllocError> {
        match self {
            AnyObject::Own(object) => object.poll(context),
            AnyObject::Proxy(_) => Ok(None),
            AnyObject::Forwarder(forwarder) => {
                forwarder.poll(context)?;
                Ok(None)
            }
        }
    }

    fn has_more(&self) -> bool {
        match self {
            AnyObject::Own(object) => object.has_more(),
            AnyObject::Proxy(_) | AnyObject::Forwarder(_) => false,
        }
    }

    fn next_call(&mut self, context: &mut Context<O>) -> Result<Option<OutgoingCall>, AllocError> {
        match self {
            AnyObject::Own(object) => object.next_call(context),
            AnyObject::Proxy(_) => Ok(None),
            AnyObject::Forwarder(forwarder) => forwarder.next_call(context),
        }
    }

    fn on_response(
        &mut self,
        call_id: u64,
        outcome: Outcome,
        context: &mut Context<O>,
    ) -> Result<(), AllocError> {
        match self {
            AnyObject::Own(object) => object.on_response(call_id, outcome, context),
            AnyObject::Proxy(_) => {
                drop(outcome);
                Ok(())
            }
            AnyObject::Forwarder(forwarder) => forwarder.on_response(call_id, outcome, context),
        }
    }

    fn on_cancel(&mut self, ticket: u64, context: &mut Context<O>) -> Result<(), AllocError> {
        match self {
            AnyObject::Own(object) => object.on_cancel(ticket, context),
            AnyObject::Proxy(proxy) => proxy.cancel(ticket, context),
            AnyObject::Forwarder(_) => Ok(()),
        }
    }

    fn ended(&mut self, context: &mut Context<O>) -> Result<(), AllocError> {
        match self {
            AnyObject::Own(object) => object.ended(context),
            AnyObject::Proxy(proxy) => proxy.end(context),
            AnyObject::Forwarder(forwarder) => forwarder.end(context),
        }
    }
}
