//! Objects, as connections serve them.

ghost use Rattle.std.specs.Prelude.{◌≡◌, IfOk};
ghost use Rattle.cp_servants.specs.declared.servant.Reply.{Reply};
ghost use Rattle.cp_interfaces.specs.declared.call.MethodCall.{MethodCall};
ghost use Rattle.cp_interfaces.specs.Services.{At};
ghost use Rattle.cp_interfaces.specs.Streams.{broken_by, failure_of};

use crate::call::MethodCall;
use crate::fault::MethodFault;
use crate::object::ServiceObject;
use crate::replies::refuse;
use cp_objects::{Context, ServedObject};
use cp_refs::Outcome;
use cp_rpc::Exception;
use cp_servants::{OutgoingCall, Reply, RequestView, Settled};
use std::alloc::{AllocError, Global};
use std::marker::PhantomData;

/// What passes calls on to the methods of an object, as an interface's client does, whose server the object is.
pub trait Dispatch<T: ServiceObject> {
    /// What a call leads to.
    ghost takes: { At T T.Makes → MethodCall → Reply → At T T.Makes → Type 0 };

    /// Which methods, by their interface and their number, have `-> stream` for their results.
    ghost streams: { ℕ → ℕ → Bool };

    ghost use Rattle.std.specs.Prelude.{◌≡◌, ℕ, Bool, IfOk};
    ghost use Rattle.cp_interfaces.specs.Services.{at};

    /// Passes a call on to the method that its interface and its number name.
    fn dispatch(
        object: &mut T,
        call: &MethodCall<'_>,
        context: &mut Context<T::Makes>,
    ) -> Result<Reply, AllocError>
        ensures { IfOk result (λ reply. takes (at object.old context.old) call.now reply (at object.new context.new)) };

    /// Whether a method has `-> stream` for its results.
    fn is_stream(interface: u64, method: u16) -> bool
        ensures { result ≡ streams interface method };
}

/// An object, as a connection serves it to clients of this type. Once a call of a method with `-> stream` failed, all later calls of the
/// object fail with its exception: its client makes the next ones before it hears of it, and they rest on what that one was to do.
#[derive(Drop)]
pub struct ObjectDispatch<T, C> {
    pub object: T,
    /// The exception with which a call of a stream failed.
    broken: Option<Exception>,
    of: PhantomData<C>,
}

impl<T, C> ObjectDispatch<T, C> {
    ghost use Rattle.std.specs.Prelude.{◌≡◌, None};

    /// This object.
    pub fn new(object: T) -> ObjectDispatch<T, C>
        ensures { (result.object ≡ object) × (result.broken ≡ None) }
    {
        ObjectDispatch {
            object,
            broken: None,
            of: PhantomData,
        }
    }
}

impl<T: ServiceObject, C: Dispatch<T>> ServedObject for ObjectDispatch<T, C> {
    type Makes = T::Makes;

    ghost use Rattle.cp_interfaces.specs.Services.{taking};
    ghost use Rattle.cp_interfaces.specs.Streams.{until_broken};

    ghost makes = { until_broken (λ s. s.object) (λ s. s.broken) C.streams (taking C.takes T.kind) };

    fn call(
        &mut self,
        ticket: u64,
        request: RequestView<'_>,
        context: &mut Context<T::Makes>,
    ) -> Result<Reply, AllocError> {
        let call = MethodCall {
            ticket,
            session: context.session(),
            request,
        };
        if let Some(exception) = &self.broken {
            let fault = MethodFault::Fails(exception.copy(context.alloc())?);
            let refused = refuse(context.alloc(), &call, fault)?;
            return Ok(refused);
        }
        let reply = self.pass_on(&call, context)?;
        Ok(reply)
    }

    fn poll(&mut self, context: &mut Context<T::Makes>) -> Result<Option<Settled>, AllocError> {
        Ok(self.object.poll(context)?)
    }

    fn has_more(&self) -> bool {
        self.object.has_more()
    }

    fn next_call(
        &mut self,
        context: &mut Context<T::Makes>,
    ) -> Result<Option<OutgoingCall>, AllocError> {
        Ok(self.object.next_call(context)?)
    }

    fn on_response(
        &mut self,
        call_id: u64,
        outcome: Outcome,
        context: &mut Context<T::Makes>,
    ) -> Result<(), AllocError> {
        Ok(self.object.on_response(call_id, outcome, context)?)
    }

    fn on_cancel(
        &mut self,
        ticket: u64,
        context: &mut Context<T::Makes>,
    ) -> Result<(), AllocError> {
        Ok(self.object.on_cancel(ticket, context)?)
    }

    fn ended(&mut self, context: &mut Context<T::Makes>) -> Result<(), AllocError> {
        Ok(self.object.ended(context)?)
    }
}

impl<T: ServiceObject, C: Dispatch<T>> ObjectDispatch<T, C> {
    ghost use Rattle.cp_interfaces.specs.Services.{at};

    /// Passes a call on to its method. One of a stream that fails breaks the object.
    fn pass_on(
        &mut self,
        call: &MethodCall<'_>,
        context: &mut Context<T::Makes>,
    ) -> Result<Reply, AllocError>
        ensures takes { IfOk result (λ reply. C.takes (at self.old.object context.old) call.now reply (at self.new.object context.new)) }
        ensures breaks { let of = call.now.request in IfOk result (λ reply. self.new.broken ≡ broken_by (C.streams of.interface of.method) reply) }
    {
        let is_stream = C::is_stream(call.request.interface, call.request.method);
        let reply = C::dispatch(&mut self.object, call, context)?;
        self.broken = broken_by(context.alloc(), is_stream, &reply)?;
        Ok(reply)
    }
}

/// The exception by which a call breaks its object: that with which a call of a stream failed at once, if it did.
fn broken_by(alloc: Global, is_stream: bool, reply: &Reply) -> Result<Option<Exception>, AllocError>
    ensures { IfOk result (λ broken. broken ≡ broken_by is_stream reply.now) }
{
    if !is_stream {
        return Ok(None);
    }
    match reply {
        Reply::Now { outcome, .. } => failure_of(alloc, outcome),
        Reply::Later => Ok(None),
    }
}

/// The exception with which a call failed, if it did.
fn failure_of(alloc: Global, outcome: &Outcome) -> Result<Option<Exception>, AllocError>
    ensures { IfOk result (λ failure. failure ≡ failure_of outcome.now) }
{
    match outcome {
        Outcome::Failed(exception) => Ok(Some(exception.copy(alloc)?)),
        Outcome::Results { .. } | Outcome::Canceled => Ok(None),
    }
}
