//! `watcher` of notebook.capnp, made by capnpc_rattle.

ghost use Rattle.std.specs.Prelude.{◌≡◌, IfOk, Err, ◌≤◌, ◌^◌, length, ◌+◌, []};
ghost use Rattle.cp_tree.specs.Seen.{pointee_of};
ghost use Rattle.cp_fields.specs.Pointers.{text_field};
ghost use Rattle.cp_builder.specs.declared.fault.BuildError.TheVariants.{TooLong};
ghost use Rattle.cp_builder.specs.Drafts.{blank, text_tree, with_pointer};
ghost use Rattle.cp_interfaces.specs.Calls.{IsCall, MakesOf, request_of};
ghost use Rattle.cp_interfaces.specs.Faults.{Unbuilt};
ghost use Rattle.cp_interfaces.specs.ServiceCalls.{Answers};
ghost use Rattle.cp_interfaces.specs.Streams.{no_streams};
ghost use Rattle.cp_interfaces.specs.Tables.{none_named};
ghost use Rattle.cp_interfaces.specs.Services.{At, at};
ghost use Rattle.notebook.specs.Watcher.{WatcherKind, WatcherTakes, any_watcher};

use cp_builder::{BuildError, StructBuilder};
use cp_fields::{StructReader, TextReader, WrongKind};
use cp_interfaces::{
    CallTarget, Caller, Dispatch, LaterAnswer, MethodCall, MethodFault, MethodRequest,
    MethodResult, NoFieldsBuilder, NoFieldsPipeline, NoFieldsReader, ObjectDispatch, ServiceCall,
    ServiceObject, SharedClient, TypedClient, TypedResolver, refuse, refuse_method,
};
use cp_objects::{Context, SessionCap};
use cp_servants::Reply;
use std::alloc::{AllocError, Global};

/// `interface Watcher`.
#[derive(Drop)]
pub struct WatcherClient {
    /// The capability that is called.
    pub target: CallTarget,
}

impl WatcherClient {
    /// The interface's number.
    pub const ID: u64 = 0x80a0c5d36bb2c9a2;

    /// The object that a capability stands for.
    pub fn new(alloc: Global, cap: SessionCap) -> WatcherClient
        ensures { result.target ≡ cap }
    {
        WatcherClient {
            target: CallTarget::new(alloc, cap),
        }
    }

    /// A call of `added @0`.
    pub fn added_request(&self, text: &str) -> Result<MethodRequest<'_>, BuildError>
        ensures request { IfOk result (λ r. IsCall r self.now.target (request_of 0x80a0c5d36bb2c9a2 0 (with_pointer (blank 0 1) 0 (text_tree text.now)) [])) }
        ensures long { result ≡ Err TooLong → 2 ^ 29 ≤ length text.now + 1 }
    {
        let mut params: StructBuilder<0, 1> = StructBuilder::new(self.target.alloc())?;
        params.set_pointer(0, cp_builder::text_of(self.target.alloc(), text)?);
        let content = params.into_whole();
        Ok(self.target.request(0x80a0c5d36bb2c9a2, 0, content))
    }

    /// Takes a note that was added.
    pub fn added<C: Caller>(
        &self,
        caller: &mut C,
        text: &str,
    ) -> Result<WatcherAddedResultsPipeline, C::Fault>
        ensures { MakesOf (λ p. p.at) C.number C.sends C.Fault.From-2.from_gives (Unbuilt C.Fault.From-1.from_gives (2 ^ 29 ≤ length text.now + 1)) caller.old self.now.target 0x80a0c5d36bb2c9a2 0 (with_pointer (blank 0 1) 0 (text_tree text.now)) [] result caller.new }
    {
        let call = self.added_request(text)?;
        Ok(WatcherAddedResultsPipeline::of(self.target.call(caller, call.request)?))
    }
}

impl TypedClient for WatcherClient {
    ghost called = { λ c. c.target };

    fn of(target: CallTarget) -> WatcherClient {
        WatcherClient { target }
    }

    fn into_target(self) -> CallTarget {
        self.target
    }
}

/// A call of `added`.
pub type WatcherAddedCall<'c> = ServiceCall<
    'c,
    WatcherAddedParamsReader<'c>,
    WatcherAddedResultsBuilder,
>;

/// The answer of a call of `added` that is given later.
pub type WatcherAddedLater = LaterAnswer<WatcherAddedResultsBuilder>;

/// An object of `interface Watcher`.
pub trait WatcherServer: ServiceObject {
    /// What calls of its methods lead to. Of an object that doesn't say it nothing is known.
    ghost watcher_kind: { WatcherKind (At Self Self.Makes) } = { any_watcher };

    /// Takes a note that was added.
    fn added(
        &mut self,
        call: &mut WatcherAddedCall<'_>,
        context: &mut Context<Self::Makes>,
    ) -> MethodResult
        ensures { Answers (λ p. p.body) (λ d. d.body) (λ d. none_named) watcher_kind.on_added (at self.old context.old) call.old call.new result (at self.new context.new) };
}

/// An object of `interface Watcher`, as a connection serves it.
pub type WatcherDispatch<T> = ObjectDispatch<T, WatcherClient>;

/// Resolves a promise of an object of `interface Watcher`: one that is named before it is there.
pub type WatcherResolver = TypedResolver<WatcherClient>;

/// An object of `interface Watcher` that all connections of a host may name.
pub type WatcherShared = SharedClient<WatcherClient>;

impl<T: WatcherServer> Dispatch<T> for WatcherClient {
    ghost takes = { WatcherTakes T.watcher_kind };

    ghost streams = { no_streams };

    fn dispatch(
        object: &mut T,
        call: &MethodCall<'_>,
        context: &mut Context<T::Makes>,
    ) -> Result<Reply, AllocError> {
        match (call.request.interface, call.request.method, call.params()) {
            (0x80a0c5d36bb2c9a2, 0, Ok(body)) => {
                let results = WatcherAddedResultsBuilder::new(context.alloc())?;
                let params = WatcherAddedParamsReader { body };
                let mut passed = ServiceCall::new(context.alloc(), call, params, results);
                let done = WatcherServer::added(object, &mut passed, context);
                passed.reply(call, done)
            }
            (0x80a0c5d36bb2c9a2, 0, Err(fault)) => {
                refuse(context.alloc(), call, MethodFault::WrongKind(fault))
            }
            _ => refuse_method(context.alloc(), call, "Watcher"),
        }
    }

    fn is_stream(interface: u64, method: u16) -> bool {
        let _ = (interface, method);
        false
    }
}

/// `struct Watcher.added$Params`.
#[derive(Drop)]
pub struct WatcherAddedParamsReader<'a> {
    /// The struct, by the places of its fields.
    pub body: StructReader<'a>,
}

impl<'a> WatcherAddedParamsReader<'a> {
    /// `text @0`.
    pub fn text(&self) -> Result<TextReader<'a>, WrongKind>
        ensures { result ≡ text_field [] (pointee_of self.now.body 0) }
    {
        self.body.text(0)
    }
}

/// `struct Watcher.added$Results`.
pub type WatcherAddedResultsReader<'a> = NoFieldsReader<'a>;

/// `struct Watcher.added$Results`, to be written.
pub type WatcherAddedResultsBuilder = NoFieldsBuilder;

/// `struct Watcher.added$Results`, as a question will give it.
pub type WatcherAddedResultsPipeline = NoFieldsPipeline;
