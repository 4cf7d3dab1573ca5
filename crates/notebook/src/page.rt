//! `page` of notebook.capnp, made by capnpc_rattle.

ghost use Rattle.std.specs.Prelude.{◌≡◌, IfOk, OnOk, OnErr, Err, []};
ghost use Rattle.cp_tree.specs.Seen.{pointee_of};
ghost use Rattle.cp_fields.specs.Pointers.{text_field};
ghost use Rattle.cp_builder.specs.declared.fault.BuildError.TheVariants.{TooLong};
ghost use Rattle.cp_builder.specs.Copies.{Sets};
ghost use Rattle.cp_builder.specs.Drafts.{blank};
ghost use Rattle.cp_interfaces.specs.Calls.{IsCall, MakesOf, request_of};
ghost use Rattle.cp_interfaces.specs.Faults.{Unbuilt};
ghost use Rattle.cp_interfaces.specs.ServiceCalls.{Answers};
ghost use Rattle.cp_interfaces.specs.Streams.{no_streams};
ghost use Rattle.cp_interfaces.specs.Tables.{none_named};
ghost use Rattle.cp_interfaces.specs.Services.{At, at};
ghost use Rattle.notebook.specs.Page.{PageKind, PageTakes, any_page};

use cp_builder::{BuildError, FieldValue, StructBuilder};
use cp_fields::{StructReader, TextReader, WrongKind};
use cp_interfaces::{
    CallTarget, Caller, CapTableBuilder, Dispatch, LaterAnswer, Lends, MethodCall, MethodFault,
    MethodRequest, MethodResult, NoFieldsReader, ObjectDispatch, Results, ServiceCall,
    ServiceObject, SharedClient, TypedClient, TypedPipeline, TypedResolver, refuse, refuse_method,
};
use cp_objects::{Context, SessionCap};
use cp_servants::Reply;
use cp_tree::Whole;
use std::alloc::{AllocError, Global};

/// `interface Page`.
#[derive(Drop)]
pub struct PageClient {
    /// The capability that is called.
    pub target: CallTarget,
}

impl PageClient {
    /// The interface's number.
    pub const ID: u64 = 0xd22af05f2861ac0c;

    /// The object that a capability stands for.
    pub fn new(alloc: Global, cap: SessionCap) -> PageClient
        ensures { result.target ≡ cap }
    {
        PageClient {
            target: CallTarget::new(alloc, cap),
        }
    }

    /// A call of `read @0`.
    pub fn read_request(&self) -> Result<MethodRequest<'_>, BuildError>
        ensures request { IfOk result (λ r. IsCall r self.now.target (request_of 0xd22af05f2861ac0c 0 (blank 0 0) [])) }
        ensures long { result ≡ Err TooLong → ⊥ }
    {
        let params: StructBuilder<0, 0> = StructBuilder::new(self.target.alloc())?;
        let content = params.into_whole();
        Ok(self.target.request(0xd22af05f2861ac0c, 0, content))
    }

    /// The text of the note.
    pub fn read<C: Caller>(&self, caller: &mut C) -> Result<PageReadResultsPipeline, C::Fault>
        ensures { MakesOf (λ p. p.at) C.number C.sends C.Fault.From-2.from_gives (Unbuilt C.Fault.From-1.from_gives ⊥) caller.old self.now.target 0xd22af05f2861ac0c 0 (blank 0 0) [] result caller.new }
    {
        let call = self.read_request()?;
        Ok(PageReadResultsPipeline::of(self.target.call(caller, call.request)?))
    }
}

impl TypedClient for PageClient {
    ghost called = { λ c. c.target };

    fn of(target: CallTarget) -> PageClient {
        PageClient { target }
    }

    fn into_target(self) -> CallTarget {
        self.target
    }
}

/// A call of `read`.
pub type PageReadCall<'c> = ServiceCall<'c, PageReadParamsReader<'c>, PageReadResultsBuilder>;

/// The answer of a call of `read` that is given later.
pub type PageReadLater = LaterAnswer<PageReadResultsBuilder>;

/// An object of `interface Page`.
pub trait PageServer: ServiceObject {
    /// What calls of its methods lead to. Of an object that doesn't say it nothing is known.
    ghost page_kind: { PageKind (At Self Self.Makes) } = { any_page };

    /// The text of the note.
    fn read(
        &mut self,
        call: &mut PageReadCall<'_>,
        context: &mut Context<Self::Makes>,
    ) -> MethodResult
        ensures { Answers (λ p. p.body) (λ d. d.body) (λ d. none_named) page_kind.on_read (at self.old context.old) call.old call.new result (at self.new context.new) };
}

/// An object of `interface Page`, as a connection serves it.
pub type PageDispatch<T> = ObjectDispatch<T, PageClient>;

/// Resolves a promise of an object of `interface Page`: one that is named before it is there.
pub type PageResolver = TypedResolver<PageClient>;

/// An object of `interface Page` that all connections of a host may name.
pub type PageShared = SharedClient<PageClient>;

impl<T: PageServer> Dispatch<T> for PageClient {
    ghost takes = { PageTakes T.page_kind };

    ghost streams = { no_streams };

    fn dispatch(
        object: &mut T,
        call: &MethodCall<'_>,
        context: &mut Context<T::Makes>,
    ) -> Result<Reply, AllocError> {
        match (call.request.interface, call.request.method, call.params()) {
            (0xd22af05f2861ac0c, 0, Ok(body)) => {
                let results = PageReadResultsBuilder::new(context.alloc())?;
                let params = PageReadParamsReader { body };
                let mut passed = ServiceCall::new(context.alloc(), call, params, results);
                let done = PageServer::read(object, &mut passed, context);
                passed.reply(call, done)
            }
            (0xd22af05f2861ac0c, 0, Err(fault)) => {
                refuse(context.alloc(), call, MethodFault::WrongKind(fault))
            }
            _ => refuse_method(context.alloc(), call, "Page"),
        }
    }

    fn is_stream(interface: u64, method: u16) -> bool {
        let _ = (interface, method);
        false
    }
}

/// `struct Page.read$Params`.
pub type PageReadParamsReader<'a> = NoFieldsReader<'a>;

/// `struct Page.read$Results`.
#[derive(Drop)]
pub struct PageReadResultsReader<'a> {
    /// The struct, by the places of its fields.
    pub body: StructReader<'a>,
}

impl<'a> PageReadResultsReader<'a> {
    /// `text @0`.
    pub fn text(&self) -> Result<TextReader<'a>, WrongKind>
        ensures { result ≡ text_field [] (pointee_of self.now.body 0) }
    {
        self.body.text(0)
    }
}

/// `struct Page.read$Results`, to be written.
#[derive(Drop)]
pub struct PageReadResultsBuilder {
    /// The struct, by the places of its fields.
    pub body: StructBuilder<0, 1>,
}

impl PageReadResultsBuilder {
    /// A struct whose fields are all as by default.
    pub fn new(alloc: Global) -> Result<PageReadResultsBuilder, AllocError>
        ensures { IfOk result (λ d. d.body ≡ blank 0 1) }
    {
        Ok(PageReadResultsBuilder {
            body: StructBuilder::new(alloc)?,
        })
    }

    /// Sets `text`.
    pub fn set_text<'a, V: FieldValue<TextReader<'a>>>(
        &mut self,
        value: V,
    ) -> Result<(), BuildError>
        ensures set { OnOk result (Sets (V.stands value) self.old.body 0 self.new.body) }
        ensures left { OnErr result (self.new ≡ self.old) }
        ensures long { result ≡ Err TooLong → V.is_long value }
    {
        let whole = value.into_whole(self.body.alloc())?;
        self.body.set_pointer(0, whole);
        Ok(())
    }
}

impl Results for PageReadResultsBuilder {
    ghost content = { λ d. d.body };

    ghost names = { λ d. none_named };

    fn into_parts(self, alloc: Global) -> (Whole, CapTableBuilder) {
        (self.body.into_whole(), CapTableBuilder::new(alloc))
    }
}

/// `struct Page.read$Results`, as a question will give it.
pub type PageReadResultsPipeline = TypedPipeline<PageReadResultsBuilder>;

impl<'a> Lends<'a> for PageReadResultsBuilder {
    type Reader = PageReadResultsReader<'a>;

    ghost read = { λ x. x.body };

    fn reader(body: StructReader<'a>) -> PageReadResultsReader<'a> {
        PageReadResultsReader { body }
    }
}
