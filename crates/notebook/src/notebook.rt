//! `notebook` of notebook.capnp, made by capnpc_rattle.

ghost use Rattle.std.specs.Prelude.{◌≡◌, IfOk, OnOk, OnErr, Err, ◌↔◌, ◌≤◌, ◌^◌, length, ◌+◌, ◌∷◌, [], true, false};
ghost use Rattle.cp_tree.specs.Seen.{pointee_of};
ghost use Rattle.cp_fields.specs.Numbers.{plain};
ghost use Rattle.cp_fields.specs.Pointers.{Reads, cap_field, struct_field, text_field};
ghost use Rattle.cp_builder.specs.declared.fault.BuildError.TheVariants.{TooLong};
ghost use Rattle.cp_builder.specs.Drafts.{blank, text_tree, with_pointer, with_uint};
ghost use Rattle.cp_servants.specs.Naming.{pointer_naming};
ghost use Rattle.cp_interfaces.specs.Calls.{IsCall, MakesOf, request_of};
ghost use Rattle.cp_interfaces.specs.Faults.{Unbuilt, Unnamed};
ghost use Rattle.cp_interfaces.specs.Promises.{Finds, promised_cap};
ghost use Rattle.cp_interfaces.specs.ServiceCalls.{Answers};
ghost use Rattle.cp_interfaces.specs.Streams.{no_streams};
ghost use Rattle.cp_interfaces.specs.Tables.{IsFull, may_name, may_name_all, naming, none_named};
ghost use Rattle.cp_interfaces.specs.Services.{At, at};
ghost use Rattle.cp_interfaces.specs.declared.naming_error.NamingError.TheVariants as errors;
ghost use Rattle.notebook.specs.Notebook.{NotebookKind, NotebookTakes, any_notebook};

use crate::page::PageClient;
use crate::watcher::WatcherClient;
use cp_builder::{BuildError, StructBuilder};
use cp_fields::{StructReader, TextReader, WrongKind};
use cp_interfaces::{
    CallTarget, Caller, CapFault, CapTable, CapTableBuilder, Dispatch, LaterAnswer, Lends,
    MethodCall, MethodFault, MethodRequest, MethodResult, NamingError, NoFieldsBuilder,
    NoFieldsPipeline, NoFieldsReader, ObjectDispatch, Pipeline, ResultPayload, Results,
    ServiceCall, ServiceObject, SharedClient, TypedClient, TypedPipeline, TypedResolver, refuse,
    refuse_method,
};
use cp_objects::{Context, SessionCap};
use cp_servants::Reply;
use cp_tree::Whole;
use std::alloc::{AllocError, Global};

/// `interface Notebook`.
#[derive(Drop)]
pub struct NotebookClient {
    /// The capability that is called.
    pub target: CallTarget,
}

impl NotebookClient {
    /// The interface's number.
    pub const ID: u64 = 0x845bdbd96c36d051;

    /// The object that a capability stands for.
    pub fn new(alloc: Global, cap: SessionCap) -> NotebookClient
        ensures { result.target ≡ cap }
    {
        NotebookClient {
            target: CallTarget::new(alloc, cap),
        }
    }

    /// A call of `add @0`.
    pub fn add_request(&self, text: &str) -> Result<MethodRequest<'_>, BuildError>
        ensures request { IfOk result (λ r. IsCall r self.now.target (request_of 0x845bdbd96c36d051 0 (with_pointer (blank 0 1) 0 (text_tree text.now)) [])) }
        ensures long { result ≡ Err TooLong → 2 ^ 29 ≤ length text.now + 1 }
    {
        let mut params: StructBuilder<0, 1> = StructBuilder::new(self.target.alloc())?;
        params.set_pointer(0, cp_builder::text_of(self.target.alloc(), text)?);
        let content = params.into_whole();
        Ok(self.target.request(0x845bdbd96c36d051, 0, content))
    }

    /// Adds a note, and tells all watchers of it.
    pub fn add<C: Caller>(
        &self,
        caller: &mut C,
        text: &str,
    ) -> Result<NotebookAddResultsPipeline, C::Fault>
        ensures { MakesOf (λ p. p.at) C.number C.sends C.Fault.From-2.from_gives (Unbuilt C.Fault.From-1.from_gives (2 ^ 29 ≤ length text.now + 1)) caller.old self.now.target 0x845bdbd96c36d051 0 (with_pointer (blank 0 1) 0 (text_tree text.now)) [] result caller.new }
    {
        let call = self.add_request(text)?;
        Ok(NotebookAddResultsPipeline::of(self.target.call(caller, call.request)?))
    }

    /// A call of `open @1`.
    pub fn open_request(&self, id: u32) -> Result<MethodRequest<'_>, BuildError>
        ensures request { IfOk result (λ r. IsCall r self.now.target (request_of 0x845bdbd96c36d051 1 (with_uint (blank 1 0) 32 0 id) [])) }
        ensures long { result ≡ Err TooLong → ⊥ }
    {
        let mut params: StructBuilder<1, 0> = StructBuilder::new(self.target.alloc())?;
        params.set_u32(0, id);
        let content = params.into_whole();
        Ok(self.target.request(0x845bdbd96c36d051, 1, content))
    }

    /// Makes an object for a note. It goes once its client drops it.
    pub fn open_<C: Caller>(
        &self,
        caller: &mut C,
        id: u32,
    ) -> Result<NotebookOpenResultsPipeline, C::Fault>
        ensures { MakesOf (λ p. p.at) C.number C.sends C.Fault.From-2.from_gives (Unbuilt C.Fault.From-1.from_gives ⊥) caller.old self.now.target 0x845bdbd96c36d051 1 (with_uint (blank 1 0) 32 0 id) [] result caller.new }
    {
        let call = self.open_request(id)?;
        Ok(NotebookOpenResultsPipeline::of(self.target.call(caller, call.request)?))
    }

    /// A call of `watch @2`.
    pub fn watch_request(&self, watcher: WatcherClient) -> Result<MethodRequest<'_>, NamingError>
        ensures request { IfOk result (λ r. IsCall r self.now.target (request_of 0x845bdbd96c36d051 2 (with_pointer (blank 0 1) 0 (pointer_naming (none_named).caps watcher.target.cap)) ((naming none_named watcher.target)).caps)) }
        ensures long { result ≡ Err errors.TooLong → ⊥ }
        ensures own { OnOk result (may_name_all self.now.target.session none_named (watcher.target ∷ []) ≡ true) }
        ensures other { result ≡ Err errors.OtherSession → may_name_all self.now.target.session none_named (watcher.target ∷ []) ≡ false }
    {
        let mut params: StructBuilder<0, 1> = StructBuilder::new(self.target.alloc())?;
        let mut table = CapTableBuilder::new(self.target.alloc());
        params.set_pointer(0, table.add(watcher.target.into_cap())?);
        let content = params.into_whole();
        self.target
            .request_naming(0x845bdbd96c36d051, 2, content, table)
    }

    /// Tells a watcher of each note that is added from now on.
    pub fn watch<C: Caller>(
        &self,
        caller: &mut C,
        watcher: WatcherClient,
    ) -> Result<NotebookWatchResultsPipeline, C::Fault>
        ensures { MakesOf (λ p. p.at) C.number C.sends C.Fault.From-2.from_gives (Unnamed C.Fault.From-2.from_gives ⊥ (may_name_all self.now.target.session none_named (watcher.target ∷ []))) caller.old self.now.target 0x845bdbd96c36d051 2 (with_pointer (blank 0 1) 0 (pointer_naming (none_named).caps watcher.target.cap)) ((naming none_named watcher.target)).caps result caller.new }
    {
        let call = self.watch_request(watcher)?;
        Ok(NotebookWatchResultsPipeline::of(self.target.call(caller, call.request)?))
    }

    /// A call of `next @3`.
    pub fn next_request(&self) -> Result<MethodRequest<'_>, BuildError>
        ensures request { IfOk result (λ r. IsCall r self.now.target (request_of 0x845bdbd96c36d051 3 (blank 0 0) [])) }
        ensures long { result ≡ Err TooLong → ⊥ }
    {
        let params: StructBuilder<0, 0> = StructBuilder::new(self.target.alloc())?;
        let content = params.into_whole();
        Ok(self.target.request(0x845bdbd96c36d051, 3, content))
    }

    /// The page of the note that is added next. Calls of it wait for that note.
    pub fn next<C: Caller>(&self, caller: &mut C) -> Result<NotebookNextResultsPipeline, C::Fault>
        ensures { MakesOf (λ p. p.at) C.number C.sends C.Fault.From-2.from_gives (Unbuilt C.Fault.From-1.from_gives ⊥) caller.old self.now.target 0x845bdbd96c36d051 3 (blank 0 0) [] result caller.new }
    {
        let call = self.next_request()?;
        Ok(NotebookNextResultsPipeline::of(self.target.call(caller, call.request)?))
    }
}

impl TypedClient for NotebookClient {
    ghost called = { λ c. c.target };

    fn of(target: CallTarget) -> NotebookClient {
        NotebookClient { target }
    }

    fn into_target(self) -> CallTarget {
        self.target
    }
}

/// A call of `add`.
pub type NotebookAddCall<'c> = ServiceCall<
    'c,
    NotebookAddParamsReader<'c>,
    NotebookAddResultsBuilder,
>;

/// The answer of a call of `add` that is given later.
pub type NotebookAddLater = LaterAnswer<NotebookAddResultsBuilder>;

/// A call of `open`.
pub type NotebookOpenCall<'c> = ServiceCall<
    'c,
    NotebookOpenParamsReader<'c>,
    NotebookOpenResultsBuilder,
>;

/// The answer of a call of `open` that is given later.
pub type NotebookOpenLater = LaterAnswer<NotebookOpenResultsBuilder>;

/// A call of `watch`.
pub type NotebookWatchCall<'c> = ServiceCall<
    'c,
    NotebookWatchParamsReader<'c>,
    NotebookWatchResultsBuilder,
>;

/// The answer of a call of `watch` that is given later.
pub type NotebookWatchLater = LaterAnswer<NotebookWatchResultsBuilder>;

/// A call of `next`.
pub type NotebookNextCall<'c> = ServiceCall<
    'c,
    NotebookNextParamsReader<'c>,
    NotebookNextResultsBuilder,
>;

/// The answer of a call of `next` that is given later.
pub type NotebookNextLater = LaterAnswer<NotebookNextResultsBuilder>;

/// An object of `interface Notebook`.
pub trait NotebookServer: ServiceObject {
    /// What calls of its methods lead to. Of an object that doesn't say it nothing is known.
    ghost notebook_kind: { NotebookKind (At Self Self.Makes) } = { any_notebook };

    /// Adds a note, and tells all watchers of it.
    fn add(
        &mut self,
        call: &mut NotebookAddCall<'_>,
        context: &mut Context<Self::Makes>,
    ) -> MethodResult
        ensures { Answers (λ p. p.body) (λ d. d.body) (λ d. none_named) notebook_kind.on_add (at self.old context.old) call.old call.new result (at self.new context.new) };

    /// Makes an object for a note. It goes once its client drops it.
    fn open_(
        &mut self,
        call: &mut NotebookOpenCall<'_>,
        context: &mut Context<Self::Makes>,
    ) -> MethodResult
        ensures { Answers (λ p. p.body) (λ d. d.body) (λ d. d.table) notebook_kind.on_open (at self.old context.old) call.old call.new result (at self.new context.new) };

    /// Tells a watcher of each note that is added from now on.
    fn watch(
        &mut self,
        call: &mut NotebookWatchCall<'_>,
        context: &mut Context<Self::Makes>,
    ) -> MethodResult
        ensures { Answers (λ p. p.body) (λ d. d.body) (λ d. none_named) notebook_kind.on_watch (at self.old context.old) call.old call.new result (at self.new context.new) };

    /// The page of the note that is added next. Calls of it wait for that note.
    fn next(
        &mut self,
        call: &mut NotebookNextCall<'_>,
        context: &mut Context<Self::Makes>,
    ) -> MethodResult
        ensures { Answers (λ p. p.body) (λ d. d.body) (λ d. d.table) notebook_kind.on_next (at self.old context.old) call.old call.new result (at self.new context.new) };
}

/// An object of `interface Notebook`, as a connection serves it.
pub type NotebookDispatch<T> = ObjectDispatch<T, NotebookClient>;

/// Resolves a promise of an object of `interface Notebook`: one that is named before it is there.
pub type NotebookResolver = TypedResolver<NotebookClient>;

/// An object of `interface Notebook` that all connections of a host may name.
pub type NotebookShared = SharedClient<NotebookClient>;

impl<T: NotebookServer> Dispatch<T> for NotebookClient {
    ghost takes = { NotebookTakes T.notebook_kind };

    ghost streams = { no_streams };

    fn dispatch(
        object: &mut T,
        call: &MethodCall<'_>,
        context: &mut Context<T::Makes>,
    ) -> Result<Reply, AllocError> {
        match (call.request.interface, call.request.method, call.params()) {
            (0x845bdbd96c36d051, 0, Ok(body)) => {
                let results = NotebookAddResultsBuilder::new(context.alloc())?;
                let params = NotebookAddParamsReader { body };
                let mut passed = ServiceCall::new(context.alloc(), call, params, results);
                let done = NotebookServer::add(object, &mut passed, context);
                passed.reply(call, done)
            }
            (0x845bdbd96c36d051, 1, Ok(body)) => {
                let results = NotebookOpenResultsBuilder::new(context.alloc())?;
                let params = NotebookOpenParamsReader { body };
                let mut passed = ServiceCall::new(context.alloc(), call, params, results);
                let done = NotebookServer::open_(object, &mut passed, context);
                passed.reply(call, done)
            }
            (0x845bdbd96c36d051, 2, Ok(body)) => {
                let results = NotebookWatchResultsBuilder::new(context.alloc())?;
                let params = NotebookWatchParamsReader { body };
                let mut passed = ServiceCall::new(context.alloc(), call, params, results);
                let done = NotebookServer::watch(object, &mut passed, context);
                passed.reply(call, done)
            }
            (0x845bdbd96c36d051, 3, Ok(body)) => {
                let results = NotebookNextResultsBuilder::new(context.alloc())?;
                let params = NotebookNextParamsReader { body };
                let mut passed = ServiceCall::new(context.alloc(), call, params, results);
                let done = NotebookServer::next(object, &mut passed, context);
                passed.reply(call, done)
            }
            (0x845bdbd96c36d051, 0..=3, Err(fault)) => {
                refuse(context.alloc(), call, MethodFault::WrongKind(fault))
            }
            _ => refuse_method(context.alloc(), call, "Notebook"),
        }
    }

    fn is_stream(interface: u64, method: u16) -> bool {
        let _ = (interface, method);
        false
    }
}

/// `struct Notebook.add$Params`.
#[derive(Drop)]
pub struct NotebookAddParamsReader<'a> {
    /// The struct, by the places of its fields.
    pub body: StructReader<'a>,
}

impl<'a> NotebookAddParamsReader<'a> {
    /// `text @0`.
    pub fn text(&self) -> Result<TextReader<'a>, WrongKind>
        ensures { result ≡ text_field [] (pointee_of self.now.body 0) }
    {
        self.body.text(0)
    }
}

/// `struct Notebook.add$Results`.
#[derive(Drop)]
pub struct NotebookAddResultsReader<'a> {
    /// The struct, by the places of its fields.
    pub body: StructReader<'a>,
}

impl<'a> NotebookAddResultsReader<'a> {
    /// `id @0`.
    pub fn id(&self) -> u32
        ensures { result ≡ plain self.now.body 32 0 }
    {
        self.body.u32(0)
    }
}

/// `struct Notebook.add$Results`, to be written.
#[derive(Drop)]
pub struct NotebookAddResultsBuilder {
    /// The struct, by the places of its fields.
    pub body: StructBuilder<1, 0>,
}

impl NotebookAddResultsBuilder {
    /// A struct whose fields are all as by default.
    pub fn new(alloc: Global) -> Result<NotebookAddResultsBuilder, AllocError>
        ensures { IfOk result (λ d. d.body ≡ blank 1 0) }
    {
        Ok(NotebookAddResultsBuilder {
            body: StructBuilder::new(alloc)?,
        })
    }

    /// Sets `id`.
    pub fn set_id(&mut self, value: u32)
        ensures { self.new.body ≡ with_uint self.old.body 32 0 value }
    {
        self.body.set_u32(0, value);
    }
}

impl Results for NotebookAddResultsBuilder {
    ghost content = { λ d. d.body };

    ghost names = { λ d. none_named };

    fn into_parts(self, alloc: Global) -> (Whole, CapTableBuilder) {
        (self.body.into_whole(), CapTableBuilder::new(alloc))
    }
}

/// `struct Notebook.add$Results`, as a question will give it.
pub type NotebookAddResultsPipeline = TypedPipeline<NotebookAddResultsBuilder>;

impl<'a> Lends<'a> for NotebookAddResultsBuilder {
    type Reader = NotebookAddResultsReader<'a>;

    ghost read = { λ x. x.body };

    fn reader(body: StructReader<'a>) -> NotebookAddResultsReader<'a> {
        NotebookAddResultsReader { body }
    }
}

/// `struct Notebook.open$Params`.
#[derive(Drop)]
pub struct NotebookOpenParamsReader<'a> {
    /// The struct, by the places of its fields.
    pub body: StructReader<'a>,
}

impl<'a> NotebookOpenParamsReader<'a> {
    /// `id @0`.
    pub fn id(&self) -> u32
        ensures { result ≡ plain self.now.body 32 0 }
    {
        self.body.u32(0)
    }
}

/// `struct Notebook.open$Results`.
#[derive(Drop)]
pub struct NotebookOpenResultsReader<'a> {
    /// The struct, by the places of its fields.
    pub body: StructReader<'a>,
}

impl<'a> NotebookOpenResultsReader<'a> {
    /// `page @0`.
    pub fn page(&self) -> Result<Option<u32>, WrongKind>
        ensures { result ≡ cap_field (pointee_of self.now.body 0) }
    {
        self.body.cap(0)
    }

    /// `page @0`, of those that a table has.
    pub fn page_client(&self, alloc: Global, caps: CapTable<'_>) -> Result<PageClient, CapFault>
        ensures { Finds result (λ c. c.target) (cap_field (pointee_of self.now.body 0)) caps.entry }
    {
        let place = self.page()?;
        Ok(PageClient {
            target: CallTarget::of_field(alloc, place, caps)?,
        })
    }
}

/// `struct Notebook.open$Results`, to be written.
#[derive(Drop)]
pub struct NotebookOpenResultsBuilder {
    /// The struct, by the places of its fields.
    pub body: StructBuilder<0, 1>,
    /// The capabilities that it names.
    pub table: CapTableBuilder,
}

impl NotebookOpenResultsBuilder {
    /// A struct whose fields are all as by default.
    pub fn new(alloc: Global) -> Result<NotebookOpenResultsBuilder, AllocError>
        ensures blank { IfOk result (λ d. d.body ≡ blank 0 1) }
        ensures names { IfOk result (λ d. d.table ≡ none_named) }
    {
        Ok(NotebookOpenResultsBuilder {
            body: StructBuilder::new(alloc)?,
            table: CapTableBuilder::new(alloc),
        })
    }

    /// Sets `page`.
    pub fn set_page(&mut self, value: PageClient) -> Result<(), NamingError>
        ensures set { OnOk result (self.new.body ≡ with_pointer self.old.body 0 (pointer_naming self.old.table.caps value.target.cap)) }
        ensures added { OnOk result (self.new.table ≡ naming self.old.table value.target) }
        ensures left { OnErr result (self.new ≡ self.old) }
        ensures full { result ≡ Err errors.TooLong ↔ IsFull self.old.table }
        ensures own { OnOk result (may_name self.old.table value.target ≡ true) }
        ensures other { result ≡ Err errors.OtherSession → may_name self.old.table value.target ≡ false }
    {
        let pointer = self.table.add(value.target.into_cap())?;
        self.body.set_pointer(0, pointer);
        Ok(())
    }
}

impl Results for NotebookOpenResultsBuilder {
    ghost content = { λ d. d.body };

    ghost names = { λ d. d.table };

    fn into_parts(self, alloc: Global) -> (Whole, CapTableBuilder) {
        let _ = alloc;
        (self.body.into_whole(), self.table)
    }
}

/// `struct Notebook.open$Results`, as a question will give it.
#[derive(Drop)]
pub struct NotebookOpenResultsPipeline {
    /// The question, and the path to the struct.
    pub at: Pipeline,
}

impl NotebookOpenResultsPipeline {
    /// What is promised there.
    pub fn of(at: Pipeline) -> NotebookOpenResultsPipeline
        ensures { result.at ≡ at }
    {
        NotebookOpenResultsPipeline { at }
    }

    /// The number of the question, whose outcome can be waited for.
    pub fn question(&self) -> u32
        ensures { result ≡ self.now.at.question }
    {
        self.at.question()
    }

    /// The results that came.
    pub fn results<'a>(
        &self,
        came: &'a ResultPayload,
    ) -> Result<NotebookOpenResultsReader<'a>, WrongKind>
        ensures { Reads result (λ x. x.body) (struct_field came.now.content) }
    {
        Ok(NotebookOpenResultsReader {
            body: came.results()?,
        })
    }

    /// `page @0`.
    pub fn page(&self) -> Result<PageClient, AllocError>
        ensures { IfOk result (λ c. c.target ≡ promised_cap self.now.at 0) }
    {
        Ok(PageClient {
            target: self.at.target(0)?,
        })
    }
}

/// `struct Notebook.watch$Params`.
#[derive(Drop)]
pub struct NotebookWatchParamsReader<'a> {
    /// The struct, by the places of its fields.
    pub body: StructReader<'a>,
}

impl<'a> NotebookWatchParamsReader<'a> {
    /// `watcher @0`.
    pub fn watcher(&self) -> Result<Option<u32>, WrongKind>
        ensures { result ≡ cap_field (pointee_of self.now.body 0) }
    {
        self.body.cap(0)
    }

    /// `watcher @0`, of those that a table has.
    pub fn watcher_client(
        &self,
        alloc: Global,
        caps: CapTable<'_>,
    ) -> Result<WatcherClient, CapFault>
        ensures { Finds result (λ c. c.target) (cap_field (pointee_of self.now.body 0)) caps.entry }
    {
        let place = self.watcher()?;
        Ok(WatcherClient {
            target: CallTarget::of_field(alloc, place, caps)?,
        })
    }
}

/// `struct Notebook.watch$Results`.
pub type NotebookWatchResultsReader<'a> = NoFieldsReader<'a>;

/// `struct Notebook.watch$Results`, to be written.
pub type NotebookWatchResultsBuilder = NoFieldsBuilder;

/// `struct Notebook.watch$Results`, as a question will give it.
pub type NotebookWatchResultsPipeline = NoFieldsPipeline;

/// `struct Notebook.next$Params`.
pub type NotebookNextParamsReader<'a> = NoFieldsReader<'a>;

/// `struct Notebook.next$Results`.
#[derive(Drop)]
pub struct NotebookNextResultsReader<'a> {
    /// The struct, by the places of its fields.
    pub body: StructReader<'a>,
}

impl<'a> NotebookNextResultsReader<'a> {
    /// `page @0`.
    pub fn page(&self) -> Result<Option<u32>, WrongKind>
        ensures { result ≡ cap_field (pointee_of self.now.body 0) }
    {
        self.body.cap(0)
    }

    /// `page @0`, of those that a table has.
    pub fn page_client(&self, alloc: Global, caps: CapTable<'_>) -> Result<PageClient, CapFault>
        ensures { Finds result (λ c. c.target) (cap_field (pointee_of self.now.body 0)) caps.entry }
    {
        let place = self.page()?;
        Ok(PageClient {
            target: CallTarget::of_field(alloc, place, caps)?,
        })
    }
}

/// `struct Notebook.next$Results`, to be written.
#[derive(Drop)]
pub struct NotebookNextResultsBuilder {
    /// The struct, by the places of its fields.
    pub body: StructBuilder<0, 1>,
    /// The capabilities that it names.
    pub table: CapTableBuilder,
}

impl NotebookNextResultsBuilder {
    /// A struct whose fields are all as by default.
    pub fn new(alloc: Global) -> Result<NotebookNextResultsBuilder, AllocError>
        ensures blank { IfOk result (λ d. d.body ≡ blank 0 1) }
        ensures names { IfOk result (λ d. d.table ≡ none_named) }
    {
        Ok(NotebookNextResultsBuilder {
            body: StructBuilder::new(alloc)?,
            table: CapTableBuilder::new(alloc),
        })
    }

    /// Sets `page`.
    pub fn set_page(&mut self, value: PageClient) -> Result<(), NamingError>
        ensures set { OnOk result (self.new.body ≡ with_pointer self.old.body 0 (pointer_naming self.old.table.caps value.target.cap)) }
        ensures added { OnOk result (self.new.table ≡ naming self.old.table value.target) }
        ensures left { OnErr result (self.new ≡ self.old) }
        ensures full { result ≡ Err errors.TooLong ↔ IsFull self.old.table }
        ensures own { OnOk result (may_name self.old.table value.target ≡ true) }
        ensures other { result ≡ Err errors.OtherSession → may_name self.old.table value.target ≡ false }
    {
        let pointer = self.table.add(value.target.into_cap())?;
        self.body.set_pointer(0, pointer);
        Ok(())
    }
}

impl Results for NotebookNextResultsBuilder {
    ghost content = { λ d. d.body };

    ghost names = { λ d. d.table };

    fn into_parts(self, alloc: Global) -> (Whole, CapTableBuilder) {
        let _ = alloc;
        (self.body.into_whole(), self.table)
    }
}

/// `struct Notebook.next$Results`, as a question will give it.
#[derive(Drop)]
pub struct NotebookNextResultsPipeline {
    /// The question, and the path to the struct.
    pub at: Pipeline,
}

impl NotebookNextResultsPipeline {
    /// What is promised there.
    pub fn of(at: Pipeline) -> NotebookNextResultsPipeline
        ensures { result.at ≡ at }
    {
        NotebookNextResultsPipeline { at }
    }

    /// The number of the question, whose outcome can be waited for.
    pub fn question(&self) -> u32
        ensures { result ≡ self.now.at.question }
    {
        self.at.question()
    }

    /// The results that came.
    pub fn results<'a>(
        &self,
        came: &'a ResultPayload,
    ) -> Result<NotebookNextResultsReader<'a>, WrongKind>
        ensures { Reads result (λ x. x.body) (struct_field came.now.content) }
    {
        Ok(NotebookNextResultsReader {
            body: came.results()?,
        })
    }

    /// `page @0`.
    pub fn page(&self) -> Result<PageClient, AllocError>
        ensures { IfOk result (λ c. c.target ≡ promised_cap self.now.at 0) }
    {
        Ok(PageClient {
            target: self.at.target(0)?,
        })
    }
}
