//! Interfaces of a schema by name (cp_interfaces): what generated code stands on, and what objects and callers need beside it.
//!
//! For an interface `Store`, `capnpc_rattle` generates the trait `StoreServer`, with a method for each of the schema's. Your object
//! implements it and `ServiceObject`, which names the one type of all objects of its connection, and says whether a further poll may give
//! more (`has_more`). A `StoreDispatch` around it is a `server::ServedObject`. A method gets its `ServiceCall`, which has its params and
//! its results, to be filled in, and the `server::Context` of the object; it returns a `MethodResult`. An `Err` fails the call with an
//! exception: `?` converts faults of fields and of memory, and `failed` makes one of your own. Capabilities of the params are released with
//! the answer, unless `ServiceCall::keep` keeps them, or `keep_for` has another object do so. `ServiceCall::later` gives the `LaterAnswer`
//! (`StoreGetLater`) by which any object of the connection answers.
//!
//! Results and params hold the table of the capabilities that they name: `results.set_page(page)`. A struct with a name of its own may be a
//! part of others, so its setters take the table of what it becomes a part of; as the results of a method it is a `NamedResults`.
//!
//! Lists of structs have generated builders, and those of texts, data, capabilities and lists the builders of this module. Lists of
//! numbers and of enumerants are set to a `Vec`. A field whose type names no capability is also set to what was read, which is copied
//! (`builder::FieldValue`): `work.set_job(call.params.job()?)`.
//!
//! A `StoreClient` calls. Its method `get` takes a `Caller`, for example a `Client`, and the params; it returns a promise. Params that are at
//! most four values and capabilities are arguments, and others have a builder. Fields of the promise that are structs or
//! capabilities are promises and clients too: call them before anything has arrived (pipelining). `payload_of` turns the outcome into what
//! the promise's `results` reads. `get_request` gives the call as a `MethodRequest`: its `request` is for a `Vat`, and `outgoing` makes it the
//! call of an object.

pub use cp_builder::{BuildError, Enumerant};
pub use cp_interfaces::{
    CallTarget, Caller, CapFault, CapListBuilder, CapTable, CapTableBuilder, DataListBuilder,
    Dispatch, LaterAnswer, Lends, ListsBuilder, MethodCall, MethodFault, MethodRequest,
    MethodResult, NamedResults, NamingError, NoFieldsBuilder, NoFieldsPipeline, NoFieldsReader,
    NoResults, ObjectDispatch, Pipeline, ResultPayload, Results, ServiceCall, ServiceObject,
    SharedClient, TextListBuilder, TypedClient, TypedPipeline, TypedResolver, fail, payload_of,
    refuse, reply,
};
pub use cp_refs::failed;
