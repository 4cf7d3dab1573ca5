//! A server on one connection (cp_serve), and its objects.
//!
//! `serve` reads a peer's messages, calls your objects, and writes their answers. An object is a `Servant`: `call` gets a call with its
//! ticket, and answers `Now` or `Later`; `poll` settles a later one, by its ticket. Each object is polled once after each message. After
//! the last message they are polled until a round settles nothing.
//!
//! A call that can go to its object at once is lent. `call_view` gets its params in place, as a `RequestView`. By default it makes a tree of
//! them, and calls `call`.
//!
//! A Bootstrap gets object 0. `Cap::Object(k)` in a result's table gives object k to the peer. `Cap::Import(i)` in a call's table is an
//! object of the peer's. An answer may pass it on. Name it in `gives_up` once your object no longer needs it: it is released, with its
//! whole count, once the vat doesn't use it either. The vat doesn't know what your objects hold. If two of them got the same import, let
//! only the last one give it up.
//!
//! While the peer is silent no object is polled: what `poll` settles goes out after the next message, or where the messages end.
//!
//! A call on a number past the list fails with `no such object`, and one whose answer the vat refuses with `bad outcome`.
//!
//! Objects of a `Session`, a `Host` and a `Client` are `ServedObject`s, which may make others: what one does gets a `Context`. `Context::make` gives the
//! capability of a new object, which is dropped once nothing of its connection refers to it, and `Context::keep` keeps one that the object stores.
//! `Context::give_up` takes that back, and lets an import go that the object kept past its answer. `Context::keep_for` has another object keep what
//! it stores. `Context::send` has a call made once the object answered. `Context::wake` has another object polled, and `Context::wake_after` the object
//! itself, some milliseconds later. `Context::later` stands for a call that is answered later: any object of the connection does so, by
//! `Context::settle`. Each object is told its end (`ended`), once: as nothing refers to it any more, or as its connection ends. `Objects` is the
//! objects of one connection with all that they make. An `Either` is one of two types, and a `ServantObject` is a `Servant` as a served object.
//! Sessions, hosts and clients name the type of their objects: a `Host<O>` has `Objects<O>` for each connection. `serve` takes a list.
//!
//! `PayloadBuilder` builds results field by field, and `outcome_of` makes the call's outcome of them. The call fails if they are too long for a
//! message. `word_in`, `text_in` and `data_in` read the fields of the request's content.
//!
//! `Report` says how many messages were taken and sent, and why the vat closed, if it did. A `ServeFault` ends the serving: the messages
//! can't be read on (the faults of `StreamFault`), or memory ran out. Nothing is written after it.
//!
//! The reader and the writer may be the two ends of a `TcpStream`, `&stream` twice, or bytes in memory.

pub use cp_builder::BuildError;
pub use cp_objects::{
    Context, Either, LaterCall, Letter, LetterBody, Objects, PromiseRequest, ReferenceError,
    Resolver, ServantObject, ServedObject, SessionCall, SessionCap, SharedCap, Waker,
};
pub use cp_refs::{Cap, Caps, Outcome, Request};
pub use cp_servants::{
    OutgoingCall, PayloadBuilder, Reply, RequestView, Servant, Settled, data_in, outcome_of,
    text_in, word_in,
};
pub use cp_serve::{Report, ServeFault, serve, serve_each};
pub use cp_vat_machine::{Ids, PeerFault, Reason};
