//! One end of a connection (cp_vat), and what goes in and out of it.
//!
//! A `Vat` has no connection of its own. Give it each message of the peer by `receive`, or by `receive_view`
//! as `view_of` reads it in place, in order. Do what its effects ask, in order, and after those of the calls
//! before it:
//!
//! - `Send`: write the message to the peer.
//! - `Deliver`: the call goes to this object of yours. Answer it once by `answer` with its origin, at once
//!   or later.
//! - `Settled`: a question of yours came to this outcome. `finish` gives the question up; the imports that its
//!   outcome named stay until you release them.
//! - `Closed`: the connection is over. Every later call of the vat is refused (V9).
//!
//! `receive_lending` lends a call that goes to an object at once: it returns a `BorrowedCall`, with the content in place, instead of its
//! `Deliver`. Handle it before the other effects.
//!
//! A call that is refused (`VatFault`) changes nothing, and has no effects. At V10 memory ran out: the vat is closed
//! then, and sends no Abort.
//!
//! `bootstrap` and `call` return a question's number. `Cap::Pipelined` with it and a path of pointer fields is a capability of the
//! results: call it, or send it in a table, before they arrive. `promise` makes a promise of yours, and `resolve` settles it.
//! `release` gives an import back, and `forget` drops a settled promise; `idle` says which of these nothing uses any more.

pub use cp_refs::{Cap, Caps, Origin, Outcome, Path, PromiseId, Request};
pub use cp_vat::{BorrowedCall, Vat};
pub use cp_vat_machine::{
    Acted, Effect, Effects, Event, Idle, Ids, PeerFault, Reason, Value, VatFault,
};
