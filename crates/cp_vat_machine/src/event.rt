//! What comes to a vat, as values.

use crate::acted::Ids;
use cp_messages::Message;
use cp_refs::{Cap, Origin, Outcome, PromiseId, Request};

/// A call of the vat, with its arguments.
#[derive(Drop)]
pub enum Event {
    Receive(Message),
    Bootstrap,
    Call(Cap, Request),
    Answer(Origin, Outcome),
    Promise,
    Resolve(PromiseId, Cap),
    /// A question's number.
    Finish(u32),
    /// An import's number.
    Release(u32),
    Forget(PromiseId),
    Idle,
}

/// What a call of the vat answers.
#[derive(Drop)]
pub enum Value {
    Nothing,
    /// The number of the question that was opened.
    Question(u32),
    Promise(PromiseId),
    /// The imports and the promises that aren't in use, each rising.
    Idle { imports: Ids, promises: Ids },
}
