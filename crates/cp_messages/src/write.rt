//! Writing messages.

ghost use Rattle.std.specs.Prelude.{◌≡◌, IfOk, IfErr};
ghost use Rattle.cp_tree.specs.DraftOf.{draft_of as tree_drafted};
ghost use Rattle.cp_tree.specs.Shaped.{Shaped};
ghost use Rattle.cp_messages.specs.Written.{message_written};
ghost use Rattle.cp_messages.specs.Refused.{IsRefusalOf};
ghost use Rattle.cp_messages.specs.Says.{Says};

use crate::message::Message;
use cp_tree::{Draft, Object, WriteFault};
use std::alloc::Global;

/// The root struct that a message is written as, with the trees that it holds lent. It is refused as
/// too costly exactly if one of its lists has 2^29 elements or words or more.
pub fn draft_of(alloc: Global, message: &Message) -> Result<Draft<'_>, WriteFault>
    // What is made is the message's tree.
    ensures made { IfOk result (λ d. tree_drafted d ≡ message_written message.now) }
    // It is one that a message can hold.
    ensures shaped { IfOk result (λ d. Shaped (message_written message.now)) }
    // It says the message.
    ensures says { IfOk result (λ d. Says (message_written message.now) message.now) }
    // A list is too long; or none is, and memory ran out.
    ensures refused { IfErr result (IsRefusalOf message.now) }
{
    // Before anything is made, so that a list that is too long is B2 whether or not memory would have
    // sufficed.
    if !message.fits() {
        return Err(WriteFault::TooCostly);
    }
    Ok(message.draft(alloc)?)
}

/// The root struct that a message is written as. Trees in the message are copied. It is refused as
/// too costly exactly if one of its lists has 2^29 elements or words or more.
pub fn tree_of(alloc: Global, message: &Message) -> Result<Object, WriteFault>
    // What is made is the message's tree.
    ensures made { IfOk result (λ t. t ≡ message_written message.now) }
    // It says the message.
    ensures says { IfOk result (λ t. Says t message.now) }
    // A list is too long; or none is, and memory ran out.
    ensures refused { IfErr result (IsRefusalOf message.now) }
{
    let whole = draft_of(alloc, message)?.copy(alloc)?;
    match whole.into_object() {
        Ok(object) => Ok(object),
        // A message is a struct.
        Err(_) => unreachable!(),
    }
}
