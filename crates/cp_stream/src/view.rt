//! The message of a frame.

ghost use Rattle.std.specs.Prelude.{◌≡◌, ◌⊎◌, IsOk, IfOk, IfErr, OnOk};
ghost use Rattle.cp_rpc.specs.Viewed.{viewed};
ghost use Rattle.cp_messages.specs.declared.message.Message.{Message};
ghost use Rattle.cp_stream.specs.Stream.{Holds, HoldsNone};
ghost use Rattle.cp_stream.specs.Reader.{IsAt, IsMemory};
ghost use Rattle.cp_stream.specs.Answers.{AnswersView};

use crate::fault::{Refusal, StreamFault, refused};
use cp_reading::View;
use cp_rpc::{Message, MessageView, SchemaFault, check_message, message_view};
use cp_words::{Limits, Segments};
use std::alloc::Global;

/// The message of rpc.capnp that a frame's segments hold, read in place: the first pointer's tree, as
/// `struct Message` (encoding specification, "Messages"). No memory is taken. A fault of reading the
/// tree (G1 to G9) refuses it, or else the first field that is at fault (S1, S2).
#[inline(always)]
pub fn view_in<'a>(segments: &'a Segments, limits: Limits) -> Result<MessageView<'a>, Refusal>
    // What is viewed is the message that the segments hold.
    ensures found { IfOk result (λ v. Holds limits segments.now (viewed v)) }
    // The message that the segments hold is viewed.
    ensures only { (m : Message) → Holds limits segments.now m → AnswersView result m }
    // A refusal says why they hold none.
    ensures refused { IfErr result (HoldsNone limits segments.now) }
{
    message_view(View::root(segments, limits)?).map_err(Refusal::Schema)
}

/// As `view_in`, with a refusal reported at 0, as if the frame were the first of a stream.
pub fn view_of<'a>(segments: &'a Segments, limits: Limits) -> Result<MessageView<'a>, StreamFault>
    ensures found { IfOk result (λ v. Holds limits segments.now (viewed v)) }
    ensures only { (m : Message) → Holds limits segments.now m → AnswersView result m }
    ensures refused { IfErr result (IsAt 0 (HoldsNone limits segments.now)) }
{
    view_in(segments, limits).map_err(|refusal| refused(0, refusal))
}

/// Checks that a frame's segments hold a message of rpc.capnp, as `view_in` does, and hands out none.
pub fn check_in(segments: &Segments, limits: Limits) -> Result<(), Refusal>
    // The segments hold a message.
    ensures found { OnOk result ((m : Message) × Holds limits segments.now m) }
    // Segments that hold a message are accepted.
    ensures only { (m : Message) → Holds limits segments.now m → IsOk result }
    // A refusal says why they hold none.
    ensures refused { IfErr result (HoldsNone limits segments.now) }
{
    check_message(&View::root(segments, limits)?).map_err(Refusal::Schema)
}

/// The message that the segments hold, owned.
pub(crate) fn message_in(
    alloc: Global,
    segments: &Segments,
    limits: Limits,
) -> Result<Message, Refusal>
    ensures found { IfOk result (Holds limits segments.now) }
    ensures refused { IfErr result (λ r. IsMemory r ⊎ HoldsNone limits segments.now r) }
{
    let view = view_in(segments, limits)?;
    let message = view.message(alloc);
    // For the proof: it is dropped at one place.
    drop(view);
    match message {
        Ok(message) => Ok(message),
        Err(_) => Err(Refusal::Schema(SchemaFault::OutOfMemory)),
    }
}
