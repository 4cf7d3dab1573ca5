//! Reading messages.

ghost use Rattle.std.specs.Prelude.{◌≡◌, Some, IsOk, IfOk, IfErr, OnOk};
ghost use Rattle.cp_tree.specs.Node.{IsStruct};
ghost use Rattle.cp_rpc.specs.Answers.{Answers, AnswersView, AnswersIn, IsFirstFault, first_of};
ghost use Rattle.cp_messages.specs.Says.{Says};
ghost use Rattle.cp_messages.specs.Faults.{message_faults};
ghost use Rattle.cp_rpc.specs.Viewed.{viewed, viewed_message};
ghost use Rattle.cp_messages.specs.declared.message.Message.{Message};

use crate::message::{MessageIn, MessageView};
use crate::owned::Owned;
use crate::source::Source;
use cp_messages::{Message, SchemaFault};
use cp_reading::View;
use cp_tree::Object;
use std::alloc::Global;

/// The message that the root struct of a frame says, read in place. A fault is the first in the
/// order of the fields, depth first.
#[inline(always)]
pub fn message_view<'a>(view: View<'a>) -> Result<MessageView<'a>, SchemaFault>
    requires { IsStruct view }
    // What is read is what the tree says.
    ensures found { IfOk result (λ v. Says view.entry (viewed v)) }
    // What the tree says is read.
    ensures only { (m : Message) → Says view.entry m → AnswersView result m }
    // A fault is the first that the tree has.
    ensures fault { IfErr result (λ f. first_of (message_faults view.entry) ≡ Some f) }
{
    message_in(&view)
}

/// The message that a root struct of any source says, read where it lies, as by `message_view`.
#[inline(always)]
pub fn message_in<S: Source>(root: &S) -> Result<MessageIn<S>, SchemaFault>
    requires { IsStruct (S.seen root.now) }
    // What is read is what the tree says.
    ensures found { IfOk result (λ v. Says (S.seen root.now) (viewed_message S.seen v)) }
    // What the tree says is read.
    ensures only { (m : Message) → Says (S.seen root.now) m → AnswersIn S.seen result m }
    // A fault is the first that the tree has.
    ensures fault { IfErr result (λ f. first_of (message_faults (S.seen root.now)) ≡ Some f) }
{
    MessageIn::of(root)
}

/// Checks the message that the root struct of a frame says, as `message_view` does, and hands out none. A
/// fault is the first in the order of the fields, depth first.
pub fn check_message(view: &View) -> Result<(), SchemaFault>
    requires { IsStruct view.now }
    // The tree says a message.
    ensures found { OnOk result ((m : Message) × Says view.now m) }
    // A tree that says a message is accepted.
    ensures only { (m : Message) → Says view.now m → IsOk result }
    // A fault is the first that the tree has.
    ensures fault { IfErr result (λ f. first_of (message_faults view.now) ≡ Some f) }
{
    MessageIn::check(view)
}

/// The message that an owned root struct says. Trees in it are copied. A fault is the first in the
/// order of the fields, depth first.
pub fn message_of(alloc: Global, root: &Object) -> Result<Message, SchemaFault>
    // What is read is what the tree says.
    ensures found { IfOk result (λ m. Says root.now m) }
    // What the tree says is read, unless memory runs out.
    ensures only { (m : Message) → Says root.now m → Answers result m }
    // A fault is the first that the tree has, or an allocation failure.
    ensures fault { IfErr result (IsFirstFault (message_faults root.now)) }
{
    // By way of a view, so that owned trees and frames are read by the same code.
    let view = message_in(&Owned::root(root))?;
    Ok(view.message(alloc)?)
}
