//! Reading what a capability in a payload is.

ghost use Rattle.std.specs.Prelude.{◌≡◌, IfOk};
ghost use Rattle.cp_messages.specs.Fields.{IsStructField};
ghost use Rattle.cp_rpc.specs.Answers.{Checks, Gives};
ghost use Rattle.cp_messages.specs.Denoted.{descriptor_denoted};
ghost use Rattle.cp_messages.specs.Faults.{descriptor_faults};
ghost use Rattle.cp_rpc.specs.Viewed.{viewed_descriptor};

use crate::field::struct_field;
use crate::promised_answer::PromisedAnswerView;
use crate::source::Source;
use cp_fields::{u16_at, u32_at};
use cp_messages::{Descriptor, Field, SchemaFault};
use cp_tree::UnknownEnumerant;
use std::alloc::{AllocError, Global};

/// A descriptor that is read in place.
#[derive(Drop)]
pub enum DescriptorView<S: Source> {
    None,
    SenderHosted(u32),
    SenderPromise(u32),
    ReceiverHosted(u32),
    ReceiverAnswer(PromisedAnswerView<S>),
    ThirdPartyHosted(S),
    Unknown(UnknownEnumerant<5>),
}

impl<S: Source> DescriptorView<S> {
    /// Checks the descriptor that a struct says.
    pub(crate) fn check(t: &S) -> Result<(), SchemaFault>
        requires { IsStructField (S.seen t.now) }
        ensures { Checks (descriptor_faults (S.seen t.now)) result }
    {
        // Of the members only `receiverAnswer` has a pointer that is looked into.
        if u16_at(t.data(), Descriptor::WHICH) != 4 {
            return Ok(());
        }
        PromisedAnswerView::check(&struct_field(
            t,
            Descriptor::POINTER,
            Field::CapDescriptorReceiverAnswer,
        )?)
    }

    /// The descriptor that a struct says.
    pub(crate) fn of(t: &S) -> Result<DescriptorView<S>, SchemaFault>
        requires { IsStructField (S.seen t.now) }
        ensures { Gives (viewed_descriptor S.seen) (descriptor_denoted (S.seen t.now)) (descriptor_faults (S.seen t.now)) result }
    {
        let words = t.data();
        let id = u32_at(words, Descriptor::ID);
        match u16_at(words, Descriptor::WHICH) {
            0 => Ok(DescriptorView::None),
            1 => Ok(DescriptorView::SenderHosted(id)),
            2 => Ok(DescriptorView::SenderPromise(id)),
            3 => Ok(DescriptorView::ReceiverHosted(id)),
            4 => {
                let answer = struct_field(
                    t,
                    Descriptor::POINTER,
                    Field::CapDescriptorReceiverAnswer,
                )?;
                Ok(DescriptorView::ReceiverAnswer(PromisedAnswerView::of(&answer)?))
            }
            5 => Ok(DescriptorView::ThirdPartyHosted(t.pointer(Descriptor::POINTER))),
            number => Ok(DescriptorView::Unknown(UnknownEnumerant::of(number))),
        }
    }

    /// The descriptor, owned.
    pub fn descriptor(&self, alloc: Global) -> Result<Descriptor, AllocError>
        ensures { IfOk result (λ d. d ≡ viewed_descriptor S.seen self.now) }
    {
        Ok(match self {
            DescriptorView::None => Descriptor::None,
            DescriptorView::SenderHosted(id) => Descriptor::SenderHosted(*id),
            DescriptorView::SenderPromise(id) => Descriptor::SenderPromise(*id),
            DescriptorView::ReceiverHosted(id) => Descriptor::ReceiverHosted(*id),
            DescriptorView::ReceiverAnswer(answer) => {
                Descriptor::ReceiverAnswer(answer.promised_answer(alloc)?)
            }
            DescriptorView::ThirdPartyHosted(tree) => Descriptor::ThirdPartyHosted(tree.whole(
                alloc,
            )?),
            DescriptorView::Unknown(number) => Descriptor::Unknown(*number),
        })
    }
}
