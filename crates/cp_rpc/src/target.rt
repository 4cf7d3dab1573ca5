//! Reading what a call or a disembargo is sent to.

ghost use Rattle.std.specs.Prelude.{◌≡◌, IfOk};
ghost use Rattle.cp_messages.specs.Fields.{IsStructField};
ghost use Rattle.cp_rpc.specs.Answers.{Checks, Gives};
ghost use Rattle.cp_messages.specs.Denoted.{target_denoted};
ghost use Rattle.cp_messages.specs.Faults.{target_faults};
ghost use Rattle.cp_rpc.specs.Viewed.{viewed_target};

use crate::field::struct_field;
use crate::promised_answer::PromisedAnswerView;
use crate::source::Source;
use cp_fields::{u16_at, u32_at};
use cp_messages::{Field, SchemaFault, Target};
use cp_tree::UnknownEnumerant;
use std::alloc::{AllocError, Global};

/// A target that is read in place.
#[derive(Drop)]
pub enum TargetView<S: Source> {
    ImportedCap(u32),
    PromisedAnswer(PromisedAnswerView<S>),
    Unknown(UnknownEnumerant<1>),
}

impl<S: Source> TargetView<S> {
    /// Checks the target that a struct says.
    pub(crate) fn check(t: &S) -> Result<(), SchemaFault>
        requires { IsStructField (S.seen t.now) }
        ensures { Checks (target_faults (S.seen t.now)) result }
    {
        // Of the members only `promisedAnswer` has a pointer that is looked into.
        if u16_at(t.data(), Target::WHICH) != 1 {
            return Ok(());
        }
        PromisedAnswerView::check(&struct_field(
            t,
            Target::PROMISED_ANSWER,
            Field::MessageTargetPromisedAnswer,
        )?)
    }

    /// The target that a struct says.
    #[inline(always)]
    pub(crate) fn of(t: &S) -> Result<TargetView<S>, SchemaFault>
        requires { IsStructField (S.seen t.now) }
        ensures { Gives (viewed_target S.seen) (target_denoted (S.seen t.now)) (target_faults (S.seen t.now)) result }
    {
        let words = t.data();
        match u16_at(words, Target::WHICH) {
            0 => Ok(TargetView::ImportedCap(u32_at(words, Target::IMPORTED_CAP))),
            1 => {
                let answer = struct_field(
                    t,
                    Target::PROMISED_ANSWER,
                    Field::MessageTargetPromisedAnswer,
                )?;
                Ok(TargetView::PromisedAnswer(PromisedAnswerView::of(&answer)?))
            }
            number => Ok(TargetView::Unknown(UnknownEnumerant::of(number))),
        }
    }

    /// The target, owned.
    pub fn target(&self, alloc: Global) -> Result<Target, AllocError>
        ensures { IfOk result (λ t. t ≡ viewed_target S.seen self.now) }
    {
        Ok(match self {
            TargetView::ImportedCap(id) => Target::ImportedCap(*id),
            TargetView::PromisedAnswer(answer) => Target::PromisedAnswer(answer.promised_answer(
                alloc,
            )?),
            TargetView::Unknown(number) => Target::Unknown(*number),
        })
    }
}
