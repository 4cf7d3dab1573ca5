//! Reading what an answer will give.

ghost use Rattle.std.specs.Prelude.{◌≡◌, ◌<◌, length, map, slice_index_or, IfOk};
ghost use Rattle.cp_messages.specs.Fields.{IsStructField, items_of};
ghost use Rattle.cp_rpc.specs.Answers.{Checks, Gives};
ghost use Rattle.cp_messages.specs.Denoted.{op_denoted, promised_answer_denoted};
ghost use Rattle.cp_messages.specs.Faults.{promised_answer_faults};
ghost use Rattle.cp_rpc.specs.Viewed.{viewed_promised_answer};
ghost use Rattle.cp_messages.specs.declared.promised_answer.Op.{Op};

use crate::field::{item_count, list_field};
use crate::source::Source;
use cp_fields::{u16_at, u32_at};
use cp_messages::{Field, Op, PromisedAnswer, SchemaFault, Transform};
use cp_tree::UnknownEnumerant;
use std::alloc::{AllocError, Global};
use std::marker::Model;

/// A transform that is read in place. Contracts see it as the list of its steps.
#[derive(Drop)]
pub struct TransformView<S: Source> {
    source: S,
}

impl<S: Source> Model for TransformView<S> {
    ghost use Rattle.std.specs.Prelude.{List, map};
    ghost use Rattle.cp_messages.specs.declared.promised_answer.Op.{Op};

    ghost Value = { List Op };

    ghost use Rattle.cp_messages.specs.Fields.{items_of};
    ghost use Rattle.cp_messages.specs.Denoted.{ops_denoted};

    ghost view = { λ t. ops_denoted (S.seen t.source) };
}

impl<S: Source> TransformView<S> {
    /// The number of steps.
    pub fn len(&self) -> usize
        ensures { result ≡ length self.now }
    {
        item_count(&self.source)
    }

    /// Step `i`.
    pub fn op(&self, i: usize) -> Op
        requires { i < length self.now }
        ensures { (d : Op) → result ≡ slice_index_or self.now i d }
    {
        op_of(self.source.item(i).data())
    }

    /// The transform, owned.
    pub fn transform(&self, alloc: Global) -> Result<Transform, AllocError>
        ensures { IfOk result (λ t. t ≡ self.now) }
    {
        let count = self.len();
        let mut ops = Vec::with_capacity(alloc, count)?;
        for i in 0..count {
            ops.push(self.op(i))?;
        }
        Ok(Transform::new(ops))
    }
}

/// A promised answer that is read in place.
#[derive(Drop)]
pub struct PromisedAnswerView<S: Source> {
    pub question_id: u32,
    pub transform: TransformView<S>,
}

impl<S: Source> PromisedAnswerView<S> {
    /// Checks the promised answer that a struct says.
    pub(crate) fn check(t: &S) -> Result<(), SchemaFault>
        requires { IsStructField (S.seen t.now) }
        ensures { Checks (promised_answer_faults (S.seen t.now)) result }
    {
        list_field(t, PromisedAnswer::TRANSFORM, Field::PromisedAnswerTransform)?;
        Ok(())
    }

    /// The promised answer that a struct says.
    pub(crate) fn of(t: &S) -> Result<PromisedAnswerView<S>, SchemaFault>
        requires { IsStructField (S.seen t.now) }
        ensures { Gives (viewed_promised_answer S.seen) (promised_answer_denoted (S.seen t.now)) (promised_answer_faults (S.seen t.now)) result }
    {
        let source = list_field(t, PromisedAnswer::TRANSFORM, Field::PromisedAnswerTransform)?;
        Ok(PromisedAnswerView {
            question_id: u32_at(t.data(), PromisedAnswer::QUESTION_ID),
            transform: TransformView { source },
        })
    }

    /// The promised answer, owned.
    pub fn promised_answer(&self, alloc: Global) -> Result<PromisedAnswer, AllocError>
        ensures { IfOk result (λ p. p ≡ viewed_promised_answer S.seen self.now) }
    {
        Ok(PromisedAnswer {
            question_id: self.question_id,
            transform: self.transform.transform(alloc)?,
        })
    }
}

/// The step that a struct's data words say.
fn op_of(words: &[u64]) -> Op
    ensures { result ≡ op_denoted words.now }
{
    match u16_at(words, Op::WHICH) {
        0 => Op::Noop,
        1 => Op::GetPointerField(u16_at(words, Op::FIELD)),
        number => Op::Unknown(UnknownEnumerant::of(number)),
    }
}
