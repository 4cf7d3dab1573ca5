//! What an answer will give.

ghost use Rattle.std.specs.Prelude.{◌≡◌, ◌<◌, All, IfOk};
ghost use Rattle.cp_tree.specs.DraftOf.{draft_of, draft_body_of};
ghost use Rattle.cp_messages.specs.Fitting.{promised_answer_fits};
ghost use Rattle.cp_messages.specs.Representable.{IsOp, IsPromisedAnswer};
ghost use Rattle.cp_messages.specs.Written.{body_written, op_number, op_field, op_written, transform_written, promised_answer_written};

use crate::data::{u16_part, u32_part};
use crate::draft::{list_of, null, struct_of, words_of};
use cp_tree::{Draft, DraftBody, UnknownEnumerant};
use std::alloc::{AllocError, Global};
use std::marker::Model;

/// `struct PromisedAnswer.Op` of rpc.capnp: a step from an answer's content to a capability in it.
#[derive(Clone, Copy, PartialEq, Eq, Debug)]
pub enum Op {
    /// `noop @0 :Void`.
    Noop,
    /// `getPointerField @1 :UInt16`.
    GetPointerField(u16),
    /// Any other number.
    Unknown(UnknownEnumerant<1>),
}

impl Op {
    /// The union's number, u16.
    pub const WHICH: u32 = 0;
    /// `getPointerField @1 :UInt16`.
    pub const FIELD: u32 = 1;

    /// Its member's number, and the number that the member carries.
    fn parts(&self) -> (u16, u16)
        ensures number { result.0 ≡ op_number self.now }
        ensures field { result.1 ≡ op_field self.now }
        ensures held { IsOp self.now }
    {
        match self {
            Op::Noop => (0, 0),
            Op::GetPointerField(field) => (1, *field),
            Op::Unknown(number) => (number.number(), 0),
        }
    }

    /// The struct that the step is written as.
    fn draft<'a>(&self, alloc: Global) -> Result<DraftBody<'a>, AllocError>
        ensures made { IfOk result (λ b. draft_body_of b ≡ body_written (op_written self.now)) }
        ensures held { IfOk result (λ b. IsOp self.now) }
    {
        let (number, field) = self.parts();
        let word = u16_part(Op::WHICH, number) + u16_part(Op::FIELD, field);
        words_of(alloc, &[word])
    }
}

/// `transform @1 :List(Op)` of `struct PromisedAnswer`. Contracts see it as the list of its steps.
pub struct Transform {
    ops: Vec<Op>,
}

// Not derived: a crate that lets one go calls this function, and need not prove the drop of all that it holds.
impl Drop for Transform {
    fn drop(self) {
        let Transform { ops: _ } = self;
    }
}

impl Model for Transform {
    ghost use Rattle.std.specs.Prelude.{List};
    ghost use Rattle.cp_messages.specs.declared.promised_answer.Op.{Op};

    ghost Value = { List Op };

    ghost view = { λ t. t.ops.items };
}

impl Transform {
    /// These steps, in order.
    pub fn new(ops: Vec<Op>) -> Transform
        ensures { result ≡ ops.items }
    {
        Transform { ops }
    }

    /// The steps, lent.
    pub fn ops(&self) -> &[Op]
        ensures { result.now ≡ self.now }
    {
        &self.ops
    }

    /// The steps themselves.
    pub fn into_ops(self) -> Vec<Op>
        ensures { result.items ≡ self }
    {
        let Transform { ops } = self;
        ops
    }

    /// An equal transform.
    pub fn copy(&self, alloc: Global) -> Result<Transform, AllocError>
        ensures { IfOk result (λ t. t ≡ self.now) }
    {
        Ok(Transform::new(Vec::from_slice(alloc, self.ops())?))
    }

    /// The list that the transform is written as.
    fn draft<'a>(&self, alloc: Global) -> Result<Draft<'a>, AllocError>
        ensures made { IfOk result (λ d. draft_of d ≡ transform_written self.now) }
        ensures held { IfOk result (λ d. All IsOp self.now) }
    {
        let ops = self.ops();
        // Null is read as the empty list.
        if ops.is_empty() {
            return Ok(null());
        }
        let mut items = Vec::with_capacity(alloc, ops.len())?;
        for op in ops {
            items.push(op.draft(alloc)?)?;
        }
        Ok(list_of(1, 0, items))
    }
}

/// `struct PromisedAnswer` of rpc.capnp.
#[derive(Drop)]
pub struct PromisedAnswer {
    /// `questionId @0 :QuestionId`.
    pub question_id: u32,
    /// `transform @1 :List(Op)`.
    pub transform: Transform,
}

impl PromisedAnswer {
    /// `questionId @0 :QuestionId`, u32.
    pub const QUESTION_ID: u32 = 0;
    /// `transform @1 :List(Op)`, a pointer.
    pub const TRANSFORM: u32 = 0;

    /// An equal promised answer.
    pub fn copy(&self, alloc: Global) -> Result<PromisedAnswer, AllocError>
        ensures { IfOk result (λ p. p ≡ self.now) }
    {
        Ok(PromisedAnswer {
            question_id: self.question_id,
            transform: self.transform.copy(alloc)?,
        })
    }

    /// Whether each list of the struct that the promised answer is written as is short enough.
    pub(crate) fn fits(&self) -> bool
        ensures { result ≡ promised_answer_fits self.now }
    {
        self.transform.ops().len() < 1 << 29
    }

    /// The struct that the promised answer is written as.
    pub(crate) fn draft<'a>(&self, alloc: Global) -> Result<Draft<'a>, AllocError>
        ensures made { IfOk result (λ d. draft_of d ≡ promised_answer_written self.now) }
        ensures held { IfOk result (λ d. IsPromisedAnswer self.now) }
    {
        let word = u32_part(PromisedAnswer::QUESTION_ID, self.question_id);
        let transform = self.transform.draft(alloc)?;
        struct_of(alloc, &[word], transform)
    }
}
