//! What values and outcomes hold, and how much memory they take.

ghost use Rattle.std.specs.Prelude.{◌≡◌, ℕ, option_to_list, OnOk, OnErr};
ghost use Rattle.cp_refs.specs.Contents.{given_memory, value_memory};
ghost use Rattle.cp_refs.specs.Memory.{counted};
ghost use Rattle.cp_vat_machine.specs.InUse.{caps_given};
ghost use Rattle.cp_vat_state.specs.Kept.{IsSameKept, KeepsLess, KeepsMore, KeepsNothing};
ghost use Rattle.cp_vat_state.specs.Sought.{asked_memory, question_caps};

use crate::holders::Holders;
use cp_refs::bytes::{lowered, raised};
use cp_refs::{Cap, KeptOutcome, QuestionState};
use std::alloc::{AllocError, Global};

/// How often each capability is held by values and outcomes, and how many bytes of memory they take.
pub(crate) struct KeptContents {
    pub(crate) holders: Holders,
    pub(crate) bytes: u64,
}

// Not derived: a function that lets one go calls this one, and need not prove the drop of all that it holds.
impl Drop for KeptContents {
    fn drop(self) {
        let KeptContents {
            holders: _,
            bytes: _,
        } = self;
    }
}

impl KeptContents {
    /// Nothing is kept.
    pub(crate) fn new(alloc: Global) -> KeptContents
        ensures { KeepsNothing result }
    {
        KeptContents {
            holders: Holders::new(alloc),
            bytes: 0,
        }
    }

    /// Counts a value, or nothing where that fails.
    pub(crate) fn raise_value(&mut self, value: &Option<Cap>) -> Result<(), AllocError>
        ensures raised { OnOk result (KeepsMore self.old self.new (option_to_list value.now) (value_memory value.now)) }
        ensures err { OnErr result (IsSameKept self.old self.new) }
    {
        self.raise(caps_of_value(value), value_memory(value))
    }

    /// Counts a value no more.
    pub(crate) fn lower_value(&mut self, value: &Option<Cap>)
        ensures { KeepsLess self.old self.new (option_to_list value.now) (value_memory value.now) }
    {
        self.lower(caps_of_value(value), value_memory(value));
    }

    /// Counts an outcome, or nothing where that fails.
    pub(crate) fn raise_outcome(&mut self, outcome: &Option<KeptOutcome>) -> Result<(), AllocError>
        ensures raised { OnOk result (KeepsMore self.old self.new (caps_given outcome.now) (given_memory outcome.now)) }
        ensures err { OnErr result (IsSameKept self.old self.new) }
    {
        self.raise(caps_of_outcome(outcome), given_memory(outcome))
    }

    /// Counts an outcome no more.
    pub(crate) fn lower_outcome(&mut self, outcome: &Option<KeptOutcome>)
        ensures { KeepsLess self.old self.new (caps_given outcome.now) (given_memory outcome.now) }
    {
        self.lower(caps_of_outcome(outcome), given_memory(outcome));
    }

    /// Counts what a question came to no more.
    pub(crate) fn lower_question(&mut self, question: &Option<QuestionState>)
        ensures { KeepsLess self.old self.new (question_caps question.now) (asked_memory question.now) }
    {
        match question {
            Some(question) => self.lower_outcome(&question.outcome),
            None => {}
        }
    }

    /// Counts these capabilities and this many bytes, or nothing where that fails.
    fn raise(&mut self, caps: &[Cap], bytes: u64) -> Result<(), AllocError>
        ensures raised { OnOk result ((n : ℕ) → bytes ≡ counted n → KeepsMore self.old self.new caps.now n) }
        ensures err { OnErr result (IsSameKept self.old self.new) }
    {
        let bytes = raised(self.bytes, bytes)?;
        self.holders.raise_all(caps)?;
        self.bytes = bytes;
        Ok(())
    }

    /// Counts these capabilities and this many bytes no more.
    fn lower(&mut self, caps: &[Cap], bytes: u64)
        ensures { (n : ℕ) → bytes ≡ counted n → KeepsLess self.old self.new caps.now n }
    {
        self.holders.lower_all(caps);
        self.bytes = lowered(self.bytes, bytes);
    }
}

/// The capability that is a value, if there is one.
fn caps_of_value(value: &Option<Cap>) -> &[Cap]
    ensures { result.now ≡ option_to_list value.now }
{
    value.as_slice()
}

/// The bytes of memory that a value takes.
fn value_memory(value: &Option<Cap>) -> u64
    ensures { result ≡ counted (value_memory value.now) }
{
    match value {
        Some(cap) => cap.memory(),
        None => 0,
    }
}

/// The capabilities of an outcome.
fn caps_of_outcome(outcome: &Option<KeptOutcome>) -> &[Cap]
    ensures { result.now ≡ caps_given outcome.now }
{
    match outcome {
        Some(outcome) => outcome.caps(),
        None => &[],
    }
}

/// The bytes of memory that what is kept of an outcome takes.
fn given_memory(outcome: &Option<KeptOutcome>) -> u64
    ensures { result ≡ counted (given_memory outcome.now) }
{
    match outcome {
        Some(outcome) => outcome.memory(),
        None => 0,
    }
}
