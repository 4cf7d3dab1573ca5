//! The references that the ends of a connection gave each other.

ghost use Rattle.std.specs.Prelude.{◌≡◌, ◌+◌, ◌<◌, ◌^◌, length, IsTrue, OnOk};
ghost use Rattle.cp_rpc.specs.Viewed.{viewed_target};
ghost use Rattle.cp_relay.specs.References.{raised, raised_all, lowered, lowered_all, marks_of, has_room, opened, noted, closed, lent, answered, no_side, no_references};

use crate::numbers::Numbers;
use cp_reading::View;
use cp_rpc::TargetView;
use cp_tables::{Entries, Placed};
use std::alloc::{AllocError, Global};

/// The most references of an end that are kept, and the most questions and numbers beside them.
const MOST_KEPT: usize = 65_536;

/// A reference that an end gave under a number.
#[derive(Clone, Copy)]
pub(crate) struct Given {
    /// How often it was given and not given back.
    pub count: u32,
    /// The marks of the rules by whose calls it came.
    pub marks: u64,
}

/// How far a question has come. With both Return and Finish it is over.
#[derive(Clone, Copy)]
pub(crate) enum QuestionStage {
    Open,
    Returned,
    /// Its Finish went, and keeps what its results give.
    Finished,
    /// Its Finish went, and gives back what its results give.
    Released,
}

/// A question to an end.
#[derive(Drop)]
pub(crate) struct Question {
    pub stage: QuestionStage,
    /// The marks of what its results give.
    pub marks: u64,
    /// The numbers that they gave.
    pub numbers: Numbers,
}

/// What an end of a connection gave to the other.
#[derive(Drop)]
pub(crate) struct Side {
    /// Whether a reference has the marks alone that all ways share by which it was given, and not those of each.
    pub shares: bool,
    /// The end's objects and promises, by their numbers.
    pub given: Placed<Given>,
    /// The questions to it, by their numbers.
    pub questions: Entries<Question>,
    /// What the params of its own calls gave, up to their Returns.
    pub calls: Entries<Numbers>,
    /// How many questions these are, and numbers of theirs and of its calls.
    pub kept: usize,
}

/// The references that the ends of a connection gave each other.
#[derive(Drop)]
pub(crate) struct References {
    pub caller: Side,
    pub callee: Side,
}

impl References {
    /// Those of a connection on which nothing was sent.
    pub(crate) fn new(alloc: Global) -> References
        ensures { result ≡ no_references }
    {
        References {
            // What is passed to an object of the caller's came by some call that passed the object, and it isn't known by which.
            caller: Side::new(alloc, true),
            callee: Side::new(alloc, false),
        }
    }
}

impl Side {
    /// What an end gave that sent nothing.
    fn new(alloc: Global, shares: bool) -> Side
        ensures { result ≡ no_side shares }
    {
        Side {
            shares,
            given: Placed::new(alloc),
            questions: Entries::new(alloc),
            calls: Entries::new(alloc),
            kept: 0,
        }
    }

    /// The marks of what a call to this end goes to, if it gave that.
    pub(crate) fn marks_of(&self, target: &TargetView<View>) -> Option<u64>
        ensures { result ≡ marks_of self.now (viewed_target (λ t. t) target.now) }
    {
        match target {
            TargetView::ImportedCap(id) => match self.given.get(*id) {
                Some(given) => Some(given.marks),
                None => None,
            },
            TargetView::PromisedAnswer(answer) => match self.questions.get(answer.question_id) {
                Some(question) => Some(question.marks),
                None => None,
            },
            TargetView::Unknown(_) => None,
        }
    }

    /// Whether so many more references, or numbers, can be kept.
    pub(crate) fn has_room(&self, count: usize) -> bool
        ensures room { result ≡ has_room self.now count }
        ensures fits { IsTrue result → self.now.kept + count < 2 ^ 64 }
    {
        count <= MOST_KEPT.saturating_sub(self.kept)
            && count <= MOST_KEPT.saturating_sub(self.given.len())
    }

    /// A question is asked, whose results give what has these marks.
    pub(crate) fn open(
        &mut self,
        alloc: Global,
        question: u32,
        marks: u64,
    ) -> Result<(), AllocError>
        requires { self.old.kept + 1 < 2 ^ 64 }
        ensures { OnOk result (self.new ≡ opened self.old question marks) }
    {
        self.kept += 1;
        self.note(alloc, question, marks, QuestionStage::Open)
    }

    /// A question that isn't answered has come so far.
    pub(crate) fn note(
        &mut self,
        alloc: Global,
        question: u32,
        marks: u64,
        stage: QuestionStage,
    ) -> Result<(), AllocError>
        ensures { OnOk result (self.new ≡ noted self.old question marks stage) }
    {
        let numbers = Numbers::new(alloc);
        self.questions.put(
            question,
            Question {
                stage,
                marks,
                numbers,
            },
        )
    }

    /// A question is over, and what its results gave is given back if that is said.
    pub(crate) fn close(&mut self, question: u32, release: bool)
        ensures { self.new ≡ closed self.old question release }
    {
        let Some(question) = self.questions.remove(question) else {
            return;
        };
        if release {
            lower_all(&mut self.given, question.numbers.as_slice());
        }
        self.kept = self
            .kept
            .saturating_sub(1)
            .saturating_sub(question.numbers.len());
        drop(question);
    }

    /// Params of a call of this end give references under these numbers.
    pub(crate) fn lend(&mut self, call: u32, marks: u64, numbers: Numbers) -> Result<(), AllocError>
        requires { self.old.kept + length numbers < 2 ^ 64 }
        ensures { OnOk result (self.new ≡ lent self.old call marks numbers) }
    {
        let count = numbers.len();
        if count == 0 {
            drop(numbers);
            return Ok(());
        }
        if let Err(error) = raise_all(&mut self.given, self.shares, numbers.as_slice(), marks) {
            drop(numbers);
            return Err(error);
        }
        self.kept += count;
        self.calls.put(call, numbers)
    }

    /// A call of this end is answered, and what its params gave is given back if that is said.
    pub(crate) fn answer(&mut self, call: u32, release: bool)
        ensures { self.new ≡ answered self.old call release }
    {
        let Some(numbers) = self.calls.remove(call) else {
            return;
        };
        if release {
            lower_all(&mut self.given, numbers.as_slice());
        }
        self.kept = self.kept.saturating_sub(numbers.len());
        drop(numbers);
    }
}

/// A number is given once more, by calls of rules with these marks.
pub(crate) fn raise(
    given: &mut Placed<Given>,
    shares: bool,
    id: u32,
    marks: u64,
) -> Result<(), AllocError>
    ensures { OnOk result (given.new ≡ raised shares given.old id marks) }
{
    let entry = match given.get(id) {
        Some(entry) => Given {
            count: entry.count.saturating_add(1),
            marks: if shares {
                entry.marks & marks
            } else {
                entry.marks | marks
            },
        },
        None => Given { count: 1, marks },
    };
    let _ = given.replace(id, entry)?;
    Ok(())
}

/// So are all of these.
pub(crate) fn raise_all(
    given: &mut Placed<Given>,
    shares: bool,
    numbers: &[u32],
    marks: u64,
) -> Result<(), AllocError>
    ensures { OnOk result (given.new ≡ raised_all shares given.old marks numbers.now) }
{
    for id in numbers {
        raise(given, shares, *id, marks)?;
    }
    Ok(())
}

/// A number is given back so often. At the last time it is free.
pub(crate) fn lower(given: &mut Placed<Given>, id: u32, count: u32)
    ensures { given.new ≡ lowered given.old id count }
{
    let Some(entry) = given.get_mut(id) else {
        return;
    };
    if count < entry.count {
        entry.count -= count;
    } else {
        let _ = given.remove(id);
    }
}

/// Each of these is given back once.
fn lower_all(given: &mut Placed<Given>, numbers: &[u32])
    ensures { given.new ≡ lowered_all given.old numbers.now }
{
    for id in numbers {
        lower(given, *id, 1);
    }
}
