//! What promises, imports, answers and questions came to.

ghost use Rattle.std.specs.Prelude.{◌≡◌, IfOk};
ghost use Rattle.cp_refs.specs.Route.{open_way};

use crate::cap::{Cap, Path, PromiseId};
use crate::kept_outcome::KeptOutcome;
use crate::outcome::null_capability;
use crate::route::{Gate, Route};
use crate::walk::{Pace, Walk};
use cp_tables::{Entries, Placed};
use std::alloc::{AllocError, AllocFailed, Global};
use std::collections::btree_map::Iter;
use std::marker::Model;

/// How a question was asked.
#[derive(Clone, Copy)]
pub enum QuestionKind {
    /// Its call didn't go out at once.
    Local,
    /// Its call was sent at once.
    Wire,
}

/// A question, and what it came to.
#[derive(Drop)]
pub struct QuestionState {
    pub kind: QuestionKind,
    /// `None` while it is open.
    pub outcome: Option<KeptOutcome>,
}

/// What each promise, import, answer and question came to. Contracts see it as four maps.
pub struct Values {
    alloc: Global,
    promises: Entries<Option<Cap>>,
    imports: Entries<Option<Cap>>,
    answers: Placed<Option<KeptOutcome>>,
    questions: Entries<QuestionState>,
}

// Not derived: a crate that lets one go calls this function, and need not prove the drop of all that it holds.
impl Drop for Values {
    fn drop(self) {
        let Values {
            alloc: _,
            promises: _,
            imports: _,
            answers: _,
            questions: _,
        } = self;
    }
}

impl Model for Values {
    ghost use Rattle.cp_refs.specs.Values.{ValueMaps, values_code};

    ghost Value = { ValueMaps };

    ghost coded = { values_code };

    ghost view = { λ v. record { promises = v.promises; imports = v.imports; answers = v.answers; questions = v.questions } };
}

impl Values {
    ghost use Rattle.std.specs.Prelude.{◌≡◌, ◌≢◌, Option, IfOk, IfErr, OnOk, OnErr, option_copied};
    ghost use Rattle.std.specs.FinMap as map;
    ghost use Rattle.cp_refs.specs.Route.{missing, way, promise_way, question_way, Routes, HasRoute};
    ghost use Rattle.cp_refs.specs.Steps.{StepsFrom};

    /// Nothing is reported yet.
    pub fn new(alloc: Global) -> Values
        ensures { result ≡ record { promises = map.empty; imports = map.empty; answers = map.empty; questions = map.empty } }
    {
        Values {
            alloc,
            promises: Entries::new(alloc),
            imports: Entries::new(alloc),
            answers: Placed::new(alloc),
            questions: Entries::new(alloc),
        }
    }

    /// What a promise came to.
    pub fn promise(&self, id: PromiseId) -> Option<&Option<Cap>>
        ensures { option_copied result ≡ map.get self.now.promises id }
    {
        self.promises.get(id)
    }

    /// What an import came to.
    pub fn import(&self, id: u32) -> Option<&Option<Cap>>
        ensures { option_copied result ≡ map.get self.now.imports id }
    {
        self.imports.get(id)
    }

    /// What an answer came to.
    pub fn answer(&self, id: u32) -> Option<&Option<KeptOutcome>>
        ensures { option_copied result ≡ map.get self.now.answers id }
    {
        self.answers.get(id)
    }

    /// What a question came to.
    pub fn question(&self, id: u32) -> Option<&QuestionState>
        ensures { option_copied result ≡ map.get self.now.questions id }
    {
        self.questions.get(id)
    }

    /// What each promise came to, with its number, rising.
    pub fn promises(&self) -> Iter<'_, u32, Option<Cap>>
        ensures { result ≡ map.entries self.now.promises }
    {
        self.promises.iter()
    }

    /// What each import came to, with its number, rising.
    pub fn imports(&self) -> Iter<'_, u32, Option<Cap>>
        ensures { result ≡ map.entries self.now.imports }
    {
        self.imports.iter()
    }

    /// What each question came to, with its number, rising.
    pub fn questions(&self) -> Iter<'_, u32, QuestionState>
        ensures { result ≡ map.entries self.now.questions }
    {
        self.questions.iter()
    }

    /// Puts what a promise came to, and gives what it had come to. Where memory runs out the value comes
    /// back.
    pub fn put_promise(
        &mut self,
        id: PromiseId,
        value: Option<Cap>,
    ) -> Result<Option<Option<Cap>>, AllocFailed<Option<Cap>>>
        ensures value { IfOk result (λ old. old ≡ map.get self.old.promises id) }
        ensures put { OnOk result (self.new ≡ record self.old { promises = map.insert self.old.promises id value }) }
        ensures back { IfErr result (λ failed. failed.value ≡ value) }
        ensures err { OnErr result (self.new ≡ self.old) }
    {
        self.promises.replace(id, value)
    }

    /// Puts what an import came to, and gives what it had come to. Where memory runs out the value comes
    /// back.
    pub fn put_import(
        &mut self,
        id: u32,
        value: Option<Cap>,
    ) -> Result<Option<Option<Cap>>, AllocFailed<Option<Cap>>>
        ensures value { IfOk result (λ old. old ≡ map.get self.old.imports id) }
        ensures put { OnOk result (self.new ≡ record self.old { imports = map.insert self.old.imports id value }) }
        ensures back { IfErr result (λ failed. failed.value ≡ value) }
        ensures err { OnErr result (self.new ≡ self.old) }
    {
        self.imports.replace(id, value)
    }

    /// Puts what an answer came to, and gives what it had come to. Where memory runs out the outcome comes
    /// back.
    pub fn put_answer(
        &mut self,
        id: u32,
        outcome: Option<KeptOutcome>,
    ) -> Result<Option<Option<KeptOutcome>>, AllocFailed<Option<KeptOutcome>>>
        ensures value { IfOk result (λ old. old ≡ map.get self.old.answers id) }
        ensures put { OnOk result (self.new ≡ record self.old { answers = map.insert self.old.answers id outcome }) }
        ensures back { IfErr result (λ failed. failed.value ≡ outcome) }
        ensures err { OnErr result (self.new ≡ self.old) }
    {
        self.answers.replace(id, outcome)
    }

    /// Puts a question and what it came to, and gives the earlier one. Where memory runs out
    /// the question comes back.
    pub fn put_question(
        &mut self,
        id: u32,
        question: QuestionState,
    ) -> Result<Option<QuestionState>, AllocFailed<QuestionState>>
        ensures value { IfOk result (λ old. old ≡ map.get self.old.questions id) }
        ensures put { OnOk result (self.new ≡ record self.old { questions = map.insert self.old.questions id question }) }
        ensures back { IfErr result (λ failed. failed.value ≡ question) }
        ensures err { OnErr result (self.new ≡ self.old) }
    {
        self.questions.replace(id, question)
    }

    /// Takes a promise out.
    pub fn remove_promise(&mut self, id: PromiseId) -> Option<Option<Cap>>
        ensures value { result ≡ map.get self.old.promises id }
        ensures removed { self.new ≡ record self.old { promises = map.remove self.old.promises id } }
    {
        self.promises.remove(id)
    }

    /// Takes an import out.
    pub fn remove_import(&mut self, id: u32) -> Option<Option<Cap>>
        ensures value { result ≡ map.get self.old.imports id }
        ensures removed { self.new ≡ record self.old { imports = map.remove self.old.imports id } }
    {
        self.imports.remove(id)
    }

    /// Takes an answer out.
    pub fn remove_answer(&mut self, id: u32) -> Option<Option<KeptOutcome>>
        ensures value { result ≡ map.get self.old.answers id }
        ensures removed { self.new ≡ record self.old { answers = map.remove self.old.answers id } }
    {
        self.answers.remove(id)
    }

    /// Takes a question out.
    pub fn remove_question(&mut self, id: u32) -> Option<QuestionState>
        ensures value { result ≡ map.get self.old.questions id }
        ensures removed { self.new ≡ record self.old { questions = map.remove self.old.questions id } }
    {
        self.questions.remove(id)
    }

    /// Where a call on a capability goes. Promises and questions that came to something are
    /// followed.
    pub fn route(&self, cap: &Cap) -> Result<Route, AllocError>
        // The way ends, and what it names exists.
        requires { HasRoute self.now cap.now }
        ensures { IfOk result (λ r. Routes self.now cap.now r) }
    {
        // The walk ends, since no promise leads back to itself.
        let mut walk = Walk::new(self, cap);
        loop {
            match walk.on()? {
                Pace::Ends(route) => return Ok(route),
                Pace::Leads(next) => walk = next,
            }
        }
    }

    /// One step on a capability's way.
    pub(crate) fn step<'a>(&'a self, cap: &'a Cap) -> Result<Step<'a>, AllocError>
        requires { way self.now cap.now ≢ missing }
        ensures { IfOk result (StepsFrom self.now cap.now) }
    {
        Ok(match cap {
            Cap::None => Step::Ends(Route::Fail(null_capability(self.alloc)?)),
            Cap::Object(object) => Step::Ends(Route::Deliver(*object)),
            Cap::Promise(id) => self.step_of_promise(*id),
            // It isn't followed: a call on an import goes to the peer, whatever it came to.
            Cap::Import(id) => Step::Ends(Route::Import(*id)),
            Cap::Pipelined(id, path) => self.step_of_question(*id, path)?,
            Cap::Broken(exception) => Step::Ends(Route::Fail(exception.copy(self.alloc)?)),
        })
    }

    /// The step of a promise.
    fn step_of_promise(&self, id: PromiseId) -> Step<'_>
        requires { promise_way id (map.get self.now.promises id) ≢ missing }
        ensures { StepsFrom self.now (Cap.Promise id) result }
    {
        match self.promise(id) {
            Some(Some(value)) => Step::Leads(value),
            Some(None) => Step::Ends(Route::Wait(Gate::Promise(id))),
            // What a capability names exists.
            None => unreachable!(),
        }
    }

    /// The step of what a question gives at a path.
    fn step_of_question(&self, id: u32, path: &Path) -> Result<Step<'_>, AllocError>
        requires { question_way id path.now (map.get self.now.questions id) ≢ missing }
        ensures { IfOk result (StepsFrom self.now (Cap.Pipelined id path.now)) }
    {
        let Some(question) = self.question(id) else {
            unreachable!()
        };
        match &question.outcome {
            None => Ok(Step::Ends(open_route(self.alloc, question.kind, id, path)?)),
            Some(outcome) => outcome.step(self.alloc, path.fields()),
        }
    }
}

/// What is known of a capability by one look: its route, or that it stands for another one.
#[derive(Drop)]
pub(crate) enum Step<'a> {
    Ends(Route),
    Leads(&'a Cap),
}

/// Where a call goes on what an open question will give.
fn open_route(alloc: Global, kind: QuestionKind, id: u32, path: &Path) -> Result<Route, AllocError>
    ensures { IfOk result (λ r. r ≡ open_way kind id path.now) }
{
    let path = path.copy(alloc)?;
    Ok(match kind {
        QuestionKind::Local => Route::Wait(Gate::Question(id, path)),
        // The peer knows the question, and holds the call there.
        QuestionKind::Wire => Route::Pipe(id, path),
    })
}
