//! What the gates gave that ended in an event.

ghost use Rattle.std.specs.Prelude.{◌≡◌, is_some, IfOk, OnOk, option_copied};
ghost use Rattle.std.specs.Option.{option_map};
ghost use Rattle.std.specs.FinMap as map;
ghost use Rattle.cp_refs.specs.At.{cap_at};
ghost use Rattle.cp_vat_machine.specs.State.{gave, none_over};
ghost use Rattle.cp_vat_state.specs.Overs.{earlier_of, over_of, over_with};

use crate::gates::Fulfillment;
use cp_refs::{Cap, Gate, KeptOutcome, Path, PromiseId};
use cp_tables::Entries;
use std::alloc::{AllocError, Global};

/// What the gates gave that ended in an event.
pub(crate) struct Overs {
    /// What the gate gave that ended last. Mostly it is the only one, and the maps stay empty.
    last: Option<Fulfillment>,
    earlier: EarlierGates,
}

// Not derived: a function that lets one go calls this one, and need not prove the drop of all that it holds.
impl Drop for Overs {
    fn drop(self) {
        let Overs {
            last: _,
            earlier: _,
        } = self;
    }
}

impl Overs {
    /// None ended.
    pub(crate) fn new(alloc: Global) -> Overs
        ensures { over_of result ≡ none_over }
    {
        Overs {
            last: None,
            earlier: EarlierGates::new(alloc),
        }
    }

    /// One more gate ended, and gave this.
    pub(crate) fn put(&mut self, fulfillment: Fulfillment) -> Result<(), AllocError>
        ensures { OnOk result (over_of self.new ≡ over_with (over_of self.old) fulfillment) }
    {
        match self.last.replace(fulfillment) {
            Some(before) => before.put_into(&mut self.earlier),
            None => Ok(()),
        }
    }

    /// Whether the gate ended.
    pub(crate) fn has(&self, gate: &Gate) -> bool
        ensures { result ≡ is_some (gave (over_of self.now) gate.now) }
    {
        match gate {
            Gate::Answer(id, _) => self.answer(*id).is_some(),
            Gate::Promise(id) => self.promise(*id).is_some(),
            Gate::Question(id, _) => self.question(*id).is_some(),
            Gate::Embargo(id) => self.embargo(*id).is_some(),
        }
    }

    /// What the gate gave.
    pub(crate) fn gave(&self, alloc: Global, gate: &Gate) -> Result<Option<Cap>, AllocError>
        ensures { IfOk result (λ given. given ≡ gave (over_of self.now) gate.now) }
    {
        match gate {
            Gate::Answer(id, path) => given_at(alloc, self.answer(*id), path),
            Gate::Promise(id) => given(alloc, self.promise(*id)),
            Gate::Question(id, path) => given_at(alloc, self.question(*id), path),
            Gate::Embargo(id) => given(alloc, self.embargo(*id)),
        }
    }

    fn answer(&self, id: u32) -> Option<&KeptOutcome>
        ensures { option_copied result ≡ map.get (over_of self.now).answers id }
    {
        match &self.last {
            Some(Fulfillment::Answer(number, outcome)) => {
                if *number == id {
                    Some(outcome)
                } else {
                    self.earlier.answers.get(id)
                }
            }
            _ => self.earlier.answers.get(id),
        }
    }

    fn promise(&self, id: PromiseId) -> Option<&Cap>
        ensures { option_copied result ≡ map.get (over_of self.now).promises id }
    {
        match &self.last {
            Some(Fulfillment::Promise(number, value)) => {
                if *number == id {
                    Some(value)
                } else {
                    self.earlier.promises.get(id)
                }
            }
            _ => self.earlier.promises.get(id),
        }
    }

    fn question(&self, id: u32) -> Option<&KeptOutcome>
        ensures { option_copied result ≡ map.get (over_of self.now).questions id }
    {
        match &self.last {
            Some(Fulfillment::Question(number, outcome)) => {
                if *number == id {
                    Some(outcome)
                } else {
                    self.earlier.questions.get(id)
                }
            }
            _ => self.earlier.questions.get(id),
        }
    }

    fn embargo(&self, id: u32) -> Option<&Cap>
        ensures { option_copied result ≡ map.get (over_of self.now).embargoes id }
    {
        match &self.last {
            Some(Fulfillment::Embargo(number, cap)) => {
                if *number == id {
                    Some(cap)
                } else {
                    self.earlier.embargoes.get(id)
                }
            }
            _ => self.earlier.embargoes.get(id),
        }
    }
}

/// What gates gave that ended before the last one, by their numbers.
pub(crate) struct EarlierGates {
    pub(crate) answers: Entries<KeptOutcome>,
    pub(crate) promises: Entries<Cap>,
    pub(crate) questions: Entries<KeptOutcome>,
    pub(crate) embargoes: Entries<Cap>,
}

// Not derived: a function that lets one go calls this one, and need not prove the drop of all that it holds.
impl Drop for EarlierGates {
    fn drop(self) {
        let EarlierGates {
            answers: _,
            promises: _,
            questions: _,
            embargoes: _,
        } = self;
    }
}

impl EarlierGates {
    fn new(alloc: Global) -> EarlierGates
        ensures { earlier_of result ≡ none_over }
    {
        EarlierGates {
            answers: Entries::new(alloc),
            promises: Entries::new(alloc),
            questions: Entries::new(alloc),
            embargoes: Entries::new(alloc),
        }
    }
}

fn given(alloc: Global, cap: Option<&Cap>) -> Result<Option<Cap>, AllocError>
    ensures { IfOk result (λ given. given ≡ option_copied cap.entry) }
{
    match cap {
        Some(cap) => Ok(Some(cap.copy(alloc)?)),
        None => Ok(None),
    }
}

fn given_at(
    alloc: Global,
    outcome: Option<&KeptOutcome>,
    path: &Path,
) -> Result<Option<Cap>, AllocError>
    ensures { IfOk result (λ given. given ≡ option_map (λ outcome. cap_at outcome path.now) (option_copied outcome.entry)) }
{
    match outcome {
        Some(outcome) => Ok(Some(outcome.at(alloc, path.fields())?)),
        None => Ok(None),
    }
}
