//! The questions of a client, and what is known of them.

ghost use Rattle.std.specs.Prelude.{◌≡◌, Some, None, IfOk, IfErr, OnOk, OnErr};
ghost use Rattle.std.specs.FinMap as map;
ghost use Rattle.cp_client.specs.Telling.{came};
ghost use Rattle.cp_client.specs.Questions.{TakesOut, untaken};
ghost use Rattle.cp_client.specs.declared.fault.ClientFault.TheVariants.{NotAsked};

use crate::fault::ClientFault;
use cp_refs::Outcome;
use cp_tables::Entries;
use std::alloc::{AllocError, Global};

/// The questions whose outcome wasn't given out, each with its outcome once that came.
pub(crate) struct Questions {
    asked: Entries<Option<Outcome>>,
}

impl Drop for Questions {
    fn drop(self) {
        let Questions { asked: _ } = self;
    }
}

impl Questions {
    /// None was asked.
    pub(crate) fn new(alloc: Global) -> Questions
        ensures { result.asked ≡ map.empty }
    {
        Questions {
            asked: Entries::new(alloc),
        }
    }

    /// A question was asked.
    pub(crate) fn ask(&mut self, question: u32) -> Result<(), AllocError>
        ensures asked { OnOk result (self.new.asked ≡ map.insert self.old.asked question None) }
        ensures err { OnErr result (self.new.asked ≡ self.old.asked) }
    {
        self.asked.put(question, None)
    }

    /// Keeps the outcome of a question that is waited for: of one that was finished it is dropped.
    pub(crate) fn come(&mut self, question: u32, outcome: Outcome)
        ensures { self.new.asked ≡ came self.old.asked question outcome }
    {
        if let Some(kept) = self.asked.get_mut(question) {
            *kept = Some(outcome);
        }
    }

    /// The outcome of a question, once that came. It is given out once.
    pub(crate) fn take(&mut self, question: u32) -> Result<Option<Outcome>, ClientFault>
        ensures taken { IfOk result (λ outcome. TakesOut self.old.asked question outcome self.new.asked) }
        ensures unknown { IfErr result (λ fault. (fault ≡ NotAsked) × (map.get self.new.asked question ≡ None)) }
        ensures same { OnErr result (self.new ≡ self.old) }
    {
        let has_come = match self.asked.get(question) {
            Some(outcome) => outcome.is_some(),
            None => return Err(ClientFault::NotAsked),
        };
        if !has_come {
            return Ok(None);
        }
        Ok(self.asked.remove(question).flatten())
    }

    /// A question is waited for no more. Gives its outcome, if that came and wasn't given out.
    pub(crate) fn forget(&mut self, question: u32) -> Option<Outcome>
        ensures forgotten { self.new.asked ≡ map.remove self.old.asked question }
        ensures untaken { result ≡ untaken self.old.asked question }
    {
        self.asked.remove(question).flatten()
    }
}
