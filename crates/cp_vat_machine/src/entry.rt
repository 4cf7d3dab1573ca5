//! What a vat keeps with the entries of its tables.

use cp_refs::{Path, PromiseId};
use std::alloc::AllocError;
use std::marker::Model;

/// The exports that a message's capability table names, as often as it names each. Contracts see
/// them as their list.
pub struct Mentions {
    ids: Vec<u32>,
}

// Not derived: a crate that lets one go calls this function, and need not prove the drop of all that it holds.
impl Drop for Mentions {
    fn drop(self) {
        let Mentions { ids: _ } = self;
    }
}

impl Model for Mentions {
    ghost use Rattle.std.specs.Prelude.{ℕ, List};

    ghost Value = { List ℕ };

    ghost view = { λ m. m.ids.items };
}

impl Mentions {
    ghost use Rattle.std.specs.Prelude.{◌≡◌};

    /// These exports, in order.
    pub fn new(ids: Vec<u32>) -> Mentions
        ensures { result ≡ ids.items }
    {
        Mentions { ids }
    }

    /// The exports, lent.
    pub fn ids(&self) -> &[u32]
        ensures { result.now ≡ self.now }
    {
        &self.ids
    }
}

/// What a vat keeps with a question.
#[derive(Drop)]
pub struct QuestionEntry {
    /// The answer that it gives, if it forwards a call of the peer's.
    pub forwards: Option<u32>,
    /// The ticket of its call; a Bootstrap has none.
    pub ticket: Option<u64>,
    /// Whether its Call or Bootstrap was sent.
    pub is_sent: bool,
    /// Whether its call was delivered to an object of this application.
    pub is_delivered: bool,
    /// The exports that its params name, once they were sent.
    pub mentions: Mentions,
}

/// A promise that stands for what an answer will give at a path.
#[derive(Drop)]
pub struct Tied {
    pub promise: PromiseId,
    pub path: Path,
}

/// Promises tied to one answer, in the order in which they were opened. Contracts see them as their
/// list.
pub struct TiedPromises {
    promises: Vec<Tied>,
}

// Not derived: a crate that lets one go calls this function, and need not prove the drop of all that it holds.
impl Drop for TiedPromises {
    fn drop(self) {
        let TiedPromises { promises: _ } = self;
    }
}

impl Model for TiedPromises {
    ghost use Rattle.std.specs.Prelude.{List};
    ghost use Rattle.cp_vat_machine.specs.declared.entry.Tied.{Tied};

    ghost Value = { List Tied };

    ghost use Rattle.std.specs.Coded.{coded_list};
    ghost use Rattle.cp_vat_machine.specs.contracts.entry.Tied.{the_row};

    ghost coded = { coded_list the_row.coded };

    ghost view = { λ t. t.promises.items };
}

impl TiedPromises {
    ghost use Rattle.std.specs.Prelude.{◌≡◌, ◌∷◌, ◌++◌, [], OnOk, OnErr};

    /// These promises, in order.
    pub fn new(promises: Vec<Tied>) -> TiedPromises
        ensures { result ≡ promises.items }
    {
        TiedPromises { promises }
    }

    /// The promises, lent.
    pub fn promises(&self) -> &[Tied]
        ensures { result.now ≡ self.now }
    {
        &self.promises
    }

    /// Ties one more.
    pub fn push(&mut self, tied: Tied) -> Result<(), AllocError>
        ensures pushed { OnOk result (self.new ≡ self.old ++ tied ∷ []) }
        ensures err { OnErr result (self.new ≡ self.old) }
    {
        self.promises.push(tied)?;
        Ok(())
    }
}

/// What a vat keeps with an answer.
#[derive(Drop)]
pub struct AnswerEntry {
    /// The ticket of its call; a Bootstrap has none.
    pub ticket: Option<u64>,
    /// Whether its call was delivered to an object of this application.
    pub is_delivered: bool,
    /// The exports that its results name, once they were sent.
    pub mentions: Mentions,
    /// The promises that are settled when it is given.
    pub tied: TiedPromises,
}

/// As what an import was first sent.
#[derive(Clone, Copy)]
pub enum ImportKind {
    /// By a senderHosted: it is never resolved.
    Hosted,
    /// By a senderPromise: it may be resolved once.
    Promise,
}
