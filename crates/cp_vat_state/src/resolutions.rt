//! What promises, imports, answers and questions came to.

ghost use Rattle.std.specs.Prelude.{◌≡◌, Some, None, IsSome, IfOk, OnOk, OnErr};
ghost use Rattle.std.specs.List.{list_any};
ghost use Rattle.std.specs.FinMap as map;
ghost use Rattle.cp_vat_machine.specs.InUse.{is_import};
ghost use Rattle.cp_vat_state.specs.Sought.{is_sought};
ghost use Rattle.cp_vat_state.specs.Holding.{kept_by, import_values, values_of_others, own_uses};

use crate::kept::KeptContents;
use crate::sought::Sought;
use crate::step_fault::StepFault;
use cp_refs::{Cap, KeptOutcome, PromiseId, QuestionKind, QuestionState, Values};
use cp_tables::{Embargoes, LIMIT};
use cp_vat_machine::PeerFault;
use std::alloc::{AllocError, Global};
use std::marker::Model;

/// What promises, imports, answers and questions came to. It is counted how often each capability is held by
/// that, and how many bytes of memory it takes. Promises get their numbers here. Contracts see the four maps alone.
pub struct Resolutions {
    values: Values,
    /// What the values of promises and the outcomes of answers and questions hold.
    kept: KeptContents,
    /// What the values of imports hold.
    imported: KeptContents,
    numbers: PromiseNumbers,
}

// Not derived: a crate that lets one go calls this function, and need not prove the drop of all that it holds.
impl Drop for Resolutions {
    fn drop(self) {
        let Resolutions {
            values: _,
            kept: _,
            imported: _,
            numbers: _,
        } = self;
    }
}

/// The numbers that promises have. They are picked, and are free again, as those of embargoes are.
type PromiseNumbers = Embargoes<()>;

impl Model for Resolutions {
    ghost use Rattle.cp_refs.specs.Values.{ValueMaps, values_code};
    ghost use Rattle.cp_vat_state.specs.Holding.{AreHeld};
    ghost use Rattle.cp_vat_state.specs.Numbers.{AreNumbered};

    ghost Value = { ValueMaps };

    ghost coded = { values_code };

    ghost view = { λ r. r.values };

    ghost invariant = { λ r. AreHeld r.values r.kept r.imported × AreNumbered r.values.promises r.numbers };
}

impl Resolutions {
    ghost use Rattle.cp_refs.specs.Contents.{values_memory};
    ghost use Rattle.cp_refs.specs.Memory.{counted};
    ghost use Rattle.cp_tables.specs.Table.{with_change};
    ghost use Rattle.cp_vat_machine.specs.Capacity.{Fresh};
    ghost use Rattle.cp_vat_state.specs.Halts.{Meets};

    /// Nothing is reported yet.
    pub fn new(alloc: Global) -> Resolutions
        ensures { result ≡ record { promises = map.empty; imports = map.empty; answers = map.empty; questions = map.empty } }
    {
        Resolutions {
            values: Values::new(alloc),
            kept: KeptContents::new(alloc),
            imported: KeptContents::new(alloc),
            numbers: PromiseNumbers::new(alloc),
        }
    }

    /// What they came to, lent.
    pub fn values(&self) -> &Values
        ensures { result.now ≡ self.now }
    {
        &self.values
    }

    /// Opens a promise under a free number.
    pub fn open_promise(&mut self) -> Result<PromiseId, StepFault>
        ensures fresh { Meets (Fresh self.old.promises) result }
        ensures opened { IfOk result (λ p. self.new ≡ record self.old { promises = map.insert self.old.promises p None }) }
        ensures err { OnErr result (self.new ≡ self.old) }
    {
        if self.numbers.len() == LIMIT {
            return Err(StepFault::Fault(PeerFault::TableFull));
        }
        let id = self.numbers.open(())?;
        match self.values.put_promise(id, None) {
            Ok(old) => drop(old),
            Err(failed) => {
                drop(self.numbers.close(id));
                return Err(failed.into());
            }
        }
        Ok(id)
    }

    /// Settles a promise that exists.
    pub fn settle_promise(&mut self, id: PromiseId, value: Cap) -> Result<(), AllocError>
        requires { IsSome (map.get self.old.promises id) }
        ensures put { OnOk result (self.new ≡ record self.old { promises = map.insert self.old.promises id (Some value) }) }
        ensures err { OnErr result (self.new ≡ self.old) }
    {
        self.put_promise(id, Some(value))
    }

    /// Opens a promise again that was settled, if it exists.
    pub fn reopen_promise(&mut self, id: PromiseId) -> Result<(), AllocError>
        ensures put { OnOk result (self.new ≡ record self.old { promises = with_change self.old.promises id (λ _. None) }) }
        ensures err { OnErr result (self.new ≡ self.old) }
    {
        let Some(_) = self.values.promise(id) else {
            return Ok(());
        };
        self.put_promise(id, None)
    }

    /// Takes a promise out, whose number is free again.
    pub fn remove_promise(&mut self, id: PromiseId)
        ensures { self.new ≡ record self.old { promises = map.remove self.old.promises id } }
    {
        let old = self.values.remove_promise(id).flatten();
        self.kept.lower_value(&old);
        drop(old);
        drop(self.numbers.close(id));
    }

    /// Puts what an import came to.
    pub fn put_import(&mut self, id: u32, value: Option<Cap>) -> Result<(), AllocError>
        ensures put { OnOk result (self.new ≡ record self.old { imports = map.insert self.old.imports id value }) }
        ensures err { OnErr result (self.new ≡ self.old) }
    {
        self.imported.raise_value(&value)?;
        let old = match self.values.put_import(id, value) {
            Ok(old) => old.flatten(),
            Err(failed) => {
                self.imported.lower_value(&failed.value);
                drop(failed);
                return Err(AllocError);
            }
        };
        self.imported.lower_value(&old);
        drop(old);
        Ok(())
    }

    /// Takes an import out.
    pub fn remove_import(&mut self, id: u32)
        ensures { self.new ≡ record self.old { imports = map.remove self.old.imports id } }
    {
        let old = self.values.remove_import(id).flatten();
        self.imported.lower_value(&old);
        drop(old);
    }

    /// Puts what an answer came to.
    pub fn put_answer(&mut self, id: u32, outcome: Option<KeptOutcome>) -> Result<(), AllocError>
        ensures put { OnOk result (self.new ≡ record self.old { answers = map.insert self.old.answers id outcome }) }
        ensures err { OnErr result (self.new ≡ self.old) }
    {
        self.kept.raise_outcome(&outcome)?;
        let old = match self.values.put_answer(id, outcome) {
            Ok(old) => old.flatten(),
            Err(failed) => {
                self.kept.lower_outcome(&failed.value);
                drop(failed);
                return Err(AllocError);
            }
        };
        self.kept.lower_outcome(&old);
        drop(old);
        Ok(())
    }

    /// Takes an answer out.
    pub fn remove_answer(&mut self, id: u32)
        ensures { self.new ≡ record self.old { answers = map.remove self.old.answers id } }
    {
        let old = self.values.remove_answer(id).flatten();
        self.kept.lower_outcome(&old);
        drop(old);
    }

    /// Puts a question that came to nothing yet.
    pub fn open_question(&mut self, id: u32, kind: QuestionKind) -> Result<(), AllocError>
        ensures put { OnOk result (self.new ≡ record self.old { questions = map.insert self.old.questions id (record { kind = kind; outcome = None }) }) }
        ensures err { OnErr result (self.new ≡ self.old) }
    {
        self.put_question(
            id,
            QuestionState {
                kind,
                outcome: None,
            },
        )
    }

    /// Puts what a question came to, if it exists.
    pub fn settle_question(&mut self, id: u32, outcome: KeptOutcome) -> Result<(), AllocError>
        ensures put { OnOk result (self.new ≡ record self.old { questions = with_change self.old.questions id (λ question. record question { outcome = Some outcome }) }) }
        ensures err { OnErr result (self.new ≡ self.old) }
    {
        let Some(question) = self.values.question(id) else {
            return Ok(());
        };
        let kind = question.kind;
        self.put_question(
            id,
            QuestionState {
                kind,
                outcome: Some(outcome),
            },
        )
    }

    /// Takes a question out.
    pub fn remove_question(&mut self, id: u32)
        ensures { self.new ≡ record self.old { questions = map.remove self.old.questions id } }
    {
        let old = self.values.remove_question(id);
        self.kept.lower_question(&old);
        drop(old);
    }

    /// The bytes of memory that all of it takes.
    pub fn memory(&self) -> u64
        ensures { result ≡ counted (values_memory self.now) }
    {
        self.kept.bytes.saturating_add(self.imported.bytes)
    }

    /// Whether it is the value of a promise, or is in what an answer or a question came to.
    pub(crate) fn is_kept(&self, sought: Sought) -> bool
        ensures { result ≡ list_any (is_sought sought) (kept_by self.now) }
    {
        self.kept.holders.has(sought)
    }

    /// Whether it is the value of an import.
    pub(crate) fn is_import_value(&self, sought: Sought) -> bool
        ensures { result ≡ list_any (is_sought sought) (import_values self.now) }
    {
        self.imported.holders.has(sought)
    }

    /// Whether the import is the value of another one.
    pub(crate) fn is_value_of_another(&self, id: u32) -> bool
        ensures { result ≡ list_any (is_import id) (values_of_others self.now id) }
    {
        // An import that is its own value isn't used by that.
        self.imported.holders.number(Sought::Import(id)) > own_uses(&self.values, id)
    }

    /// Puts what a promise that exists came to.
    fn put_promise(&mut self, id: PromiseId, value: Option<Cap>) -> Result<(), AllocError>
        requires { IsSome (map.get self.old.promises id) }
        ensures put { OnOk result (self.new ≡ record self.old { promises = map.insert self.old.promises id value }) }
        ensures err { OnErr result (self.new ≡ self.old) }
    {
        // Counted before it is put, so that what is held is always counted.
        self.kept.raise_value(&value)?;
        let old = match self.values.put_promise(id, value) {
            Ok(old) => old.flatten(),
            Err(failed) => {
                self.kept.lower_value(&failed.value);
                drop(failed);
                return Err(AllocError);
            }
        };
        self.kept.lower_value(&old);
        drop(old);
        Ok(())
    }

    /// Puts a question and what it came to.
    fn put_question(&mut self, id: u32, question: QuestionState) -> Result<(), AllocError>
        ensures put { OnOk result (self.new ≡ record self.old { questions = map.insert self.old.questions id question }) }
        ensures err { OnErr result (self.new ≡ self.old) }
    {
        self.kept.raise_outcome(&question.outcome)?;
        let old = match self.values.put_question(id, question) {
            Ok(old) => old,
            Err(failed) => {
                self.kept.lower_outcome(&failed.value.outcome);
                drop(failed);
                return Err(AllocError);
            }
        };
        self.kept.lower_question(&old);
        drop(old);
        Ok(())
    }
}

/// How often the import is its own value: once or not at all.
fn own_uses(values: &Values, id: u32) -> u64
    ensures { result ≡ own_uses (map.get values.now.imports id) id }
{
    match values.import(id) {
        Some(Some(Cap::Import(other))) if *other == id => 1,
        _ => 0,
    }
}
