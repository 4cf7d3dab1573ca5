//! The answers.

ghost use Rattle.std.specs.Prelude.{◌≡◌, ◌≢◌, ◌≤◌, ◌↔◌, None, IsTrue, IsSome, OnOk, IsOkAnd, IsOkUnless, IsErrOf, OnErr, Some, option_copied};
ghost use Rattle.std.specs.Option.{option_map, option_copied_mut};
ghost use Rattle.std.specs.Borrow.{LendsIf, sem};
ghost use Rattle.std.specs.FinMap as map;

use crate::LIMIT;
use crate::exchange::{Exchange, Stage};
use crate::fault::TableFault;
use crate::placed::Placed;
use std::alloc::Global;
use std::marker::Model;

/// The answers of an end: the calls that it received, under numbers that its peer picks (rpc.capnp,
/// `AnswerId`).
///
/// A number is in use until both the Return and the Finish of its answer were noted.
#[derive(Drop)]
pub struct Answers<T> {
    entries: Placed<Exchange<T>>,
}

impl<T> Model for Answers<T> {
    ghost use Rattle.std.specs.FinMap as map;
    ghost use Rattle.std.specs.Coded.{coded_ℕ};
    ghost use Rattle.cp_tables.specs.declared.exchange.Exchange.{Exchange};
    ghost use Rattle.cp_tables.specs.Table.{Table};
    ghost use Rattle.cp_tables.specs.Exchange.{exchange_code};

    ghost Value = { Table (Exchange T) };

    ghost coded = { map.code coded_ℕ (exchange_code T.code) };

    ghost use Rattle.std.specs.Prelude.{◌≤◌};
    ghost use Rattle.cp_tables.specs.declared.TheConstants.{LIMIT};

    ghost view = { λ a. a.entries };

    ghost invariant = { λ a. map.len a.entries ≤ LIMIT };
}

impl<T: Drop> Answers<T> {
    ghost use Rattle.cp_tables.specs.contracts.answers.Answers.{the_row};
    ghost use Rattle.cp_tables.specs.Exchange.{new_exchange, HasStage, with_stage, with_kept};

    /// No answers.
    pub fn new(alloc: Global) -> Answers<T>
        ensures { result ≡ map.empty }
    {
        Answers {
            entries: Placed::new(alloc),
        }
    }

    /// How many answers there are.
    pub fn len(&self) -> usize
        ensures value { result ≡ map.len self.now }
        ensures few { result ≤ LIMIT }
    {
        self.entries.len()
    }

    /// Whether there are none.
    pub fn is_empty(&self) -> bool
        ensures { IsTrue result ↔ (map.len self.now ≡ 0) }
    {
        self.len() == 0
    }

    /// The answer under this number.
    pub fn get(&self, id: u32) -> Option<&Exchange<T>>
        ensures { option_copied result ≡ map.get self.now id }
    {
        self.entries.get(id)
    }

    /// What is kept with the answer under this number, for writing.
    pub fn kept_mut(&mut self, id: u32) -> Option<&mut T>
        ensures* writes_back { sem 𝓛 (LendsIf (the_row T.row) T.row self.entry result (with_kept self.entry.now id) self.entry.now) }
        ensures value { option_copied_mut result ≡ option_map (λ entry. entry.kept) (map.get self.old id) }
    {
        match self.entries.get_mut(id) {
            Some(entry) => Some(&mut entry.kept),
            None => None,
        }
    }

    /// Opens an answer under this number.
    ///
    /// # Errors
    ///
    /// `Taken` where there is one, else `Full` where the table is, and `OutOfMemory`.
    pub fn open(&mut self, id: u32, kept: T) -> Result<(), TableFault>
        // Each fault comes exactly at its cause.
        ensures taken { IsErrOf result TableFault.Taken ↔ IsSome (map.get self.old id) }
        ensures full { IsErrOf result TableFault.Full ↔ (map.get self.old id ≡ None) × (map.len self.old ≡ LIMIT) }

        // Else it opens, unless memory runs out.
        ensures opened { OnOk result (self.new ≡ map.insert self.old id (new_exchange kept)) }
        ensures else_opened { map.get self.old id ≡ None → map.len self.old ≢ LIMIT → IsOkUnless result TableFault.OutOfMemory }
        ensures err { OnErr result (self.new ≡ self.old) }
    {
        if self.entries.len() == LIMIT {
            return Err(self.refusal(id, TableFault::Full));
        }
        let entry = Exchange {
            stage: Stage::Open,
            kept,
        };
        match self.entries.put_new(id, entry) {
            Ok(()) => Ok(()),
            Err(back) => {
                drop(back);
                Err(self.refusal(id, TableFault::OutOfMemory))
            }
        }
    }

    /// Why an answer doesn't open: `Taken` is reported before any other fault.
    fn refusal(&self, id: u32, otherwise: TableFault) -> TableFault
        ensures taken { IsSome (map.get self.now id) → result ≡ TableFault.Taken }
        ensures free { map.get self.now id ≡ None → result ≡ otherwise }
    {
        match self.entries.get(id) {
            Some(_) => TableFault::Taken,
            None => otherwise,
        }
    }

    /// Notes that the answer's Return was sent. Where its Finish was noted, its number is free again.
    ///
    /// # Errors
    ///
    /// `Unknown` where there is no such answer, and `Taken` where its Return was noted.
    pub fn note_return(&mut self, id: u32) -> Result<(), TableFault>
        // Each fault comes exactly at its cause.
        ensures unknown { IsErrOf result TableFault.Unknown ↔ (map.get self.old id ≡ None) }
        ensures taken { IsErrOf result TableFault.Taken ↔ HasStage self.old id Stage.Returned }

        // The first note stays with the entry, and with the second it goes.
        ensures noted { HasStage self.old id Stage.Open → IsOkAnd result (λ _. self.new ≡ with_stage self.old id Stage.Returned) }
        ensures gone { HasStage self.old id Stage.Finished → IsOkAnd result (λ _. self.new ≡ map.remove self.old id) }
        ensures err { OnErr result (self.new ≡ self.old) }
    {
        let Some(answer) = self.entries.get_mut(id) else {
            return Err(TableFault::Unknown);
        };
        if answer.note_return()? {
            drop(self.entries.remove(id));
        }
        Ok(())
    }

    /// Notes that the answer's Finish came. Where its Return was noted, its number is free again.
    ///
    /// # Errors
    ///
    /// `Unknown` where there is no such answer, and `Taken` where its Finish was noted.
    pub fn note_finish(&mut self, id: u32) -> Result<(), TableFault>
        // Each fault comes exactly at its cause.
        ensures unknown { IsErrOf result TableFault.Unknown ↔ (map.get self.old id ≡ None) }
        ensures taken { IsErrOf result TableFault.Taken ↔ HasStage self.old id Stage.Finished }

        // The first note stays with the entry, and with the second it goes.
        ensures noted { HasStage self.old id Stage.Open → IsOkAnd result (λ _. self.new ≡ with_stage self.old id Stage.Finished) }
        ensures gone { HasStage self.old id Stage.Returned → IsOkAnd result (λ _. self.new ≡ map.remove self.old id) }
        ensures err { OnErr result (self.new ≡ self.old) }
    {
        let Some(answer) = self.entries.get_mut(id) else {
            return Err(TableFault::Unknown);
        };
        if answer.note_finish()? {
            drop(self.entries.remove(id));
        }
        Ok(())
    }

    /// Takes the answer under this number out, if there is one, whatever was noted of it.
    pub fn close(&mut self, id: u32)
        ensures { self.new ≡ map.remove self.old id }
    {
        let _ = self.entries.remove(id);
    }
}
