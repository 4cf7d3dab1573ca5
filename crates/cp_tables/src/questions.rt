//! The questions.

ghost use Rattle.std.specs.Prelude.{◌≡◌, ◌≢◌, ◌≤◌, ◌↔◌, None, IsTrue, IfOk, IsOkAnd, IsOkUnless, IsErrOf, OnErr, Some, option_copied};
ghost use Rattle.std.specs.Option.{option_map, option_copied_mut};
ghost use Rattle.std.specs.Borrow.{LendsIf, sem};
ghost use Rattle.std.specs.FinMap as map;

use crate::LIMIT;
use crate::exchange::{Exchange, Stage};
use crate::fault::TableFault;
use crate::slots::Slots;
use std::alloc::Global;
use std::marker::Model;

/// The questions of an end: the calls that it made, under numbers that it picks (rpc.capnp,
/// `QuestionId`).
///
/// A number is in use until both the Return and the Finish of its question were noted.
#[derive(Drop)]
pub struct Questions<T> {
    slots: Slots<Exchange<T>>,
}

impl<T> Model for Questions<T> {
    ghost use Rattle.std.specs.FinMap as map;
    ghost use Rattle.std.specs.Coded.{coded_ℕ};
    ghost use Rattle.cp_tables.specs.declared.exchange.Exchange.{Exchange};
    ghost use Rattle.cp_tables.specs.Table.{Table};
    ghost use Rattle.cp_tables.specs.Exchange.{exchange_code};

    ghost Value = { Table (Exchange T) };

    ghost coded = { map.code coded_ℕ (exchange_code T.code) };

    ghost view = { λ q. q.slots };
}

impl<T: Drop> Questions<T> {
    ghost use Rattle.cp_tables.specs.contracts.questions.Questions.{the_row};
    ghost use Rattle.cp_tables.specs.Exchange.{new_exchange, HasStage, with_stage, with_kept};

    /// No questions.
    pub fn new(alloc: Global) -> Questions<T>
        ensures { result ≡ map.empty }
    {
        Questions {
            slots: Slots::new(alloc),
        }
    }

    /// How many questions there are.
    pub fn len(&self) -> usize
        ensures value { result ≡ map.len self.now }
        ensures few { result ≤ LIMIT }
    {
        self.slots.len()
    }

    /// Whether there are none.
    pub fn is_empty(&self) -> bool
        ensures { IsTrue result ↔ (map.len self.now ≡ 0) }
    {
        self.len() == 0
    }

    /// The question under this number.
    pub fn get(&self, id: u32) -> Option<&Exchange<T>>
        ensures { option_copied result ≡ map.get self.now id }
    {
        self.slots.get(id)
    }

    /// What is kept with the question under this number, for writing.
    pub fn kept_mut(&mut self, id: u32) -> Option<&mut T>
        ensures* writes_back { sem 𝓛 (LendsIf (the_row T.row) T.row self.entry result (with_kept self.entry.now id) self.entry.now) }
        ensures value { option_copied_mut result ≡ option_map (λ entry. entry.kept) (map.get self.old id) }
    {
        match self.slots.get_mut(id) {
            Some(entry) => Some(&mut entry.kept),
            None => None,
        }
    }

    /// Opens a question under a free number.
    ///
    /// # Errors
    ///
    /// `Full` where the table is, and `OutOfMemory`.
    pub fn open(&mut self, kept: T) -> Result<u32, TableFault>
        ensures free { IfOk result (λ id. map.get self.old id ≡ None) }
        ensures opened { IfOk result (λ id. self.new ≡ map.insert self.old id (new_exchange kept)) }
        ensures full { IsErrOf result TableFault.Full ↔ (map.len self.old ≡ LIMIT) }

        // Where the table isn't full it opens, unless memory runs out.
        ensures else_opened { map.len self.old ≢ LIMIT → IsOkUnless result TableFault.OutOfMemory }
        ensures err { OnErr result (self.new ≡ self.old) }
    {
        self.slots.open(Exchange {
            stage: Stage::Open,
            kept,
        })
    }

    /// Notes that the question's Return came. Where its Finish was noted, its number is free again.
    ///
    /// # Errors
    ///
    /// `Unknown` where there is no such question, and `Taken` where its Return was noted.
    pub fn note_return(&mut self, id: u32) -> Result<(), TableFault>
        // Each fault comes exactly at its cause.
        ensures unknown { IsErrOf result TableFault.Unknown ↔ (map.get self.old id ≡ None) }
        ensures taken { IsErrOf result TableFault.Taken ↔ HasStage self.old id Stage.Returned }

        // The first note stays with the entry, and with the second it goes.
        ensures noted { HasStage self.old id Stage.Open → IsOkAnd result (λ _. self.new ≡ with_stage self.old id Stage.Returned) }
        ensures gone { HasStage self.old id Stage.Finished → IsOkAnd result (λ _. self.new ≡ map.remove self.old id) }
        ensures err { OnErr result (self.new ≡ self.old) }
    {
        let Some(question) = self.slots.get_mut(id) else {
            return Err(TableFault::Unknown);
        };
        if question.note_return()? {
            drop(self.slots.remove(id));
        }
        Ok(())
    }

    /// Notes that the question's Finish was sent. Where its Return was noted, its number is free
    /// again.
    ///
    /// # Errors
    ///
    /// `Unknown` where there is no such question, and `Taken` where its Finish was noted.
    pub fn note_finish(&mut self, id: u32) -> Result<(), TableFault>
        // Each fault comes exactly at its cause.
        ensures unknown { IsErrOf result TableFault.Unknown ↔ (map.get self.old id ≡ None) }
        ensures taken { IsErrOf result TableFault.Taken ↔ HasStage self.old id Stage.Finished }

        // The first note stays with the entry, and with the second it goes.
        ensures noted { HasStage self.old id Stage.Open → IsOkAnd result (λ _. self.new ≡ with_stage self.old id Stage.Finished) }
        ensures gone { HasStage self.old id Stage.Returned → IsOkAnd result (λ _. self.new ≡ map.remove self.old id) }
        ensures err { OnErr result (self.new ≡ self.old) }
    {
        let Some(question) = self.slots.get_mut(id) else {
            return Err(TableFault::Unknown);
        };
        if question.note_finish()? {
            drop(self.slots.remove(id));
        }
        Ok(())
    }

    /// Takes the question under this number out, if there is one, whatever was noted of it.
    pub fn close(&mut self, id: u32)
        ensures { self.new ≡ map.remove self.old id }
    {
        let _ = self.slots.remove(id);
    }
}
