//! The Cell, an object that holds a number.

ghost use Rattle.std.specs.Prelude.{◌≡◌, IfOk};
ghost use Rattle.cp_servants.specs.Samples.{cell_gives, first_word};

use crate::outcomes::{named_imports, no_such_method};
use crate::request::RequestView;
use crate::sample_outcomes::word_results;
use crate::servant::{Reply, Servant, Settled};
use cp_fields::{PointerReader, StructReader};
use cp_refs::{Outcome, Request};
use std::alloc::{AllocError, Global};

/// The Cell's interface.
const INTERFACE: u64 = 0xe5a1_0000_0000_0002;

/// The method that adds to the number.
const ADD: u16 = 0;

/// The method that gives the number.
const GET: u16 = 1;

/// Holds a number, 0 at first. Method 0 adds the first data word of its params to it, and wraps at
/// 2^64; method 1 doesn't. Both answer with the number.
#[derive(Drop)]
pub struct Cell {
    alloc: Global,
    number: u64,
}

impl Cell {
    /// A Cell that holds 0.
    pub fn new(alloc: Global) -> Cell
        ensures { result.number ≡ 0 }
    {
        Cell { alloc, number: 0 }
    }

    /// What a call of a method comes to, whose params begin with this word.
    fn outcome_of(
        &mut self,
        interface: u64,
        method: u16,
        amount: u64,
    ) -> Result<Outcome, AllocError>
        ensures { IfOk result (λ outcome. (outcome, self.new.number) ≡ cell_gives self.old.number interface method amount) }
    {
        match (interface, method) {
            (INTERFACE, ADD) => {
                let sum = self.number.wrapping_add(amount);
                self.number = sum;
                word_results(self.alloc, sum)
            }
            (INTERFACE, GET) => word_results(self.alloc, self.number),
            _ => no_such_method(self.alloc),
        }
    }
}

impl Servant for Cell {
    ghost use Rattle.cp_servants.specs.Servant.{seen_as};
    ghost use Rattle.cp_servants.specs.Samples.{cell, samples};

    ghost kind = { seen_as (λ c. cell c.number) samples };

    fn call(&mut self, _ticket: u64, request: Request) -> Result<Reply, AllocError> {
        let gives_up = named_imports(self.alloc, &request.caps)?;
        let amount = first_word(PointerReader::of_whole(&request.content));
        let outcome = self.outcome_of(request.interface, request.method, amount)?;
        Ok(Reply::Now { outcome, gives_up })
    }

    // No tree of the params is made for their first word.
    fn call_view(
        &mut self,
        _alloc: Global,
        _ticket: u64,
        request: RequestView<'_>,
    ) -> Result<Reply, AllocError> {
        let gives_up = named_imports(self.alloc, &request.caps)?;
        let amount = first_word(request.content);
        let outcome = self.outcome_of(request.interface, request.method, amount)?;
        Ok(Reply::Now { outcome, gives_up })
    }

    fn poll(&mut self) -> Result<Option<Settled>, AllocError> {
        Ok(None)
    }

    fn has_more(&self) -> bool {
        false
    }
}

/// The first data word of a struct; 0 where it has none.
fn first_word(content: PointerReader<'_>) -> u64
    ensures { result ≡ first_word content.entry }
{
    match StructReader::of(content) {
        Ok(params) => params.u64(0),
        Err(_) => 0,
    }
}
