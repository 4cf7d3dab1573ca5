//! The Desk, an object that gives out another one.

ghost use Rattle.std.specs.Prelude.{◌≡◌, [], map};
ghost use Rattle.cp_servants.specs.Samples.{polled, take_due};

use crate::outcomes::{named_imports, no_such_method};
use crate::sample_outcomes::object_results;
use crate::servant::{Reply, Servant, Settled};
use cp_refs::Request;
use cp_vat_machine::Ids;
use std::alloc::{AllocError, Global};

/// The Desk's interface.
const INTERFACE: u64 = 0xe5a1_0000_0000_0001;

/// The method that is answered at once.
const NOW: u16 = 0;

/// The method that is answered later.
const LATER: u16 = 1;

/// The object that it gives out.
const GIVEN: u32 = 1;

/// The polls before a call's turn comes.
const POLLS: u8 = 2;

/// A call that waits for its turn.
#[derive(Drop)]
struct Due {
    ticket: u64,
    /// The polls before its turn comes.
    polls: u8,
    /// The imports that its table named.
    imports: Ids,
}

/// Gives out object 1: by method 0 at once, by method 1 with the second poll or a later one.
#[derive(Drop)]
pub struct Desk {
    alloc: Global,
    /// The calls that are answered later, the oldest first.
    due: Vec<Due>,
}

impl Desk {
    /// A Desk at which no call waits.
    pub fn new(alloc: Global) -> Desk
        ensures { result.due.items ≡ [] }
    {
        Desk {
            alloc,
            due: Vec::new(alloc),
        }
    }

    /// A poll more went by for each call that waits.
    fn count_poll(&mut self)
        ensures { self.new.due.items ≡ map polled self.old.due.items }
    {
        for due in self.due.iter_mut() {
            due.polls = due.polls.saturating_sub(1);
        }
    }

    /// Takes out the oldest call whose turn has come.
    fn take_due(&mut self) -> Option<Due>
        ensures due { result ≡ (take_due self.old.due.items).0 }
        ensures others { self.new.due.items ≡ (take_due self.old.due.items).1 }
    {
        for place in 0..self.due.len() {
            if self.due[place].polls == 0 {
                return Some(self.due.remove(place));
            }
        }
        None
    }
}

impl Servant for Desk {
    ghost use Rattle.cp_servants.specs.Servant.{seen_as};
    ghost use Rattle.cp_servants.specs.Samples.{desk, samples};

    ghost kind = { seen_as (λ d. desk d.due.items) samples };

    fn call(&mut self, ticket: u64, request: Request) -> Result<Reply, AllocError> {
        let imports = named_imports(self.alloc, &request.caps)?;
        let outcome = match (request.interface, request.method) {
            (INTERFACE, NOW) => object_results(self.alloc, GIVEN)?,
            (INTERFACE, LATER) => {
                self.due.push(Due {
                    ticket,
                    polls: POLLS,
                    imports,
                })?;
                return Ok(Reply::Later);
            }
            _ => no_such_method(self.alloc)?,
        };
        Ok(Reply::Now {
            outcome,
            gives_up: imports,
        })
    }

    fn poll(&mut self) -> Result<Option<Settled>, AllocError> {
        self.count_poll();
        let Some(due) = self.take_due() else {
            return Ok(None);
        };
        Ok(Some(Settled {
            ticket: due.ticket,
            outcome: object_results(self.alloc, GIVEN)?,
            gives_up: due.imports,
        }))
    }

    fn has_more(&self) -> bool {
        !self.due.is_empty()
    }
}
