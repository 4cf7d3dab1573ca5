//! The calls that other sessions forwarded.

ghost use Rattle.std.specs.Prelude.{◌≡◌, OnOk};
ghost use Rattle.std.specs.FinMap as maps;
ghost use Rattle.cp_objects.specs.Lending.{answered, canceled, first_in, name_of, no_calls, with_call, without_first};

use crate::letters::{Caller, ForwardedCall};
use std::alloc::{AllocError, Global};
use std::collections::BTreeMap;
use std::collections::btree_map::Iter;
use std::marker::Model;

/// The calls that other sessions forwarded and that aren't answered, by numbers, which go up as they come.
pub(crate) struct ForwardedCalls {
    /// Those that are yet to be made.
    waiting: BTreeMap<u64, ForwardedCall>,
    /// Who is told what each comes to, whether it was made or not.
    callers: BTreeMap<u64, Caller>,
    /// The number of each, by its session and the ticket that it has there (`name_of`).
    numbers: BTreeMap<u128, u64>,
    next: u64,
}

// Not derived: a function that lets one go calls this one, and need not prove the drop of what it holds.
impl Drop for ForwardedCalls {
    fn drop(self) {
        let ForwardedCalls {
            waiting: _,
            callers: _,
            numbers: _,
            next: _,
        } = self;
    }
}

impl Model for ForwardedCalls {
    ghost use Rattle.std.specs.FinMap as map;
    ghost use Rattle.cp_objects.specs.Lending.{CallsState};
    ghost use Rattle.cp_objects.specs.SharingCode.{calls_code};

    ghost Value = { CallsState };

    ghost coded = { calls_code };

    ghost view = { λ c. record { waiting = map.from_entries c.waiting.entries; callers = map.from_entries c.callers.entries; numbers = map.from_entries c.numbers.entries; next = c.next } };
}

impl ForwardedCalls {
    /// None came.
    pub(crate) fn new(alloc: Global) -> ForwardedCalls
        ensures { result ≡ no_calls }
    {
        ForwardedCalls {
            waiting: BTreeMap::new(alloc),
            callers: BTreeMap::new(alloc),
            numbers: BTreeMap::new(alloc),
            next: 0,
        }
    }

    /// One came, after the others.
    pub(crate) fn add(&mut self, call: ForwardedCall) -> Result<(), AllocError>
        ensures { OnOk result (self.new ≡ with_call call self.old) }
    {
        let (number, caller) = (self.next, call.caller);
        drop(self.waiting.insert(number, call)?);
        let Some(next) = number.checked_add(1) else {
            return Err(AllocError);
        };
        self.next = next;
        let _ = self.callers.insert(number, caller)?;
        let _ = self.numbers.insert(name_of(caller), number)?;
        Ok(())
    }

    /// Takes out the first that is yet to be made, with its number: it is made.
    pub(crate) fn next(&mut self) -> Option<(u64, ForwardedCall)>
        ensures first { result ≡ first_in (maps.entries self.old.waiting) }
        ensures rest { self.new ≡ without_first self.old }
    {
        self.waiting.pop_first()
    }

    /// The call of this number is answered: whom to tell, unless it was given up.
    pub(crate) fn answer(&mut self, number: u64) -> Option<Caller>
        ensures caller { result ≡ maps.get self.old.callers number }
        ensures rest { self.new ≡ answered number self.old }
    {
        let caller = self.callers.remove(&number)?;
        let _ = self.numbers.remove(&name_of(caller));
        Some(caller)
    }

    /// This call was given up. Gives its number, if it wasn't answered.
    pub(crate) fn cancel(&mut self, caller: Caller) -> Option<u64>
        ensures number { result ≡ maps.get self.old.numbers (name_of caller) }
        ensures rest { self.new ≡ canceled caller self.old }
    {
        let number = self.numbers.remove(&name_of(caller))?;
        let _ = self.callers.remove(&number);
        drop(self.waiting.remove(&number));
        Some(number)
    }

    /// Who waits for an answer, by the numbers of the calls.
    pub(crate) fn callers(&self) -> Iter<'_, u64, Caller>
        ensures { result ≡ maps.entries self.now.callers }
    {
        self.callers.iter()
    }
}

/// The name of a call, by its session and its ticket: no other that isn't answered has it.
fn name_of(caller: Caller) -> u128
    ensures { result ≡ name_of caller }
{
    u128::from(caller.proxy.session) * 18_446_744_073_709_551_616 + u128::from(caller.ticket)
}
