//! The calls that wait, and how often each capability is held by them.

ghost use Rattle.std.specs.Prelude.{◌≡◌, OnOk, OnErr};
ghost use Rattle.std.specs.List.{flat_map, list_any};
ghost use Rattle.std.specs.FinMap as map;
ghost use Rattle.cp_vat_machine.specs.InUse.{is_at_promise, is_at_question};
ghost use Rattle.cp_vat_state.specs.Sought.{is_sought};
ghost use Rattle.cp_vat_state.specs.Holding.{AreHeldByCalls, IsMoreBy, IsLessBy, IsSameUses};

use crate::holders::Holders;
use crate::sought::Sought;
use cp_refs::bytes::{lowered, raised};
use cp_refs::{Gate, PromiseId, Waiting, WaitingCall};
use std::alloc::{AllocError, Global};
use std::collections::btree_map::Iter;
use std::marker::Model;

/// The calls that wait, and which of them may leave. Contracts see them as one set of calls, and the
/// tickets of those whose gate was ended.
pub(crate) struct CountedCalls {
    calls: Waiting,
    uses: Uses,
}

// Not derived: a function that lets one go calls this one, and need not prove the drop of all that it holds.
impl Drop for CountedCalls {
    fn drop(self) {
        let CountedCalls { calls: _, uses: _ } = self;
    }
}

impl Model for CountedCalls {
    ghost use Rattle.cp_refs.specs.Waiting.{Waits, waits_code};
    ghost use Rattle.cp_vat_state.specs.Holding.{AreHeldByCalls};

    ghost Value = { Waits };

    ghost coded = { waits_code };

    ghost view = { λ c. c.calls };

    ghost invariant = { λ c. AreHeldByCalls c.calls.calls c.uses };
}

impl CountedCalls {
    ghost use Rattle.std.specs.Prelude.{◌≡◌, None, IfSome, IfNone, option_copied};
    ghost use Rattle.std.specs.FinSet as set;
    ghost use Rattle.cp_refs.specs.Contents.{calls_memory};
    ghost use Rattle.cp_refs.specs.Waiting.{Ends, Leaves};

    /// No calls.
    pub(crate) fn new(alloc: Global) -> CountedCalls
        ensures { result ≡ record { calls = map.empty; ended = set.empty } }
    {
        CountedCalls {
            calls: Waiting::new(alloc),
            uses: Uses::new(alloc),
        }
    }

    /// The call with this ticket.
    pub(crate) fn get(&self, ticket: u64) -> Option<&WaitingCall>
        ensures { option_copied result ≡ map.get self.now.calls ticket }
    {
        self.calls.get(ticket)
    }

    /// The calls with their tickets, rising.
    pub(crate) fn calls(&self) -> Iter<'_, u64, WaitingCall>
        ensures { result ≡ map.entries self.now.calls }
    {
        self.calls.calls()
    }

    /// The bytes of memory that all calls take.
    pub(crate) fn memory(&self) -> u64
        ensures { result ≡ calls_memory self.now.calls }
    {
        self.uses.bytes
    }

    /// Whether it is in a call's table.
    pub(crate) fn is_named(&self, sought: Sought) -> bool
        ensures { result ≡ list_any (is_sought sought) (flat_map (λ call. call.request.caps) (map.values self.now.calls)) }
    {
        self.uses.named.has(sought)
    }

    /// Whether calls wait at the promise.
    pub(crate) fn is_at_promise(&self, id: PromiseId) -> bool
        ensures { result ≡ list_any (λ call. is_at_promise id call.gate) (map.values self.now.calls) }
    {
        self.uses.awaited.has(Sought::Promise(id))
    }

    /// Whether calls wait at a path of the question.
    pub(crate) fn is_at_question(&self, id: u32) -> bool
        ensures { result ≡ list_any (λ call. is_at_question id call.gate) (map.values self.now.calls) }
    {
        self.uses.awaited.has(Sought::PathOf(id))
    }

    /// Takes in a call, whose ticket no other one has.
    pub(crate) fn hold(&mut self, held: WaitingCall) -> Result<(), AllocError>
        requires { map.get self.old.calls held.ticket ≡ None }
        ensures held { OnOk result (self.new ≡ record self.old { calls = map.insert self.old.calls held.ticket held }) }
        ensures err { OnErr result (self.new ≡ self.old) }
    {
        // Counted first, so that what a held call names is always counted.
        self.uses.raise(&held)?;
        // The call isn't held then, so its count goes back.
        if let Err(failed) = self.calls.hold(held) {
            self.uses.lower(&failed.value);
            return Err(AllocError);
        }
        Ok(())
    }

    /// Ends a gate: the calls that wait at it may leave. An answer and a question end at every path.
    pub(crate) fn end(&mut self, gate: &Gate) -> Result<(), AllocError>
        ensures ended { OnOk result (Ends self.old gate.now self.new) }
        ensures err { OnErr result (self.new ≡ self.old) }
    {
        self.calls.end(gate)
    }

    /// Takes out, of the calls whose gate was ended, the one with the lowest ticket. `None` says that
    /// there is none of them.
    pub(crate) fn next(&mut self) -> Option<WaitingCall>
        ensures left { IfSome result (λ call. Leaves self.old call self.new) }
        ensures none { IfNone result ((self.old.ended ≡ set.empty) × (self.new ≡ self.old)) }
    {
        let held = self.calls.next()?;
        self.uses.lower(&held);
        Some(held)
    }
}

/// What calls hold: what their tables name, what their gates wait for, and how many bytes of memory they take.
#[derive(Drop)]
struct Uses {
    named: Holders,
    awaited: Holders,
    bytes: u64,
}

impl Uses {
    fn new(alloc: Global) -> Uses
        ensures { AreHeldByCalls map.empty result }
    {
        Uses {
            named: Holders::new(alloc),
            awaited: Holders::new(alloc),
            bytes: 0,
        }
    }

    /// Counts what a call holds once more, or nothing where an allocation fails.
    fn raise(&mut self, held: &WaitingCall) -> Result<(), AllocError>
        ensures raised { OnOk result (IsMoreBy self.old self.new held.now) }
        ensures err { OnErr result (IsSameUses self.old self.new) }
    {
        let bytes = raised(self.bytes, held.memory())?;
        let caps = held.request.caps.caps();
        self.named.raise_all(caps)?;
        if let Err(error) = self.awaited.raise(Sought::awaited_at(&held.gate)) {
            self.named.lower_all(caps);
            return Err(error);
        }
        self.bytes = bytes;
        Ok(())
    }

    /// Counts what a call holds once less.
    fn lower(&mut self, held: &WaitingCall)
        ensures { IsLessBy self.old self.new held.now }
    {
        self.named.lower_all(held.request.caps.caps());
        self.awaited.lower(Sought::awaited_at(&held.gate));
        self.bytes = lowered(self.bytes, held.memory());
    }
}
