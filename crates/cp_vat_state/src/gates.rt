//! The calls that wait, what the gates gave that ended in this event, and the ticket of the next call.

ghost use Rattle.std.specs.Prelude.{◌≡◌, ◌+◌, ◌-◌, ◌^◌, ◌<◌, ltb, None, IfOk, OnOk, IfSome, MatchOption, option_copied};
ghost use Rattle.std.specs.List.{flat_map, list_any};
ghost use Rattle.std.specs.FinMap as map;
ghost use Rattle.cp_vat_machine.specs.InUse.{is_at_promise, is_at_question};
ghost use Rattle.cp_vat_machine.specs.State.{none_over};
ghost use Rattle.cp_vat_state.specs.Sought.{is_sought};
ghost use Rattle.cp_vat_state.specs.Overs.{over_of, bare_gate, over_with, NoneOverIn, IsNextIn};

use crate::counted_calls::CountedCalls;
use crate::overs::{EarlierGates, Overs};
use crate::sought::Sought;
use cp_refs::{Cap, Gate, KeptOutcome, Path, PromiseId, WaitingCall};
use std::alloc::{AllocError, Global};
use std::collections::btree_map::Iter;
use std::marker::Model;

/// What ends a gate, with what the gate gives.
pub enum Fulfillment {
    Answer(u32, KeptOutcome),
    Promise(PromiseId, Cap),
    Question(u32, KeptOutcome),
    Embargo(u32, Cap),
}

// Not derived: a crate that lets one go calls this function, and need not prove the drop of all that it holds.
impl Drop for Fulfillment {
    fn drop(self) {
        match self {
            Fulfillment::Answer(_, _) => {}
            Fulfillment::Promise(_, _) => {}
            Fulfillment::Question(_, _) => {}
            Fulfillment::Embargo(_, _) => {}
        }
    }
}

impl Fulfillment {
    ghost use Rattle.std.specs.Prelude.{◌≡◌, OnOk};
    ghost use Rattle.cp_vat_state.specs.Overs.{earlier_of, gate_of, over_with};

    /// The gate that ends, at no path.
    fn gate(&self, alloc: Global) -> Gate
        ensures { result ≡ gate_of self.now }
    {
        match self {
            Fulfillment::Answer(id, _) => Gate::Answer(*id, Path::new(Vec::new(alloc))),
            Fulfillment::Promise(id, _) => Gate::Promise(*id),
            Fulfillment::Question(id, _) => Gate::Question(*id, Path::new(Vec::new(alloc))),
            Fulfillment::Embargo(id, _) => Gate::Embargo(*id),
        }
    }

    /// Puts what the gate gave with what earlier gates gave.
    pub(crate) fn put_into(self, earlier: &mut EarlierGates) -> Result<(), AllocError>
        ensures { OnOk result (earlier_of earlier.new ≡ over_with (earlier_of earlier.old) self) }
    {
        match self {
            Fulfillment::Answer(id, outcome) => earlier.answers.put(id, outcome),
            Fulfillment::Promise(id, value) => earlier.promises.put(id, value),
            Fulfillment::Question(id, outcome) => earlier.questions.put(id, outcome),
            Fulfillment::Embargo(id, cap) => earlier.embargoes.put(id, cap),
        }
    }
}

/// A call that waited at a gate that ended, with what the gate gave.
#[derive(Drop)]
pub struct Next {
    pub call: WaitingCall,
    pub cap: Cap,
}

/// The calls that wait, the gates that ended, and the ticket of the next call. Once an allocation
/// failed in the middle of a change, each further change is refused.
pub struct Gates {
    alloc: Global,
    calls: CountedCalls,
    over: Overs,
    next_ticket: u64,
    is_torn: bool,
}

// Not derived: a crate that lets one go calls this function, and need not prove the drop of all that it holds.
impl Drop for Gates {
    fn drop(self) {
        let Gates {
            alloc: _,
            calls: _,
            over: _,
            next_ticket: _,
            is_torn: _,
        } = self;
    }
}

impl Model for Gates {
    ghost use Rattle.cp_vat_state.specs.Queue.{Queue, queue_code};

    ghost Value = { Queue };

    ghost coded = { queue_code };

    ghost use Rattle.cp_vat_state.specs.Overs.{AreGates, over_of};

    ghost view = { λ g. record { waiting = record { calls = g.calls.calls; over = over_of g.over }; next_ticket = g.next_ticket } };

    ghost invariant = { λ g. AreGates g.calls (over_of g.over) g.next_ticket g.is_torn };
}

impl Gates {
    ghost use Rattle.std.specs.Prelude.{◌≡◌, None};
    ghost use Rattle.cp_refs.specs.Contents.{calls_memory};
    ghost use Rattle.cp_vat_state.specs.Queue.{TakesOut, with_calls, with_over};

    /// No calls.
    pub fn new(alloc: Global) -> Gates
        ensures { result ≡ record { waiting = record { calls = map.empty; over = none_over }; next_ticket = 0 } }
    {
        Gates {
            alloc,
            calls: CountedCalls::new(alloc),
            over: Overs::new(alloc),
            next_ticket: 0,
            is_torn: false,
        }
    }

    /// The call with this ticket.
    pub fn get(&self, ticket: u64) -> Option<&WaitingCall>
        ensures { option_copied result ≡ map.get self.now.waiting.calls ticket }
    {
        self.calls.get(ticket)
    }

    /// The calls with their tickets, rising.
    pub fn calls(&self) -> Iter<'_, u64, WaitingCall>
        ensures { result ≡ map.entries self.now.waiting.calls }
    {
        self.calls.calls()
    }

    /// The bytes of memory that all calls take.
    pub fn memory(&self) -> u64
        ensures { result ≡ calls_memory self.now.waiting.calls }
    {
        self.calls.memory()
    }

    /// Whether it is in a waiting call's table.
    pub(crate) fn is_named(&self, sought: Sought) -> bool
        ensures { result ≡ list_any (is_sought sought) (flat_map (λ call. call.request.caps) (map.values self.now.waiting.calls)) }
    {
        self.calls.is_named(sought)
    }

    /// Whether calls wait at the promise.
    pub(crate) fn is_at_promise(&self, id: PromiseId) -> bool
        ensures { result ≡ list_any (λ call. is_at_promise id call.gate) (map.values self.now.waiting.calls) }
    {
        self.calls.is_at_promise(id)
    }

    /// Whether calls wait at a path of the question.
    pub(crate) fn is_at_question(&self, id: u32) -> bool
        ensures { result ≡ list_any (λ call. is_at_question id call.gate) (map.values self.now.waiting.calls) }
    {
        self.calls.is_at_question(id)
    }

    /// Whether there is a ticket for one more call.
    pub fn has_ticket(&self) -> bool
        ensures { result ≡ ltb self.now.next_ticket (2 ^ 64 - 1) }
    {
        self.next_ticket < u64::MAX
    }

    /// The ticket of the call that comes next.
    pub fn next_ticket(&self) -> u64
        ensures { result ≡ self.now.next_ticket }
    {
        self.next_ticket
    }

    /// The ticket of a call that comes now. No call that waits has it.
    pub fn enter(&mut self) -> u64
        requires { self.old.next_ticket < 2 ^ 64 - 1 }
        ensures ticket { result ≡ self.old.next_ticket }
        ensures entered { self.new ≡ record self.old { next_ticket = self.old.next_ticket + 1 } }
        ensures free { map.get self.old.waiting.calls result ≡ None }
    {
        let ticket = self.next_ticket;
        self.next_ticket += 1;
        ticket
    }

    /// Takes the ticket that was given last back. No call that waits has it.
    pub fn take_back(&mut self)
        requires given { 0 < self.old.next_ticket }
        requires free { map.get self.old.waiting.calls (self.old.next_ticket - 1) ≡ None }
        ensures { self.new ≡ record self.old { next_ticket = self.old.next_ticket - 1 } }
    {
        self.next_ticket -= 1;
    }

    /// Takes in a call, whose ticket was given and no other one has.
    pub fn hold(&mut self, held: WaitingCall) -> Result<(), AllocError>
        requires free { map.get self.old.waiting.calls held.ticket ≡ None }
        requires given { held.ticket < self.old.next_ticket }
        ensures { OnOk result (self.new ≡ with_calls self.old (map.insert self.old.waiting.calls held.ticket held)) }
    {
        if self.is_torn {
            return Err(AllocError);
        }
        // An answer's gate and a question's end at every path.
        let gate = without_path(self.alloc, &held.gate);
        self.calls.hold(held)?;
        // Its gate ended in this same event, so the call leaves in it too.
        if !self.over.has(&gate) {
            return Ok(());
        }
        // Halfway, the state fits no step of the machine, so each further change is refused.
        if let Err(error) = self.calls.end(&gate) {
            self.is_torn = true;
            return Err(error);
        }
        Ok(())
    }

    /// Ends a gate, with what it gives. An answer and a question end at every path.
    pub fn end(&mut self, fulfillment: Fulfillment) -> Result<(), AllocError>
        ensures { OnOk result (self.new ≡ with_over self.old (over_with self.old.waiting.over fulfillment)) }
    {
        if self.is_torn {
            return Err(AllocError);
        }
        let gate = fulfillment.gate(self.alloc);
        self.calls.end(&gate)?;
        if let Err(error) = self.over.put(fulfillment) {
            self.is_torn = true;
            return Err(error);
        }
        Ok(())
    }

    /// Takes out, of the calls whose gate ended, the one with the lowest ticket, with what its gate
    /// gave.
    pub fn next(&mut self) -> Result<Option<Next>, AllocError>
        ensures left { IfOk result (λ next. MatchOption next (NoneOverIn self.old.waiting) (λ found. IsNextIn self.old.waiting found.call found.cap)) }
        ensures rest { IfOk result (λ next. TakesOut self.old next self.new) }
        ensures given { IfOk result (λ next. IfSome next (λ found. found.call.ticket < self.old.next_ticket)) }
    {
        if self.is_torn {
            return Err(AllocError);
        }
        let Some(call) = self.calls.next() else {
            return Ok(None);
        };
        let Some(cap) = self.over.gave(self.alloc, &call.gate)? else {
            // Only a call whose gate ended leaves.
            unreachable!()
        };
        Ok(Some(Next { call, cap }))
    }

    /// Forgets the gates that ended, where no call waits at one.
    pub fn forget(&mut self)
        requires { NoneOverIn self.old.waiting }
        ensures { self.new ≡ with_over self.old none_over }
    {
        self.over = Overs::new(self.alloc);
    }
}

/// The gate at no path.
fn without_path(alloc: Global, gate: &Gate) -> Gate
    ensures { result ≡ bare_gate gate.now }
{
    match gate {
        Gate::Answer(id, _) => Gate::Answer(*id, Path::new(Vec::new(alloc))),
        Gate::Promise(id) => Gate::Promise(*id),
        Gate::Question(id, _) => Gate::Question(*id, Path::new(Vec::new(alloc))),
        Gate::Embargo(id) => Gate::Embargo(*id),
    }
}
