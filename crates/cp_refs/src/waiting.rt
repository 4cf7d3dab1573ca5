//! The calls that wait.

ghost use Rattle.std.specs.Prelude.{◌≡◌, ◌||◌, ℕ, false, IsTrue, OnOk, OnErr};
ghost use Rattle.std.specs.FinMap as map;
ghost use Rattle.std.specs.FinSet as set;
ghost use Rattle.cp_refs.specs.Queues.{key_of, queue_of, is_queued};

use crate::call::WaitingCall;
use crate::entries::WideEntries;
use crate::route::Gate;
use crate::tickets::Tickets;
use std::alloc::{AllocError, AllocFailed, Global};
use std::collections::btree_map::Iter;
use std::marker::Model;

/// The calls that wait, and which of them may leave. Contracts see them as one set of calls, and
/// the tickets of those whose gate was ended.
pub struct Waiting {
    alloc: Global,
    calls: WideEntries<WaitingCall>,
    /// The tickets at each gate that wasn't ended, by the gate's key.
    queues: WideEntries<Tickets>,
    ended: Tickets,
}

// Not derived: a crate that lets one go calls this function, and need not prove the drop of all that it holds.
impl Drop for Waiting {
    fn drop(self) {
        let Waiting {
            alloc: _,
            calls: _,
            queues: _,
            ended: _,
        } = self;
    }
}

impl Model for Waiting {
    ghost use Rattle.cp_refs.specs.Waiting.{Waits, waits_code};
    ghost use Rattle.cp_refs.specs.Queues.{AreQueued};

    ghost Value = { Waits };

    ghost coded = { waits_code };

    ghost view = { λ w. record { calls = w.calls; ended = w.ended } };

    ghost invariant = { λ w. AreQueued w.calls w.queues w.ended };
}

impl Waiting {
    ghost use Rattle.std.specs.Prelude.{◌≡◌, None, IfSome, IfNone, IfErr, OnOk, OnErr, option_copied};
    ghost use Rattle.std.specs.FinMap as map;
    ghost use Rattle.std.specs.FinSet as set;
    ghost use Rattle.cp_refs.specs.Waiting.{Ends, Leaves};

    /// No calls.
    pub fn new(alloc: Global) -> Waiting
        ensures { result ≡ record { calls = map.empty; ended = set.empty } }
    {
        Waiting {
            alloc,
            calls: WideEntries::new(alloc),
            queues: WideEntries::new(alloc),
            ended: Tickets::new(alloc),
        }
    }

    /// The call with this ticket.
    pub fn get(&self, ticket: u64) -> Option<&WaitingCall>
        ensures { option_copied result ≡ map.get self.now.calls ticket }
    {
        self.calls.get(ticket)
    }

    /// The calls with their tickets, rising.
    pub fn calls(&self) -> Iter<'_, u64, WaitingCall>
        ensures { result ≡ map.entries self.now.calls }
    {
        self.calls.iter()
    }

    /// Takes in a call, whose ticket no other one has. Where memory runs out the call comes back.
    pub fn hold(&mut self, held: WaitingCall) -> Result<(), AllocFailed<WaitingCall>>
        requires { map.get self.old.calls held.ticket ≡ None }
        ensures held { OnOk result (self.new ≡ record self.old { calls = map.insert self.old.calls held.ticket held }) }
        ensures back { IfErr result (λ failed. failed.value ≡ held) }
        ensures err { OnErr result (self.new ≡ self.old) }
    {
        let ticket = held.ticket;
        let key = gate_key(&held.gate);
        self.calls.put(ticket, held)?;
        if let Err(AllocError) = queue_up(self.alloc, &mut self.queues, key, ticket) {
            let Some(held) = self.calls.remove(ticket) else {
                // It was put in just now.
                unreachable!()
            };
            return Err(AllocFailed { value: held });
        }
        Ok(())
    }

    /// Ends a gate: the calls that wait at it may leave. An answer and a question end at every path.
    /// A call that comes to the gate later waits until it ends again.
    pub fn end(&mut self, gate: &Gate) -> Result<(), AllocError>
        ensures ended { OnOk result (Ends self.old gate.now self.new) }
        ensures err { OnErr result (self.new ≡ self.old) }
    {
        end_queue(&mut self.queues, &mut self.ended, gate_key(gate))?;
        Ok(())
    }

    /// Takes out, of the calls whose gate was ended, the one with the lowest ticket. `None` says
    /// that there is none of them.
    /// A call that came late with a low ticket leaves in that ticket's place.
    pub fn next(&mut self) -> Option<WaitingCall>
        ensures left { IfSome result (λ call. Leaves self.old call self.new) }
        ensures none { IfNone result ((self.old.ended ≡ set.empty) × (self.new ≡ self.old)) }
    {
        let ticket = self.ended.pop()?;
        self.calls.remove(ticket)
    }
}

/// The number of a gate, whatever its path.
fn gate_key(gate: &Gate) -> u64
    ensures { result ≡ key_of gate.now }
{
    // Four kinds of gates, so that no two have one number.
    match gate {
        Gate::Answer(id, _) => 4 * (*id as u64),
        Gate::Promise(id) => 4 * (*id as u64) + 1,
        Gate::Question(id, _) => 4 * (*id as u64) + 2,
        Gate::Embargo(id) => 4 * (*id as u64) + 3,
    }
}

/// Puts a ticket into the queue of this number.
fn queue_up(
    alloc: Global,
    queues: &mut WideEntries<Tickets>,
    key: u64,
    ticket: u64,
) -> Result<(), AllocError>
    requires { is_queued queues.old key ticket ≡ false }
    ensures queued { OnOk result (queues.new ≡ map.insert queues.old key (set.insert (queue_of queues.old key) ticket)) }
    ensures err { OnErr result (queues.new ≡ queues.old) }
{
    match queues.get_mut(key) {
        Some(queue) => queue.insert(ticket),
        None => {
            let mut queue = Tickets::new(alloc);
            queue.insert(ticket)?;
            Ok(queues.put(key, queue)?)
        }
    }
}

/// Moves the tickets of the queue of this number to those whose gate was ended.
fn end_queue(
    queues: &mut WideEntries<Tickets>,
    ended: &mut Tickets,
    key: u64,
) -> Result<(), AllocError>
    requires { (t : ℕ) → IsTrue (set.contains ended.old t) → is_queued queues.old key t ≡ false }
    ensures moved { OnOk result ((t : ℕ) → set.contains ended.new t ≡ (set.contains ended.old t || is_queued queues.old key t)) }
    ensures gone { OnOk result (queues.new ≡ map.remove queues.old key) }
    ensures err { OnErr result (queues.new ≡ queues.old) }
    ensures ended_err { OnErr result (ended.new ≡ ended.old) }
{
    let Some(queue) = queues.get_mut(key) else {
        return Ok(());
    };
    ended.append(queue)?;
    drop(queues.remove(key));
    Ok(())
}
