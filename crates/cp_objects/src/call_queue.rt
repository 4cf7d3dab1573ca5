//! The calls that an object is yet to make.

ghost use Rattle.std.specs.Prelude.{◌≡◌, ◌≢◌, ◌∷◌, ◌++◌, [], true, false, OnOk, drop, length, slice_get};
ghost use Rattle.cp_objects.specs.Members.{has_call, without_call};

use cp_servants::OutgoingCall;
use std::alloc::{AllocError, Global};
use std::collections::VecDeque;
use std::marker::Model;

/// Calls of an object, in the order in which they are made. Contracts see them as a list.
pub struct CallQueue {
    next_calls: VecDeque<OutgoingCall>,
}

// Not derived: a function that lets one go calls this one, and need not prove the drop of what it holds.
impl Drop for CallQueue {
    fn drop(self) {
        let CallQueue { next_calls: _ } = self;
    }
}

impl Model for CallQueue {
    ghost use Rattle.std.specs.Prelude.{List};
    ghost use Rattle.cp_servants.specs.declared.servant.OutgoingCall.{OutgoingCall};

    ghost Value = { List OutgoingCall };

    ghost use Rattle.std.specs.Coded.{coded_list};
    ghost use Rattle.cp_servants.specs.contracts.servant.OutgoingCall.{the_row};

    ghost coded = { coded_list the_row.coded };

    ghost view = { λ q. q.next_calls.items };
}

impl CallQueue {
    /// None.
    pub(crate) fn new(alloc: Global) -> CallQueue
        ensures { result ≡ [] }
    {
        CallQueue {
            next_calls: VecDeque::new(alloc),
        }
    }

    /// Whether there is none.
    pub(crate) fn is_empty(&self) -> bool
        ensures none { result ≡ true → self.now ≡ [] }
        ensures some { result ≡ false → self.now ≢ [] }
    {
        self.next_calls.is_empty()
    }

    /// How many there are.
    pub(crate) fn len(&self) -> usize
        ensures { result ≡ length self.now }
    {
        self.next_calls.len()
    }

    /// One more, after the others.
    pub(crate) fn push(&mut self, next_call: OutgoingCall) -> Result<(), AllocError>
        ensures { OnOk result (self.new ≡ self.old ++ next_call ∷ []) }
    {
        self.next_calls.push_back(next_call)?;
        Ok(())
    }

    /// Whether one has this number.
    pub(crate) fn has(&self, call_id: u64) -> bool
        ensures { result ≡ has_call call_id self.now }
    {
        has_call(&self.next_calls, call_id)
    }

    /// The first that has this number goes.
    pub(crate) fn remove(&mut self, call_id: u64)
        ensures { self.new ≡ without_call call_id self.old }
    {
        remove_call(&mut self.next_calls, call_id);
    }

    /// Takes the first out, if there is one.
    pub fn pop(&mut self) -> Option<OutgoingCall>
        ensures first { result ≡ slice_get self.old 0 }
        ensures rest { self.new ≡ drop 1 self.old }
    {
        self.next_calls.pop_front()
    }
}

/// Whether one of these calls has this number.
fn has_call(next_calls: &VecDeque<OutgoingCall>, call_id: u64) -> bool
    ensures { result ≡ has_call call_id next_calls.now.items }
{
    for place in 0..next_calls.len() {
        if next_calls[place].call_id == call_id {
            return true;
        }
    }
    false
}

/// The first of these calls that has this number goes.
fn remove_call(next_calls: &mut VecDeque<OutgoingCall>, call_id: u64)
    ensures { next_calls.new.items ≡ without_call call_id next_calls.old.items }
{
    for place in 0..next_calls.len() {
        if next_calls[place].call_id == call_id {
            drop(next_calls.remove(place));
            return;
        }
    }
}
