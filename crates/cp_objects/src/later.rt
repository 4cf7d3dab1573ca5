//! Calls that are answered later.

ghost use Rattle.std.specs.Prelude.{◌≡◌};

use cp_refs::Outcome;
use cp_servants::Settled;
use cp_vat_machine::Ids;
use std::alloc::{AllocError, Global};
use std::cell::RefCell;
use std::collections::VecDeque;
use std::rc::Rc;

/// A call that is answered later (`Context::later`): any object of its connection may store it, and answer it. Where it is dropped instead, its
/// connection answers it with an exception, once one of its objects did something after that. So nobody waits for it for ever.
///
/// A contract can't see that it is dropped. It says what an answer is, and that each call has at most one.
pub struct LaterCall {
    /// The number of the session that it came by.
    session: u64,
    /// No other call of the connection has it.
    ticket: u64,
    /// The imports of the params that no object keeps.
    gives_up: Ids,
    dropped: DroppedCalls,
}

// Nobody answers a call that is dropped, so its connection is to know.
impl Drop for LaterCall {
    fn drop(self) {
        let LaterCall {
            session: _,
            ticket,
            gives_up,
            dropped,
        } = self;
        dropped.add(DroppedCall { ticket, gives_up });
    }
}

impl LaterCall {
    /// Its ticket.
    pub fn ticket(&self) -> u64
        ensures { result ≡ self.now.ticket }
    {
        self.ticket
    }

    /// The number of its session.
    pub fn session(&self) -> u64
        ensures { result ≡ self.now.session }
    {
        self.session
    }

    /// It comes to this: give it to `Context::settle`, or have a poll of the object that was called give it.
    pub fn into_settled(self, outcome: Outcome) -> Settled
        ensures { result ≡ record { ticket = self.ticket; outcome = outcome; gives_up = self.gives_up } }
    {
        let LaterCall {
            session: _,
            ticket,
            gives_up,
            dropped,
        } = self;
        drop(dropped);
        Settled {
            ticket,
            outcome,
            gives_up,
        }
    }

    /// The call of this session and this ticket, which is added to those that were dropped if it is.
    pub(crate) fn new(session: u64, ticket: u64, gives_up: Ids, dropped: DroppedCalls) -> LaterCall
        ensures { (result.session ≡ session) × (result.ticket ≡ ticket) × (result.gives_up ≡ gives_up) }
    {
        LaterCall {
            session,
            ticket,
            gives_up,
            dropped,
        }
    }
}

/// A later call that was dropped without an answer.
#[derive(Drop)]
pub(crate) struct DroppedCall {
    pub(crate) ticket: u64,
    pub(crate) gives_up: Ids,
}

/// The later calls of a connection that were dropped without an answer. The calls share it, as their drop gets nothing else.
#[derive(Drop)]
pub(crate) struct DroppedCalls {
    calls: Rc<RefCell<VecDeque<DroppedCall>>>,
}

impl DroppedCalls {
    /// None was dropped.
    pub(crate) fn new(alloc: Global) -> Result<DroppedCalls, AllocError> {
        let none = RefCell::new(VecDeque::new(alloc));
        Ok(DroppedCalls {
            calls: Rc::new(alloc, none)?,
        })
    }

    /// The same, for a call more.
    pub(crate) fn share(&self) -> Result<DroppedCalls, AllocError> {
        let calls = self.calls.clone()?;
        // So a drop needs no memory: each call that may be dropped yet has a share, and its `Context` has one.
        self.make_room(Rc::strong_count(&calls))?;
        Ok(DroppedCalls { calls })
    }

    /// Takes out the call that was dropped first, if one was.
    pub(crate) fn next(&self) -> Option<DroppedCall> {
        match self.calls.try_borrow_mut() {
            Ok(mut calls) => calls.pop_front(),
            Err(_) => None,
        }
    }

    /// Room for so many more.
    fn make_room(&self, calls: usize) -> Result<(), AllocError> {
        match self.calls.try_borrow_mut() {
            Ok(mut list) => list.reserve(calls),
            Err(_) => Err(AllocError),
        }
    }

    /// This one was dropped. The list is in use only in the functions here, none of which drops a call.
    fn add(&self, call: DroppedCall) {
        if let Ok(mut calls) = self.calls.try_borrow_mut() {
            let _ = calls.push_back(call);
        }
    }
}
