//! The promises of the objects of a connection.

ghost use Rattle.std.specs.Prelude.{◌≡◌, IfOk, OnOk, map};
ghost use Rattle.std.specs.FinMap as maps;
ghost use Rattle.cp_objects.specs.Numbers.{inserted};
ghost use Rattle.cp_objects.specs.Promises.{HandsPromiseRequest, adopted, adopted_each, forgetting, has_name, keeping_promise, meant, named, none_promised, promised_of, promising, resolving, with_next_call, with_outcome, with_promise_request};

use crate::number_set::NumberSet;
use crate::promise_request::PromiseRequest;
use cp_refs::{Cap, Caps, Outcome, PromiseId, Request};
use cp_servants::OutgoingCall;
use cp_tables::Entries;
use std::alloc::{AllocError, Global};
use std::collections::VecDeque;
use std::mem;

/// The promises that objects of a connection made, or that calls of theirs named, by the numbers that `Objects` gave them. The vat has numbers
/// of its own for them, which it uses again. Objects never see these: a number in a field could then come to stand for another promise.
#[derive(Drop)]
pub(crate) struct Promises {
    /// Who made each promise that isn't resolved.
    pub(crate) makers: Entries<u32>,
    /// The vat's promise of each number.
    pub(crate) ids: Entries<PromiseId>,
    /// The number of each of these.
    pub(crate) names: Entries<u32>,
    /// What is to be done of promises, in order.
    pub(crate) promise_requests: VecDeque<PromiseRequest>,
}

impl Promises {
    /// None.
    pub(crate) fn new(alloc: Global) -> Promises
        ensures { promised_of result ≡ none_promised }
    {
        Promises {
            makers: Entries::new(alloc),
            ids: Entries::new(alloc),
            names: Entries::new(alloc),
            promise_requests: VecDeque::new(alloc),
        }
    }

    /// An object made a promise.
    pub(crate) fn make(&mut self, number: u32, served_object: u32) -> Result<(), AllocError>
        ensures { OnOk result (promised_of self.new ≡ promising number served_object (promised_of self.old)) }
    {
        self.makers.put(number, served_object)?;
        self.promise_requests
            .push_back(PromiseRequest::Make(number))?;
        Ok(())
    }

    /// A promise is to come to this.
    pub(crate) fn resolve(&mut self, number: u32, value: Cap) -> Result<(), AllocError>
        ensures { OnOk result (promised_of self.new ≡ resolving number value (promised_of self.old)) }
    {
        let _ = self.makers.remove(number);
        self.promise_requests
            .push_back(PromiseRequest::Resolve { number, value })?;
        Ok(())
    }

    /// Hands out what is to be done first.
    pub(crate) fn next(&mut self) -> Option<PromiseRequest>
        ensures { HandsPromiseRequest result (promised_of self.old) (promised_of self.new) }
    {
        let promise_request = self.promise_requests.pop_front()?;
        Some(self.meant_request(promise_request))
    }

    /// The vat has a promise of its own for a number.
    pub(crate) fn keep(&mut self, number: u32, id: PromiseId) -> Result<(), AllocError>
        ensures { OnOk result (promised_of self.new ≡ keeping_promise number id (promised_of self.old)) }
    {
        self.ids.put(number, id)?;
        self.names.put(id, number)
    }

    /// The vat's promises that a table names have numbers from now on, this one and those after it, if they had none. Gives the number that is
    /// free then.
    pub(crate) fn adopt_each(&mut self, caps: &Caps, next: u32) -> Result<u32, AllocError>
        ensures { IfOk result (λ free. (promised_of self.new, free) ≡ adopted_each caps.now (promised_of self.old, next)) }
    {
        let mut free = next;
        for cap in caps.caps() {
            free = self.adopt(cap, free)?;
        }
        Ok(free)
    }

    /// The vat forgot a promise of its own.
    pub(crate) fn forget(&mut self, id: PromiseId)
        ensures { promised_of self.new ≡ forgetting id (promised_of self.old) }
    {
        if let Some(number) = self.names.remove(id) {
            let _ = self.ids.remove(number);
        }
    }

    /// Whether a promise of the vat's has a number.
    pub(crate) fn has_name(&self, id: PromiseId) -> bool
        ensures { result ≡ has_name id (promised_of self.now) }
    {
        self.names.get(id).is_some()
    }

    /// How many the vat made.
    pub(crate) fn len(&self) -> usize
        ensures { result ≡ maps.len self.now.names }
    {
        self.names.iter().len()
    }

    /// Puts the objects that made a promise which isn't resolved into a set.
    pub(crate) fn insert_makers(&self, known: &mut NumberSet) -> Result<(), AllocError>
        ensures { OnOk result (known.new ≡ inserted (maps.values self.now.makers) known.old) }
    {
        for (_, served_object) in self.makers.iter() {
            known.insert(*served_object)?;
        }
        Ok(())
    }

    /// An outcome as the vat is to have it.
    pub(crate) fn meant_outcome(&self, outcome: Outcome) -> Outcome
        ensures { result ≡ with_outcome (meant self.now.ids) outcome }
    {
        match outcome {
            Outcome::Results { content, caps } => Outcome::Results {
                content,
                caps: self.meant_each(caps),
            },
            other => other,
        }
    }

    /// A call as the vat is to have it.
    pub(crate) fn meant_call(&self, next_call: OutgoingCall) -> OutgoingCall
        ensures { result ≡ with_next_call (meant self.now.ids) next_call }
    {
        let OutgoingCall {
            mut cap,
            request,
            call_id,
        } = next_call;
        let Request {
            interface,
            method,
            content,
            caps,
        } = request;
        self.mean(&mut cap);
        let request = Request {
            interface,
            method,
            content,
            caps: self.meant_each(caps),
        };
        OutgoingCall {
            cap,
            request,
            call_id,
        }
    }

    /// An outcome as objects are to see it.
    pub(crate) fn named_outcome(&self, outcome: Outcome) -> Outcome
        ensures { result ≡ with_outcome (named self.now.names) outcome }
    {
        match outcome {
            Outcome::Results { content, caps } => Outcome::Results {
                content,
                caps: self.named_each(caps),
            },
            other => other,
        }
    }

    /// A table as objects are to see it.
    pub(crate) fn named_each(&self, caps: Caps) -> Caps
        ensures { result ≡ map (named self.now.names) caps }
    {
        let mut caps = caps.into_caps();
        for cap in caps.iter_mut() {
            self.name(cap);
        }
        Caps::new(caps)
    }

    /// A promise of the vat's has this number from now on, if it had none. Gives the number that is free then.
    fn adopt(&mut self, cap: &Cap, next: u32) -> Result<u32, AllocError>
        ensures { IfOk result (λ free. (promised_of self.new, free) ≡ adopted cap.now (promised_of self.old, next)) }
    {
        let Cap::Promise(id) = cap else {
            return Ok(next);
        };
        if self.has_name(*id) {
            return Ok(next);
        }
        let Some(free) = next.checked_add(1) else {
            return Err(AllocError);
        };
        self.keep(next, *id)?;
        Ok(free)
    }

    /// What is to be done, as the vat is to do it.
    fn meant_request(&self, promise_request: PromiseRequest) -> PromiseRequest
        ensures { result ≡ with_promise_request (meant self.now.ids) promise_request }
    {
        match promise_request {
            PromiseRequest::Resolve { number, mut value } => {
                self.mean(&mut value);
                PromiseRequest::Resolve { number, value }
            }
            other => other,
        }
    }

    /// A table as the vat is to have it.
    fn meant_each(&self, caps: Caps) -> Caps
        ensures { result ≡ map (meant self.now.ids) caps }
    {
        let mut caps = caps.into_caps();
        for cap in caps.iter_mut() {
            self.mean(cap);
        }
        Caps::new(caps)
    }

    /// An object's name of a promise becomes the vat's.
    fn mean(&self, cap: &mut Cap)
        ensures { cap.new ≡ meant self.now.ids cap.old }
    {
        let Cap::Object(number) = cap else {
            return;
        };
        if let Some(id) = self.ids.get(*number) {
            drop(mem::replace(cap, Cap::Promise(*id)));
        }
    }

    /// The vat's name of a promise becomes the objects'.
    fn name(&self, cap: &mut Cap)
        ensures { cap.new ≡ named self.now.names cap.old }
    {
        let Cap::Promise(id) = cap else {
            return;
        };
        if let Some(number) = self.names.get(*id) {
            drop(mem::replace(cap, Cap::Object(*number)));
        }
    }
}
