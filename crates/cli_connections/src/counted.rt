//! The sample objects, whose calls are counted.

use cp_commands::count;
use cp_objects::{Objects, ServantObject};
use cp_refs::Request;
use cp_servants::{Cell, Desk, Reply, RequestView, Sample, Servant, Settled};
use std::alloc::{AllocError, Global};
use std::cell::RefCell;
use std::rc::Rc;

/// How often each method was called, of all connections together.
pub(crate) type Calls = Rc<RefCell<[(&'static str, u64); 5]>>;

/// The methods of `samples/desk.capnp`, and any other.
const METHODS: [(&str, u64); 5] = [
    ("Desk.now", 0),
    ("Desk.later", 0),
    ("Cell.add", 0),
    ("Cell.get", 0),
    ("other", 0),
];

/// A sample object that counts its calls.
pub(crate) struct CountedSample {
    sample: Sample,
    calls: Calls,
}

// Not derived: who lets one go calls this function, and need not prove the drop of what it holds.
impl Drop for CountedSample {
    fn drop(self) {
        let CountedSample {
            sample: _,
            calls: _,
        } = self;
    }
}

/// No method was called.
pub(crate) fn new_calls(alloc: Global) -> Result<Calls, AllocError> {
    Ok(Rc::new(alloc, RefCell::new(METHODS))?)
}

/// A Desk and a Cell, as the objects of a session, whose calls are counted.
pub(crate) fn counted_objects(
    alloc: Global,
    calls: &Calls,
) -> Result<Objects<ServantObject<CountedSample>>, AllocError> {
    Objects::of_servants(alloc, counted_samples(alloc, calls)?)
}

/// A Desk and a Cell.
fn counted_samples(alloc: Global, calls: &Calls) -> Result<Vec<CountedSample>, AllocError> {
    let mut objects = Vec::with_capacity(alloc, 2)?;
    objects.push(counted(calls, Sample::Desk(Desk::new(alloc)))?)?;
    objects.push(counted(calls, Sample::Cell(Cell::new(alloc)))?)?;
    Ok(objects)
}

/// A sample, whose calls are counted there.
fn counted(calls: &Calls, sample: Sample) -> Result<CountedSample, AllocError> {
    match calls.clone() {
        Ok(calls) => Ok(CountedSample { sample, calls }),
        Err(error) => {
            drop(sample);
            Err(error)
        }
    }
}

impl CountedSample {
    /// Counts a call.
    fn note(&self, interface: u64, method: u16) {
        if let Ok(mut calls) = self.calls.try_borrow_mut() {
            count(&mut *calls, method_name(interface, method));
        }
    }
}

/// The name of a method.
fn method_name(interface: u64, method: u16) -> &'static str {
    match (interface, method) {
        (0xe5a1_0000_0000_0001, 0) => "Desk.now",
        (0xe5a1_0000_0000_0001, 1) => "Desk.later",
        (0xe5a1_0000_0000_0002, 0) => "Cell.add",
        (0xe5a1_0000_0000_0002, 1) => "Cell.get",
        _ => "other",
    }
}

impl Servant for CountedSample {
    fn call(&mut self, ticket: u64, request: Request) -> Result<Reply, AllocError> {
        self.note(request.interface, request.method);
        self.sample.call(ticket, request)
    }

    fn call_view(
        &mut self,
        alloc: Global,
        ticket: u64,
        request: RequestView<'_>,
    ) -> Result<Reply, AllocError> {
        self.note(request.interface, request.method);
        self.sample.call_view(alloc, ticket, request)
    }

    fn poll(&mut self) -> Result<Option<Settled>, AllocError> {
        self.sample.poll()
    }

    fn has_more(&self) -> bool {
        self.sample.has_more()
    }
}
