//! A list of objects that is fixed.

use crate::canceled_call::CanceledCall;
use crate::departed::Departed;
use crate::letters::{Letter, LetterBody};
use crate::object_table::ObjectTable;
use crate::promise_request::PromiseRequest;
use cp_refs::{Outcome, PromiseId};
use cp_servants::{
    OutgoingCall, Reply, RequestView, Servant, Settled, any_has_more, call_at, next_call_at,
    on_response_at, poll_at,
};
use cp_vat_machine::Ids;
use std::alloc::{AllocError, Global};

/// The object of number k is at place k. Each is polled in each round. None goes, and none is told its end.
impl<O: Servant> ObjectTable for Vec<O> {
    ghost use Rattle.cp_objects.specs.Listed.{listed};

    ghost table = { listed O.kind };

    fn has(&self, number: u32) -> bool {
        (number as usize) < self.len()
    }

    fn call_at(
        &mut self,
        alloc: Global,
        number: u32,
        ticket: u64,
        request: RequestView<'_>,
    ) -> Result<Reply, AllocError> {
        call_at(alloc, self.as_mut_slice(), number as usize, ticket, request)
    }

    fn poll_at(&mut self, number: u32) -> Result<Option<Settled>, AllocError> {
        poll_at(self.as_mut_slice(), number as usize)
    }

    fn next_call_at(&mut self, number: u32) -> Result<Option<OutgoingCall>, AllocError> {
        next_call_at(self.as_mut_slice(), number as usize)
    }

    fn drop_next_calls(&mut self, _number: u32) {}

    fn on_response_at(
        &mut self,
        number: u32,
        call_id: u64,
        outcome: Outcome,
    ) -> Result<(), AllocError> {
        on_response_at(self.as_mut_slice(), number as usize, call_id, outcome)
    }

    fn on_cancel_at(&mut self, _ticket: u64) -> Result<Option<u32>, AllocError> {
        Ok(None)
    }

    fn next_canceled(&mut self) -> Option<CanceledCall> {
        None
    }

    fn wait_for_one_less(&mut self, _number: u32) {}

    fn next_from(&self, number: u32) -> Option<u32> {
        if self.has(number) { Some(number) } else { None }
    }

    fn has_more(&self) -> bool {
        any_has_more(self.as_slice())
    }

    fn guests(&self) -> usize {
        0
    }

    fn idle(&self, alloc: Global) -> Result<Ids, AllocError> {
        Ok(Ids::new(Vec::new(alloc)))
    }

    fn end(&mut self, alloc: Global, _number: u32) -> Result<Departed, AllocError> {
        Ok(Departed::none(alloc))
    }

    fn end_all(&mut self) -> Result<(), AllocError> {
        Ok(())
    }

    fn next_settled(&mut self) -> Result<Option<Settled>, AllocError> {
        Ok(None)
    }

    fn set_session(&mut self, _session: u64) {}

    fn set_now(&mut self, _now: u64) {}

    fn wake_due(&mut self) -> Result<(), AllocError> {
        Ok(())
    }

    fn deadline(&self) -> Option<u64> {
        None
    }

    fn wake(&mut self, _number: u32) -> Result<(), AllocError> {
        Ok(())
    }

    fn next_letter(&mut self) -> Option<Letter> {
        None
    }

    fn deliver(&mut self, body: LetterBody) -> Result<(), AllocError> {
        drop(body);
        Ok(())
    }

    fn take_given_up(&mut self, alloc: Global) -> Ids {
        Ids::new(Vec::new(alloc))
    }

    fn next_promise_request(&mut self) -> Option<PromiseRequest> {
        None
    }

    fn promise_of(&self, _number: u32) -> Option<PromiseId> {
        None
    }

    fn keep_promise(&mut self, _number: u32, _id: PromiseId) -> Result<(), AllocError> {
        Ok(())
    }

    fn meant(&self, outcome: Outcome) -> Outcome {
        outcome
    }

    fn meant_call(&self, next_call: OutgoingCall) -> OutgoingCall {
        next_call
    }

    fn loose_promises(&self, alloc: Global) -> Result<Ids, AllocError> {
        Ok(Ids::new(Vec::new(alloc)))
    }

    fn forget(&mut self, _id: PromiseId) {}

    fn knows_promise(&self, _id: PromiseId) -> bool {
        // Objects of a list are given the vat's own names of promises, and may keep them.
        true
    }

    fn unknown_promises(&self, _promises: usize) -> usize {
        0
    }
}
