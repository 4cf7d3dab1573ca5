//! Objects that grow, as those of a connection.

use crate::canceled_call::CanceledCall;
use crate::departed::Departed;
use crate::letters::{Letter, LetterBody};
use crate::members::wait_for_one_less;
use crate::numbers::Numbers;
use crate::object_table::ObjectTable;
use crate::objects::Objects;
use crate::promise_request::PromiseRequest;
use crate::served_object::ServedObject;
use cp_refs::{Outcome, PromiseId};
use cp_servants::{OutgoingCall, Reply, RequestView, Settled};
use cp_vat_machine::Ids;
use std::alloc::{AllocError, Global};
use std::mem;

impl<O: ServedObject<Makes = O>> ObjectTable for Objects<O> {
    ghost use Rattle.cp_objects.specs.Grown.{grown};

    ghost table = { grown O.makes };

    fn has(&self, number: u32) -> bool {
        self.members.contains(number)
    }

    fn call_at(
        &mut self,
        _alloc: Global,
        number: u32,
        ticket: u64,
        request: RequestView<'_>,
    ) -> Result<Reply, AllocError> {
        self.call(number, ticket, request)
    }

    fn poll_at(&mut self, number: u32) -> Result<Option<Settled>, AllocError> {
        self.poll(number)
    }

    fn next_call_at(&mut self, number: u32) -> Result<Option<OutgoingCall>, AllocError> {
        self.next_call(number)
    }

    fn drop_next_calls(&mut self, number: u32) {
        Objects::drop_next_calls(self, number);
    }

    fn on_response_at(
        &mut self,
        number: u32,
        call_id: u64,
        outcome: Outcome,
    ) -> Result<(), AllocError> {
        self.on_response(number, call_id, outcome)
    }

    fn on_cancel_at(&mut self, ticket: u64) -> Result<Option<u32>, AllocError> {
        self.cancel(ticket)
    }

    fn next_canceled(&mut self) -> Option<CanceledCall> {
        self.canceled.pop_front()
    }

    fn wait_for_one_less(&mut self, number: u32) {
        wait_for_one_less(&mut self.members, number);
    }

    fn next_from(&self, number: u32) -> Option<u32> {
        self.awake.first_from(number)
    }

    fn has_more(&self) -> bool {
        self.awake.first_from(0).is_some()
    }

    fn guests(&self) -> usize {
        self.len()
            .saturating_add(self.promises.len())
            .saturating_add(self.lent())
    }

    fn idle(&self, _alloc: Global) -> Result<Ids, AllocError> {
        Objects::idle(self)
    }

    fn end(&mut self, _alloc: Global, number: u32) -> Result<Departed, AllocError> {
        Objects::end(self, number)
    }

    fn end_all(&mut self) -> Result<(), AllocError> {
        Objects::end_all(self)
    }

    fn next_settled(&mut self) -> Result<Option<Settled>, AllocError> {
        Objects::next_settled(self)
    }

    fn set_session(&mut self, session: u64) {
        Objects::set_session(self, session);
    }

    fn set_now(&mut self, now: u64) {
        self.context.set_now(now);
    }

    fn wake_due(&mut self) -> Result<(), AllocError> {
        Objects::wake_due(self)
    }

    fn deadline(&self) -> Option<u64> {
        self.first_alarm
    }

    fn wake(&mut self, number: u32) -> Result<(), AllocError> {
        Objects::wake(self, number)
    }

    fn next_letter(&mut self) -> Option<Letter> {
        Objects::next_letter(self)
    }

    fn deliver(&mut self, body: LetterBody) -> Result<(), AllocError> {
        Objects::deliver(self, body)
    }

    fn take_given_up(&mut self, alloc: Global) -> Ids {
        mem::replace(&mut self.given_up, Numbers::new(alloc)).into_ids()
    }

    fn next_promise_request(&mut self) -> Option<PromiseRequest> {
        self.promises.next()
    }

    fn promise_of(&self, number: u32) -> Option<PromiseId> {
        self.promises.ids.get(number).copied()
    }

    fn keep_promise(&mut self, number: u32, id: PromiseId) -> Result<(), AllocError> {
        self.promises.keep(number, id)
    }

    fn meant(&self, outcome: Outcome) -> Outcome {
        self.promises.meant_outcome(outcome)
    }

    fn meant_call(&self, next_call: OutgoingCall) -> OutgoingCall {
        self.promises.meant_call(next_call)
    }

    fn loose_promises(&self, _alloc: Global) -> Result<Ids, AllocError> {
        Objects::loose_promises(self)
    }

    fn forget(&mut self, id: PromiseId) {
        self.promises.forget(id);
    }

    fn knows_promise(&self, id: PromiseId) -> bool {
        self.promises.has_name(id)
    }

    fn unknown_promises(&self, promises: usize) -> usize {
        promises.saturating_sub(self.promises.len())
    }
}
