//! The objects of a connection, of whatever form.

ghost use Rattle.std.specs.Prelude.{◌≡◌, ◌↔◌, IsTrue, IfOk, OnOk};
ghost use Rattle.cp_servants.specs.Requests.{request_of};
ghost use Rattle.cp_objects.specs.ObjectTable.{ObjectTableKind};

use crate::canceled_call::CanceledCall;
use crate::departed::Departed;
use crate::letters::{Letter, LetterBody};
use crate::promise_request::PromiseRequest;
use cp_refs::{Outcome, PromiseId};
use cp_servants::{OutgoingCall, Reply, RequestView, Settled};
use cp_vat_machine::Ids;
use std::alloc::{AllocError, Global};

/// The objects of a connection, by their numbers: a list that is fixed, or `Objects`, which grow. `Err`: memory ran out.
pub trait ObjectTable: Drop {
    /// What is done to them.
    ghost table: { ObjectTableKind Self };

    /// Whether there is an object of this number.
    fn has(&self, number: u32) -> bool
        ensures { IsTrue result ↔ table.holds number self.now };

    /// Calls an object, under a ticket, with params that are lent.
    fn call_at(
        &mut self,
        alloc: Global,
        number: u32,
        ticket: u64,
        request: RequestView<'_>,
    ) -> Result<Reply, AllocError>
        requires { table.holds number self.old }
        ensures { IfOk result (λ reply. table.calls number ticket (request_of request.entry) reply self.old self.new) };

    /// Polls an object.
    fn poll_at(&mut self, number: u32) -> Result<Option<Settled>, AllocError>
        requires { table.holds number self.old }
        ensures { IfOk result (λ given. table.polls number given self.old self.new) };

    /// The next call that an object makes.
    fn next_call_at(&mut self, number: u32) -> Result<Option<OutgoingCall>, AllocError>
        requires { table.holds number self.old }
        ensures { IfOk result (λ call. table.next_calls number call self.old self.new) };

    /// The calls that an object is yet to make aren't made.
    fn drop_next_calls(&mut self, number: u32)
        ensures { table.drops_next_calls number self.old self.new };

    /// Tells an object what a call of its own came to.
    fn on_response_at(
        &mut self,
        number: u32,
        call_id: u64,
        outcome: Outcome,
    ) -> Result<(), AllocError>
        requires { table.holds number self.old }
        ensures { OnOk result (table.tells number call_id outcome self.old self.new) };

    /// Tells the object that is to answer this call later that it was given up, if one is. Says which.
    fn on_cancel_at(&mut self, ticket: u64) -> Result<Option<u32>, AllocError>
        ensures { IfOk result (λ told. table.cancels ticket told self.old self.new) };

    /// Takes out the first call that an object made and gave up.
    fn next_canceled(&mut self) -> Option<CanceledCall>
        ensures { table.hands_canceled result self.old self.new };

    /// An object waits for one outcome less, as its call was given up.
    fn wait_for_one_less(&mut self, number: u32)
        ensures { table.waits_less number self.old self.new };

    /// The first object from this number on that is to be polled in a round.
    fn next_from(&self, number: u32) -> Option<u32>
        ensures { table.is_next number result self.now };

    /// Whether one may give more though nothing more comes.
    fn has_more(&self) -> bool
        ensures { table.says_more result self.now };

    /// How many objects and promises there are that may go.
    fn guests(&self) -> usize
        ensures { result ≡ table.guests self.now };

    /// The objects that go unless the connection refers to them, rising.
    fn idle(&self, alloc: Global) -> Result<Ids, AllocError>
        ensures { IfOk result (λ ids. ids ≡ table.idle self.now) };

    /// Tells an object its end, and drops it.
    fn end(&mut self, alloc: Global, number: u32) -> Result<Departed, AllocError>
        requires { table.holds number self.old }
        ensures { IfOk result (λ left. table.ends number left self.old self.new) };

    /// Tells each object its end, and drops it, as the connection ended. Where memory runs out, those that weren't told yet are there.
    fn end_all(&mut self) -> Result<(), AllocError>
        ensures { OnOk result (table.ends_all self.old self.new) };

    /// Takes out what a call came to first that was to be answered later, and that wasn't settled by a poll.
    fn next_settled(&mut self) -> Result<Option<Settled>, AllocError>
        ensures { IfOk result (λ given. table.hands_settled given self.old self.new) };

    /// They are those of a session of this number. A driver gives each of its sessions one of its own, before anything comes.
    fn set_session(&mut self, session: u64)
        ensures { table.is_in session self.old self.new };

    /// It is this time from now on.
    fn set_now(&mut self, now: u64)
        ensures { table.is_at now self.old self.new };

    /// Wakes the objects whose time has come.
    fn wake_due(&mut self) -> Result<(), AllocError>
        ensures { OnOk result (table.wakes_due self.old self.new) };

    /// When an object is to be woken first: none before.
    fn deadline(&self) -> Option<u64>
        ensures { result ≡ table.deadline self.now };

    /// Has an object polled, if it is there.
    fn wake(&mut self, number: u32) -> Result<(), AllocError>
        ensures { OnOk result (table.wakes number self.old self.new) };

    /// Takes out the first letter to another session.
    fn next_letter(&mut self) -> Option<Letter>
        ensures { table.hands_on result self.old self.new };

    /// Does what a letter of another session says.
    fn deliver(&mut self, body: LetterBody) -> Result<(), AllocError>
        ensures { OnOk result (table.delivers body self.old self.new) };

    /// Takes out the imports that objects gave up beside what they answered, in order.
    fn take_given_up(&mut self, alloc: Global) -> Ids
        ensures { table.hands_given_up result self.old self.new };

    /// Takes out what is to be done first of the promises of objects.
    fn next_promise_request(&mut self) -> Option<PromiseRequest>
        ensures { table.hands_promise_request result self.old self.new };

    /// The vat's promise for a number of `PromiseRequest`.
    fn promise_of(&self, number: u32) -> Option<PromiseId>
        ensures { result ≡ table.promise_of number self.now };

    /// The vat made this promise for a number of `PromiseRequest`.
    fn keep_promise(&mut self, number: u32, id: PromiseId) -> Result<(), AllocError>
        ensures { OnOk result (table.keeps_promise number id self.old self.new) };

    /// What an object answered, as the vat is to have it: its promises are the vat's.
    fn meant(&self, outcome: Outcome) -> Outcome
        ensures { result ≡ table.means outcome self.now };

    /// A call that an object makes, as the vat is to have it.
    fn meant_call(&self, next_call: OutgoingCall) -> OutgoingCall
        ensures { result ≡ table.means_call next_call self.now };

    /// The vat's promises that are resolved and that no object keeps: they go unless the vat uses them.
    fn loose_promises(&self, alloc: Global) -> Result<Ids, AllocError>
        ensures { IfOk result (λ ids. ids ≡ table.loose self.now) };

    /// The vat forgot this promise of its own.
    fn forget(&mut self, id: PromiseId)
        ensures { table.forgets id self.old self.new };

    /// Whether an object may know this promise of the vat's.
    fn knows_promise(&self, id: PromiseId) -> bool
        ensures { result ≡ table.knows id self.now };

    /// How many of the vat's promises no object knows, where the vat has so many.
    fn unknown_promises(&self, promises: usize) -> usize
        ensures { result ≡ table.unknown promises self.now };
}
