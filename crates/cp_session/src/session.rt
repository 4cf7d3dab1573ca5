//! A session.

ghost use Rattle.std.specs.Prelude.{◌≡◌, ◌↔◌, ◌≤◌, true, false, Ok, Err, Some, None, IsTrue, IfOk, IfErr, OnOk, OnErr, length};
ghost use Rattle.cp_dispatch.specs.Work.{Lives};
ghost use Rattle.cp_session.specs.Doing.{ActsInTime, Adds, Asks, CancelsOwn, ask_time, EndsObjects, Finishes, GivesMore, GivesNone, GoesBy, GoesOn, IsCut, IsDone, IsUnfinished, IsSettled, IsStopped, IsUnsettled, IsUnworked, KeepsRest, Leaves, MayTake, PassesTime, ReleasesUntaken, Settles, TakesIn, alarm_of, ending_by, fault_of, knows_by, next_cap, told_if, told_of};
ghost use Rattle.cp_session.specs.State.{link_of, new_state, state_of};

use crate::calling::CallingSession;
use crate::driven::DrivenSession;
use crate::endpoint::Endpoint;
use crate::limits::SessionLimits;
use crate::options::SessionOptions;
use crate::progress::{Progress, earlier};
use crate::sweep::has_come;
use cp_connection::{ConnectionFault, ConnectionStats};
use cp_dispatch::{Limit, SessionEvent};
use cp_objects::{Letter, LetterBody, ObjectTable, Objects, ServedObject, SessionCap};
use cp_refs::{Cap, Outcome, PromiseId, Request};
use std::alloc::{AllocError, Global};

/// One end of a connection with its objects, without a device and without a clock.
///
/// # In which order calls are made
///
/// 1. `new` makes it. Times are milliseconds of a clock of yours.
/// 2. While `takes_bytes` says so, read of the peer, and give what came to `receive`, until all was taken. It takes up to the end of
///    one message, does what that asks of the objects, and polls each of them once. Where the peer's bytes end, call `end`.
/// 3. While `has_more` says so, call `poll`: an object may give more though nothing comes, or a call of yours is one of an object
///    here.
/// 4. After each of these take the events by `poll_event`, until there is none, and write `outgoing`; `wrote` notes how much went out.
///    Letters to other sessions are those of `next_letter`: `deliver` each to its session, in order, and `poll` that.
/// 5. At `deadline`, and after what came was taken, call `tick`: it ends the session where that meets a limit. Where `kept` says more
///    than you allow, call `refuse`.
/// 6. Once `is_draining`, all went out: close the stream for writing, unless the peer closed. Once `is_over`, close it.
///
/// `call` and the other calls of the program may come between any two of these. What they send goes out by `outgoing`.
///
/// # What ends a session
///
/// The vat closes; the peer's bytes can't be read on; memory runs out; a limit is met; or the peer's bytes end, the objects give
/// no more, and all was written. One event says which, and it is the last. Nothing more is taken from then on: what the peer still
/// sends before it closes is dropped, so that it can read what it was sent. What is too large is refused by an Abort: a frame
/// past the reader's limits, and what makes a session keep too much.
///
/// Then each object that is left is told its end, once (`ServedObject::ended`), and none is left. So it is by `close`, which says that the
/// stream is gone.
///
/// # Errors
///
/// Where memory runs out, a call or an outcome may be lost. So the session ends then.
pub type Session<O> = SessionOver<Objects<O>>;

/// A `Session` over objects of whatever form: `Objects`, or the list of one that calls its objects by a `Connection` alone.
/// It is generic over `ObjectTable` since its proofs cost least so: over `Objects` that they name, each would open these up.
pub struct SessionOver<H> {
    endpoint: Endpoint,
    objects: H,
    limits: SessionLimits,
    progress: Progress,
}

impl<H: Drop> Drop for SessionOver<H> {
    fn drop(self) {
        let SessionOver {
            endpoint: _,
            objects: _,
            limits: _,
            progress: _,
        } = self;
    }
}

impl<H: ObjectTable> SessionOver<H> {
    /// A session to which nothing came.
    pub fn new(alloc: Global, options: &SessionOptions, objects: H, now: u64) -> SessionOver<H>
        ensures { state_of result ≡ new_state options.now objects now }
    {
        SessionOver {
            endpoint: Endpoint::new(alloc, options),
            objects,
            limits: options.limits,
            progress: Progress::new(now),
        }
    }

    /// The objects.
    pub fn objects(&self) -> &H
        ensures { result.now ≡ (state_of self.now).objects }
    {
        &self.objects
    }
}

/// A session of objects that make others.
impl<O: ServedObject<Makes = O>> SessionOver<Objects<O>> {
    /// Adds an object that stays as long as the session, as `Objects::add`, and gives its capability.
    pub fn add(&mut self, object: O) -> Result<SessionCap, AllocError>
        ensures cap { IfOk result (λ cap. cap ≡ next_cap (state_of self.old)) }
        ensures adds { OnOk result (Adds object (state_of self.old) (state_of self.new)) }
        ensures unadded { OnErr result (KeepsRest (state_of self.old) (state_of self.new)) }
    {
        self.objects.add(object)
    }
}

impl<H: ObjectTable> DrivenSession for SessionOver<H> {
    type Objects = H;

    ghost table = { H.table };

    ghost state = { λ it. state_of it };

    fn begin(
        alloc: Global,
        options: &SessionOptions,
        number: u64,
        mut objects: H,
        now: u64,
    ) -> SessionOver<H> {
        objects.set_session(number);
        SessionOver::new(alloc, options, objects, now)
    }

    fn receive(&mut self, piece: &[u8], now: u64) -> Result<usize, ConnectionFault> {
        if self.is_draining() {
            return Ok(piece.len());
        }
        if piece.is_empty() {
            return Ok(0);
        }
        if !self.may_take() {
            return Ok(0);
        }
        let taken = self.take(piece, now);
        self.settle(now);
        taken
    }

    fn end(&mut self, now: u64) -> Result<(), ConnectionFault> {
        if !self.progress.is_serving() {
            self.progress.end_again();
            self.settle(now);
            return Ok(());
        }
        let ended = self.end_bytes(now);
        self.settle(now);
        ended
    }

    fn poll(&mut self, now: u64) -> Result<(), AllocError> {
        if !self.has_more() {
            return Ok(());
        }
        let polled = self.work_on(now);
        self.settle(now);
        polled
    }

    fn tick(&mut self, now: u64) {
        let kept = self.endpoint.kept(&self.objects);
        let excess = self.progress.tick(&self.limits, kept, now);
        self.endpoint.refuse(excess);
        self.go_by(now);
        self.settle(now);
    }

    fn refuse(&mut self, now: u64) {
        if self.is_over() {
            return;
        }
        let told = self.progress.meet(Limit::Kept);
        self.endpoint.refuse(told);
        self.settle(now);
    }

    fn close(&mut self, now: u64) {
        self.progress.close();
        self.settle(now);
    }

    fn kept(&self) -> u64 {
        self.endpoint.kept(&self.objects)
    }

    fn deadline(&self) -> Option<u64> {
        let limit = earlier(self.progress.deadline(&self.limits), self.ask_time());
        if self.is_stopped() {
            return limit;
        }
        earlier(limit, self.alarm())
    }

    fn outgoing(&self) -> &[u8] {
        self.endpoint.connection.outgoing()
    }

    fn wrote(&mut self, count: usize, now: u64) {
        self.endpoint.connection.wrote(count);
        self.progress.write_at(count, now);
        self.settle(now);
    }

    fn poll_event(&mut self) -> Option<SessionEvent> {
        match self.endpoint.work.next() {
            Some(event) => self.tell(event),
            None => self.last_event(),
        }
    }

    fn takes_bytes(&self) -> bool {
        self.is_draining() || self.may_take()
    }

    fn has_more(&self) -> bool {
        self.is_read() && self.gives_more()
    }

    fn is_draining(&self) -> bool {
        self.progress.is_draining()
    }

    fn is_over(&self) -> bool {
        self.progress.is_over()
    }

    fn fault(&self) -> Option<ConnectionFault> {
        match self.progress.fault {
            Some(fault) => Some(fault),
            None => self.endpoint.connection.fault(),
        }
    }

    fn stats(&self) -> ConnectionStats {
        self.endpoint.connection.stats()
    }

    fn wake(&mut self, object: u32) -> Result<(), AllocError> {
        self.objects.wake(object)?;
        self.endpoint.stir();
        Ok(())
    }

    fn next_letter(&mut self) -> Option<Letter> {
        self.objects.next_letter()
    }

    fn deliver(&mut self, body: LetterBody) -> Result<(), AllocError> {
        self.objects.deliver(body)?;
        self.endpoint.stir();
        Ok(())
    }
}

impl<H: ObjectTable> CallingSession for SessionOver<H> {
    fn bootstrap(&mut self) -> Result<u32, ConnectionFault> {
        self.endpoint.connection.bootstrap()
    }

    fn call(&mut self, cap: Cap, request: Request) -> Result<u32, ConnectionFault> {
        self.endpoint.connection.call(cap, request)
    }

    fn promise(&mut self) -> Result<PromiseId, ConnectionFault> {
        self.endpoint.connection.promise()
    }

    fn resolve(&mut self, promise: PromiseId, value: Cap) -> Result<(), ConnectionFault> {
        self.endpoint.connection.resolve(promise, value)
    }

    fn finish(&mut self, question: u32) -> Result<(), ConnectionFault> {
        let untaken = self.endpoint.finish(question)?;
        self.release_untaken(untaken);
        self.cancel(question);
        Ok(())
    }

    fn release_outcome(&mut self, outcome: Outcome) {
        match self.endpoint.give_back_each(&outcome) {
            Ok(()) => {}
            Err(_) => self.progress.fail(ConnectionFault::OutOfMemory),
        }
    }

    fn release(&mut self, import: u32) -> Result<(), ConnectionFault> {
        self.endpoint.give_back(import)
    }

    fn forget(&mut self, promise: PromiseId) -> Result<(), ConnectionFault> {
        self.endpoint.connection.forget(promise)
    }
}

impl<H: ObjectTable> SessionOver<H> {
    /// Gives back what an outcome named that was never handed out, if there is one.
    fn release_untaken(&mut self, untaken: Option<Outcome>)
        ensures { ReleasesUntaken untaken (state_of self.old) (state_of self.new) }
    {
        match untaken {
            Some(outcome) => self.release_outcome(outcome),
            None => {}
        }
    }

    /// Tells the object that is to answer a question which is given up, if there is one.
    fn cancel(&mut self, question: u32)
        ensures { CancelsOwn H.table question (state_of self.old) (state_of self.new) }
    {
        match self.endpoint.cancel(&mut self.objects, question) {
            Ok(()) => {}
            Err(_) => self.progress.fail(ConnectionFault::OutOfMemory),
        }
    }

    /// Takes bytes up to the end of a message, at this time.
    fn take(&mut self, piece: &[u8], now: u64) -> Result<usize, ConnectionFault>
        ensures takes { IfOk result (λ count. TakesIn H.table (state_of self.old) piece.now now count (state_of self.new)) }
        ensures few { IfOk result (λ count. count ≤ length piece.now) }
        ensures cut { IfErr result (λ fault. IsCut H.table (state_of self.old) piece.now now fault (state_of self.new)) }
    {
        self.objects.set_now(now);
        let taken = self.endpoint.receive(&mut self.objects, piece, now);
        self.progress.take_at(now, self.endpoint.is_open());
        match taken {
            Ok(count) => Ok(count),
            Err(fault) => {
                self.progress.fail(fault);
                self.endpoint.refuse(fault.excess());
                Err(fault)
            }
        }
    }

    /// Ends the bytes of the peer while they are taken.
    fn end_bytes(&mut self, now: u64) -> Result<(), ConnectionFault>
        ensures finishes { OnOk result (Finishes H.table now (state_of self.old) (state_of self.new)) }
        ensures unfinished { IfErr result (λ fault. IsUnfinished H.table now (state_of self.old) fault (state_of self.new)) }
    {
        self.objects.set_now(now);
        let ended = self.endpoint.end(&mut self.objects, now);
        self.progress.finish();
        match ended {
            Ok(()) => Ok(()),
            Err(fault) => {
                self.progress.fail(fault);
                Err(fault)
            }
        }
    }

    /// Does what happened asks of the objects, and polls each of them once.
    fn work_on(&mut self, now: u64) -> Result<(), AllocError>
        ensures works { OnOk result (GoesOn H.table now (state_of self.old) (state_of self.new)) }
        ensures unworked { OnErr result (IsUnworked H.table (state_of self.old) (state_of self.new)) }
    {
        self.objects.set_now(now);
        match self.endpoint.poll(&mut self.objects, now) {
            Ok(()) => Ok(()),
            Err(error) => {
                self.progress.fail(ConnectionFault::OutOfMemory);
                Err(error)
            }
        }
    }

    /// Asks a peer that is silent, and has time pass for the objects, unless nothing more is given.
    fn go_by(&mut self, now: u64)
        ensures { GoesBy H.table now (state_of self.old) (state_of self.new) }
    {
        if self.is_stopped() {
            return;
        }
        self.ask_if_silent(now);
        self.pass_time(now);
    }

    /// Asks a peer that was silent for half of the time that it may be, so that one that is there isn't taken for one that is gone.
    fn ask_if_silent(&mut self, now: u64)
        ensures { Asks now (state_of self.old) (state_of self.new) }
    {
        if !has_come(self.ask_time(), now) {
            return;
        }
        self.endpoint.ask();
        let count = self.outgoing().len();
        self.progress.ask(count);
    }

    /// When the peer is asked, if no byte moves before.
    fn ask_time(&self) -> Option<u64>
        ensures { result ≡ ask_time (state_of self.now) }
    {
        if self.outgoing().is_empty() {
            self.progress.ask_time(&self.limits)
        } else {
            None
        }
    }

    /// Wakes the objects whose time has come, and drops those that nothing refers to, where it is time for that.
    fn pass_time(&mut self, now: u64)
        ensures { PassesTime H.table now (state_of self.old) (state_of self.new) }
    {
        if !has_come(self.alarm(), now) {
            return;
        }
        match self.act_in_time(now) {
            Ok(()) => {}
            Err(_) => self.progress.fail(ConnectionFault::OutOfMemory),
        }
    }

    /// The same, where memory suffices.
    fn act_in_time(&mut self, now: u64) -> Result<(), AllocError>
        ensures acts { OnOk result (ActsInTime H.table now (state_of self.old) (state_of self.new)) }
        ensures same { state_of self.new ≡ record (state_of self.old) { service = (state_of self.new).service; objects = (state_of self.new).objects } }
        ensures lives { Lives (link_of (state_of self.old)) (link_of (state_of self.new)) }
    {
        self.objects.set_now(now);
        self.objects.wake_due()?;
        self.endpoint.stir();
        self.endpoint.tick(&mut self.objects, now)
    }

    /// When an object is to be woken, or objects are to be sought that nothing refers to.
    fn alarm(&self) -> Option<u64>
        ensures { result ≡ alarm_of H.table (state_of self.now) }
    {
        earlier(self.objects.deadline(), self.endpoint.sweep_time())
    }

    /// Whether more of the peer is taken now.
    fn may_take(&self) -> bool
        ensures { IsTrue result ↔ MayTake (state_of self.now) }
    {
        self.progress.is_serving() && self.is_read()
    }

    /// Whether little enough waits to be written.
    fn is_read(&self) -> bool
        ensures { IsTrue result ↔ (length (link_of (state_of self.now)).unwritten ≤ (state_of self.now).limits.ahead) }
    {
        self.outgoing().len() <= self.limits.ahead
    }

    /// Whether something may be given, though nothing more comes.
    fn gives_more(&self) -> bool
        ensures more { result ≡ true → GivesMore H.table (state_of self.now) }
        ensures none { result ≡ false → GivesNone H.table (state_of self.now) }
    {
        !self.is_stopped() && self.endpoint.has_more(&self.objects)
    }

    /// Whether nothing more is given: the connection ended, or there was a fault, or a limit was met.
    fn is_stopped(&self) -> bool
        ensures { IsTrue result ↔ IsStopped (state_of self.now) }
    {
        self.endpoint.has_ended() || self.progress.fault.is_some() || self.progress.limit.is_some()
    }

    /// Where the connection ended nothing more is taken. Once all went out and nothing more is given, the peer's close is waited for,
    /// if it isn't there. Once nothing more is given the objects are told their end.
    fn settle(&mut self, now: u64)
        ensures { Settles H.table (state_of self.old) now (state_of self.new) }
    {
        self.progress.heed(self.endpoint.connection.fault());
        self.leave_if_settled(now);
        self.end_objects(now);
    }

    /// Once all went out and nothing more is given, the peer's close is waited for, if it isn't there.
    fn leave_if_settled(&mut self, now: u64)
        ensures { Leaves H.table (state_of self.old) now (state_of self.new) }
    {
        if !self.is_settled() {
            return;
        }
        self.progress.leave(now);
    }

    /// Tells the objects their end, once nothing more is given. None is left then, so none is told twice. Where memory runs out some may
    /// be left, and the next call tells these.
    fn end_objects(&mut self, now: u64)
        ensures { EndsObjects H.table now (state_of self.old) (state_of self.new) }
    {
        if !self.is_done() {
            return;
        }
        self.objects.set_now(now);
        match self.objects.end_all() {
            Ok(()) => {}
            Err(_) => self.progress.fail(ConnectionFault::OutOfMemory),
        }
    }

    /// Whether nothing is given any more: it stopped, or all went out after the peer's bytes ended.
    fn is_done(&self) -> bool
        ensures { IsTrue result ↔ IsDone (state_of self.now) }
    {
        self.is_stopped() || self.progress.is_draining() || self.progress.is_over()
    }

    /// Whether nothing is taken, all went out, and nothing more is given.
    fn is_settled(&self) -> bool
        ensures settled { result ≡ true → IsSettled H.table (state_of self.now) }
        ensures unsettled { result ≡ false → IsUnsettled H.table (state_of self.now) }
    {
        self.progress.is_ending() && self.outgoing().is_empty() && !self.gives_more()
    }

    /// Tells an event: one that says why nothing more is taken only where none did before.
    fn tell(&mut self, event: SessionEvent) -> Option<SessionEvent>
        ensures event { result ≡ told_if self.old.progress.is_told event }
        ensures told { self.new ≡ record self.old { progress = record self.old.progress { is_told = knows_by result self.old.progress.is_told } } }
    {
        if !event.is_last() {
            return Some(event);
        }
        if self.progress.is_told {
            drop(event);
            return None;
        }
        self.progress.is_told = true;
        Some(event)
    }

    /// The event that says why nothing more is taken, once.
    fn last_event(&mut self) -> Option<SessionEvent>
        ensures event { result ≡ told_of (state_of self.old) None }
        ensures told { self.new ≡ record self.old { progress = record self.old.progress { is_told = knows_by result self.old.progress.is_told } } }
    {
        if self.progress.is_told {
            return None;
        }
        let event = self.ending()?;
        self.progress.is_told = true;
        Some(event)
    }

    /// Why nothing more is taken, where no event says it.
    fn ending(&self) -> Option<SessionEvent>
        ensures { let state = state_of self.now in result ≡ ending_by state.progress.limit (fault_of state) state.progress.phase }
    {
        if let Some(limit) = self.progress.limit {
            return Some(SessionEvent::Limit(limit));
        }
        if let Some(fault) = self.fault() {
            return Some(SessionEvent::Fault(fault));
        }
        if self.is_over() {
            return Some(SessionEvent::Ended);
        }
        None
    }
}
