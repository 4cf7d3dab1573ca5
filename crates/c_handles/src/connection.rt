//! A connection that C drives, and the event that it handed out last.

ghost use Rattle.std.specs.Prelude.{◌≡◌, [], None, Some, IfOk, IfErr, OnOk, OnErr, MatchOption};
ghost use Rattle.std.specs.FinMap as map;
ghost use Rattle.cp_messages.specs.Written.{kind_number};
ghost use Rattle.cp_vat_machine.specs.declared.event.Event.TheVariants as events;
ghost use Rattle.cp_vat_machine.specs.declared.event.Value.TheVariants as values;
ghost use Rattle.cp_connection.specs.Link.{new_link_with_tails};
ghost use Rattle.c_handles.specs.Event as happened;
ghost use Rattle.c_handles.specs.Fault.{no_memory};
ghost use Rattle.c_handles.specs.Connection.{ActsAs, TakesAs, EndsAs, Resolves, Calls, Answers, Fails, GivesBack, Keeps, Tells, Waits, LendsContent, LendsNone, HasCap, HasNoCap, LendsReason, LendsNoReason, IsRequest, IsNoRequest, IsNoPayload, IsPayload, IsFailure, IsNoFailure};

use crate::caps::{CapNumbers, caps_of};
use crate::code::CallFault;
use crate::content::{content_of, put_content};
use crate::event::EventNumbers;
use crate::fault::{fault_of, told};
use crate::holds::ImportHolds;
use cp_connection::{Connection, ConnectionEvent};
use cp_frame::Mode;
use cp_refs::{Cap, Caps, Origin, Outcome, Request};
use cp_rpc::{Exception, ExceptionKind, Text};
use cp_tree::{UnknownEnumerant, Whole};
use cp_vat_machine::Reason;
use cp_words::Limits;
use std::alloc::Global;
use std::mem;

/// The most capacity for lent bytes that is left for later ones.
const SPARE: usize = 65_536;

/// A connection without its devices, the event that was taken last, how many entries of its table were counted as held, and the bytes that
/// were lent.
pub struct ConnectionState {
    pub alloc: Global,
    pub limits: Limits,
    pub connection: Connection,
    pub event: Option<ConnectionEvent>,
    pub counted: usize,
    pub holds: ImportHolds,
    pub lent: Vec<u8>,
}

// Not derived: a crate that lets one go calls this function, and need not prove the drop of all that it holds.
impl Drop for ConnectionState {
    fn drop(self) {
        let ConnectionState {
            alloc: _,
            limits: _,
            connection: _,
            event: _,
            counted: _,
            holds: _,
            lent: _,
        } = self;
    }
}

impl ConnectionState {
    /// A connection to which nothing came, which gives this object to a Bootstrap and serves tail calls.
    pub fn new(alloc: Global, mode: Mode, limits: Limits, bootstrap: Option<u32>) -> ConnectionState
        ensures connection { result.connection ≡ new_link_with_tails mode limits bootstrap }
        ensures limits { result.limits ≡ limits }
        ensures none { result.event ≡ None }
        ensures counted { result.counted ≡ 0 }
        ensures holds { result.holds.counts ≡ map.empty }
        ensures nothing { result.lent.items ≡ [] }
    {
        ConnectionState {
            alloc,
            limits,
            connection: Connection::with_tail_calls(alloc, mode, limits, bootstrap),
            event: None,
            counted: 0,
            holds: ImportHolds::new(alloc),
            lent: Vec::new(alloc),
        }
    }

    /// As `Connection::receive`.
    pub fn receive(&mut self, piece: &[u8]) -> Result<usize, CallFault>
        ensures { TakesAs self.old piece.now result self.new }
    {
        match self.connection.receive(piece) {
            Ok(count) => Ok(count),
            Err(fault) => Err(fault_of(fault)),
        }
    }

    /// As `Connection::end`.
    pub fn end(&mut self) -> Result<(), CallFault>
        ensures { EndsAs self.old result self.new }
    {
        match self.connection.end() {
            Ok(()) => Ok(()),
            Err(fault) => Err(fault_of(fault)),
        }
    }

    /// As `Connection::bootstrap`.
    pub fn bootstrap(&mut self) -> Result<u32, CallFault>
        ensures { ActsAs (λ q. values.Question q) self.old events.Bootstrap result self.new }
    {
        told(self.connection.bootstrap())
    }

    /// As `Connection::finish`.
    pub fn finish(&mut self, question: u32) -> Result<(), CallFault>
        ensures { ActsAs (λ _. values.Nothing) self.old (events.Finish question) result self.new }
    {
        told(self.connection.finish(question))
    }

    /// Gives back one hold of an import: the program has one for each entry of an event's table that is this import. The last one has it
    /// released, as `Connection::release` does, whose faults leave all as it was.
    pub fn release(&mut self, import: u32) -> Result<(), CallFault>
        ensures { GivesBack self.old import result self.new }
    {
        if self.holds.of(import) > 1 {
            self.holds.lower(import);
            return Ok(());
        }
        match self.connection.release(import) {
            Ok(()) => {
                self.holds.lower(import);
                Ok(())
            }
            Err(fault) => Err(fault_of(fault)),
        }
    }

    /// As `Connection::promise`.
    pub fn promise(&mut self) -> Result<u32, CallFault>
        ensures { ActsAs (λ p. values.Promise p) self.old events.Promise result self.new }
    {
        told(self.connection.promise())
    }

    /// As `Connection::resolve`.
    ///
    /// # Errors
    ///
    /// Those of `CapNumbers::cap` too, and then nothing changes.
    pub fn resolve(&mut self, promise: u32, value: &CapNumbers) -> Result<(), CallFault>
        ensures { Resolves self.old promise value.now result self.new }
    {
        match value.cap(self.alloc) {
            Ok(cap) => told(self.connection.resolve(promise, cap)),
            Err(fault) => Err(fault),
        }
    }

    /// As `Connection::forget`.
    pub fn forget(&mut self, promise: u32) -> Result<(), CallFault>
        ensures { ActsAs (λ _. values.Nothing) self.old (events.Forget promise) result self.new }
    {
        told(self.connection.forget(promise))
    }

    /// Calls a capability with the struct of a frame as its params, as `Connection::call`.
    ///
    /// # Errors
    ///
    /// Those of `content_of` and of `CapNumbers::cap` too, and then nothing changes.
    pub fn call(
        &mut self,
        target: &CapNumbers,
        method: (u64, u16),
        params: &[u8],
        table: &[CapNumbers],
    ) -> Result<u32, CallFault>
        ensures { Calls self.old target.now method params.now table.now result self.new }
    {
        match call_of(self.alloc, target, method, params, table) {
            Ok((cap, request)) => told(self.connection.call(cap, request)),
            Err(fault) => Err(fault),
        }
    }

    /// Answers a call with the struct of a frame as its results, as `Connection::answer`.
    ///
    /// # Errors
    ///
    /// Those of `content_of` and of `CapNumbers::cap` too, and then nothing changes.
    pub fn answer(
        &mut self,
        origin: Origin,
        results: &[u8],
        table: &[CapNumbers],
    ) -> Result<(), CallFault>
        ensures { Answers self.old origin results.now table.now result self.new }
    {
        match payload_of(self.alloc, results, table) {
            Ok((content, caps)) => {
                told(
                    self.connection
                        .answer(origin, Outcome::Results { content, caps }),
                )
            }
            Err(fault) => Err(fault),
        }
    }

    /// Answers a call with an exception, as `Connection::answer`.
    ///
    /// # Errors
    ///
    /// `Argument` where the reason isn't UTF-8, and F6, and then nothing changes.
    pub fn fail(&mut self, origin: Origin, kind: u16, reason: &[u8]) -> Result<(), CallFault>
        ensures { Fails self.old origin kind reason.now result self.new }
    {
        match failure_of(self.alloc, kind, reason) {
            Ok(exception) => told(self.connection.answer(origin, Outcome::Failed(exception))),
            Err(fault) => Err(fault),
        }
    }

    /// Takes what happened first of what wasn't taken, in place of what was taken before, and gives its numbers. The program holds each
    /// import of its table then, once for each entry.
    ///
    /// # Errors
    ///
    /// F6: there was no memory to count an entry. The next call goes on with this event.
    pub fn next(&mut self) -> Result<EventNumbers, CallFault>
        ensures told { IfOk result (λ n. Tells self.old self.new n) }
        ensures waits { IfErr result (λ fault. Waits self.old self.new × (fault ≡ no_memory)) }
        ensures nothing { self.new.lent.items ≡ [] }
        ensures limits { self.new.limits ≡ self.old.limits }
    {
        self.let_go();
        if table_in(&self.event).len() <= self.counted {
            drop(mem::replace(&mut self.event, self.connection.next()));
            self.counted = 0;
        }
        self.holds
            .give_from(&mut self.counted, table_in(&self.event))?;
        Ok(EventNumbers::of(&self.event))
    }

    /// Lends the content of the event's params or results, as the root of a plain frame.
    ///
    /// # Errors
    ///
    /// `NoContent` where the event has none; F6, B1 to B4. Then nothing is lent.
    pub fn content(&mut self) -> Result<(), CallFault>
        ensures lends { OnOk result (LendsContent self.old self.new.lent.items) }
        ensures refused { IfErr result (LendsNone self.old) }
        ensures nothing { OnErr result (self.new.lent.items ≡ []) }
        ensures keeps { Keeps self.old self.new }
    {
        self.lent.clear();
        match content_in(&self.event) {
            Some(content) => {
                put_content(self.alloc, &mut self.lent, content, self.limits)?;
                Ok(())
            }
            None => Err(CallFault::NoContent),
        }
    }

    /// A capability of the event's table.
    ///
    /// # Errors
    ///
    /// `NoContent` where there is none of this number.
    pub fn cap(&self, place: usize) -> Result<CapNumbers, CallFault>
        ensures found { IfOk result (HasCap self.now place) }
        ensures none { IfErr result (HasNoCap self.now place) }
    {
        match table_in(&self.event).get(place) {
            Some(cap) => Ok(CapNumbers::of(cap)),
            None => Err(CallFault::NoContent),
        }
    }

    /// Lends the reason of the event's exception, or of the peer's Abort.
    ///
    /// # Errors
    ///
    /// `NoContent` where the event has none; F6. Then nothing is lent.
    pub fn reason(&mut self) -> Result<(), CallFault>
        ensures lends { OnOk result (LendsReason self.old self.new.lent.items) }
        ensures refused { IfErr result (LendsNoReason self.old) }
        ensures nothing { OnErr result (self.new.lent.items ≡ []) }
        ensures keeps { Keeps self.old self.new }
    {
        self.lent.clear();
        let Some(reason) = reason_in(&self.event) else {
            return Err(CallFault::NoContent);
        };
        let bytes = Vec::from_slice(self.alloc, reason)?;
        drop(mem::replace(&mut self.lent, bytes));
        Ok(())
    }

    /// Lets go of what was lent, and of a large buffer.
    fn let_go(&mut self)
        ensures nothing { self.new.lent.items ≡ [] }
        ensures keeps { Keeps self.old self.new }
    {
        if SPARE < self.lent.capacity() {
            drop(mem::replace(&mut self.lent, Vec::new(self.alloc)));
        }
        self.lent.clear();
    }
}

/// The capability that is called, and what is asked of it.
fn call_of(
    alloc: Global,
    target: &CapNumbers,
    method: (u64, u16),
    params: &[u8],
    table: &[CapNumbers],
) -> Result<(Cap, Request), CallFault>
    ensures asked { IfOk result (IsRequest target.now method params.now table.now) }
    ensures refused { IfErr result (IsNoRequest target.now params.now table.now) }
{
    let (content, caps) = payload_of(alloc, params, table)?;
    let request = Request {
        interface: method.0,
        method: method.1,
        content,
        caps,
    };
    match target.cap(alloc) {
        Ok(cap) => Ok((cap, request)),
        Err(fault) => {
            drop(request);
            Err(fault)
        }
    }
}

/// The content of a frame, and the table beside it.
fn payload_of(alloc: Global, bytes: &[u8], table: &[CapNumbers]) -> Result<(Whole, Caps), CallFault>
    ensures held { IfOk result (IsPayload bytes.now table.now) }
    ensures refused { IfErr result (IsNoPayload bytes.now table.now) }
{
    let content = content_of(alloc, bytes)?;
    match caps_of(alloc, table) {
        Ok(caps) => Ok((content, caps)),
        Err(fault) => {
            drop(content);
            Err(fault)
        }
    }
}

/// The exception of this type and reason.
fn failure_of(alloc: Global, kind: u16, reason: &[u8]) -> Result<Exception, CallFault>
    ensures made { IfOk result (IsFailure kind reason.now) }
    ensures refused { IfErr result (IsNoFailure reason.now) }
{
    let Ok(reason) = str::from_utf8(reason) else {
        return Err(CallFault::Argument);
    };
    let text = String::from_str(alloc, reason)?;
    Ok(Exception {
        kind: kind_of(kind),
        reason: Text::new(text),
        trace: Text::new(String::new(alloc)),
    })
}

/// The type of a number (rpc.capnp, "Exception").
fn kind_of(number: u16) -> ExceptionKind
    ensures { kind_number result ≡ number }
{
    match number {
        0 => ExceptionKind::Failed,
        1 => ExceptionKind::Overloaded,
        2 => ExceptionKind::Disconnected,
        3 => ExceptionKind::Unimplemented,
        _ => ExceptionKind::Unknown(UnknownEnumerant::of(number)),
    }
}

/// The content of an event's params or results.
fn content_in(event: &Option<ConnectionEvent>) -> Option<&Whole>
    ensures { MatchOption result (happened.content_of event.now ≡ None) (λ w. happened.content_of event.now ≡ Some w.now) }
{
    match event {
        Some(ConnectionEvent::Delivered { call, .. }) => Some(&call.content),
        Some(
            ConnectionEvent::Settled {
                outcome: Outcome::Results { content, .. },
                ..
            },
        ) => Some(content),
        _ => None,
    }
}

/// The capability table of an event's params or results.
fn table_in(event: &Option<ConnectionEvent>) -> &[Cap]
    ensures { result.now ≡ happened.table_of event.now }
{
    match event {
        Some(ConnectionEvent::Delivered { call, .. }) => call.caps.caps(),
        Some(
            ConnectionEvent::Settled {
                outcome: Outcome::Results { caps, .. },
                ..
            },
        ) => caps.caps(),
        _ => &[],
    }
}

/// The reason of an event's exception.
fn reason_in(event: &Option<ConnectionEvent>) -> Option<&[u8]>
    ensures { MatchOption result (happened.reason_of event.now ≡ None) (λ r. happened.reason_of event.now ≡ Some r.now) }
{
    match event {
        Some(
            ConnectionEvent::Settled {
                outcome: Outcome::Failed(exception),
                ..
            },
        ) => Some(exception.reason.as_str().as_bytes()),
        Some(ConnectionEvent::Closed(Reason::Peer(exception))) => {
            Some(exception.reason.as_str().as_bytes())
        }
        _ => None,
    }
}
