//! A connection that C drives.

ghost use Rattle.std.specs.Prelude.{◌≡◌, ◌≢◌, None};
ghost use Rattle.cp_vat_machine.specs.declared.event.Event.TheVariants as events;
ghost use Rattle.cp_vat_machine.specs.declared.event.Value.TheVariants as values;
ghost use Rattle.c_handles.specs.Limits.{bounds_of};
ghost use Rattle.c_handles.specs.Connection.{LendsContent, LendsNone, LendsReason, LendsNoReason};
ghost use Rattle.jamdrosek_c.specs.Reader.{mode_of, IsAllowedFor};
ghost use Rattle.jamdrosek_c.specs.Connection as through;
ghost use Rattle.jamdrosek_c.specs.Connection.{Opens, Through, Takes, Ends, Asks, Acts, CallsFor, AnswersTo, FailsTo, Releases, Settles};
ghost use Rattle.jamdrosek_c.specs.Connection.{Lends, LendsOutgoing, Writes, HandsOutThrough, UsesThrough, CapThrough, FaultThrough};

use crate::tell::{
    CLOSED, DONE, NO_MEMORY, mode_of, tell_bytes, tell_cap, tell_count, tell_event, tell_number,
};
use c_handles::{
    Bytes, CallFault, CapNumbers, ConnectionHandle, ConnectionState, EventNumbers, LimitNumbers,
    MethodNumbers, NOWHERE, OriginNumbers, Spot, fault_of,
};
use cp_connection::ConnectionFault;
use std::alloc::Global;

/// Opens a connection in the plain form or the packed one, whose peer's messages keep to these limits, and whose Bootstrap gets this object,
/// where there is one. A connection that was there is let go.
#[unsafe(no_mangle)]
pub extern "C" fn jd_connection_open(
    alloc: Global,
    connection: &mut ConnectionHandle,
    packed: bool,
    limits: &LimitNumbers,
    has_bootstrap: bool,
    bootstrap: u32,
) -> u32
    ensures opened { result ≡ 0 → Opens (mode_of packed) (bounds_of limits.now) has_bootstrap bootstrap connection.new.value }
    ensures same { result ≢ 0 → connection.new.value ≡ connection.old.value }
    ensures allowed { IsAllowedFor (bounds_of limits.now) result }
{
    let Some(limits) = limits.limits() else {
        return CallFault::Limits.code();
    };
    let object = bootstrap_of(has_bootstrap, bootstrap);
    match Box::new(
        alloc,
        ConnectionState::new(alloc, mode_of(packed), limits, object),
    ) {
        Ok(state) => {
            connection.put(state);
            DONE
        }
        Err(_) => NO_MEMORY,
    }
}

/// Takes bytes of the peer up to the end of the next message, and says how many, as `Connection::receive`.
#[unsafe(no_mangle)]
pub extern "C" fn jd_connection_receive(
    alloc: Global,
    connection: &mut ConnectionHandle,
    piece: &[u8],
    taken: &mut usize,
) -> u32
    ensures { Through connection.old.value connection.new.value result (Takes piece.now taken.new result) }
{
    match connection.take(alloc) {
        Some(mut state) => {
            let count = state.receive(piece);
            connection.put(state);
            tell_count(count, taken)
        }
        None => {
            *taken = 0;
            CLOSED
        }
    }
}

/// Ends the bytes of the peer, after a message, as `Connection::end`.
#[unsafe(no_mangle)]
pub extern "C" fn jd_connection_end(alloc: Global, connection: &mut ConnectionHandle) -> u32
    ensures { Through connection.old.value connection.new.value result (Ends result) }
{
    match connection.take(alloc) {
        Some(mut state) => {
            let ended = state.end();
            connection.put(state);
            tell_bytes(ended)
        }
        None => CLOSED,
    }
}

/// Lends the bytes that are to be written to the peer, as `Connection::outgoing`.
#[unsafe(no_mangle)]
pub extern "C" fn jd_connection_outgoing(
    alloc: Global,
    connection: &mut ConnectionHandle,
    bytes: &mut Bytes,
) -> u32
    ensures { Through connection.old.value connection.new.value result (LendsOutgoing bytes.new.len result) }
{
    match connection.take(alloc) {
        Some(state) => {
            *bytes = Bytes::of(state.connection.outgoing());
            connection.put(state);
            DONE
        }
        None => {
            *bytes = Bytes::of(&[]);
            CLOSED
        }
    }
}

/// Notes that the first bytes of what is to go out were written, as `Connection::wrote`.
#[unsafe(no_mangle)]
pub extern "C" fn jd_connection_wrote(
    alloc: Global,
    connection: &mut ConnectionHandle,
    count: usize,
) -> u32
    ensures { Through connection.old.value connection.new.value result (Writes count result) }
{
    match connection.take(alloc) {
        Some(mut state) => {
            state.connection.wrote(count);
            connection.put(state);
            DONE
        }
        None => CLOSED,
    }
}

/// Takes what happened first of what wasn't taken, as `Connection::next`. What the event before had is let go. Each entry of its table that is
/// an import is one hold of it. F6: an entry couldn't be counted; the next call goes on with this event.
#[unsafe(no_mangle)]
pub extern "C" fn jd_connection_next(
    alloc: Global,
    connection: &mut ConnectionHandle,
    event: &mut EventNumbers,
) -> u32
    ensures { HandsOutThrough connection.old.value connection.new.value event.new result }
{
    match connection.take(alloc) {
        Some(mut state) => {
            let told = state.next();
            connection.put(state);
            tell_event(told, event)
        }
        None => {
            *event = EventNumbers::NOTHING;
            CLOSED
        }
    }
}

/// Lends the content of the event's params or results: a plain frame whose root it is.
#[unsafe(no_mangle)]
pub extern "C" fn jd_connection_content(
    alloc: Global,
    connection: &mut ConnectionHandle,
    bytes: &mut Bytes,
) -> u32
    ensures { Through connection.old.value connection.new.value result (Lends LendsContent LendsNone bytes.new result) }
{
    match connection.take(alloc) {
        Some(mut state) => {
            let done = state.content();
            *bytes = Bytes::of_buffer(&state.lent);
            connection.put(state);
            tell_bytes(done)
        }
        None => {
            *bytes = Bytes::of(&[]);
            CLOSED
        }
    }
}

/// Asks for the peer's bootstrap capability, and gives the question's number, as `Connection::bootstrap`.
#[unsafe(no_mangle)]
pub extern "C" fn jd_connection_bootstrap(
    alloc: Global,
    connection: &mut ConnectionHandle,
    question: &mut u32,
) -> u32
    ensures { Through connection.old.value connection.new.value result (Asks (λ q. values.Question q) events.Bootstrap question.new result) }
{
    match connection.take(alloc) {
        Some(mut state) => {
            let asked = state.bootstrap();
            connection.put(state);
            tell_number(asked, question)
        }
        None => {
            *question = 0;
            CLOSED
        }
    }
}

/// Calls a capability with the struct of a plain frame, or null where it has no bytes, and gives the question's number, as
/// `Connection::call`.
#[unsafe(no_mangle)]
pub extern "C" fn jd_connection_call(
    alloc: Global,
    connection: &mut ConnectionHandle,
    target: &CapNumbers,
    method: &MethodNumbers,
    params: &[u8],
    caps: &[CapNumbers],
    question: &mut u32,
) -> u32
    ensures { Through connection.old.value connection.new.value result (CallsFor target.now method.now params.now caps.now question.new result) }
{
    match connection.take(alloc) {
        Some(mut state) => {
            let asked = state.call(target, (method.interface, method.method), params, caps);
            connection.put(state);
            tell_number(asked, question)
        }
        None => {
            *question = 0;
            CLOSED
        }
    }
}

/// Answers a call that was delivered with the struct of a plain frame, or null where it has no bytes, as `Connection::answer`.
#[unsafe(no_mangle)]
pub extern "C" fn jd_connection_answer(
    alloc: Global,
    connection: &mut ConnectionHandle,
    origin: &OriginNumbers,
    results: &[u8],
    caps: &[CapNumbers],
) -> u32
    ensures { Through connection.old.value connection.new.value result (AnswersTo origin.now results.now caps.now result) }
{
    match connection.take(alloc) {
        Some(mut state) => {
            let answered = state.answer(origin.origin(), results, caps);
            connection.put(state);
            tell_bytes(answered)
        }
        None => CLOSED,
    }
}

/// Answers a call that was delivered with an exception of this type and reason.
#[unsafe(no_mangle)]
pub extern "C" fn jd_connection_fail(
    alloc: Global,
    connection: &mut ConnectionHandle,
    origin: &OriginNumbers,
    kind: u16,
    reason: &[u8],
) -> u32
    ensures { Through connection.old.value connection.new.value result (FailsTo origin.now kind reason.now result) }
{
    match connection.take(alloc) {
        Some(mut state) => {
            let answered = state.fail(origin.origin(), kind, reason);
            connection.put(state);
            tell_bytes(answered)
        }
        None => CLOSED,
    }
}

/// Gives a question up, as `Connection::finish`.
#[unsafe(no_mangle)]
pub extern "C" fn jd_connection_finish(
    alloc: Global,
    connection: &mut ConnectionHandle,
    question: u32,
) -> u32
    ensures { Through connection.old.value connection.new.value result (Acts (events.Finish question) result) }
{
    match connection.take(alloc) {
        Some(mut state) => {
            let done = state.finish(question);
            connection.put(state);
            tell_bytes(done)
        }
        None => CLOSED,
    }
}

/// Gives back one hold of an import. The last one has it released, with its whole count, as `Connection::release` does.
#[unsafe(no_mangle)]
pub extern "C" fn jd_connection_release(
    alloc: Global,
    connection: &mut ConnectionHandle,
    import: u32,
) -> u32
    ensures { Through connection.old.value connection.new.value result (Releases import result) }
{
    match connection.take(alloc) {
        Some(mut state) => {
            let done = state.release(import);
            connection.put(state);
            tell_bytes(done)
        }
        None => CLOSED,
    }
}

/// Settles a promise that this end made, as `Connection::resolve`.
#[unsafe(no_mangle)]
pub extern "C" fn jd_connection_resolve(
    alloc: Global,
    connection: &mut ConnectionHandle,
    promise: u32,
    value: &CapNumbers,
) -> u32
    ensures { Through connection.old.value connection.new.value result (Settles promise value.now result) }
{
    match connection.take(alloc) {
        Some(mut state) => {
            let done = state.resolve(promise, value);
            connection.put(state);
            tell_bytes(done)
        }
        None => CLOSED,
    }
}

/// Drops a settled promise, as `Connection::forget`.
#[unsafe(no_mangle)]
pub extern "C" fn jd_connection_forget(
    alloc: Global,
    connection: &mut ConnectionHandle,
    promise: u32,
) -> u32
    ensures { Through connection.old.value connection.new.value result (Acts (events.Forget promise) result) }
{
    match connection.take(alloc) {
        Some(mut state) => {
            let done = state.forget(promise);
            connection.put(state);
            tell_bytes(done)
        }
        None => CLOSED,
    }
}

/// Makes an open promise, and gives its number, as `Connection::promise`.
#[unsafe(no_mangle)]
pub extern "C" fn jd_connection_promise(
    alloc: Global,
    connection: &mut ConnectionHandle,
    promise: &mut u32,
) -> u32
    ensures { Through connection.old.value connection.new.value result (Asks (λ p. values.Promise p) events.Promise promise.new result) }
{
    match connection.take(alloc) {
        Some(mut state) => {
            let made = state.promise();
            connection.put(state);
            tell_number(made, promise)
        }
        None => {
            *promise = 0;
            CLOSED
        }
    }
}

/// Whether the connection refers to an object of this end, as `Connection::uses_object`. An event that wasn't taken may name it too.
#[unsafe(no_mangle)]
pub extern "C" fn jd_connection_uses(
    alloc: Global,
    connection: &mut ConnectionHandle,
    object: u32,
    uses: &mut bool,
) -> u32
    ensures same { connection.new.value ≡ connection.old.value }
    ensures told { UsesThrough connection.old.value object uses.new result }
{
    match connection.take(alloc) {
        Some(state) => {
            *uses = state.connection.uses_object(object);
            connection.put(state);
            DONE
        }
        None => {
            *uses = false;
            CLOSED
        }
    }
}

/// The capability of this number in the table of the event's params or results.
#[unsafe(no_mangle)]
pub extern "C" fn jd_connection_cap(
    alloc: Global,
    connection: &mut ConnectionHandle,
    place: usize,
    cap: &mut CapNumbers,
) -> u32
    ensures same { connection.new.value ≡ connection.old.value }
    ensures told { CapThrough connection.old.value place cap.new result }
{
    match connection.take(alloc) {
        Some(state) => {
            let numbers = state.cap(place);
            connection.put(state);
            tell_cap(numbers, cap)
        }
        None => tell_cap(Err(CallFault::Closed), cap),
    }
}

/// Lends the reason of the event's exception, or why the connection closed.
#[unsafe(no_mangle)]
pub extern "C" fn jd_connection_reason(
    alloc: Global,
    connection: &mut ConnectionHandle,
    bytes: &mut Bytes,
) -> u32
    ensures { Through connection.old.value connection.new.value result (Lends LendsReason LendsNoReason bytes.new result) }
{
    match connection.take(alloc) {
        Some(mut state) => {
            let done = state.reason();
            *bytes = Bytes::of_buffer(&state.lent);
            connection.put(state);
            tell_bytes(done)
        }
        None => {
            *bytes = Bytes::of(&[]);
            CLOSED
        }
    }
}

/// Why the connection ended, after how many bytes of messages of the peer, and what is to blame, as `Connection::fault`: 0 where it
/// goes on.
#[unsafe(no_mangle)]
pub extern "C" fn jd_connection_fault(
    alloc: Global,
    connection: &mut ConnectionHandle,
    at: &mut u64,
    spot: &mut Spot,
) -> u32
    ensures same { connection.new.value ≡ connection.old.value }
    ensures told { FaultThrough connection.old.value at.new spot.new result }
{
    match connection.take(alloc) {
        Some(state) => {
            let fault = state.connection.fault();
            connection.put(state);
            tell_ending(fault, at, spot)
        }
        None => {
            *at = 0;
            *spot = NOWHERE;
            CLOSED
        }
    }
}

/// Lets go of the connection, if there is one, and leaves the handle closed. Nothing is written to the peer.
#[unsafe(no_mangle)]
pub extern "C" fn jd_connection_close(alloc: Global, connection: &mut ConnectionHandle)
    ensures { connection.new.value ≡ None }
{
    connection.close(alloc);
}

/// The object that a Bootstrap gets, if there is one.
fn bootstrap_of(has_bootstrap: bool, object: u32) -> Option<u32>
    ensures { result ≡ through.bootstrap_of has_bootstrap object }
{
    if has_bootstrap { Some(object) } else { None }
}

/// Why a connection ended.
fn tell_ending(fault: Option<ConnectionFault>, at: &mut u64, spot: &mut Spot) -> u32
    ensures at { at.new ≡ through.ending_at fault }
    ensures spot { spot.new ≡ through.ending_spot fault }
    ensures code { result ≡ through.ending_code fault }
{
    let Some(fault) = fault else {
        *at = 0;
        *spot = NOWHERE;
        return DONE;
    };
    *at = match fault {
        ConnectionFault::Unreadable { at, refusal: _ } => at,
        _ => 0,
    };
    *spot = fault_of(fault).spot();
    fault_of(fault).code()
}
