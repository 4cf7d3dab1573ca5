//! What is done of the promises of objects.

ghost use Rattle.std.specs.Prelude.{◌≡◌, IfOk, OnOk};
ghost use Rattle.cp_servants.specs.Outcomes.{bad_outcome};
ghost use Rattle.cp_vat_machine.specs.declared.event.Event.TheVariants as events;
ghost use Rattle.cp_dispatch.specs.PromiseRequests.{KeepsPromiseRequest, KeepsPromiseRequests, MakesPromise, Resolves, ResolvesFor, broken_by};
ghost use Rattle.cp_dispatch.specs.Work.{IsDone, Lives};

use cp_connection::{Connection, ConnectionFault};
use cp_objects::{ObjectTable, PromiseRequest};
use cp_refs::{Cap, Outcome, PromiseId};
use cp_servants::bad_outcome;
use std::alloc::{AllocError, Global};

/// Does what is to be done of the promises of objects, in order, until nothing is left; then gives what an object gave with it.
/// An object may name a promise in what it gives, so this comes before that is used.
pub(crate) fn with_promise_requests_kept<H: ObjectTable, T: Drop>(
    alloc: Global,
    connection: &mut Connection,
    objects: &mut H,
    given: T,
) -> Result<T, AllocError>
    ensures same { IfOk result (λ same. same ≡ given) }
    ensures done { OnOk result (KeepsPromiseRequests H.table connection.old connection.new objects.old objects.new) }
    ensures lives { Lives connection.old connection.new }
{
    match keep_promise_requests(alloc, connection, objects) {
        Ok(()) => Ok(given),
        Err(error) => {
            drop(given);
            Err(error)
        }
    }
}

/// Does what is to be done of the promises of objects, in order, until nothing is left.
fn keep_promise_requests<H: ObjectTable>(
    alloc: Global,
    connection: &mut Connection,
    objects: &mut H,
) -> Result<(), AllocError>
    ensures done { OnOk result (KeepsPromiseRequests H.table connection.old connection.new objects.old objects.new) }
    ensures lives { Lives connection.old connection.new }
{
    for _ in 0..u64::MAX {
        let Some(promise_request) = objects.next_promise_request() else {
            return Ok(());
        };
        keep_promise_request(alloc, connection, objects, promise_request)?;
    }
    Err(AllocError)
}

/// Does what is to be done of one promise.
fn keep_promise_request<H: ObjectTable>(
    alloc: Global,
    connection: &mut Connection,
    objects: &mut H,
    promise_request: PromiseRequest,
) -> Result<(), AllocError>
    ensures done { OnOk result (KeepsPromiseRequest H.table promise_request connection.old connection.new objects.old objects.new) }
    ensures lives { Lives connection.old connection.new }
{
    match promise_request {
        PromiseRequest::Make(number) => make_promise(connection, objects, number),
        PromiseRequest::Resolve { number, value } => {
            resolve_for(alloc, connection, objects.promise_of(number), value)
        }
    }
}

/// The vat makes a promise for a number. Where it has no room for one, the number stays that of an object which isn't there.
fn make_promise<H: ObjectTable>(
    connection: &mut Connection,
    objects: &mut H,
    number: u32,
) -> Result<(), AllocError>
    ensures done { OnOk result (MakesPromise H.table number connection.old connection.new objects.old objects.new) }
    ensures lives { Lives connection.old connection.new }
{
    let fault = match connection.promise() {
        Ok(id) => return objects.keep_promise(number, id),
        Err(fault) => fault,
    };
    match fault {
        ConnectionFault::OutOfMemory => Err(AllocError),
        _ => Ok(()),
    }
}

/// The promise that the vat made for a number, if it did, comes to a value.
fn resolve_for(
    alloc: Global,
    connection: &mut Connection,
    id: Option<PromiseId>,
    value: Cap,
) -> Result<(), AllocError>
    ensures done { OnOk result (ResolvesFor id value connection.old connection.new) }
    ensures lives { Lives connection.old connection.new }
{
    match id {
        Some(id) => resolve(alloc, connection, id, value),
        None => {
            drop(value);
            Ok(())
        }
    }
}

/// A promise comes to a value, or to an exception where the vat refuses that.
fn resolve(
    alloc: Global,
    connection: &mut Connection,
    id: PromiseId,
    value: Cap,
) -> Result<(), AllocError>
    ensures done { OnOk result (Resolves connection.old id value connection.new) }
    ensures lives { Lives connection.old connection.new }
{
    let fault = match connection.resolve(id, value) {
        Ok(()) => return Ok(()),
        Err(fault) => fault,
    };
    match fault {
        ConnectionFault::OutOfMemory => Err(AllocError),
        ConnectionFault::Refused(_) => break_promise(alloc, connection, id),
        ConnectionFault::Closed => Ok(()),
        ConnectionFault::Unreadable { .. } => Ok(()),
    }
}

/// A promise comes to the exception in place of a value that the vat refused.
fn break_promise(
    alloc: Global,
    connection: &mut Connection,
    id: PromiseId,
) -> Result<(), AllocError>
    ensures done { OnOk result (IsDone connection.old (events.Resolve id (broken_by bad_outcome)) connection.new) }
    ensures lives { Lives connection.old connection.new }
{
    let outcome = bad_outcome(alloc)?;
    let value = broken_by(outcome);
    let fault = match connection.resolve(id, value) {
        Ok(()) => return Ok(()),
        Err(fault) => fault,
    };
    match fault {
        ConnectionFault::OutOfMemory => Err(AllocError),
        _ => Ok(()),
    }
}

/// What a promise comes to where a call of it would fail so.
fn broken_by(outcome: Outcome) -> Cap
    ensures { result ≡ broken_by outcome }
{
    match outcome {
        Outcome::Failed(exception) => Cap::Broken(exception),
        other => {
            drop(other);
            Cap::None
        }
    }
}
