//! How calls of the peer are answered, and calls of objects finished.

ghost use Rattle.std.specs.Prelude.{OnOk};
ghost use Rattle.cp_servants.specs.Outcomes.{bad_outcome};
ghost use Rattle.cp_vat_machine.specs.declared.event.Event.TheVariants as events;
ghost use Rattle.cp_dispatch.specs.Work.{Answers, IsDone, Lives};

use cp_connection::{Connection, ConnectionFault};
use cp_refs::{Origin, Outcome};
use cp_servants::bad_outcome;
use std::alloc::{AllocError, Global};

/// Answers a call with its outcome, or with an exception where the vat refuses that. Nothing is answered once the
/// connection ended.
pub(crate) fn answer(
    alloc: Global,
    connection: &mut Connection,
    origin: Origin,
    outcome: Outcome,
) -> Result<(), AllocError>
    ensures done { OnOk result (Answers connection.old origin outcome connection.new) }
    ensures lives { Lives connection.old connection.new }
{
    let fault = match connection.answer(origin, outcome) {
        Ok(()) => return Ok(()),
        Err(fault) => fault,
    };
    match fault {
        ConnectionFault::OutOfMemory => Err(AllocError),
        ConnectionFault::Refused(_) => answer_badly(alloc, connection, origin),
        ConnectionFault::Closed => Ok(()),
        ConnectionFault::Unreadable { .. } => Ok(()),
    }
}

/// Answers a call with the exception in place of an outcome that the vat refused.
fn answer_badly(
    alloc: Global,
    connection: &mut Connection,
    origin: Origin,
) -> Result<(), AllocError>
    ensures done { OnOk result (IsDone connection.old (events.Answer origin bad_outcome) connection.new) }
    ensures lives { Lives connection.old connection.new }
{
    let outcome = bad_outcome(alloc)?;
    let fault = match connection.answer(origin, outcome) {
        Ok(()) => return Ok(()),
        Err(fault) => fault,
    };
    match fault {
        ConnectionFault::OutOfMemory => Err(AllocError),
        _ => Ok(()),
    }
}

/// Finishes the question of an object's call. Nothing is sent once the connection ended.
pub(crate) fn finish(connection: &mut Connection, question: u32) -> Result<(), AllocError>
    ensures done { OnOk result (IsDone connection.old (events.Finish question) connection.new) }
    ensures lives { Lives connection.old connection.new }
{
    let fault = match connection.finish(question) {
        Ok(()) => return Ok(()),
        Err(fault) => fault,
    };
    match fault {
        ConnectionFault::OutOfMemory => Err(AllocError),
        _ => Ok(()),
    }
}
