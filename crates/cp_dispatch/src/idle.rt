//! Objects and promises that nothing refers to.

ghost use Rattle.std.specs.Prelude.{IfOk, OnOk};
ghost use Rattle.cp_dispatch.specs.Dropping.{DropsIdle, Forgets, ForgetsEach, Goes, LosesEach, LosesIdle, MakesLast, MakesLastCall};
ghost use Rattle.cp_dispatch.specs.Idle.{UnknownGo, UnknownGoes};
ghost use Rattle.cp_dispatch.specs.Work.{Lives};
ghost use Rattle.cp_dispatch.specs.WorkOf.{work_of};

use crate::dispatcher::Dispatcher;
use crate::promise_requests::with_promise_requests_kept;
use cp_connection::{Connection, ConnectionFault};
use cp_objects::{CallQueue, Departed, ObjectTable};
use cp_refs::PromiseId;
use cp_servants::OutgoingCall;
use std::alloc::AllocError;

impl Dispatcher {
    /// Forgets each promise that objects made, or that calls and outcomes of theirs named, if it is resolved and nothing refers to it. Then
    /// drops each object that may go and that nothing of the connection refers to: it is told its end, and the calls that it made then are
    /// made. Last it tries to release the imports that were given up, with those that these objects held. Nothing is done while something
    /// that happened wasn't worked off, as that may be a call of an object, or name a promise. What you yourself hold isn't counted.
    pub fn drop_idle<H: ObjectTable>(
        &mut self,
        connection: &mut Connection,
        objects: &mut H,
    ) -> Result<(), AllocError>
        ensures done { OnOk result (DropsIdle H.table (work_of self.old connection.old) (work_of self.new connection.new) objects.old objects.new) }
        ensures lives { Lives connection.old connection.new }
    {
        if connection.held().events > 0 {
            return Ok(());
        }
        let loose = objects.loose_promises(self.alloc)?;
        forget_each(connection, objects, loose.ids())?;
        let idle = objects.idle(self.alloc)?;
        self.drop_each(connection, objects, idle.ids())?;
        self.release_all(connection)
    }

    /// Drops each of these objects that nothing of the connection refers to.
    fn drop_each<H: ObjectTable>(
        &mut self,
        connection: &mut Connection,
        objects: &mut H,
        numbers: &[u32],
    ) -> Result<(), AllocError>
        ensures done { OnOk result (LosesEach H.table numbers.now (work_of self.old connection.old) (work_of self.new connection.new) objects.old objects.new) }
        ensures lives { Lives connection.old connection.new }
    {
        for number in numbers {
            self.drop_one(connection, objects, *number)?;
        }
        Ok(())
    }

    /// Drops an object, if nothing of the connection refers to it and it is there.
    fn drop_one<H: ObjectTable>(
        &mut self,
        connection: &mut Connection,
        objects: &mut H,
        number: u32,
    ) -> Result<(), AllocError>
        ensures done { OnOk result (LosesIdle H.table number (work_of self.old connection.old) (work_of self.new connection.new) objects.old objects.new) }
        ensures lives { Lives connection.old connection.new }
    {
        if connection.uses_object(number) || !objects.has(number) {
            return Ok(());
        }
        let said = objects.end(self.alloc, number)?;
        let Departed {
            imports,
            next_calls,
        } = with_promise_requests_kept(self.alloc, connection, objects, said)?;
        self.make_last_calls(connection, objects, number, next_calls)?;
        self.settle_each(connection, objects)?;
        self.give_up(&imports)
    }

    /// Makes the calls that an object made last, in order, where objects may call. Nobody is told what they come to.
    fn make_last_calls<H: ObjectTable>(
        &mut self,
        connection: &mut Connection,
        objects: &mut H,
        number: u32,
        mut next_calls: CallQueue,
    ) -> Result<(), AllocError>
        ensures done { OnOk result (MakesLast H.table number next_calls (work_of self.old connection.old) (work_of self.new connection.new) objects.old objects.new) }
        ensures lives { Lives connection.old connection.new }
    {
        for _ in 0..u64::MAX {
            let Some(next_call) = next_calls.pop() else {
                return Ok(());
            };
            self.make_last_call(connection, objects, number, next_call)?;
        }
        Err(AllocError)
    }

    /// Makes a call that an object made last, where objects may call.
    fn make_last_call<H: ObjectTable>(
        &mut self,
        connection: &mut Connection,
        objects: &mut H,
        number: u32,
        next_call: OutgoingCall,
    ) -> Result<(), AllocError>
        ensures done { OnOk result (MakesLastCall H.table number next_call (work_of self.old connection.old) (work_of self.new connection.new) objects.old objects.new) }
        ensures lives { Lives connection.old connection.new }
    {
        if !self.may_call {
            drop(next_call);
            return Ok(());
        }
        let meant = objects.meant_call(next_call);
        self.make_call(connection, objects, number, meant)
    }
}

/// Forgets each of these promises that no object may know and that the vat doesn't use.
pub(crate) fn forget_unknown<H: ObjectTable>(
    connection: &mut Connection,
    objects: &H,
    ids: &[PromiseId],
) -> Result<(), AllocError>
    ensures done { OnOk result (UnknownGo H.table objects.now ids.now connection.old connection.new) }
    ensures lives { Lives connection.old connection.new }
{
    for id in ids {
        forget_if_unknown(connection, objects, *id)?;
    }
    Ok(())
}

/// Forgets a promise that no object may know, if the vat doesn't use it.
fn forget_if_unknown<H: ObjectTable>(
    connection: &mut Connection,
    objects: &H,
    id: PromiseId,
) -> Result<(), AllocError>
    ensures done { OnOk result (UnknownGoes H.table objects.now id connection.old connection.new) }
    ensures lives { Lives connection.old connection.new }
{
    if objects.knows_promise(id) {
        return Ok(());
    }
    let _ = forget_unused(connection, id)?;
    Ok(())
}

/// Forgets each of these promises that the vat doesn't use.
fn forget_each<H: ObjectTable>(
    connection: &mut Connection,
    objects: &mut H,
    ids: &[PromiseId],
) -> Result<(), AllocError>
    ensures done { OnOk result (ForgetsEach H.table ids.now connection.old connection.new objects.old objects.new) }
    ensures lives { Lives connection.old connection.new }
{
    for id in ids {
        forget(connection, objects, *id)?;
    }
    Ok(())
}

/// Forgets a promise, if the vat doesn't use it.
fn forget<H: ObjectTable>(
    connection: &mut Connection,
    objects: &mut H,
    id: PromiseId,
) -> Result<(), AllocError>
    ensures done { OnOk result (Forgets H.table id connection.old connection.new objects.old objects.new) }
    ensures lives { Lives connection.old connection.new }
{
    let went = forget_unused(connection, id)?;
    if went {
        objects.forget(id);
    }
    Ok(())
}

/// Has the vat forget a promise, unless it uses it. Says whether it did.
fn forget_unused(connection: &mut Connection, id: PromiseId) -> Result<bool, AllocError>
    ensures done { IfOk result (λ went. Goes id connection.old went connection.new) }
    ensures lives { Lives connection.old connection.new }
{
    let fault = match connection.forget(id) {
        Ok(()) => return Ok(true),
        Err(fault) => fault,
    };
    match fault {
        ConnectionFault::OutOfMemory => Err(AllocError),
        _ => Ok(false),
    }
}
