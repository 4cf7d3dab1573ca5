//! Calls that are given up before they are answered: of the peer, of the program, and of objects.

ghost use Rattle.std.specs.Prelude.{◌≡◌, OnOk};
ghost use Rattle.cp_connection.specs.Link.{Link};
ghost use Rattle.cp_refs.specs.declared.call.Origin.TheVariants as origins;
ghost use Rattle.cp_vat.specs.Stages.{stage_at};
ghost use Rattle.cp_dispatch.specs.Canceling.{Cancels, TellsCancel, answer_given_up};
ghost use Rattle.cp_dispatch.specs.GivingUp.{CancelsCall, CancelsEach, TellsLate, TellsOwing, is_finished, is_open};
ghost use Rattle.cp_dispatch.specs.Work.{Lives, TakesAwaited, awaiting};
ghost use Rattle.cp_dispatch.specs.WorkOf.{work_of};

use crate::answers::finish;
use crate::dispatcher::Dispatcher;
use crate::keyed::{key_at, key_of};
use crate::promise_requests::with_promise_requests_kept;
use cp_connection::Connection;
use cp_objects::{CanceledCall, ObjectTable};
use cp_refs::Origin;
use cp_tables::Stage;
use std::alloc::AllocError;

impl Dispatcher {
    /// The answer of a call is awaited.
    pub(crate) fn put_off(&mut self, origin: Origin, ticket: u64) -> Result<(), AllocError>
        ensures { OnOk result ((link : Link) → work_of self.new link ≡ awaiting origin ticket (work_of self.old link)) }
    {
        self.owed.put(key_of(origin), ticket)?;
        self.awaited.put(ticket, origin)
    }

    /// The answer of a call is awaited no more. `None` says that it wasn't.
    pub(crate) fn take_awaited(&mut self, ticket: u64) -> Option<Origin>
        ensures { (link : Link) → TakesAwaited ticket (work_of self.old link) result (work_of self.new link) }
    {
        let origin = self.awaited.remove(ticket)?;
        drop(self.owed.remove(key_of(origin)));
        Some(origin)
    }

    /// Where the answer is owed of a call that is given up, its object is told, once, and what follows of that is worked off. `receive` does
    /// so for the peer's calls. Do it for a call of yours once you `finish`ed its question and got no outcome.
    pub fn cancel<H: ObjectTable>(
        &mut self,
        connection: &mut Connection,
        objects: &mut H,
        given_up: Option<Origin>,
    ) -> Result<(), AllocError>
        ensures done { OnOk result (Cancels H.table given_up (work_of self.old connection.old) (work_of self.new connection.new) objects.old objects.new) }
        ensures lives { Lives connection.old connection.new }
    {
        let Some(origin) = given_up else {
            return Ok(());
        };
        let Some(ticket) = self.owed.remove(key_of(origin)) else {
            return Ok(());
        };
        self.tell_cancel(connection, objects, ticket)
    }

    /// Where a call that was delivered was given up while it waited in the vat, its object is told, if it is to answer it later.
    pub(crate) fn tell_late<H: ObjectTable>(
        &mut self,
        connection: &mut Connection,
        objects: &mut H,
        origin: Origin,
    ) -> Result<(), AllocError>
        ensures done { OnOk result (TellsLate H.table origin (work_of self.old connection.old) (work_of self.new connection.new) objects.old objects.new) }
        ensures lives { Lives connection.old connection.new }
    {
        if !is_finished(connection, origin) {
            return Ok(());
        }
        self.tell_owing(connection, objects, origin)
    }

    /// Gives up each call that its object gave up, until none is left.
    pub(crate) fn cancel_each<H: ObjectTable>(
        &mut self,
        connection: &mut Connection,
        objects: &mut H,
    ) -> Result<(), AllocError>
        ensures done { OnOk result (CancelsEach H.table (work_of self.old connection.old) (work_of self.new connection.new) objects.old objects.new) }
        ensures lives { Lives connection.old connection.new }
    {
        for _ in 0..u64::MAX {
            let Some(call) = objects.next_canceled() else {
                return Ok(());
            };
            self.cancel_call(connection, objects, call)?;
        }
        Err(AllocError)
    }

    /// Gives up a call that its object gave up, if its outcome is to come yet. Where an object here owes the answer, that is told.
    fn cancel_call<H: ObjectTable>(
        &mut self,
        connection: &mut Connection,
        objects: &mut H,
        call: CanceledCall,
    ) -> Result<(), AllocError>
        ensures done { OnOk result (CancelsCall H.table call (work_of self.old connection.old) (work_of self.new connection.new) objects.old objects.new) }
        ensures lives { Lives connection.old connection.new }
    {
        let key = key_at(call.number, call.call_id);
        let Some(question) = self.questions.get(key).copied() else {
            return Ok(());
        };
        // Its outcome waits to be handed back, and the vat may give its number to another question once it is finished.
        if !is_open(connection, question) {
            return Ok(());
        }
        drop(self.questions.remove(key));
        drop(self.asked.remove(question));
        objects.wait_for_one_less(call.number);
        finish(connection, question)?;
        self.tell_owing(connection, objects, Origin::Own(question))
    }

    /// Tells the object that owes the answer of a call that the call was given up, if one does. The calls that it makes then are made when
    /// it is polled.
    fn tell_owing<H: ObjectTable>(
        &mut self,
        connection: &mut Connection,
        objects: &mut H,
        origin: Origin,
    ) -> Result<(), AllocError>
        ensures done { OnOk result (TellsOwing H.table origin (work_of self.old connection.old) (work_of self.new connection.new) objects.old objects.new) }
        ensures lives { Lives connection.old connection.new }
    {
        let Some(owed) = self.owed.remove(key_of(origin)) else {
            return Ok(());
        };
        let told = objects.on_cancel_at(owed)?;
        let _ = with_promise_requests_kept(self.alloc, connection, objects, told)?;
        Ok(())
    }

    /// Tells the object that is to answer this call that it was given up, if there is one, and works off what follows.
    fn tell_cancel<H: ObjectTable>(
        &mut self,
        connection: &mut Connection,
        objects: &mut H,
        ticket: u64,
    ) -> Result<(), AllocError>
        ensures done { OnOk result (TellsCancel H.table ticket (work_of self.old connection.old) (work_of self.new connection.new) objects.old objects.new) }
        ensures lives { Lives connection.old connection.new }
    {
        let told = objects.on_cancel_at(ticket)?;
        let Some(number) = told else {
            return Ok(());
        };
        let number = with_promise_requests_kept(self.alloc, connection, objects, number)?;
        self.make_calls(connection, objects, number)?;
        self.work_off(connection, objects)
    }
}

/// The call of an answer that the peer finishes, if it does.
pub(crate) fn answer_given_up(finished: Option<u32>) -> Option<Origin>
    ensures { result ≡ answer_given_up finished }
{
    match finished {
        Some(answer) => Some(Origin::Answer(answer)),
        None => None,
    }
}

/// Whether the outcome of a question is to come, and is waited for.
fn is_open(connection: &Connection, question: u32) -> bool
    ensures { result ≡ is_open (stage_at connection.now.vat (origins.Own question)) }
{
    match connection.stage_at(Origin::Own(question)) {
        Some(Stage::Open) => true,
        _ => false,
    }
}

/// Whether the outcome of a call is to come, and nobody waits for it.
fn is_finished(connection: &Connection, origin: Origin) -> bool
    ensures { result ≡ is_finished (stage_at connection.now.vat origin) }
{
    match connection.stage_at(origin) {
        Some(Stage::Finished) => true,
        _ => false,
    }
}
