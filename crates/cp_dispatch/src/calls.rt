//! What the calls of a connection come to: those of objects, and those that objects make.

ghost use Rattle.std.specs.Prelude.{◌≡◌, [], IfOk, OnOk};
ghost use Rattle.cp_connection.specs.Link.{Link};
ghost use Rattle.cp_servants.specs.Outcomes.{no_such_object};
ghost use Rattle.cp_servants.specs.Requests.{request_of};
ghost use Rattle.cp_servants.specs.declared.servant.Reply.TheVariants.{Now};
ghost use Rattle.cp_dispatch.specs.Work.{Lives, Replies, TakesAsked, asking};
ghost use Rattle.cp_dispatch.specs.Calling.{HandsBack, Hears, NotesOutcome, MakesCall, MakesCalls, NextCall, Settles, SettlesEach};
ghost use Rattle.cp_dispatch.specs.Rounds.{Gives};
ghost use Rattle.cp_dispatch.specs.WorkOf.{work_of};

use crate::answers::{answer, finish};
use crate::dispatcher::{Dispatcher, has_ended};
use crate::event::SessionEvent;
use crate::keyed::key_at;
use crate::promise_requests::with_promise_requests_kept;
use crate::question_owner::QuestionOwner;
use cp_connection::{Connection, ConnectionFault};
use cp_objects::ObjectTable;
use cp_refs::{Origin, Outcome};
use cp_servants::{OutgoingCall, Reply, RequestView, Settled, no_such_object, refused_call};
use cp_vat_machine::Ids;
use std::alloc::AllocError;

impl Dispatcher {
    /// What an object replies to a call, whose capabilities it is given; where there is no such object the call fails.
    pub(crate) fn reply_of<H: ObjectTable>(
        &mut self,
        objects: &mut H,
        number: u32,
        ticket: u64,
        request: RequestView<'_>,
    ) -> Result<Reply, AllocError>
        ensures { IfOk result (λ r. (link : Link) → Gives H.table number ticket (request_of request.entry) r (work_of self.old link) (work_of self.new link) objects.old objects.new) }
    {
        if objects.has(number) {
            self.hold(&request.caps)?;
            let reply = objects.call_at(self.alloc, number, ticket, request)?;
            return Ok(reply);
        }
        self.reply_of_none()
    }

    /// Answers a call with what its object replied, or awaits that.
    pub(crate) fn reply<H: ObjectTable>(
        &mut self,
        connection: &mut Connection,
        objects: &H,
        origin: Origin,
        ticket: u64,
        reply: Reply,
    ) -> Result<(), AllocError>
        ensures done { OnOk result (Replies (λ o. H.table.means o objects.now) (work_of self.old connection.old) origin ticket reply (work_of self.new connection.new)) }
        ensures lives { Lives connection.old connection.new }
    {
        match reply {
            Reply::Now { outcome, gives_up } => {
                self.give_up(&gives_up)?;
                answer(self.alloc, connection, origin, objects.meant(outcome))
            }
            Reply::Later => self.put_off(origin, ticket),
        }
    }

    /// Answers a call with what an object settled it with, if it did. Says whether it was awaited: if not, what the
    /// object gave is dropped.
    pub(crate) fn settle<H: ObjectTable>(
        &mut self,
        connection: &mut Connection,
        objects: &H,
        settled: Option<Settled>,
    ) -> Result<bool, AllocError>
        ensures done { IfOk result (λ gave. Settles (λ o. H.table.means o objects.now) (work_of self.old connection.old) settled gave (work_of self.new connection.new)) }
        ensures lives { Lives connection.old connection.new }
    {
        let Some(settled) = settled else {
            return Ok(false);
        };
        let Some(origin) = self.take_awaited(settled.ticket) else {
            return Ok(false);
        };
        self.give_up(&settled.gives_up)?;
        let outcome = objects.meant(settled.outcome);
        answer(self.alloc, connection, origin, outcome)?;
        Ok(true)
    }

    /// Answers the calls that objects settled beside a poll, and those whose later calls were dropped, until none is left.
    pub(crate) fn settle_each<H: ObjectTable>(
        &mut self,
        connection: &mut Connection,
        objects: &mut H,
    ) -> Result<(), AllocError>
        ensures done { OnOk result (SettlesEach H.table (work_of self.old connection.old) (work_of self.new connection.new) objects.old objects.new) }
        ensures lives { Lives connection.old connection.new }
    {
        for _ in 0..u64::MAX {
            let Some(settled) = objects.next_settled()? else {
                return Ok(());
            };
            let _ = self.settle(connection, objects, Some(settled))?;
        }
        Err(AllocError)
    }

    /// Hands an outcome back to the object whose call it is of, which may make calls then, or notes it for the user.
    pub(crate) fn hand_back<H: ObjectTable>(
        &mut self,
        connection: &mut Connection,
        objects: &mut H,
        question: u32,
        outcome: Outcome,
    ) -> Result<(), AllocError>
        ensures done { OnOk result (HandsBack H.table question outcome (work_of self.old connection.old) (work_of self.new connection.new) objects.old objects.new) }
        ensures lives { Lives connection.old connection.new }
    {
        let Some(owner) = self.take_asked(question) else {
            return self.note_outcome(question, outcome);
        };
        // An object names no question, so none of its paths is needed any more.
        finish(connection, question)?;
        self.on_response(objects, owner.number, owner.call_id, outcome)?;
        self.make_calls(connection, objects, owner.number)
    }

    /// Makes the calls that an object asks for, until it asks for no more. Then gives up those that objects gave up, and answers what
    /// objects settled meanwhile.
    pub(crate) fn make_calls<H: ObjectTable>(
        &mut self,
        connection: &mut Connection,
        objects: &mut H,
        number: u32,
    ) -> Result<(), AllocError>
        ensures done { OnOk result (MakesCalls H.table number (work_of self.old connection.old) (work_of self.new connection.new) objects.old objects.new) }
        ensures lives { Lives connection.old connection.new }
    {
        for _ in 0..u64::MAX {
            let Some(next_call) = self.next_call(connection, objects, number)? else {
                self.cancel_each(connection, objects)?;
                return self.settle_each(connection, objects);
            };
            let meant = objects.meant_call(next_call);
            self.make_call(connection, objects, number, meant)?;
        }
        Err(AllocError)
    }

    /// Makes a call of an object. Where the vat refuses it the object is told so.
    pub(crate) fn make_call<H: ObjectTable>(
        &mut self,
        connection: &mut Connection,
        objects: &mut H,
        number: u32,
        next_call: OutgoingCall,
    ) -> Result<(), AllocError>
        ensures done { OnOk result (MakesCall H.table number next_call (work_of self.old connection.old) (work_of self.new connection.new) objects.old objects.new) }
        ensures lives { Lives connection.old connection.new }
    {
        let call_id = next_call.call_id;
        let fault = match connection.call(next_call.cap, next_call.request) {
            Ok(question) => return self.ask(question, QuestionOwner { number, call_id }),
            Err(fault) => fault,
        };
        match fault {
            ConnectionFault::OutOfMemory => Err(AllocError),
            ConnectionFault::Refused(_) => {
                let outcome = refused_call(self.alloc)?;
                self.on_response(objects, number, call_id, outcome)
            }
            // The connection ended, so no outcome will come.
            ConnectionFault::Closed => Ok(()),
            ConnectionFault::Unreadable { .. } => Ok(()),
        }
    }

    /// An object made a call, which is this question.
    fn ask(&mut self, question: u32, owner: QuestionOwner) -> Result<(), AllocError>
        ensures { OnOk result ((link : Link) → work_of self.new link ≡ asking question owner (work_of self.old link)) }
    {
        self.questions
            .put(key_at(owner.number, owner.call_id), question)?;
        self.asked.put(question, owner)
    }

    /// The outcome of a question isn't for an object any more. `None` says that it wasn't.
    pub(crate) fn take_asked(&mut self, question: u32) -> Option<QuestionOwner>
        ensures { (link : Link) → TakesAsked question (work_of self.old link) result (work_of self.new link) }
    {
        let owner = self.asked.remove(question)?;
        drop(self.questions.remove(key_at(owner.number, owner.call_id)));
        Some(owner)
    }

    /// The next call of an object. Where objects may not call, and once the connection ended, it makes none, and none of those that it
    /// was yet to make.
    fn next_call<H: ObjectTable>(
        &self,
        connection: &mut Connection,
        objects: &mut H,
        number: u32,
    ) -> Result<Option<OutgoingCall>, AllocError>
        ensures done { IfOk result (λ call. NextCall H.table number (work_of self.now connection.old) call (work_of self.now connection.new) objects.old objects.new) }
        ensures lives { Lives connection.old connection.new }
    {
        if !self.may_call || !objects.has(number) || has_ended(connection) {
            // Nothing would bound them.
            objects.drop_next_calls(number);
            return Ok(None);
        }
        let next_call = objects.next_call_at(number)?;
        with_promise_requests_kept(self.alloc, connection, objects, next_call)
    }

    /// What a call of an object that doesn't exist fails with.
    fn reply_of_none(&self) -> Result<Reply, AllocError>
        ensures { IfOk result (λ reply. reply ≡ Now no_such_object []) }
    {
        Ok(Reply::Now {
            outcome: no_such_object(self.alloc)?,
            gives_up: Ids::new(Vec::new(self.alloc)),
        })
    }

    /// Tells an object what a call of its own came to, whose capabilities it is given. Where there is no such object nobody is told.
    fn on_response<H: ObjectTable>(
        &mut self,
        objects: &mut H,
        number: u32,
        call_id: u64,
        outcome: Outcome,
    ) -> Result<(), AllocError>
        ensures { OnOk result ((link : Link) → Hears H.table number call_id outcome (work_of self.old link) (work_of self.new link) objects.old objects.new) }
    {
        if objects.has(number) {
            self.hold_given(&outcome)?;
            return objects.on_response_at(number, call_id, outcome);
        }
        Ok(())
    }

    /// Notes an outcome for the program, which is given what it names.
    fn note_outcome(&mut self, question: u32, outcome: Outcome) -> Result<(), AllocError>
        ensures { OnOk result ((link : Link) → NotesOutcome question outcome (work_of self.old link) (work_of self.new link)) }
    {
        if let Err(error) = self.give(&outcome) {
            drop(outcome);
            return Err(error);
        }
        self.note(SessionEvent::Outcome { question, outcome })
    }
}
