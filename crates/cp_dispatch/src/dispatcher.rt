//! What is done for the objects of a connection.

ghost use Rattle.std.specs.Prelude.{◌≡◌, ◌<◌, ◌↔◌, true, false, IfErr, IfOk, IsSome, IsTrue, OnOk, length};
ghost use Rattle.std.specs.FinMap as map;
ghost use Rattle.cp_vat_machine.specs.declared.event.Value.TheVariants as values;
ghost use Rattle.cp_connection.specs.Doing.{answered};
ghost use Rattle.cp_connection.specs.Link.{Link};
ghost use Rattle.cp_refs.specs.Memory.{counted};
ghost use Rattle.cp_dispatch.specs.Work.{begun, GivesBack, Lives, Notes};
ghost use Rattle.cp_dispatch.specs.Rounds.{Handles, HandsOver, PollsFrom, Rounds, WorksOff};
ghost use Rattle.cp_dispatch.specs.Idle.{ReleasesIdle};
ghost use Rattle.cp_dispatch.specs.Noticed.{event_memory};
ghost use Rattle.cp_dispatch.specs.Receiving.{HandlesLent, IsCutShort, Receives, delivered_by};
ghost use Rattle.cp_dispatch.specs.WorkOf.{work_of};

use crate::canceling::answer_given_up;
use crate::event::{SessionEvent, event_memory};
use crate::holders::ImportHolders;
use crate::idle::forget_unknown;
use crate::incoming::IncomingCall;
use crate::keyed::Keyed;
use crate::promise_requests::with_promise_requests_kept;
use crate::question_owner::QuestionOwner;
use cp_connection::{Connection, ConnectionEvent, ConnectionFault};
use cp_fields::PointerReader;
use cp_objects::ObjectTable;
use cp_refs::Request;
use cp_servants::{Awaited, RequestView};
use cp_tables::Entries;
use cp_vat::BorrowedCall;
use cp_words::Segments;
use std::alloc::{AllocError, Global};
use std::collections::VecDeque;

/// What a connection's objects owe its peer, and what happened that is no object's business. The objects themselves are kept beside the
/// connection: a list, in which the object of number k is at place k, or `Objects`, which make others. They are of one type:
/// boxes (`Box<dyn Servant>`) or an enum, where there are several kinds.
/// They aren't kept here, since definitions can't name a struct with boxed objects.
///
/// # In which order calls are made
///
/// 1. `new` makes it, for one new connection.
/// 2. Give `receive` the bytes of the peer: it gives them to the connection, hands each call that comes to its object, and
///    answers at once where the object does. After each other call of the connection by which something may happen (its own
///    `receive`, `end`, and the application's calls), call `work_off`: it does so of what happened, in order.
/// 3. Take what is for you by `next`, until it gives none.
/// 4. After each message, and where nothing comes, call `round`: it polls each object once, answers what is settled
///    by then, and gives back imports that objects gave up.
/// 5. Before you wait for the peer, go on with rounds while `ObjectTable::has_more` says that an object may give more, and write
///    what is to go out.
/// 6. Where objects may call, and you hold no import or promise yourself, call `release_idle` from time to time; and `drop_idle` where
///    objects make others.
///
/// # What becomes of a call
///
/// Its object answers at once, or says `Later`: then it settles it at a poll, or any other object does (`Context::settle`), and that
/// is answered as soon as the calls are made that were made with it. A call of an object that doesn't exist fails
/// with `no such object`, and where the vat refuses an outcome the call fails with `bad outcome`. Once the connection
/// ended no call is answered any more, and no object is polled.
///
/// # Calls that are given up
///
/// Where the peer finishes a call that an object is to answer later, `receive` tells the object (`ServedObject::on_cancel`), once, and never
/// after it answered. What it answers then goes to nobody but calls that the peer made on its results; the vat says `canceled`, and
/// keeps nothing of the call from then on. A call that still waits in the vat when it is finished is delivered all the same, and its object
/// is told as soon as it says that it answers later.
///
/// An object may give up a call of its own (`Context::cancel`): the question is finished, and the object is told nothing more of it. Where the
/// call is answered by an object here, that is told, and the calls that this one makes then are made when it is polled.
///
/// # Objects that make promises
///
/// What an object did of promises (`Context::promise`, `Context::resolve`) is done as soon as it was called, polled or asked, before what it
/// gave then is used. So the vat has a promise before it is named, and calls on it wait there until it is resolved.
///
/// # Objects that call
///
/// Made by `that_call`, it asks each object for the calls that it makes (`Servant::next_call`) after each call, poll and outcome
/// that the object got. An object of `Objects` may also make them at once (`Context::send`): those are made first, in order, each once.
/// What a call came to goes to its object (`Servant::on_response`), and the question is finished; it is no event. Where the vat refuses the
/// call, the object is told of the exception `call refused`.
///
/// So an object may keep an import that others were given too. Made by `that_call`, it counts the holders of each import:
/// an object holds one once for each call, and each outcome of its own calls, whose table names it. The import is
/// released when it was given up as often. You hold one once for each outcome that named it to you, until you `give_back` it; the last
/// of all who hold it has it released. An outcome that came for a question which you `finish` before you took it is yours to give back by
/// `give_back_each`. Made by `new`, it counts none, and the first object that gives an import up releases it.
///
/// Some imports no object is given: those of a call that fails before it reaches one, and what a promise of the peer's came
/// to. `release_idle` releases them. It forgets promises that no object is given, too.
///
/// # Errors, and what each leaves
///
/// `AllocError` says that memory ran out: for the connection, which ended then; for an object; or here. A call may be
/// lost by it, so close the connection. What was done with the connection before is what its contract says (Lives).
/// Where memory runs out as holders are counted, the object wasn't called or told, and holds only some of the imports, or
/// none.
pub struct Dispatcher {
    pub(crate) alloc: Global,
    /// Whether objects may call.
    pub(crate) may_call: bool,
    pub(crate) awaited: Awaited,
    /// The tickets of those of them that weren't given up, by the keys of their origins.
    pub(crate) owed: Keyed<u64>,
    /// The calls that objects made, by their questions.
    pub(crate) asked: Entries<QuestionOwner>,
    /// Those questions, by the keys of the calls.
    pub(crate) questions: Keyed<u32>,
    pub(crate) holders: ImportHolders,
    /// How often outcomes named each import to the program, which holds it so often.
    pub(crate) given: ImportHolders,
    /// The imports that objects gave up and that none held then, until they are released.
    pub(crate) given_up: Vec<u32>,
    /// What is no object's business, in order.
    pub(crate) notices: VecDeque<SessionEvent>,
}

// Not derived: a crate that lets one go calls this function, and need not prove the drop of all that it holds.
impl Drop for Dispatcher {
    fn drop(self) {
        let Dispatcher {
            alloc: _,
            may_call: _,
            awaited: _,
            owed: _,
            asked: _,
            questions: _,
            holders: _,
            given: _,
            given_up: _,
            notices: _,
        } = self;
    }
}

impl Dispatcher {
    /// Nothing is owed yet. The objects may not call: they aren't asked.
    pub fn new(alloc: Global) -> Dispatcher
        ensures { (link : Link) → work_of result link ≡ begun false link }
    {
        Dispatcher::made(alloc, false)
    }

    /// Nothing is owed yet. The objects may call what they were given.
    pub fn that_call(alloc: Global) -> Dispatcher
        ensures { (link : Link) → work_of result link ≡ begun true link }
    {
        Dispatcher::made(alloc, true)
    }

    /// Takes bytes of the peer, up to the end of the next message, and does what follows of its objects, until nothing is left. A
    /// call that goes to an object at once is lent to it out of its frame: no tree of its params is made, unless the object wants
    /// one. Says how many bytes it took, and whether a message ended with them: if not, nothing was done.
    ///
    /// # Errors
    ///
    /// Those of `Connection::receive`, and then no object was called. Else memory ran out for what the message leads to.
    pub fn receive<H: ObjectTable>(
        &mut self,
        connection: &mut Connection,
        objects: &mut H,
        piece: &[u8],
    ) -> Result<(usize, bool), ConnectionFault>
        ensures received { IfOk result (λ r. Receives H.table (work_of self.old connection.old) piece.now r.0 r.1 (work_of self.new connection.new) objects.old objects.new) }
        ensures goes_on { IfOk result (λ r. 0 < length piece.now → 0 < r.0) }
        ensures unreceived { IfErr result (λ fault. IsCutShort connection.old piece.now fault connection.new objects.old objects.new) }
    {
        let mut frame = Segments::one(Vec::new(self.alloc));
        let (count, lent, finished) = connection.receive_lending(piece, &mut frame)?;
        // No byte of a further frame came, so the bytes ended with a message.
        let has_ended = connection.held().came == 0;
        self.answer_lent(connection, objects, lent)?;
        // Nothing of the frame is lent any more.
        connection.reuse(frame);
        self.work_off(connection, objects)?;
        self.cancel(connection, objects, answer_given_up(finished))?;
        Ok((count, has_ended))
    }

    /// Does what happened on a connection asks of its objects, in order, until nothing is left.
    pub fn work_off<H: ObjectTable>(
        &mut self,
        connection: &mut Connection,
        objects: &mut H,
    ) -> Result<(), AllocError>
        ensures done { OnOk result (WorksOff H.table (work_of self.old connection.old) (work_of self.new connection.new) objects.old objects.new) }
        ensures lives { Lives connection.old connection.new }
    {
        // Bounded, since every function has to return.
        for _ in 0..u64::MAX {
            let Some(happening) = connection.next() else {
                return Ok(());
            };
            self.handle(connection, objects, happening)?;
        }
        Err(AllocError)
    }

    /// Polls each object once that is to be polled, in order, and tries to release the imports that were given up, with an answer or
    /// beside it (`Context::give_up`); what each poll and the releases lead to is worked off. Says whether an object gave an outcome that
    /// was awaited.
    pub fn round<H: ObjectTable>(
        &mut self,
        connection: &mut Connection,
        objects: &mut H,
    ) -> Result<bool, AllocError>
        ensures done { IfOk result (λ gave. Rounds H.table (work_of self.old connection.old) gave (work_of self.new connection.new) objects.old objects.new) }
        ensures lives { Lives connection.old connection.new }
    {
        let gave = self.poll_each(connection, objects)?;
        if has_ended(connection) {
            return Ok(gave);
        }
        self.give_up_beside(objects)?;
        self.release_all(connection)?;
        self.work_off(connection, objects)?;
        Ok(gave)
    }

    /// Forgets each promise of this end that nothing of the vat uses and that no object may know: such as a call named that failed
    /// before it reached an object. Then releases each import that nothing of the vat uses and that no object holds: such as came with
    /// such a call, and what a promise of the peer's came to. Both in the order in which `idle` of the connection names them. It goes over
    /// all imports and promises of the vat.
    ///
    /// It is for a connection whose promises nobody holds but these objects. What outcomes gave you stays until you `give_back` it.
    /// Nothing goes where holders aren't counted (`new`), and while something that happened wasn't worked off, as that may give it to
    /// an object.
    pub fn release_idle<H: ObjectTable>(
        &mut self,
        connection: &mut Connection,
        objects: &H,
    ) -> Result<(), AllocError>
        ensures done { OnOk result (ReleasesIdle H.table objects.now (work_of self.old connection.old) (work_of self.new connection.new)) }
        ensures lives { Lives connection.old connection.new }
    {
        let are_counted = self.may_call;
        if !are_counted {
            return Ok(());
        }
        if connection.held().events > 0 {
            return Ok(());
        }
        let fault = match connection.idle() {
            Ok(idle) => {
                forget_unknown(connection, objects, idle.promises.ids())?;
                return self.release_each(connection, idle.imports.ids());
            }
            Err(fault) => fault,
        };
        match fault {
            ConnectionFault::OutOfMemory => Err(AllocError),
            _ => Ok(()),
        }
    }

    /// Gives an import back that an outcome named to you: once for each that did. Where you hold it more often, or an object holds it,
    /// nothing is sent.
    ///
    /// # Errors
    ///
    /// Those of `Connection::release`, where nobody else holds it; and `InUse`, where objects hold it and you don't. Then nothing changed.
    pub fn give_back(
        &mut self,
        connection: &mut Connection,
        import: u32,
    ) -> Result<(), ConnectionFault>
        ensures { GivesBack import (work_of self.old connection.old) (answered (λ _. values.Nothing) result) (work_of self.new connection.new) }
    {
        let given = self.given.of(import);
        if given > 1 {
            let _ = self.given.lower(import);
            return Ok(());
        }
        let is_held = self.holders.of(import) > 0;
        if is_held {
            return self.leave(import);
        }
        connection.release(import)?;
        let _ = self.given.lower(import);
        Ok(())
    }

    /// How many imports are held by objects: none where holders aren't counted (`new`).
    pub fn held_imports(&self) -> usize
        ensures { (link : Link) → result ≡ map.len (work_of self.now link).held }
    {
        self.holders.len()
    }

    /// The bytes of memory that the contents of the events that weren't taken take. It goes over these.
    pub fn event_memory(&self) -> u64
        ensures { (link : Link) → result ≡ counted (event_memory (work_of self.now link).notices) }
    {
        event_memory(&self.notices)
    }

    /// Hands out the first event that wasn't taken.
    pub fn next(&mut self) -> Option<SessionEvent>
        ensures { (link : Link) → HandsOver (work_of self.old link) result (work_of self.new link) }
    {
        self.notices.pop_front()
    }

    /// Adds an event. Yours are for events that a connection doesn't know of.
    pub fn note(&mut self, notice: SessionEvent) -> Result<(), AllocError>
        ensures { OnOk result ((link : Link) → Notes notice (work_of self.old link) (work_of self.new link)) }
    {
        self.notices.push_back(notice)?;
        Ok(())
    }

    /// Nothing is owed yet.
    fn made(alloc: Global, may_call: bool) -> Dispatcher
        ensures { (link : Link) → work_of result link ≡ begun may_call link }
    {
        Dispatcher {
            alloc,
            may_call,
            awaited: Awaited::new(alloc),
            owed: Keyed::new(alloc),
            asked: Entries::new(alloc),
            questions: Keyed::new(alloc),
            holders: ImportHolders::new(alloc),
            given: ImportHolders::new(alloc),
            given_up: Vec::new(alloc),
            notices: VecDeque::new(alloc),
        }
    }

    /// Does what one event asks.
    fn handle<H: ObjectTable>(
        &mut self,
        connection: &mut Connection,
        objects: &mut H,
        happening: ConnectionEvent,
    ) -> Result<(), AllocError>
        ensures done { OnOk result (Handles H.table happening (work_of self.old connection.old) (work_of self.new connection.new) objects.old objects.new) }
        ensures lives { Lives connection.old connection.new }
    {
        match happening {
            ConnectionEvent::Delivered {
                object,
                origin,
                ticket,
                call,
            } => {
                let Request {
                    interface,
                    method,
                    content,
                    caps,
                } = call;
                let request = RequestView {
                    interface,
                    method,
                    content: PointerReader::of_whole(&content),
                    caps,
                };
                let call = IncomingCall {
                    object,
                    origin,
                    ticket,
                    request,
                };
                self.take_call(connection, objects, call)
            }
            ConnectionEvent::Settled { question, outcome } => {
                self.hand_back(connection, objects, question, outcome)
            }
            ConnectionEvent::Closed(reason) => self.note(SessionEvent::Closed(reason)),
        }
    }

    /// Hands a call that is lent to its object, if there is one, and answers it at once where the object does.
    fn answer_lent<H: ObjectTable>(
        &mut self,
        connection: &mut Connection,
        objects: &mut H,
        lent: Option<BorrowedCall<'_>>,
    ) -> Result<(), AllocError>
        ensures done { OnOk result (HandlesLent H.table lent.entry (work_of self.old connection.old) (work_of self.new connection.new) objects.old objects.new) }
        ensures lives { Lives connection.old connection.new }
    {
        let Some(lent) = lent else {
            return Ok(());
        };
        let BorrowedCall {
            object,
            origin,
            ticket,
            interface,
            method,
            content,
            caps,
        } = lent;
        let request = RequestView {
            interface,
            method,
            content: PointerReader::of_view(content),
            caps,
        };
        let call = IncomingCall {
            object,
            origin,
            ticket,
            request,
        };
        self.take_call(connection, objects, call)
    }

    /// Hands a call to its object, answers it at once where the object does, and makes the calls that follow.
    fn take_call<H: ObjectTable>(
        &mut self,
        connection: &mut Connection,
        objects: &mut H,
        call: IncomingCall<'_>,
    ) -> Result<(), AllocError>
        ensures done { OnOk result (Handles H.table (delivered_by call.entry) (work_of self.old connection.old) (work_of self.new connection.new) objects.old objects.new) }
        ensures lives { Lives connection.old connection.new }
    {
        let IncomingCall {
            object,
            origin,
            ticket,
            request,
        } = call;
        let said = self.reply_of(objects, object, ticket, request)?;
        let reply = with_promise_requests_kept(self.alloc, connection, objects, said)?;
        self.reply(connection, objects, origin, ticket, reply)?;
        self.tell_late(connection, objects, origin)?;
        self.make_calls(connection, objects, object)
    }

    /// Polls each object once that is to be polled, in order, until the connection ended. Says whether an outcome was given that was
    /// awaited.
    fn poll_each<H: ObjectTable>(
        &mut self,
        connection: &mut Connection,
        objects: &mut H,
    ) -> Result<bool, AllocError>
        ensures done { IfOk result (λ gave. PollsFrom H.table 0 (work_of self.old connection.old) gave (work_of self.new connection.new) objects.old objects.new) }
        ensures lives { Lives connection.old connection.new }
    {
        let mut gave = false;
        let mut from = 0;
        for _ in 0..u64::MAX {
            if has_ended(connection) {
                return Ok(gave);
            }
            let Some(number) = objects.next_from(from) else {
                return Ok(gave);
            };
            // A table names no object that isn't there.
            if !objects.has(number) {
                return Err(AllocError);
            }
            let said = objects.poll_at(number)?;
            let settled = with_promise_requests_kept(self.alloc, connection, objects, said)?;
            gave |= self.settle(connection, objects, settled)?;
            self.make_calls(connection, objects, number)?;
            self.work_off(connection, objects)?;
            // No object has the last number of all.
            let Some(next) = number.checked_add(1) else {
                return Err(AllocError);
            };
            from = next;
        }
        Err(AllocError)
    }
}

/// Whether a connection ended.
pub(crate) fn has_ended(connection: &Connection) -> bool
    ensures { IsTrue result ↔ IsSome connection.now.fault }
{
    connection.fault().is_some()
}
