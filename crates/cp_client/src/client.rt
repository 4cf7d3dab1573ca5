//! A client.

ghost use Rattle.std.specs.Prelude.{◌≡◌, ◌<◌, ℕ, [], None, Some, IfOk, IfErr, OnOk, OnErr, option_copied};
ghost use Rattle.std.specs.FinMap as map;
ghost use Rattle.cp_vat_machine.specs.declared.event.Event.TheVariants as events;
ghost use Rattle.cp_objects.specs.Objects.{alone, objects_of};
ghost use Rattle.cp_session.specs.Doing.{ReleasesUntaken, next_cap};
ghost use Rattle.cp_session.specs.State.{link_of, state_of};
ghost use Rattle.cp_client.specs.Calls.{Asks, Delivers, Exports, Finishes, HandsOn, IsUnasked, IsUndone, IsUnreleased, KeepsRest, Releases, Wakes};
ghost use Rattle.cp_client.specs.Devices.{fresh};
ghost use Rattle.cp_client.specs.Conversation.{beginning, new_conversation, options_of};
ghost use Rattle.cp_client.specs.ConversationOf.{seen};
ghost use Rattle.cp_client.specs.Reading.{Ends, GoesOn, Halts, IsClosed, IsOpen, ReadFailed, Reads, Takes};
ghost use Rattle.cp_client.specs.Questions.{untaken};
ghost use Rattle.cp_client.specs.Telling.{Knows, knowing};
ghost use Rattle.cp_client.specs.Waits.{Fails, IsAnswered, IsNotAsked, IsUnanswered, Looks, Polls, ServesUntil, Steps, Stops, Waits};
ghost use Rattle.cp_client.specs.AnyOf.{IsAnyNotAsked, LooksForAny, StopsForAll, WaitsForAny};
ghost use Rattle.cp_client.specs.Writing.{Flushes, WriteFailed, WritesOn, WritesPart, WritesSome};
ghost use Rattle.cp_client.specs.declared.fault.ClientFault.TheVariants.{Ended};

use crate::fault::ClientFault;
use crate::nobody::Nobody;
use crate::piece::Piece;
use crate::question::Question;
use crate::questions::Questions;
use cp_connection::{ConnectionFault, ConnectionStats};
use cp_dispatch::SessionEvent;
use cp_frame::Mode;
use cp_objects::{Letter, LetterBody, Objects, ServedObject, SessionCap};
use cp_refs::{Cap, Outcome, Request};
use cp_session::{CallingSession, DrivenSession, Session, SessionLimits, SessionOptions};
use cp_stream::{DeviceError, Tap};
use cp_vat_machine::Reason;
use cp_words::Limits;
use std::alloc::{AllocError, Global};
use std::io::{ErrorKind, Read, Write};

/// The time at which all is done that a client does: it has no limits of time.
const NOW: u64 = 0;

/// One end of a connection over a reader and a writer, which asks questions and waits for their outcomes (rpc.capnp,
/// level 1). Its objects, if it has some, answer its peer's calls meanwhile, and may call what they were given.
///
/// # In which order calls are made
///
/// 1. `new` makes it, or `exporting`, or `with_objects`.
/// 2. `bootstrap` asks for the peer's object. Its question may be called at once, by `Question::cap`.
/// 3. `call` calls a capability: what a question will give, at a path by `Question::at`, an import that an outcome named, or an
///    object of the client's. A call is sent when the client next waits, in one go with all that was called before. `export` adds an
///    object, whose capability a call's table may name.
/// 4. `wait` waits for a question's outcome, and gives it out, once. `wait_any` waits for the first of several. `call_and_wait` is `call`,
///    `wait` and `finish`. `take_outcome` and `step` are what `wait` does in turn, for a program that has to do something in between.
/// 5. `finish` gives a question up when none of its paths is needed any more, and `release` an import: till then the peer
///    keeps them. `flush` writes what is still to be sent, and `into_devices` ends the client.
///
/// A typed call's results are waited for by `results`, which finishes the question too. Each other question is to be finished by the
/// program: a client that holds 65,536 of them can ask no more (`V8 Full`).
///
/// Nothing is read before all that was sent is written, and before the objects gave all that they have: so an object that always
/// says that it may give more keeps its client from reading.
///
/// # When it may stand still
///
/// Nothing is read while a write waits. So over a blocking writer, such as a `TcpStream`, a client stands still for ever if its peer, too,
/// reads nothing before its own bytes are read: after many large calls with large results, made in one go. Over a
/// `net_client::DuplexStream` a write takes in what comes meanwhile. Use pipes, and bytes in memory, in tests, and with peers that are known
/// to read on.
///
/// # Its objects
///
/// `O` is the one type of its objects, which may make others. Object 0 is the one that was added first. A call of an object that isn't
/// there fails with `no such object`. Without objects it is a type that has no values.
///
/// An object that wakes another one has that polled before more is read. A client has no clock: nobody is woken by
/// `wake_after`. Letters to other sessions are those of `next_letter`.
///
/// An import is released when all who were given it gave it up: each object, once for each call and outcome that named it, and the
/// program, once for each outcome that it waited for or might have (`release`).
///
/// # Errors, and what each leaves
///
/// - `Device`: a call of the reader or of the writer failed. Nothing is lost: a later call writes and reads on from there.
/// - `Ended`: the peer's bytes ended after a message, the objects gave all that they had, and it was written. No more is read. The
///   client may still call, and write.
/// - `NotAsked`: no such question waits for its outcome.
/// - `Connection`: the connection ended, by its peer's fault or its own, or memory ran out; or its vat refuses this call,
///   which changes nothing then. Where the connection ended, all that was sent, an Abort too, was written before that is said.
///   Where the vat closed, `closed` says why.
///
/// Outcomes that came before a fault are given out after it.
pub type Client<R, W, O = Nobody> = SessionClient<R, W, Session<O>>;

/// A `Client` over a session of this type: generic over it, since its proofs cost least so.
pub struct SessionClient<R, W, S> {
    from: Tap<R>,
    to: Tap<W>,
    session: S,
    /// The number of the session.
    pub(crate) number: u64,
    /// The bytes that were read and weren't taken.
    piece: Piece,
    questions: Questions,
    /// Why the vat closed.
    closed: Option<Reason>,
}

// Not derived: a crate that lets one go calls this function, and need not prove the drop of all that it holds.
impl<R: Drop, W: Drop, S: Drop> Drop for SessionClient<R, W, S> {
    fn drop(self) {
        let SessionClient {
            from: _,
            to: _,
            session: _,
            number: _,
            piece: _,
            questions: _,
            closed: _,
        } = self;
    }
}

impl<R: Read + Drop, W: Write + Drop> SessionClient<R, W, Session<Nobody>> {
    /// A client without objects, that asked nothing. What comes is read within these limits; what goes out keeps to the standard ones.
    pub fn new(alloc: Global, from: R, to: W, mode: Mode, limits: Limits) -> Client<R, W>
        ensures begun { let at = seen (λ (it : _). state_of it) R.remaining W.contents in at result ≡ new_conversation mode limits None (at result).session.objects 0 (fresh (R.remaining from)) (fresh (W.contents to)) }
        ensures nobody { objects_of (seen (λ (it : _). state_of it) R.remaining W.contents result).session.objects ≡ alone }
    {
        SessionClient::exporting(alloc, from, to, mode, limits)
    }
}

impl<R: Read + Drop, W: Write + Drop, O: ServedObject<Makes = O>> SessionClient<R, W, Session<O>> {
    /// The same, to which `export` may add objects. The peer gets none for its Bootstrap.
    pub fn exporting(alloc: Global, from: R, to: W, mode: Mode, limits: Limits) -> Client<R, W, O>
        ensures begun { let at = seen (λ (it : _). state_of it) R.remaining W.contents in at result ≡ new_conversation mode limits None (at result).session.objects 0 (fresh (R.remaining from)) (fresh (W.contents to)) }
        ensures nobody { objects_of (seen (λ (it : _). state_of it) R.remaining W.contents result).session.objects ≡ alone }
    {
        let options = options(mode, limits, None);
        let session = Session::new(alloc, &options, Objects::new(alloc), NOW);
        SessionClient::begin(alloc, from, to, session, 0)
    }

    /// A client with these objects, of which the peer gets the first for its Bootstrap. Its session has their number: a program with several
    /// clients gives each one of its own (`Objects::set_session`), so that none takes another's capabilities.
    pub fn with_objects(
        alloc: Global,
        from: R,
        to: W,
        mode: Mode,
        limits: Limits,
        objects: Objects<O>,
    ) -> Client<R, W, O>
        ensures { seen (λ (it : _). state_of it) R.remaining W.contents result ≡ new_conversation mode limits (Some 0) objects (objects_of objects).context.this.session (fresh (R.remaining from)) (fresh (W.contents to)) }
    {
        let options = options(mode, limits, Some(0));
        let number = objects.session();
        let session = Session::new(alloc, &options, objects, NOW);
        SessionClient::begin(alloc, from, to, session, number)
    }

    /// Adds an object, and gives the capability of it, as `Objects::add`. At an `Err` memory ran out.
    pub fn export(&mut self, object: O) -> Result<SessionCap, AllocError>
        ensures cap { IfOk result (λ cap. cap ≡ next_cap (seen (λ (it : _). state_of it) R.remaining W.contents self.old).session) }
        ensures exports { let at = seen (λ (it : _). state_of it) R.remaining W.contents in OnOk result (Exports object (at self.old) (at self.new)) }
        ensures unexported { let at = seen (λ (it : _). state_of it) R.remaining W.contents in OnErr result (KeepsRest (at self.old) (at self.new)) }
    {
        self.session.add(object)
    }

    /// The objects.
    pub fn objects(&self) -> &Objects<O>
        ensures { result.now ≡ (seen (λ (it : _). state_of it) R.remaining W.contents self.now).session.objects }
    {
        self.session.objects()
    }
}

impl<R: Read + Drop, W: Write + Drop, S: CallingSession> SessionClient<R, W, S> {
    /// A capability of its session, as typed clients have it.
    pub fn own(&self, cap: Cap) -> SessionCap
        ensures { result ≡ record { session = (seen S.state R.remaining W.contents self.now).number; cap = cap } }
    {
        SessionCap::new(self.number, cap)
    }

    /// Asks for the peer's bootstrap capability. Refused as `Vat::bootstrap`.
    pub fn bootstrap(&mut self) -> Result<Question, ClientFault>
        ensures asks { let at = seen S.state R.remaining W.contents in IfOk result (λ q. Asks (at self.old) events.Bootstrap q.number (at self.new)) }
        ensures unasked { let at = seen S.state R.remaining W.contents in IfErr result (λ f. IsUnasked (at self.old) events.Bootstrap f (at self.new)) }
    {
        let number = self.session.bootstrap()?;
        self.questions.ask(number)?;
        Ok(Question { number })
    }

    /// Calls a capability. Refused as `Vat::call`.
    pub fn call(&mut self, cap: Cap, request: Request) -> Result<Question, ClientFault>
        ensures asks { let at = seen S.state R.remaining W.contents in IfOk result (λ q. Asks (at self.old) (events.Call cap request) q.number (at self.new)) }
        ensures unasked { let at = seen S.state R.remaining W.contents in IfErr result (λ f. IsUnasked (at self.old) (events.Call cap request) f (at self.new)) }
    {
        let number = self.session.call(cap, request)?;
        self.questions.ask(number)?;
        Ok(Question { number })
    }

    /// Waits for the outcome of a question, and gives it out, once. What the outcome names may be called at a path of the
    /// question until that is finished, and its imports until they are released. An outcome that comes for another
    /// question is kept for it.
    pub fn wait(&mut self, question: Question) -> Result<Outcome, ClientFault>
        ensures waits { let at = seen S.state R.remaining W.contents in IfOk result (λ outcome. Waits S.table (at self.old) question.number outcome (at self.new)) }
        ensures stops { let at = seen S.state R.remaining W.contents in IfErr result (λ f. Stops S.table (at self.old) question.number f (at self.new)) }
    {
        for _ in 0..u64::MAX {
            // The outcome is looked for before anything is written: one that has come needs no writer.
            if let Some(outcome) = self.take_outcome(question)? {
                return Ok(outcome);
            }
            self.step()?;
        }
        Err(ClientFault::Connection(ConnectionFault::OutOfMemory))
    }

    /// Waits for the outcome of any of these questions. Gives the first that is there, in their order, with its question. The others are
    /// kept. It is `NotAsked` where none is given, or where one of them that is looked at isn't asked.
    pub fn wait_any(&mut self, questions: &[Question]) -> Result<(Question, Outcome), ClientFault>
        ensures waits { let at = seen S.state R.remaining W.contents in IfOk result (λ came. WaitsForAny S.table (at self.old) questions.now came (at self.new)) }
        ensures stops { let at = seen S.state R.remaining W.contents in IfErr result (λ f. StopsForAll S.table (at self.old) questions.now f (at self.new)) }
    {
        if questions.is_empty() {
            return Err(ClientFault::NotAsked);
        }
        for _ in 0..u64::MAX {
            if let Some(came) = self.take_any(questions)? {
                return Ok(came);
            }
            self.step()?;
        }
        Err(ClientFault::Connection(ConnectionFault::OutOfMemory))
    }

    /// Gives out the outcome of a question, once, if it has come. Nothing is read or written.
    pub fn take_outcome(&mut self, question: Question) -> Result<Option<Outcome>, ClientFault>
        ensures looks { let at = seen S.state R.remaining W.contents in IfOk result (λ came. Looks (at self.old) question.number came (at self.new)) }
        ensures not_asked { let at = seen S.state R.remaining W.contents in IfErr result (λ f. IsNotAsked (at self.old) question.number f (at self.new)) }
    {
        self.note();
        self.questions.take(question.number)
    }

    /// Writes all that was sent. Then the objects go on where one may give more, or else bytes of the peer are taken, up to the end of
    /// a message: where none is left of those that were read, the reader is called once.
    pub fn step(&mut self) -> Result<(), ClientFault>
        ensures steps { let at = seen S.state R.remaining W.contents in OnOk result (Steps S.table (at self.old) (at self.new)) }
        ensures fails { let at = seen S.state R.remaining W.contents in IfErr result (λ f. Fails S.table (at self.old) f (at self.new)) }
    {
        self.flush()?;
        if self.session.has_more() {
            self.poll();
            return Ok(());
        }
        self.go_on()
    }

    /// Calls a capability, waits for the outcome, and finishes the question.
    /// Where memory runs out as the question is given up, the outcome is lost; `call`, `wait` and `finish` lose none.
    pub fn call_and_wait(&mut self, cap: Cap, request: Request) -> Result<Outcome, ClientFault>
        ensures answered { let at = seen S.state R.remaining W.contents in IfOk result (λ outcome. IsAnswered S.table (at self.old) cap request outcome (at self.new)) }
        ensures unanswered { let at = seen S.state R.remaining W.contents in IfErr result (λ f. IsUnanswered S.table (at self.old) cap request f (at self.new)) }
    {
        let question = self.call(cap, request)?;
        let outcome = self.wait(question)?;
        match self.finish(question) {
            Ok(()) => Ok(outcome),
            Err(fault) => {
                drop(outcome);
                Err(fault)
            }
        }
    }

    /// Gives a question up, before or after its outcome. What an outcome names that came and wasn't given out is given back. An object of
    /// the client's that is to answer it is told (`ServedObject::on_cancel`). Refused as `Vat::finish`.
    pub fn finish(&mut self, question: Question) -> Result<(), ClientFault>
        ensures finishes { let at = seen S.state R.remaining W.contents in OnOk result (Finishes S.table (at self.old) question.number (at self.new)) }
        ensures undone { let at = seen S.state R.remaining W.contents in IfErr result (λ f. IsUndone (at self.old) (events.Finish question.number) f (at self.new)) }
    {
        self.session.finish(question.number)?;
        self.release_untaken(question.number);
        Ok(())
    }

    /// Gives an import back: once for each outcome that named it. The peer gets it back, with its whole count, from the last who holds it:
    /// while another outcome's wasn't given back, or an object holds it, nothing is sent. Refused as `Vat::release`: so while results of a
    /// question that wasn't finished name it, or of a call of the peer's, as those of a tail call do until the peer finishes that. And
    /// refused with `InUse` where the program holds it no more and objects do.
    pub fn release(&mut self, import: u32) -> Result<(), ClientFault>
        ensures releases { let at = seen S.state R.remaining W.contents in OnOk result (Releases (at self.old) import (at self.new)) }
        ensures unreleased { let at = seen S.state R.remaining W.contents in IfErr result (λ f. IsUnreleased (at self.old) import f (at self.new)) }
    {
        self.session.release(import)?;
        Ok(())
    }

    /// Writes all that was sent, and waits for nothing.
    pub fn flush(&mut self) -> Result<(), ClientFault>
        ensures flushes { let at = seen S.state R.remaining W.contents in OnOk result (Flushes S.table (at self.old) (at self.new)) }
        ensures part { let at = seen S.state R.remaining W.contents in IfErr result (λ f. WritesPart S.table (at self.old) f (at self.new)) }
    {
        self.write()?;
        // The writer may keep bytes that the peer waits for.
        self.to.flush()?;
        Ok(())
    }

    /// Takes the peer's messages until they end, while the objects answer.
    pub fn serve(&mut self) -> Result<(), ClientFault>
        ensures serves { let at = seen S.state R.remaining W.contents in OnOk result (ServesUntil S.table (at self.old) Ended (at self.new)) }
        ensures stops { let at = seen S.state R.remaining W.contents in IfErr result (λ f. ServesUntil S.table (at self.old) f (at self.new)) }
    {
        for _ in 0..u64::MAX {
            self.note();
            match self.step() {
                Ok(()) => {}
                Err(ClientFault::Ended) => return Ok(()),
                Err(fault) => return Err(fault),
            }
        }
        Err(ClientFault::Connection(ConnectionFault::OutOfMemory))
    }

    /// Has an object polled, if it is there, when the client next waits.
    pub fn wake(&mut self, object: u32) -> Result<(), AllocError>
        ensures wakes { let at = seen S.state R.remaining W.contents in OnOk result (Wakes S.table object (at self.old) (at self.new)) }
        ensures unwoken { let at = seen S.state R.remaining W.contents in OnErr result (KeepsRest (at self.old) (at self.new)) }
    {
        self.session.wake(object)
    }

    /// Takes out the first letter to another session: deliver it there.
    pub fn next_letter(&mut self) -> Option<Letter>
        ensures { let at = seen S.state R.remaining W.contents in HandsOn S.table result (at self.old) (at self.new) }
    {
        self.session.next_letter()
    }

    /// Does what a letter of another session says, when the client next waits.
    pub fn deliver(&mut self, body: LetterBody) -> Result<(), AllocError>
        ensures delivers { let at = seen S.state R.remaining W.contents in OnOk result (Delivers S.table body (at self.old) (at self.new)) }
        ensures undelivered { let at = seen S.state R.remaining W.contents in OnErr result (KeepsRest (at self.old) (at self.new)) }
    {
        self.session.deliver(body)
    }

    /// Why the vat closed, if it did.
    pub fn closed(&self) -> Option<&Reason>
        ensures { option_copied result ≡ (seen S.state R.remaining W.contents self.now).closed }
    {
        self.closed.as_ref()
    }

    /// How many bytes and messages were taken, and how many messages were sent.
    pub fn stats(&self) -> ConnectionStats
        ensures { result ≡ (seen S.state R.remaining W.contents self.now).session.service.work.link.stats }
    {
        self.session.stats()
    }

    /// Ends the client, and gives its reader and its writer back. What is still to be sent isn't written then. Its objects are told their
    /// end.
    pub fn into_devices(self) -> (R, W)
        ensures from { R.remaining result.0 ≡ (seen S.state R.remaining W.contents self).from.bytes }
        ensures to { W.contents result.1 ≡ (seen S.state R.remaining W.contents self).to.bytes }
    {
        let SessionClient {
            from,
            to,
            mut session,
            number: _,
            piece,
            questions,
            closed,
        } = self;
        session.close(NOW);
        drop(session);
        drop(piece);
        drop(questions);
        drop(closed);
        (from.into_inner(), to.into_inner())
    }

    /// A question is waited for no more. What its outcome named is given back, if that came and wasn't given out.
    fn release_untaken(&mut self, question: u32)
        ensures released { let at = seen S.state R.remaining W.contents in ReleasesUntaken (untaken (at self.old).asked question) (at self.old).session (at self.new).session }
        ensures same { let at = seen S.state R.remaining W.contents in at self.new ≡ record (at self.old) { session = (at self.new).session; asked = map.remove (at self.old).asked question } }
    {
        match self.questions.forget(question) {
            Some(outcome) => self.session.release_outcome(outcome),
            None => {}
        }
    }

    /// A client that does nothing yet, over a session that does nothing yet.
    fn begin(alloc: Global, from: R, to: W, session: S, number: u64) -> SessionClient<R, W, S>
        ensures { seen S.state R.remaining W.contents result ≡ beginning (S.state session) number (fresh (R.remaining from)) (fresh (W.contents to)) }
    {
        SessionClient {
            from: Tap::new(from),
            to: Tap::new(to),
            session,
            number,
            piece: Piece::new(alloc),
            questions: Questions::new(alloc),
            closed: None,
        }
    }

    /// Gives out the outcome of the first of these questions that has one.
    fn take_any(
        &mut self,
        questions: &[Question],
    ) -> Result<Option<(Question, Outcome)>, ClientFault>
        ensures looks { let at = seen S.state R.remaining W.contents in IfOk result (λ came. LooksForAny (at self.old) questions.now came (at self.new)) }
        ensures not_asked { let at = seen S.state R.remaining W.contents in IfErr result (λ f. IsAnyNotAsked (at self.old) questions.now f (at self.new)) }
    {
        self.note();
        for question in questions {
            if let Some(outcome) = self.questions.take(question.number)? {
                return Ok(Some((*question, outcome)));
            }
        }
        Ok(None)
    }

    /// Has the objects go on. Where memory runs out `is_open` says so, once all is written.
    fn poll(&mut self)
        ensures { let at = seen S.state R.remaining W.contents in Polls S.table (at self.old) (at self.new) }
    {
        let _ = self.session.poll(NOW);
    }

    /// Takes bytes up to the end of a message, or of those that were read; or ends them.
    fn go_on(&mut self) -> Result<(), ClientFault>
        ensures goes_on { let at = seen S.state R.remaining W.contents in OnOk result (GoesOn S.table (at self.old) (at self.new)) }
        ensures halts { let at = seen S.state R.remaining W.contents in IfErr result (λ f. Halts (at self.old) f (at self.new)) }
    {
        self.is_open()?;
        let has_bytes = self.read()?;
        if has_bytes {
            self.take();
            return Ok(());
        }
        self.end();
        Ok(())
    }

    /// Says why nothing more is taken, if nothing is.
    fn is_open(&self) -> Result<(), ClientFault>
        ensures is_open { let at = seen S.state R.remaining W.contents in OnOk result (IsOpen (at self.now).session) }
        ensures closed { let at = seen S.state R.remaining W.contents in IfErr result (λ f. IsClosed (at self.now).session f) }
    {
        if let Some(fault) = self.session.fault() {
            return Err(ClientFault::Connection(fault));
        }
        if !self.session.takes_bytes() {
            return Err(ClientFault::Ended);
        }
        Ok(())
    }

    /// Reads a piece, where nothing is left of one. Says whether there are bytes; else the peer's ended.
    fn read(&mut self) -> Result<bool, ClientFault>
        ensures reads { let at = seen S.state R.remaining W.contents in IfOk result (λ some. Reads (at self.old) some (at self.new)) }
        ensures failed { let at = seen S.state R.remaining W.contents in IfErr result (λ f. ReadFailed (at self.old) f (at self.new)) }
    {
        if !self.piece.is_empty() {
            return Ok(true);
        }
        self.piece.fill(&mut self.from)
    }

    /// Takes the bytes that were read, up to the end of a message. Where they can't be taken `is_open` says so, once all is written.
    fn take(&mut self)
        ensures { let at = seen S.state R.remaining W.contents in Takes S.table (at self.old) (at self.new) }
    {
        match self.session.receive(self.piece.bytes(), NOW) {
            Ok(count) => self.piece.took(count),
            Err(_) => {}
        }
    }

    /// Ends the peer's bytes. The objects still give what they owe. Once that is written, `is_open` says that the peer ended.
    fn end(&mut self)
        ensures { let at = seen S.state R.remaining W.contents in Ends S.table (at self.old) (at self.new) }
    {
        let _ = self.session.end(NOW);
    }

    /// Keeps what happened: each outcome for its question, and why the vat closed.
    fn note(&mut self)
        ensures { let at = seen S.state R.remaining W.contents in Knows (at self.old) (at self.new) }
    {
        'noting: while let Some(event) = self.session.poll_event() {
            self.note_one(event);
        }
    }

    /// Keeps what an event says. Of what else ended the session its fault says why.
    fn note_one(&mut self, event: SessionEvent)
        ensures { let at = seen S.state R.remaining W.contents in at self.new ≡ knowing event (at self.old) }
    {
        match event {
            SessionEvent::Outcome { question, outcome } => self.questions.come(question, outcome),
            SessionEvent::Closed(reason) => self.closed = Some(reason),
            SessionEvent::Restless => {}
            SessionEvent::Fault(_) => {}
            SessionEvent::Limit(_) => {}
            SessionEvent::Ended => {}
        }
    }

    /// Writes all that was sent.
    fn write(&mut self) -> Result<(), ClientFault>
        ensures writes { let at = seen S.state R.remaining W.contents in OnOk result (WritesOn S.table (at self.old) (at self.new)) }
        ensures all { let at = seen S.state R.remaining W.contents in OnOk result ((link_of (at self.new).session).unwritten ≡ []) }
        ensures part { let at = seen S.state R.remaining W.contents in IfErr result (λ f. WritesPart S.table (at self.old) f (at self.new)) }
    {
        'writing: while !self.session.outgoing().is_empty() {
            self.write_some()?;
        }
        Ok(())
    }

    /// Offers the writer what was sent, and notes how much it took.
    fn write_some(&mut self) -> Result<(), ClientFault>
        ensures writes { let at = seen S.state R.remaining W.contents in OnOk result ((count : ℕ) × (0 < count) × WritesSome S.table (at self.old) count (at self.new)) }
        ensures failed { let at = seen S.state R.remaining W.contents in IfErr result (λ f. WriteFailed (at self.old) f (at self.new)) }
    {
        // Each count is noted, so that after a failed call it is known to the byte what was written.
        let count = self.to.write(self.session.outgoing())?;
        // A writer that takes nothing would be asked for ever.
        if count == 0 {
            return Err(ClientFault::Device(DeviceError::from(ErrorKind::WriteZero)));
        }
        self.session.wrote(count, NOW);
        Ok(())
    }
}

/// How the session of a client goes.
fn options(mode: Mode, limits: Limits, bootstrap: Option<u32>) -> SessionOptions
    ensures { result ≡ options_of mode limits bootstrap }
{
    SessionOptions {
        mode,
        messages: limits,
        bootstrap,
        may_call: true,
        // The program holds what outcomes gave it.
        releases_idle: false,
        limits: SessionLimits::unlimited(),
    }
}
