//! What a connection is made of.

ghost use Rattle.std.specs.Prelude.{◌≡◌, ◌<◌, [], ℕ, List, Some, None, true, false, IfOk, IfErr, IfSome, IfNone, OnOk, OnErr, length};
ghost use Rattle.std.specs.Option.{option_map};
ghost use Rattle.cp_rpc.specs.Viewed.{viewed};
ghost use Rattle.cp_stream.specs.Stream.{Holds};
ghost use Rattle.cp_vat_machine.specs.declared.event.Event.TheVariants as events;
ghost use Rattle.cp_vat_machine.specs.declared.event.Value.TheVariants as values;
ghost use Rattle.cp_vat_laws.specs.Sizes.{AreWritable};
ghost use Rattle.cp_vat.specs.Stepping.{effects_of};
ghost use Rattle.cp_connection.specs.Refusing.{refusal_of};
ghost use Rattle.cp_connection.specs.Link.{new_link, HasCome};
ghost use Rattle.cp_connection.specs.Contents.{kept_contents, tails_memory};
ghost use Rattle.cp_connection.specs.Doing.{Aborts, Acts, Refuses, answered};
ghost use Rattle.cp_connection.specs.Receiving.{ReadsOn, IsUnreceived, EndsWell, EndsBadly};
ghost use Rattle.cp_connection.specs.LinkOf.{link_of, KeepsUp, LetsGo, CountsOne, GivesFrame, RefusesFrame, unread_at, refused_by};
ghost use Rattle.cp_connection.specs.Noting.{GoesBack};
ghost use Rattle.cp_connection.specs.Owing.{IsSendable, OwesSendable};
ghost use Rattle.cp_connection.specs.Settling.{Concludes, Follows, GetsFor, GivesVat, GoesOnIf, Loses, MayNote, NotesAll, NotesEvent, Passes, PassesIf, Settled};
ghost use Rattle.cp_connection.specs.Finishing.{ReceivesNaming, finished_by};
ghost use Rattle.cp_connection.specs.Lending.{DoesLending, ReceivesLending};
ghost use Rattle.cp_connection.specs.declared.fault.ConnectionFault.TheVariants.{OutOfMemory, Unreadable};

use crate::agenda::{Agenda, Mark};
use crate::behind::Behind;
use crate::excess::Excess;
use crate::fault::ConnectionFault;
use cp_frame::{FrameFault, FrameReader, Mode};
use cp_rpc::{Message, MessageIn, MessageView};
use cp_stream::{Refusal, view_in};
use cp_tail_calls::{ForwardedMessage, TailCalls, Trigger};
use cp_vat::{BorrowedCall, Vat};
use cp_vat_machine::{Acted, Effects, VatFault};
use cp_words::{Limits, Segments};
use std::alloc::{AllocError, Global};
use std::mem;

/// What a connection is made of.
#[derive(Drop)]
pub(crate) struct Parts {
    pub alloc: Global,
    pub limits: Limits,
    pub frames: FrameReader,
    pub vat: Vat,
    /// The tail calls, where they are served.
    pub tails: Option<TailCalls>,
    /// Whether the vat counts as closed: its effects were lost, as memory ran out, or the connection was aborted.
    pub is_lost: bool,
    pub agenda: Agenda,
    /// The bytes of the frames whose messages were taken, at most `u64::MAX`.
    pub bytes: u64,
    /// The messages that were taken, at most `u64::MAX`.
    pub messages: u64,
    /// Why the connection ended.
    pub fault: Option<ConnectionFault>,
}

impl Parts {
    /// A connection to which nothing came.
    pub fn new(alloc: Global, mode: Mode, limits: Limits, bootstrap: Option<u32>) -> Parts
        ensures link { link_of result ≡ new_link mode limits bootstrap }
        ensures keeps { KeepsUp result }
        ensures came { HasCome (link_of result) [] }
    {
        Parts {
            alloc,
            limits,
            frames: FrameReader::new(alloc, mode, limits),
            vat: Vat::new(alloc, bootstrap),
            tails: None,
            is_lost: false,
            agenda: Agenda::new(alloc, mode),
            bytes: 0,
            messages: 0,
            fault: None,
        }
    }

    /// The bytes of memory that contents take which its vat keeps, and results of tail calls.
    pub fn contents(&self) -> u64
        ensures { result ≡ kept_contents (link_of self.now) }
    {
        self.vat.contents().saturating_add(self.tails_memory())
    }

    /// The bytes of memory that results of tail calls take, where they are served.
    fn tails_memory(&self) -> u64
        ensures { result ≡ tails_memory (link_of self.now).tails }
    {
        if self.is_lost {
            return 0;
        }
        match &self.tails {
            Some(tails) => tails.memory(),
            None => 0,
        }
    }

    /// Reads a piece up to the end of a frame, and takes its message in. Says how many bytes were taken, and which answer the message
    /// finishes.
    pub fn receive(&mut self, piece: &[u8]) -> Result<(usize, Option<u32>), ConnectionFault>
        requires keeps { KeepsUp self.old }
        ensures keeps { KeepsUp self.new }
        ensures received { IfOk result (λ r. ReceivesNaming (link_of self.old) piece.now r.0 r.1 (link_of self.new)) }
        ensures goes_on { IfOk result (λ r. 0 < length piece.now → 0 < r.0) }
        ensures unreceived { IfErr result (λ fault. (taken : List ℕ) × IsUnreceived (link_of self.old) piece.now taken fault (link_of self.new)) }
    {
        let Some((taken, segments, back)) = self.next_frame(piece)? else {
            return Ok((piece.len(), None));
        };
        let message = self.read(taken, &segments)?;
        let finished = finished_by(&message);
        self.take_in(message)?;
        self.frames.reuse(segments);
        Ok((piece.len() - back.len(), finished))
    }

    /// The same, where a call that goes to an object is lent to it out of the frame. Nothing is lent while something that happened
    /// wasn't taken.
    pub fn receive_lending<'f>(
        &mut self,
        piece: &[u8],
        frame: &'f mut Segments,
    ) -> Result<(usize, Option<BorrowedCall<'f>>, Option<u32>), ConnectionFault>
        requires keeps { KeepsUp self.old }
        ensures keeps { KeepsUp self.new }
        ensures received { IfOk result (λ r. ReceivesLending (link_of self.old) piece.now r.0 r.1 r.2 (link_of self.new)) }
        ensures goes_on { IfOk result (λ r. 0 < length piece.now → 0 < r.0) }
        ensures unreceived { IfErr result (λ fault. (taken : List ℕ) × IsUnreceived (link_of self.old) piece.now taken fault (link_of self.new)) }
    {
        // A lent call comes before what `next` gives, so nothing may be left there.
        if !self.agenda.happened.is_empty() {
            let (count, finished) = self.receive(piece)?;
            return Ok((count, None, finished));
        }
        let Some((taken, segments, back)) = self.next_frame(piece)? else {
            return Ok((piece.len(), None, None));
        };
        *frame = segments;
        let message = self.read(taken, frame)?;
        let finished = finished_by(&message);
        let lent = self.take_in_lending(message)?;
        Ok((piece.len() - back.len(), lent, finished))
    }

    /// Ends the bytes of the peer.
    pub fn end(&mut self) -> Result<(), ConnectionFault>
        requires keeps { KeepsUp self.old }
        ensures keeps { KeepsUp self.new }
        ensures ended { OnOk result (EndsWell (link_of self.old) (link_of self.new)) }
        ensures cut { IfErr result (λ fault. EndsBadly (link_of self.old) fault (link_of self.new)) }
    {
        self.check_open()?;
        match self.frames.finish() {
            Ok(()) => Ok(()),
            Err(fault) => Err(self.fail(self.unreadable(Refusal::Frame(fault)))),
        }
    }

    /// Ends the connection with an Abort that says what is too much, unless the vat is closed.
    pub fn abort(&mut self, excess: Excess)
        requires keeps { KeepsUp self.old }
        ensures keeps { KeepsUp self.new }
        ensures aborts { Aborts (link_of self.old) excess (link_of self.new) }
    {
        if self.is_shut() {
            return;
        }
        let fault = match self.agenda.abort(self.alloc, excess) {
            Ok(()) => ConnectionFault::Closed,
            Err(_) => ConnectionFault::OutOfMemory,
        };
        self.let_go(fault);
    }

    /// Gives the fault of a connection that ended.
    pub fn check_open(&self) -> Result<(), ConnectionFault>
        ensures open { OnOk result (self.now.fault ≡ None) }
        ensures ended { IfErr result (λ fault. self.now.fault ≡ Some fault) }
    {
        match self.fault {
            Some(fault) => Err(fault),
            None => Ok(()),
        }
    }

    /// Notes what the vat's effects ask for and what follows, and gives its value. Where memory ran out, for the vat or
    /// for these, the connection ends, and where the vat closed.
    pub fn conclude<V: Drop>(
        &mut self,
        acted: Result<Acted<V>, VatFault>,
        trigger: Trigger,
    ) -> Result<V, ConnectionFault>
        requires is_open { self.old.fault ≡ None }
        requires keeps { KeepsUp self.old }
        requires writable { AreWritable (effects_of acted) }
        ensures keeps { KeepsUp self.new }
        ensures acts { Concludes self.old trigger acted result self.new }
        ensures noted { NotesAll self.old trigger acted result self.new }
    {
        let acted = match acted {
            Ok(acted) => acted,
            Err(fault) => return Err(self.refuse(fault)),
        };
        let mark = self.agenda.mark();
        match self.note(acted.effects, trigger) {
            Ok(()) => Ok(acted.value),
            Err(_) => {
                drop(acted.value);
                Err(self.lose(mark))
            }
        }
    }

    /// Notes the effects of an event of the vat, and then those of what tail calls owe it. Where memory runs out, the
    /// first of them were noted.
    fn note(&mut self, effects: Effects, trigger: Trigger) -> Result<(), AllocError>
        requires is_open { self.old.fault ≡ None }
        requires owes { OwesSendable self.old.tails }
        requires writable { AreWritable effects }
        ensures follows { OnOk result (Follows self.old trigger effects self.new) }
        ensures grown { OnErr result (MayNote self.old self.new) }
    {
        self.note_event(effects, trigger)?;
        // A closed vat owes nothing, and is owed nothing.
        if self.fault.is_some() {
            return Ok(());
        }
        self.settle()
    }

    /// Notes the effects of an event of the vat.
    fn note_event(&mut self, effects: Effects, trigger: Trigger) -> Result<(), AllocError>
        requires is_open { self.old.fault ≡ None }
        requires writable { AreWritable effects }
        ensures noted { OnOk result (NotesEvent self.old trigger effects self.new) }
        ensures grown { OnErr result (MayNote self.old self.new) }
    {
        let is_closed = self.agenda.note(effects, &mut self.tails, trigger)?;
        if is_closed {
            self.fault = Some(ConnectionFault::Closed);
        }
        Ok(())
    }

    /// Passes on all that tail calls owe.
    fn settle(&mut self) -> Result<(), AllocError>
        requires is_open { self.old.fault ≡ None }
        requires owes { OwesSendable self.old.tails }
        ensures settled { OnOk result (Settled self.old self.new) }
        ensures grown { OnErr result (MayNote self.old self.new) }
    {
        // Each turn ends a question that takes results, so few are made.
        for _ in 0..u64::MAX {
            let is_more = self.pass_on()?;
            if !is_more {
                return Ok(());
            }
        }
        Err(AllocError)
    }

    /// Passes on what tail calls owe first, and says whether there was anything.
    fn pass_on(&mut self) -> Result<bool, AllocError>
        requires owes { OwesSendable self.old.tails }
        ensures passed { IfOk result (λ is_more. PassesIf is_more self.old self.new) }
        ensures grown { OnErr result (MayNote self.old self.new) }
    {
        if self.fault.is_some() {
            return Ok(false);
        }
        let Some(tails) = &mut self.tails else {
            return Ok(false);
        };
        match tails.next(&Behind { vat: &self.vat })? {
            Some(owed) => {
                self.pass(owed)?;
                Ok(true)
            }
            None => Ok(false),
        }
    }

    /// Passes on what was owed.
    fn pass(&mut self, owed: ForwardedMessage) -> Result<(), AllocError>
        requires is_open { self.old.fault ≡ None }
        requires sendable { IsSendable owed }
        ensures passes { OnOk result (Passes self.old owed self.new) }
        ensures grown { OnErr result (MayNote self.old self.new) }
    {
        match owed {
            ForwardedMessage::ToPeer(message) => self.agenda.send(message),
            ForwardedMessage::ToVat(message) => self.give_to_vat(message),
        }
    }

    /// The vat gets a message that tail calls owe it.
    fn give_to_vat(&mut self, message: Message) -> Result<(), AllocError>
        requires is_open { self.old.fault ≡ None }
        ensures gives { OnOk result (GivesVat self.old message self.new) }
        ensures grown { OnErr result (MayNote self.old self.new) }
    {
        match self.vat.receive(message) {
            Ok(acted) => self.note_event(acted.effects, Trigger::Message),
            Err(_) => Err(AllocError),
        }
    }

    /// Reads a piece up to the end of a frame: the number of its bytes, its segments, and what follows it. `None` says that
    /// no frame ends in the piece.
    fn next_frame<'p>(
        &mut self,
        piece: &'p [u8],
    ) -> Result<Option<(u64, Segments, &'p [u8])>, ConnectionFault>
        requires keeps { KeepsUp self.old }
        ensures keeps { KeepsUp self.new }
        ensures given { IfOk result (λ next. IfSome next (λ t. GivesFrame self.old piece.now t.0 t.1 t.2.now self.new)) }
        ensures none { IfOk result (λ next. IfNone next (ReadsOn (link_of self.old) piece.now (link_of self.new))) }
        ensures unreceived { IfErr result (λ fault. IsUnreceived (link_of self.old) piece.now [] fault (link_of self.new)) }
    {
        self.check_open()?;
        match self.frames.next(piece) {
            Ok(Some(next)) => Ok(Some(next)),
            Ok(None) => Ok(None),
            Err(fault) => Err(self.fail(self.unread(fault))),
        }
    }

    /// The message that a frame of this many bytes holds, in place, which is counted.
    fn read<'a>(
        &mut self,
        taken: u64,
        segments: &'a Segments,
    ) -> Result<MessageView<'a>, ConnectionFault>
        requires keeps { KeepsUp self.old }
        ensures keeps { KeepsUp self.new }
        ensures found { IfOk result (λ view. Holds self.old.limits segments.now (viewed view)) }
        ensures counted { OnOk result (CountsOne self.old taken self.new) }
        ensures refused { IfErr result (λ fault. RefusesFrame self.old segments.now fault self.new) }
    {
        let message = match view_in(segments, self.limits) {
            Ok(message) => message,
            Err(refusal) => return Err(self.fail(self.unreadable(refusal))),
        };
        self.bytes = self.bytes.saturating_add(taken);
        self.messages = self.messages.saturating_add(1);
        Ok(message)
    }

    /// Takes in a message of the peer's.
    fn take_in(&mut self, message: MessageView) -> Result<(), ConnectionFault>
        requires is_open { self.old.fault ≡ None }
        requires keeps { KeepsUp self.old }
        ensures keeps { KeepsUp self.new }
        ensures acts { Acts (link_of self.old) (events.Receive (viewed message.entry)) (answered (λ _. values.Nothing) result) (link_of self.new) }
    {
        match self.for_vat(message)? {
            Some(message) => {
                let acted = self.vat.receive_view(message);
                self.conclude(acted, Trigger::Message)
            }
            None => self.go_on(),
        }
    }

    /// Takes in a message of the peer's, which may lend a call.
    fn take_in_lending<'a>(
        &mut self,
        message: MessageView<'a>,
    ) -> Result<Option<BorrowedCall<'a>>, ConnectionFault>
        requires is_open { self.old.fault ≡ None }
        requires keeps { KeepsUp self.old }
        requires none_happened { self.old.agenda.happened.items ≡ [] }
        ensures keeps { KeepsUp self.new }
        ensures lends { IfOk result (λ lent. DoesLending (link_of self.old) (events.Receive (viewed message.entry)) lent (link_of self.new)) }
        ensures refuses { IfErr result (λ fault. Refuses (link_of self.old) (events.Receive (viewed message.entry)) fault (link_of self.new)) }
    {
        match self.for_vat(message)? {
            Some(message) => {
                let acted = self.vat.receive_lending(message);
                self.conclude(acted, Trigger::Message)
            }
            None => {
                self.go_on()?;
                Ok(None)
            }
        }
    }

    /// What the vat gets of a message of the peer's, if anything: tail calls may keep it, or give another in its place.
    fn for_vat<'a>(
        &mut self,
        message: MessageView<'a>,
    ) -> Result<Option<MessageView<'a>>, ConnectionFault>
        requires is_open { self.old.fault ≡ None }
        requires keeps { KeepsUp self.old }
        ensures gets { IfOk result (λ on. GetsFor self.old (viewed message.entry) (option_map viewed on) self.new) }
        ensures open { IfErr result (λ _. self.old.vat.is_closed ≡ false) }
        ensures loses { IfErr result (λ fault. (fault ≡ OutOfMemory) × Loses self.old self.new) }
    {
        let Some(tails) = &mut self.tails else {
            return Ok(Some(message));
        };
        // A closed vat refuses it, and nothing is kept of it.
        if self.vat.is_closed() {
            return Ok(Some(message));
        }
        match tails.receive(&Behind { vat: &self.vat }, message) {
            Ok(message) => Ok(message),
            Err(_) => {
                let mark = self.agenda.mark();
                Err(self.lose(mark))
            }
        }
    }

    /// Passes on what is owed after a message that the vat didn't get.
    fn go_on(&mut self) -> Result<(), ConnectionFault>
        requires is_open { self.old.fault ≡ None }
        requires keeps { KeepsUp self.old }
        ensures keeps { KeepsUp self.new }
        ensures goes { GoesOnIf self.old result self.new }
    {
        let mark = self.agenda.mark();
        match self.settle() {
            Ok(()) => Ok(()),
            Err(_) => Err(self.lose(mark)),
        }
    }

    /// Ends the connection as memory ran out for what the vat did, of which nothing stays noted.
    fn lose(&mut self, mark: Mark) -> ConnectionFault
        ensures same { result ≡ OutOfMemory }
        ensures goes_back { GoesBack self.old.agenda mark self.new.agenda }
        ensures loses { self.new ≡ record self.old { agenda = self.new.agenda; is_lost = true; fault = Some OutOfMemory } }
    {
        // All of an event or nothing: from here the vat counts as one that ran out itself (V10), and no effect is half noted.
        self.agenda.go_back(mark);
        self.is_lost = true;
        self.fail(ConnectionFault::OutOfMemory)
    }

    /// Whether the vat is closed, or counts as closed.
    fn is_shut(&self) -> bool
        ensures { result ≡ (link_of self.now).vat.is_closed }
    {
        self.is_lost || self.vat.is_closed()
    }

    /// Ends the connection for this fault, unless it ended before. What the vat, tail calls and the open frame keep goes.
    fn let_go(&mut self, fault: ConnectionFault)
        ensures { LetsGo self.old fault self.new }
    {
        self.fault = Some(self.fault.unwrap_or(fault));
        self.is_lost = true;
        let frames = FrameReader::new(self.alloc, self.agenda.mode, self.limits);
        drop(mem::replace(&mut self.frames, frames));
        drop(mem::replace(&mut self.vat, Vat::new(self.alloc, None)));
        drop(mem::replace(&mut self.tails, None));
    }

    /// A refusal of the vat's. Where memory ran out, the connection ends.
    fn refuse(&mut self, fault: VatFault) -> ConnectionFault
        ensures same { result ≡ refusal_of fault }
        ensures ends { self.new ≡ record self.old { fault = refused_by fault self.old.fault } }
    {
        match fault {
            VatFault::OutOfMemory => self.fail(ConnectionFault::OutOfMemory),
            other => ConnectionFault::Refused(other),
        }
    }

    /// Ends the connection for this fault.
    fn fail(&mut self, fault: ConnectionFault) -> ConnectionFault
        ensures same { result ≡ fault }
        ensures fails { self.new ≡ record self.old { fault = Some fault } }
    {
        self.fault = Some(fault);
        fault
    }

    /// A fault of a frame, after the messages that were taken.
    fn unread(&self, fault: FrameFault) -> ConnectionFault
        ensures { result ≡ unread_at self.now.bytes fault }
    {
        match fault {
            FrameFault::OutOfMemory => ConnectionFault::OutOfMemory,
            other => self.unreadable(Refusal::Frame(other)),
        }
    }

    /// A refusal, after the messages that were taken.
    fn unreadable(&self, refusal: Refusal) -> ConnectionFault
        ensures { result ≡ Unreadable self.now.bytes refusal }
    {
        ConnectionFault::Unreadable {
            at: self.bytes,
            refusal,
        }
    }
}

/// The answer that a message finishes, if it is a Finish.
fn finished_by(message: &MessageView) -> Option<u32>
    ensures { result ≡ finished_by (viewed message.now) }
{
    match message {
        MessageIn::Finish(finish) => Some(finish.question_id),
        MessageIn::Unimplemented(_) => None,
        MessageIn::Abort(_) => None,
        MessageIn::Call(_) => None,
        MessageIn::Return(_) => None,
        MessageIn::Resolve(_) => None,
        MessageIn::Release(_) => None,
        MessageIn::Bootstrap(_) => None,
        MessageIn::Disembargo(_) => None,
        MessageIn::Other { .. } => None,
    }
}
