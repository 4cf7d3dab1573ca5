//! What an object may do beside what it answers.

ghost use Rattle.std.specs.Prelude.{◌≡◌, ◌+◌, ◌==◌, [], IfOk, IfSome, OnOk, OnErr, option_copied};
ghost use Rattle.cp_objects.specs.Context.{answering, begun, cap_here, caps_here, context_of, giving_up, hereby, hereby_each, keeping, keeping_for, may_resolve, named_here, next_number, own_object, shared_each, shared_of, sharing, sharing_each, stood_for, time_after, with_effect, with_made, with_promise, without_those_made};
ghost use Rattle.cp_objects.specs.SessionCap.{IsTakenIf, are_of, is_of};
ghost use Rattle.cp_objects.specs.declared.context.ObjectEffect.{ObjectEffect};
ghost use Rattle.cp_objects.specs.declared.context.ObjectEffect.TheVariants as effects;

use crate::later::{DroppedCall, DroppedCalls, LaterCall};
use crate::letters::Letter;
use crate::reference_error::ReferenceError;
use crate::resolver::Resolver;
use crate::session_call::SessionCall;
use crate::session_cap::SessionCap;
use crate::shared_cap::{SharedCap, SharedCaps};
use crate::waker::Waker;
use cp_refs::{Cap, Caps, Outcome};
use cp_servants::{OutgoingCall, Settled};
use cp_tables::Entries;
use cp_vat_machine::Ids;
use std::alloc::{AllocError, Global};
use std::mem;

/// What an object made: it has a number from then on.
#[derive(Drop)]
pub(crate) enum NewCap<M> {
    Object(M),
    /// A promise of the object's.
    Promise,
    /// What stands for another session's capability.
    Proxy(SharedCap),
}

/// What an object did beside what it answered.
#[derive(Drop)]
pub(crate) enum ObjectEffect {
    /// An object keeps this object or promise.
    Keep { keeper: u32, kept: u32 },
    /// That object holds this import in its place.
    HandOver { keeper: u32, import: u32 },
    /// It keeps this one once less.
    GiveUp(u32),
    /// It holds this import once less.
    GiveUpImport(u32),
    Wake(Waker),
    /// It is to be woken at this time.
    WakeAt(u64),
    /// The promise of this number comes to this.
    Resolve(u32, Cap),
    /// It makes this call.
    Call(OutgoingCall),
    /// It gives up its call of this number.
    Cancel(u64),
    /// A call that is to be answered later comes to this.
    Settle(Settled),
    /// The session lends this, which the object holds no more if it is an import.
    Lend(SharedCap),
    /// This goes to another session.
    Post(Letter),
}

/// Where an object is while it is called, polled, or told a response or its end: what it may do there beside what it answers. `M` is the one
/// type of all objects of the connection.
#[derive(Drop)]
pub struct Context<M> {
    alloc: Global,
    /// The session, and the object that is called.
    this: Waker,
    /// What time it is.
    time: u64,
    /// The number that what is made first gets. None is given twice.
    next: u32,
    /// The objects and promises that were made, in order.
    made: Vec<NewCap<M>>,
    /// What else was done, in order.
    effects: Vec<ObjectEffect>,
    /// The key under which is lent what is lent next. None is given twice.
    next_key: u64,
    /// What stands for capabilities of other sessions, and for which.
    pub(crate) stands: Entries<SharedCap>,
    /// The bytes of calls to other sessions that are open.
    pub(crate) forwarded: u64,
    /// The later calls that were dropped, once there were later calls.
    dropped: Option<DroppedCalls>,
}

impl<M: Drop> Context<M> {
    /// Makes an object of the connection, and gives the capability of it: name it in results, or in the params of a call. It is
    /// dropped once nothing of the connection refers to it.
    ///
    /// # Errors
    ///
    /// Memory ran out, or 2^32 objects were made.
    pub fn make(&mut self, object: M) -> Result<SessionCap, AllocError>
        ensures cap { IfOk result (λ cap. cap ≡ own_object (next_number (context_of self.old)) (context_of self.old)) }
        ensures made { OnOk result (context_of self.new ≡ with_made (context_of self.old) object) }
        ensures err { OnErr result (context_of self.new ≡ context_of self.old) }
    {
        let Some(number) = number_after(self.next, self.made.len()) else {
            drop(object);
            return Err(AllocError);
        };
        self.made.push(NewCap::Object(object))?;
        Ok(self.own(Cap::Object(number)))
    }

    /// Makes a promise, whose capability (`Resolver::cap`) may be named at once: the calls on it wait, in order, until it is resolved.
    /// The object stays until then.
    ///
    /// # Errors
    ///
    /// Memory ran out, or 2^32 objects and promises were made. Where the vat has no room for a promise more, calls on it fail with
    /// `no such object`.
    pub fn promise(&mut self) -> Result<Resolver, AllocError>
        ensures number { IfOk result (λ resolver. resolver ≡ record { session = (context_of self.old).this.session; number = next_number (context_of self.old) }) }
        ensures made { OnOk result (context_of self.new ≡ with_promise (context_of self.old)) }
        ensures err { OnErr result (context_of self.new ≡ context_of self.old) }
    {
        let Some(number) = number_after(self.next, self.made.len()) else {
            return Err(AllocError);
        };
        self.made.push(NewCap::Promise)?;
        Ok(Resolver {
            session: self.this.session,
            number,
        })
    }

    /// Resolves a promise: it comes to an object of this end, to what the object was given, or, where that is `Broken`, to an
    /// exception. The calls on it that wait go there, in order, and the peer is told. Where the vat refuses the value, as one that leads
    /// back to the promise, it comes to the exception `bad outcome`.
    ///
    /// # Errors
    ///
    /// The promise is of another session, or the value is; then the promise stays open. Or memory ran out.
    pub fn resolve(&mut self, resolver: Resolver, value: SessionCap) -> Result<(), ReferenceError>
        ensures noted { OnOk result (context_of self.new ≡ with_effect (context_of self.old) (effects.Resolve resolver.number value.cap)) }
        ensures err { OnErr result (context_of self.new ≡ context_of self.old) }
        ensures own { IsTakenIf (may_resolve (context_of self.old) resolver value) result }
    {
        let session = self.this.session;
        if resolver.session != session {
            drop(value);
            return Err(ReferenceError::OtherSession);
        }
        let cap = value.into_cap(session)?;
        Ok(self.note(ObjectEffect::Resolve(resolver.number, cap))?)
    }

    /// Makes a call, as an `.._call` of a client gives it, once what the object answers went out. Those that it sends so are made in
    /// order, each once, before it is asked for more (`ServedObject::next_call`). It is told what each came to, by the call's number
    /// (`ServedObject::on_response`), and stays until then. Once the connection ended, and where its objects may not call, none is made.
    ///
    /// # Errors
    ///
    /// It is a call of another session's capability, or memory ran out.
    pub fn send(&mut self, next_call: SessionCall) -> Result<(), ReferenceError>
        ensures noted { OnOk result (context_of self.new ≡ with_effect (context_of self.old) (effects.Call next_call.call)) }
        ensures err { OnErr result (context_of self.new ≡ context_of self.old) }
        ensures own { IsTakenIf (next_call.session == (context_of self.old).this.session) result }
    {
        let call = next_call.into_call(self.this.session)?;
        Ok(self.note(ObjectEffect::Call(call))?)
    }

    /// Gives up a call that the object made itself, or sent to be made, by the call's number: as a forwarder does whose caller gave its own
    /// up (`ServedObject::on_cancel`). One that is yet to be made isn't made. Of one that was made and isn't answered the question is
    /// finished, once what the object does now is over: a peer is told by a Finish, and an object here by its `on_cancel`. The outcome is
    /// told to nobody. Nothing is done where there is no such call, and where its outcome has come: that is told. Of calls of one number
    /// that are open at once it is the first that is yet to be made, or else the one that was made last.
    pub fn cancel(&mut self, call_id: u64) -> Result<(), AllocError>
        ensures noted { OnOk result (context_of self.new ≡ with_effect (context_of self.old) (effects.Cancel call_id)) }
        ensures err { OnErr result (context_of self.new ≡ context_of self.old) }
    {
        self.note(ObjectEffect::Cancel(call_id))
    }

    /// Gives a value that stands for a call of the connection which is answered later: the one of this ticket, with whose answer these
    /// imports of its params are given up. Store it, in any object of the connection, and answer it (`answer`) while any of them is called,
    /// polled, or told a response or its end. Where it is dropped before, the call fails with `the call was dropped without an answer`.
    pub fn later(&mut self, ticket: u64, gives_up: Ids) -> Result<LaterCall, AllocError>
        ensures call { IfOk result (λ call. (call.session ≡ (context_of self.old).this.session) × (call.ticket ≡ ticket) × (call.gives_up ≡ gives_up)) }
        ensures left { context_of self.new ≡ context_of self.old }
    {
        match self.one_more_later() {
            Ok(dropped) => Ok(LaterCall::new(self.this.session, ticket, gives_up, dropped)),
            Err(error) => {
                drop(gives_up);
                Err(error)
            }
        }
    }

    /// Answers a later call, as `settle` does what it comes to.
    ///
    /// # Errors
    ///
    /// It is one of another session, which fails there as one that was dropped. Or memory ran out.
    pub fn answer(&mut self, call: LaterCall, outcome: Outcome) -> Result<(), ReferenceError>
        ensures noted { OnOk result (context_of self.new ≡ answering call outcome (context_of self.old)) }
        ensures err { OnErr result (context_of self.new ≡ context_of self.old) }
        ensures own { IsTakenIf (call.session == (context_of self.old).this.session) result }
    {
        if call.session() != self.this.session {
            drop(call);
            drop(outcome);
            return Err(ReferenceError::OtherSession);
        }
        Ok(self.settle(call.into_settled(outcome))?)
    }

    /// Answers a call that an object of the connection answers later, this one or another: once what is done now is over, and each call
    /// once. Nothing is done where it was answered before.
    pub fn settle(&mut self, settled: Settled) -> Result<(), AllocError>
        ensures noted { OnOk result (context_of self.new ≡ with_effect (context_of self.old) (effects.Settle settled)) }
        ensures err { OnErr result (context_of self.new ≡ context_of self.old) }
    {
        self.note(ObjectEffect::Settle(settled))
    }

    /// A capability that the object was given, or an object or a promise of the connection, as all sessions of the host may name it: store
    /// what this gives where the objects of other connections find it. What it stands for stays as long as that or a copy of it is there. An
    /// import is held for that from then on, and no more by the object. What stands for another session's capability is shared as that.
    ///
    /// # Errors
    ///
    /// It is of another session, or memory ran out.
    pub fn share(&mut self, cap: &SessionCap) -> Result<SharedCap, ReferenceError>
        ensures shared { IfOk result (λ shared. shared ≡ shared_of cap.now.cap (context_of self.old)) }
        ensures noted { OnOk result (context_of self.new ≡ sharing cap.now.cap (context_of self.old)) }
        ensures err { OnErr result (context_of self.new ≡ context_of self.old) }
        ensures own { IsTakenIf (is_of (context_of self.old).this.session cap.now) result }
    {
        if !cap.is_of(self.this.session) {
            return Err(ReferenceError::OtherSession);
        }
        Ok(self.share_own(cap.cap())?)
    }

    /// What is shared, as objects of this session name it: the capability itself where it is of this session; else an object that stands for it
    /// (a new one each time), whose calls are made in the session that shared it, in the order in which they came.
    ///
    /// # Errors
    ///
    /// Memory ran out, or 2^32 objects were made.
    pub fn here(&mut self, shared: &SharedCap) -> Result<SessionCap, AllocError>
        ensures named { IfOk result (λ cap. cap ≡ named_here shared.now (context_of self.old)) }
        ensures noted { OnOk result (context_of self.new ≡ hereby shared.now (context_of self.old)) }
        ensures err { OnErr result (context_of self.new ≡ context_of self.old) }
    {
        let cap = self.here_own(shared)?;
        Ok(self.own(cap))
    }

    /// The object itself.
    pub fn this_cap(&self) -> SessionCap
        ensures { result ≡ own_object (context_of self.now).this.object (context_of self.now) }
    {
        self.own(Cap::Object(self.this.object))
    }

    /// A capability that a call or an outcome named to an object of this session.
    pub fn own(&self, cap: Cap) -> SessionCap
        ensures { result ≡ record { session = (context_of self.now).this.session; cap = cap } }
    {
        SessionCap::new(self.this.session, cap)
    }

    /// A call of such a capability.
    pub fn own_call(&self, call: OutgoingCall) -> SessionCall
        ensures { result ≡ record { session = (context_of self.now).this.session; call = call } }
    {
        SessionCall {
            session: self.this.session,
            call,
        }
    }

    /// The number of the session.
    pub fn session(&self) -> u64
        ensures { result ≡ (context_of self.now).this.session }
    {
        self.this.session
    }

    /// What wakes the object: whoever has it, of any session of the host, may wake it.
    pub fn waker(&self) -> Waker
        ensures { result ≡ (context_of self.now).this }
    {
        self.this
    }

    /// Has an object woken. Nothing is done where it is gone.
    pub fn wake(&mut self, waker: Waker) -> Result<(), AllocError>
        ensures noted { OnOk result (context_of self.new ≡ with_effect (context_of self.old) (effects.Wake waker)) }
        ensures err { OnErr result (context_of self.new ≡ context_of self.old) }
    {
        self.note(ObjectEffect::Wake(waker))
    }

    /// Has the object itself woken after this many milliseconds, in place of any time that it named before.
    pub fn wake_after(&mut self, milliseconds: u64) -> Result<(), AllocError>
        ensures noted { OnOk result (context_of self.new ≡ with_effect (context_of self.old) (effects.WakeAt (time_after (context_of self.old).now milliseconds))) }
        ensures err { OnErr result (context_of self.new ≡ context_of self.old) }
    {
        self.note(ObjectEffect::WakeAt(self.time.saturating_add(milliseconds)))
    }

    /// The time, in milliseconds of the driver's clock.
    pub fn now(&self) -> u64
        ensures { result ≡ (context_of self.now).now }
    {
        self.time
    }

    /// Where memory comes from.
    pub fn alloc(&self) -> Global
        ensures { result ≡ self.now.alloc }
    {
        self.alloc
    }

    /// Keeps an object or a promise of this end that the object stores, though nothing else refers to it: once more for each call of this.
    /// Any other capability isn't kept by this.
    ///
    /// # Errors
    ///
    /// It is of another session, or memory ran out.
    pub fn keep(&mut self, cap: &SessionCap) -> Result<(), ReferenceError>
        ensures noted { OnOk result (context_of self.new ≡ keeping cap.now.cap (context_of self.old)) }
        ensures err { OnErr result (context_of self.new ≡ context_of self.old) }
        ensures own { IsTakenIf (is_of (context_of self.old).this.session cap.now) result }
    {
        if !cap.is_of(self.this.session) {
            return Err(ReferenceError::OtherSession);
        }
        Ok(self.keep_own(cap.cap())?)
    }

    /// Has another object of the connection, as one that was made just now, keep what it stores until it is dropped: an object or a promise
    /// once more; an import in place of this object, which kept it past its answer. So an import is given up as that object is dropped.
    /// Nothing is done where that object isn't there, or this one doesn't hold the import.
    ///
    /// # Errors
    ///
    /// One of them is of another session, or memory ran out.
    pub fn keep_for(&mut self, object: &SessionCap, kept: &SessionCap) -> Result<(), ReferenceError>
        ensures noted { OnOk result (context_of self.new ≡ keeping_for object.now.cap kept.now.cap (context_of self.old)) }
        ensures err { OnErr result (context_of self.new ≡ context_of self.old) }
        ensures own { IsTakenIf (are_of (context_of self.old).this.session object.now kept.now) result }
    {
        let session = self.this.session;
        if !object.is_of(session) || !kept.is_of(session) {
            return Err(ReferenceError::OtherSession);
        }
        Ok(self.keep_own_for(object.cap(), kept.cap())?)
    }

    /// Keeps an object or a promise once less; or gives up an import that the object kept past its answer, as that of a client's target
    /// (`CallTarget::cap`). An import is given up once for each call or outcome that named it, by this or with an answer
    /// (`Reply::Now`, `Settled`): then it is released, once the vat doesn't use it either. Nothing is given up that the object doesn't keep or
    /// hold.
    ///
    /// # Errors
    ///
    /// It is of another session, or memory ran out.
    pub fn give_up(&mut self, cap: &SessionCap) -> Result<(), ReferenceError>
        ensures noted { OnOk result (context_of self.new ≡ giving_up cap.now.cap (context_of self.old)) }
        ensures err { OnErr result (context_of self.new ≡ context_of self.old) }
        ensures own { IsTakenIf (is_of (context_of self.old).this.session cap.now) result }
    {
        if !cap.is_of(self.this.session) {
            return Err(ReferenceError::OtherSession);
        }
        Ok(self.give_up_own(cap.cap())?)
    }

    /// That of a session in which no object was made.
    pub(crate) fn new(alloc: Global) -> Context<M>
        ensures { context_of result ≡ begun }
    {
        Context {
            alloc,
            this: Waker {
                session: 0,
                object: 0,
            },
            time: 0,
            next: 0,
            made: Vec::new(alloc),
            effects: Vec::new(alloc),
            next_key: 0,
            stands: Entries::new(alloc),
            forwarded: 0,
            dropped: None,
        }
    }

    /// The number that is given next.
    pub(crate) fn next(&self) -> u32
        ensures { result ≡ self.now.next }
    {
        self.next
    }

    /// From now on this object does what is done.
    pub(crate) fn enter(&mut self, object: u32)
        ensures { self.new ≡ record self.old { this = record self.old.this { object = object } } }
    {
        self.this.object = object;
    }

    /// It is that of a session of this number.
    pub(crate) fn set_session(&mut self, session: u64)
        ensures { self.new ≡ record self.old { this = record self.old.this { session = session } } }
    {
        self.this.session = session;
    }

    /// It is this time.
    pub(crate) fn set_now(&mut self, now: u64)
        ensures { self.new ≡ record self.old { time = now } }
    {
        self.time = now;
    }

    /// This number is given next.
    pub(crate) fn set_next(&mut self, next: u32)
        ensures { self.new ≡ record self.old { next = next } }
    {
        self.next = next;
    }

    /// Takes the objects and promises out that were made, in order.
    pub(crate) fn take_made(&mut self) -> Vec<NewCap<M>>
        ensures made { result.items ≡ self.old.made.items }
        ensures none { context_of self.new ≡ record (context_of self.old) { made = [] } }
    {
        mem::replace(&mut self.made, Vec::new(self.alloc))
    }

    /// Takes out what else was done, in order.
    pub(crate) fn take_effects(&mut self) -> Vec<ObjectEffect>
        ensures effects { result.items ≡ self.old.effects.items }
        ensures none { context_of self.new ≡ record (context_of self.old) { effects = [] } }
    {
        mem::replace(&mut self.effects, Vec::new(self.alloc))
    }

    /// What was made isn't kept, and the numbers that it got aren't given again.
    pub(crate) fn drop_made(&mut self) -> Result<(), AllocError>
        ensures { OnOk result (context_of self.new ≡ without_those_made (context_of self.old)) }
    {
        let Some(next) = number_after(self.next, self.made.len()) else {
            return Err(AllocError);
        };
        self.next = next;
        drop(self.take_made());
        Ok(())
    }

    /// This goes to another session.
    pub(crate) fn post(&mut self, letter: Letter) -> Result<(), AllocError>
        ensures { OnOk result (context_of self.new ≡ with_effect (context_of self.old) (effects.Post letter)) }
    {
        self.note(ObjectEffect::Post(letter))
    }

    /// The capabilities of a table as all sessions name them.
    pub(crate) fn share_each(&mut self, caps: &Caps) -> Result<SharedCaps, AllocError>
        ensures shared { IfOk result (λ shared. shared ≡ shared_each caps.now (context_of self.old)) }
        ensures noted { OnOk result (context_of self.new ≡ sharing_each caps.now (context_of self.old)) }
    {
        let mut shared = Vec::with_capacity(self.alloc, caps.caps().len())?;
        for cap in caps.caps() {
            shared.push(self.share_own(cap)?)?;
        }
        Ok(SharedCaps::new(shared))
    }

    /// What is shared, as a table of this session names it.
    pub(crate) fn here_each(&mut self, shared: &SharedCaps) -> Result<Caps, AllocError>
        ensures named { IfOk result (λ caps. caps ≡ caps_here shared.now (context_of self.old)) }
        ensures noted { OnOk result (context_of self.new ≡ hereby_each shared.now (context_of self.old)) }
    {
        let mut caps = Vec::with_capacity(self.alloc, shared.caps().len())?;
        for one in shared.caps() {
            caps.push(self.here_own(one)?)?;
        }
        Ok(Caps::new(caps))
    }

    /// A capability of this session as all sessions name it.
    pub(crate) fn share_own(&mut self, cap: &Cap) -> Result<SharedCap, AllocError>
        ensures shared { IfOk result (λ shared. shared ≡ shared_of cap.now (context_of self.old)) }
        ensures noted { OnOk result (context_of self.new ≡ sharing cap.now (context_of self.old)) }
        ensures err { OnErr result (context_of self.new ≡ context_of self.old) }
    {
        if let Some(shared) = self.stood_for(cap) {
            return shared.copy();
        }
        let session = self.this.session;
        if matches!(cap, Cap::None | Cap::Broken(_)) {
            return SharedCap::new(self.alloc, session, 0, cap.copy(self.alloc)?);
        }
        let key = self.next_key;
        let Some(next) = key.checked_add(1) else {
            return Err(AllocError);
        };
        let shared = SharedCap::new(self.alloc, session, key, cap.copy(self.alloc)?)?;
        self.note(ObjectEffect::Lend(shared.copy()?))?;
        self.next_key = next;
        Ok(shared)
    }

    /// What is shared, as this session names it.
    fn here_own(&mut self, shared: &SharedCap) -> Result<Cap, AllocError>
        ensures named { IfOk result (λ cap. cap ≡ cap_here shared.now (context_of self.old)) }
        ensures noted { OnOk result (context_of self.new ≡ hereby shared.now (context_of self.old)) }
        ensures err { OnErr result (context_of self.new ≡ context_of self.old) }
    {
        if shared.is_home(self.this.session) {
            return shared.cap().copy(self.alloc);
        }
        let Some(number) = number_after(self.next, self.made.len()) else {
            return Err(AllocError);
        };
        self.made.push(NewCap::Proxy(shared.copy()?))?;
        Ok(Cap::Object(number))
    }

    /// What an object stands for, if it does, though it was made just now.
    fn stood_for(&self, cap: &Cap) -> Option<&SharedCap>
        ensures { option_copied result ≡ stood_for cap.now (context_of self.now) }
    {
        let Cap::Object(number) = cap else {
            return None;
        };
        if let Some(shared) = self.stands.get(*number) {
            return Some(shared);
        }
        let place = number.checked_sub(self.next)?;
        match self.made.get(place as usize)? {
            NewCap::Proxy(shared) => Some(shared),
            _ => None,
        }
    }

    /// Takes out the later call that was dropped first, if one was.
    pub(crate) fn next_dropped(&self) -> Option<DroppedCall> {
        match &self.dropped {
            Some(dropped) => dropped.next(),
            None => None,
        }
    }

    /// Keeps an object or a promise of this session.
    fn keep_own(&mut self, cap: &Cap) -> Result<(), AllocError>
        ensures noted { OnOk result (context_of self.new ≡ keeping cap.now (context_of self.old)) }
        ensures err { OnErr result (context_of self.new ≡ context_of self.old) }
    {
        match cap {
            Cap::Object(number) => self.note(ObjectEffect::Keep {
                keeper: self.this.object,
                kept: *number,
            }),
            _ => Ok(()),
        }
    }

    /// Has another object of this session keep what is of it.
    fn keep_own_for(&mut self, object: &Cap, kept: &Cap) -> Result<(), AllocError>
        ensures noted { OnOk result (context_of self.new ≡ keeping_for object.now kept.now (context_of self.old)) }
        ensures err { OnErr result (context_of self.new ≡ context_of self.old) }
    {
        match (object, kept) {
            (Cap::Object(keeper), Cap::Object(kept)) => self.note(ObjectEffect::Keep {
                keeper: *keeper,
                kept: *kept,
            }),
            (Cap::Object(keeper), Cap::Import(import)) => self.note(ObjectEffect::HandOver {
                keeper: *keeper,
                import: *import,
            }),
            _ => Ok(()),
        }
    }

    /// Keeps once less what is of this session, or gives it up.
    pub(crate) fn give_up_own(&mut self, cap: &Cap) -> Result<(), AllocError>
        ensures noted { OnOk result (context_of self.new ≡ giving_up cap.now (context_of self.old)) }
        ensures err { OnErr result (context_of self.new ≡ context_of self.old) }
    {
        match cap {
            Cap::Object(number) => self.note(ObjectEffect::GiveUp(*number)),
            Cap::Import(import) => self.note(ObjectEffect::GiveUpImport(*import)),
            _ => Ok(()),
        }
    }

    /// What one later call more says its drop to.
    fn one_more_later(&mut self) -> Result<DroppedCalls, AllocError>
        ensures { context_of self.new ≡ context_of self.old }
    {
        if let Some(dropped) = &self.dropped {
            return dropped.share();
        }
        let dropped = DroppedCalls::new(self.alloc)?;
        let share = dropped.share()?;
        self.dropped = Some(dropped);
        Ok(share)
    }

    /// Notes what else was done.
    fn note(&mut self, effect: ObjectEffect) -> Result<(), AllocError>
        ensures noted { OnOk result (context_of self.new ≡ with_effect (context_of self.old) effect) }
        ensures err { OnErr result (context_of self.new ≡ context_of self.old) }
    {
        self.effects.push(effect)?;
        Ok(())
    }
}

/// The number of the one after so many, if there is one.
fn number_after(first: u32, count: usize) -> Option<u32>
    ensures { IfSome result (λ n. n ≡ first + count) }
{
    let Ok(count) = u32::try_from(count) else {
        return None;
    };
    first.checked_add(count)
}
