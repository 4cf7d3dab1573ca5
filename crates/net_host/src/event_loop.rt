//! The connections that a host serves, and their turns.

ghost use Rattle.std.specs.Prelude.{◌≡◌, ◌<◌, ◌≤◌, ◌+◌, [], ◌∷◌, ◌++◌, Some, None, IfNone, IfOk, OnOk, OnErr, option_to_list};
ghost use Rattle.std.specs.VecDeque.{deque_capacity, deque_len};
ghost use Rattle.slab.specs.Slab.{HasRoomFor, Updates, slab_len};
ghost use Rattle.cp_objects.specs.Letters.{bounced};
ghost use Rattle.net_sockets.specs.Incoming.{Keeps};
ghost use Rattle.net_host.specs.Figures.{SumsUp};
ghost use Rattle.net_host.specs.Connecting.{AsksNext};
ghost use Rattle.net_host.specs.Waking.{key_of, session_of};
ghost use Rattle.net_host.specs.Timing.{IsDue, until};
ghost use Rattle.net_host.specs.Floor.{HasOverdue, IsFirst, Rests, Rounds, Seats, Turns, floor_of, nobody, number_of, seen, waking};

use crate::allowance::Allowance;
use crate::config::HostConfig;
use crate::end::Ended;
use crate::figures::{HostFigures, figures_of};
use crate::hosted_connection::{HostedConnection, Turn, session_number};
use crate::limits::HostLimits;
use crate::pending::PendingConnection;
use crate::time::{Time, earlier};
use cp_objects::{Letter, LetterBody, Waker};
use cp_session::{Budget, CallingSession, DrivenSession};
use net_sockets::{Incoming, NonblockingStream, Readiness, Socket};
use slab::Slab;
use std::alloc::{AllocGlobal, Global};
use std::collections::VecDeque;
use std::io::{self, ErrorKind};
use std::net::Net;
use std::time::{Clock, Duration};

/// The most connections for which room is made at the start. Room takes memory only as it is used, and a slab that grows leaves blocks
/// behind.
const ROOM: usize = 1_024;

/// The bytes that are read at once.
const PIECE: usize = 65_536;

/// The connections that a host serves, each under its token.
#[derive(Drop)]
pub(crate) struct EventLoop<S, D> {
    alloc: Global,
    /// What waits for all, and whose turn is next.
    readiness: Readiness,
    guests: Slab<HostedConnection<S, D>>,
    /// What is kept for each, by the numbers of their keys.
    budget: Budget,
    /// Those that ended, of which there was no news yet.
    ended: VecDeque<Ended>,
    /// What goes from one connection to another, or from the program to one, in order.
    letters: VecDeque<Letter>,
    piece: Vec<u8>,
    time: Time,
}

impl<S: DrivenSession, D: Socket> EventLoop<S, D> {
    /// No connection is served. Those that come are reported.
    pub(crate) fn new<N: Net + Clock + AllocGlobal>(
        rt: &N,
        limits: &HostLimits,
        incoming: &mut Incoming,
    ) -> io::Result<EventLoop<S, D>>
        ensures nobody { IfOk result (λ it. slab_len it.guests ≡ 0) }
        ensures empty { IfOk result (λ it. Rests (nobody limits.now) (floor_of S.state D.flow it)) }
        ensures same { Keeps incoming.old incoming.new }
    {
        let readiness = Readiness::new(rt, incoming)?;
        let alloc = rt.alloc();
        let piece = vec![in alloc; 0u8; PIECE]?;
        let guests = Slab::with_capacity(alloc, limits.connections.min(ROOM))?;
        let time = Time::start(rt)?;
        Ok(EventLoop {
            alloc,
            readiness,
            guests,
            budget: Budget::new(alloc, limits.share(), limits.pool()),
            ended: VecDeque::new(alloc),
            letters: VecDeque::new(alloc),
            piece,
            time,
        })
    }

    /// How many connections are served.
    pub(crate) fn served(&self) -> usize
        ensures { result ≡ slab_len self.now.guests }
    {
        self.guests.len()
    }

    /// What the connections did that are served, and what is kept for them.
    pub(crate) fn figures(&self) -> HostFigures
        ensures { SumsUp S.table S.state self.now.guests result }
    {
        figures_of(&self.guests)
    }

    /// Whether one can go on at once.
    pub(crate) fn has_turns(&self) -> bool {
        !self.readiness.queue.is_empty() || !self.letters.is_empty()
    }

    /// The milliseconds since it began, at the last look at the clock.
    pub(crate) fn now(&self) -> u64
        ensures { result ≡ self.now.time.at }
    {
        self.time.now()
    }

    /// How many milliseconds there are until limits of time are looked at, or until this time, if that is earlier. `None`: there is
    /// neither.
    pub(crate) fn until(&self, other: Option<u64>) -> Option<u64>
        ensures { result ≡ until self.now.time other }
    {
        self.time.until(other)
    }

    /// Looks at the clock.
    pub(crate) fn look<C: Clock>(&mut self, rt: &C) -> io::Result<()>
        ensures { self.new ≡ record self.old { time = record self.old.time { at = self.new.time.at } } }
    {
        self.time.look(rt)
    }

    /// Has an object woken, once those are that are to be.
    pub(crate) fn wake(&mut self, waker: Waker) -> io::Result<()>
        ensures guests { self.new.guests ≡ self.old.guests }
        ensures woken { OnOk result (floor_of S.state D.flow self.new ≡ waking (floor_of S.state D.flow self.old) waker) }
        ensures unwoken { OnErr result (floor_of S.state D.flow self.new ≡ floor_of S.state D.flow self.old) }
    {
        self.letters.push_back(Letter {
            to: waker.session,
            body: LetterBody::Wake(waker.object),
        })?;
        Ok(())
    }

    /// The first of those that ended of which there was no news, if there is one.
    pub(crate) fn next_end(&mut self) -> Option<Ended>
        ensures same { self.new.guests ≡ self.old.guests }
        ensures budget { self.new.budget ≡ self.old.budget }
        ensures letters { self.new.letters ≡ self.old.letters }
        ensures time { self.new.time ≡ self.old.time }
        ensures first { self.old.ended.items ≡ option_to_list result ++ self.new.ended.items }
        ensures none { IfNone result (self.old.ended.items ≡ []) }
    {
        self.ended.pop_front()
    }

    /// Serves a connection with these objects.
    pub(crate) fn admit(
        &mut self,
        plan: &HostConfig,
        mut pending: PendingConnection<D>,
        objects: S::Objects,
    ) -> io::Result<()>
        ensures served { OnOk result (slab_len self.new.guests ≡ slab_len self.old.guests + 1) }
        ensures lost { OnErr result (slab_len self.new.guests ≡ slab_len self.old.guests) }
        ensures seats { OnOk result (Seats S.table D.flow plan.now (Some pending) objects (floor_of S.state D.flow self.old) (floor_of S.state D.flow self.new)) }
        ensures unseated { OnErr result (Rests (floor_of S.state D.flow self.old) (floor_of S.state D.flow self.new)) }
    {
        match self.make_room(&mut pending.stream) {
            Ok(key) => {
                let number = session_number(pending.number, key);
                let now = self.time.now();
                let session = S::begin(self.alloc, &plan.session(), number, objects, now);
                let hosted = HostedConnection::new(self.alloc, pending, session);
                self.time.expect(hosted.deadline());
                let _ = self.guests.insert_reserved(hosted);
                Ok(())
            }
            Err(error) => {
                drop(pending);
                drop(objects);
                Err(error)
            }
        }
    }

    /// Has a stream reported, makes room for its connection, and says under which key. After this nothing fails, so a connection that is
    /// made is served.
    fn make_room(&mut self, stream: &mut NonblockingStream<D>) -> io::Result<usize>
        ensures room { OnOk result (HasRoomFor self.new.guests 1) }
        ensures key { IfOk result (λ key. key ≡ self.new.guests.vacant_key) }
        ensures same { self.new.guests ≡ record self.old.guests { capacity = self.new.guests.capacity } }
        ensures ended { self.new.ended ≡ self.old.ended }
        ensures budget { self.new.budget ≡ self.old.budget }
        ensures letters { self.new.letters ≡ self.old.letters }
        ensures time { self.new.time ≡ self.old.time }
        ensures stream { stream.new ≡ stream.old }
    {
        let key = self.guests.vacant_key();
        // A key in the queue that names no connection is passed over.
        self.readiness.queue.push_back(key)?;
        self.readiness.watch(stream, key, false)?;
        self.guests.reserve(1)?;
        Ok(key)
    }

    /// Waits for events, and notes what they say. Says whether the listener had one. Nothing is closed before all are read, so no event
    /// names a connection that is gone.
    pub(crate) fn wait<N: Net + Clock>(
        &mut self,
        rt: &N,
        wait: Option<Duration>,
    ) -> io::Result<bool>
        ensures len { slab_len self.new.guests ≡ slab_len self.old.guests }
        ensures rests { Rests (floor_of S.state D.flow self.old) (floor_of S.state D.flow self.new) }
    {
        let has_event = self.readiness.wait(wait, &mut self.guests)?;
        self.time.look(rt)?;
        Ok(has_event)
    }

    /// Gives each connection that can go on a turn.
    pub(crate) fn round(&mut self, limits: &HostLimits) -> io::Result<()>
        ensures len { slab_len self.new.guests ≤ slab_len self.old.guests }
        ensures turns { Rounds S.table (floor_of S.state D.flow self.old) (floor_of S.state D.flow self.new) }
    {
        // One piece or one round of polls each, so that a fast peer delays the others by a piece.
        for _ in 0..self.readiness.queue.len() {
            self.turn(limits)?;
        }
        self.deliver_each()?;
        self.sweep()
    }

    /// Gives the first connection in the queue a turn. Where this fails, none had one.
    fn turn(&mut self, limits: &HostLimits) -> io::Result<()>
        ensures len { slab_len self.new.guests ≤ slab_len self.old.guests }
        ensures turns { Turns S.table (floor_of S.state D.flow self.old) (floor_of S.state D.flow self.new) }
    {
        // Nothing fails once a connection had its turn: so its end is reported.
        self.ended.reserve(1)?;
        let Some(key) = self.readiness.queue.pop_front() else {
            return Ok(());
        };
        let Some(hosted) = self.guests.get_mut(key) else {
            return Ok(());
        };
        let account = number_of(key);
        let allowed = Allowance {
            messages: limits.messages,
            kept: self.budget.allowed(account),
            account,
            now: self.time.now(),
        };
        match hosted.turn(
            &mut self.piece,
            &mut self.budget,
            &mut self.letters,
            allowed,
        ) {
            Turn::More => {
                self.time.expect(hosted.deadline());
                self.readiness.queue.push_back_reserved(key);
                Ok(())
            }
            Turn::Waits => {
                self.time.expect(hosted.deadline());
                Ok(())
            }
            Turn::Over(end) => {
                let ended = hosted.ended(end);
                self.close(key, ended);
                Ok(())
            }
        }
    }

    /// Delivers the letters that are there.
    fn deliver_each(&mut self) -> io::Result<()>
        ensures len { slab_len self.new.guests ≤ slab_len self.old.guests }
        ensures turns { Rounds S.table (floor_of S.state D.flow self.old) (floor_of S.state D.flow self.new) }
    {
        for _ in 0..self.letters.len() {
            self.deliver_next()?;
        }
        Ok(())
    }

    /// Delivers the first letter, so that its connection has a turn. Where that isn't served any more, what bounces comes last.
    fn deliver_next(&mut self) -> io::Result<()>
        ensures len { slab_len self.new.guests ≤ slab_len self.old.guests }
        ensures turns { Turns S.table (floor_of S.state D.flow self.old) (floor_of S.state D.flow self.new) }
    {
        // Nothing fails once the first was taken out: so none is lost.
        self.ended.reserve(1)?;
        self.readiness.queue.reserve(1)?;
        self.deliver_first();
        Ok(())
    }

    /// Delivers the first letter, where there is room for what that leads to.
    fn deliver_first(&mut self)
        requires ends { deque_len self.old.ended < deque_capacity self.old.ended }
        requires enters { deque_len self.old.readiness.queue < deque_capacity self.old.readiness.queue }
        ensures len { slab_len self.new.guests ≤ slab_len self.old.guests }
        ensures turns { Turns S.table (floor_of S.state D.flow self.old) (floor_of S.state D.flow self.new) }
    {
        let Some(letter) = self.letters.pop_front() else {
            return;
        };
        let key = key_of(letter.to);
        let Some(hosted) = self.guests.get_mut(key) else {
            return self.bounce(letter);
        };
        if hosted.session(key) != letter.to {
            return self.bounce(letter);
        }
        match hosted.deliver(letter.body) {
            Ok(enters) => {
                self.time.expect(hosted.deadline());
                if enters {
                    self.readiness.queue.push_back_reserved(key);
                }
            }
            Err(_) => {
                let end = hosted.run_out(&mut self.letters, self.time.now());
                let ended = hosted.ended(end);
                self.budget.forget(number_of(key));
                self.close(key, ended);
            }
        }
    }

    /// A letter is for a session that isn't there: what goes back for it, if something does, is the last.
    fn bounce(&mut self, letter: Letter)
        requires { deque_len self.old.letters < deque_capacity self.old.letters }
        ensures back { self.new.letters.items ≡ self.old.letters.items ++ option_to_list (bounced letter) }
        ensures guests { self.new.guests ≡ self.old.guests }
        ensures ended { self.new.ended ≡ self.old.ended }
        ensures budget { self.new.budget ≡ self.old.budget }
        ensures time { self.new.time ≡ self.old.time }
    {
        if let Some(back) = letter.bounced() {
            self.letters.push_back_reserved(back);
        }
    }

    /// Serves the connection under a key no more, as it ended so.
    fn close(&mut self, key: usize, ended: Ended)
        requires { deque_len self.old.ended < deque_capacity self.old.ended }
        ensures len { slab_len self.new.guests ≤ slab_len self.old.guests }
        ensures updates { Updates self.old.guests self.new.guests key None }
        ensures ended { self.new.ended.items ≡ self.old.ended.items ++ ended ∷ [] }
        ensures budget { self.new.budget ≡ self.old.budget }
        ensures letters { self.new.letters ≡ self.old.letters }
        ensures time { self.new.time ≡ self.old.time }
    {
        self.ended.push_back_reserved(ended);
        // This closes its stream.
        drop(self.guests.try_remove(key));
    }

    /// Gives those that meet a limit of time a turn, which closes them, and those whose objects are to be woken.
    fn sweep(&mut self) -> io::Result<()>
        ensures guests { self.new.guests ≡ self.old.guests }
        ensures turns { Turns S.table (floor_of S.state D.flow self.old) (floor_of S.state D.flow self.new) }
        ensures swept { OnOk result (IsDue self.old.time → HasOverdue S.table S.state self.new.guests self.old.time.at self.new.readiness.queue.items) }
    {
        if !self.time.is_due() {
            return Ok(());
        }
        let first = queue_overdue(&self.guests, self.time.now(), &mut self.readiness.queue)?;
        self.time.set_sweep(first);
        Ok(())
    }
}

impl<S: CallingSession, D: Socket> EventLoop<S, D> {
    /// The number that the session of a connection of this number gets that is served next.
    pub(crate) fn next_session(&self, number: u64) -> u64
        ensures { result ≡ session_of number self.now.guests.vacant_key }
    {
        session_number(number, self.guests.vacant_key())
    }

    /// Serves a connection that is made from here with these objects, and asks the peer for its bootstrap capability.
    pub(crate) fn admit_asking(
        &mut self,
        plan: &HostConfig,
        mut pending: PendingConnection<D>,
        objects: S::Objects,
    ) -> io::Result<()>
        ensures served { OnOk result (slab_len self.new.guests ≡ slab_len self.old.guests + 1) }
        ensures lost { OnErr result (slab_len self.new.guests ≡ slab_len self.old.guests) }
        ensures asks { OnOk result (AsksNext S.table S.state D.flow plan.now pending objects self.old self.new) }
        ensures unasked { OnErr result (Rests (floor_of S.state D.flow self.old) (floor_of S.state D.flow self.new)) }
    {
        match self.make_room(&mut pending.stream) {
            Ok(key) => {
                let named = session_number(pending.number, key);
                let begun = self.time.now();
                let options = plan.own_session();
                let mut session = S::begin(self.alloc, &options, named, objects, begun);
                // Under this number its objects lend what the peer gives.
                let Ok(0) = session.bootstrap() else {
                    drop(pending);
                    drop(session);
                    return Err(io::Error::from(ErrorKind::OutOfMemory));
                };
                let asking = HostedConnection::new(self.alloc, pending, session);
                self.time.expect(asking.deadline());
                let _ = self.guests.insert_reserved(asking);
                Ok(())
            }
            Err(error) => {
                drop(pending);
                drop(objects);
                Err(error)
            }
        }
    }
}

/// Puts those into the queue that meet a limit of time, and says when the first one is met.
fn queue_overdue<S: DrivenSession, D: Socket>(
    guests: &Slab<HostedConnection<S, D>>,
    now: u64,
    queue: &mut VecDeque<usize>,
) -> io::Result<Option<u64>>
    ensures queued { OnOk result (HasOverdue S.table S.state guests.now now queue.new.items) }
    ensures first { IfOk result (λ first. IsFirst S.table first (seen S.state D.flow guests.now)) }
{
    let mut first = None;
    for entry in guests {
        let (key, hosted) = entry;
        first = earlier(first, hosted.deadline());
        if hosted.is_overdue(now) {
            queue.push_back(key)?;
        }
    }
    Ok(first)
}

/// The number under which a budget has what is kept for a connection. There is no memory for 2^32 connections, whose numbers would
/// be those of others.
fn number_of(key: usize) -> u32
    ensures { result ≡ number_of key }
{
    (key % 0x1_0000_0000) as u32
}

/// The key of the connection whose session has this number.
fn key_of(session: u64) -> usize
    ensures { result ≡ key_of session }
{
    (session % 0x1_0000_0000) as usize
}
