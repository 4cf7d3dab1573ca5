//! A connection that a host serves.

ghost use Rattle.std.specs.Prelude.{◌≡◌, ◌≤◌, ◌↔◌, [], IsTrue, Some, None, IfSome, IfNone, IfOk, IfErr, OnOk, OnErr, length, take};
ghost use Rattle.cp_session.specs.Doing.{due_of};
ghost use Rattle.cp_session.specs.State.{link_of};
ghost use Rattle.net_sockets.specs.Reading.{Fits, came_by, ends_by};
ghost use Rattle.net_host.specs.Feeding.{IsFed};
ghost use Rattle.net_host.specs.HostedConnections.{Accounts, Breaks, CanTake, CanWrite, ClosesAdding, FailsAdding, FailsBy, HandsAdding, HandsSomeAdding, Hears, IsOverdue, IsUndelivered, LeavesAdding, MayHaveBytes, Minds, Proceeds, Sends, Serves, StaysAdding, StopsShort, TakesIn, TakesLetter, VisitsAdding, WorksAdding, end_or, ended_of, heard, kept_by, new_served, served_of};
ghost use Rattle.net_host.specs.Waking.{session_of};

use crate::allowance::Allowance;
use crate::end::{End, Ended};
use crate::pending::PendingConnection;
use cp_connection::ConnectionStats;
use cp_dispatch::{Limit, SessionEvent};
use cp_objects::{Letter, LetterBody};
use cp_session::{Budget, DrivenSession};
use mio::event::Event;
use net_sockets::{Got, NonblockingStream, Peer, Socket, Watched};
use std::alloc::{AllocError, Global};
use std::collections::VecDeque;
use std::io::{self, ErrorKind};

/// What is left to do for a connection.
#[derive(Drop)]
pub(crate) enum Turn {
    /// Something can be done at once.
    More,
    /// Nothing can be done before the next event.
    Waits,
    Over(End),
}

/// A connection that a host serves: a session behind a stream.
#[derive(Drop)]
pub(crate) struct HostedConnection<S, D> {
    alloc: Global,
    number: u64,
    peer: Peer,
    stream: NonblockingStream<D>,
    session: S,
    /// What was read of the peer and not taken.
    rest: Vec<u8>,
    /// Why nothing more is taken.
    end: Option<End>,
    /// The stream is closed for writing.
    is_shut: bool,
    /// It is in the queue of those that can go on.
    queued: bool,
}

impl<S: DrivenSession, D: Socket> HostedConnection<S, D> {
    /// A connection of which nothing was read.
    pub(crate) fn new(
        alloc: Global,
        pending: PendingConnection<D>,
        session: S,
    ) -> HostedConnection<S, D>
        ensures { served_of S.state D.flow result ≡ new_served D.flow pending (S.state session) }
    {
        HostedConnection {
            alloc,
            number: pending.number,
            peer: pending.peer,
            stream: pending.stream,
            session,
            rest: Vec::new(alloc),
            end: None,
            is_shut: false,
            queued: true,
        }
    }

    /// It ended in this way.
    pub(crate) fn ended(&self, end: End) -> Ended
        ensures { let at = served_of S.state D.flow in result ≡ ended_of (at self.now) end }
    {
        Ended {
            number: self.number,
            peer: self.peer,
            end,
            stats: self.stats(),
        }
    }

    /// When it meets a limit of time, if no byte moves before, or an object of it is to be woken.
    pub(crate) fn deadline(&self) -> Option<u64>
        ensures { result ≡ due_of S.table (S.state self.now.session) }
    {
        self.session.deadline()
    }

    /// Whether it meets a limit of time.
    pub(crate) fn is_overdue(&self, now: u64) -> bool
        ensures { IsTrue result ↔ IsOverdue S.table (S.state self.now.session) now }
    {
        match self.session.deadline() {
            Some(deadline) => deadline <= now,
            None => false,
        }
    }

    /// How many bytes are kept for it.
    pub(crate) fn kept(&self) -> u64
        ensures { let at = served_of S.state D.flow in result ≡ kept_by S.table (at self.now) }
    {
        self.session.kept()
    }

    /// What was taken of its peer, and sent to it.
    pub(crate) fn stats(&self) -> ConnectionStats
        ensures { result ≡ (link_of (S.state self.now.session)).stats }
    {
        self.session.stats()
    }

    /// The number of its session, under this key.
    pub(crate) fn session(&self, key: usize) -> u64
        ensures { result ≡ session_of self.now.number key }
    {
        session_number(self.number, key)
    }

    /// Takes in a letter of another connection. Says whether it comes into the queue.
    pub(crate) fn deliver(&mut self, body: LetterBody) -> Result<bool, AllocError>
        ensures delivered { let at = served_of S.state D.flow in OnOk result (TakesLetter S.table body (at self.old) (at self.new)) }
        ensures err { let at = served_of S.state D.flow in OnErr result (IsUndelivered (at self.old) (at self.new)) }
    {
        self.session.deliver(body)?;
        let enters = !self.queued;
        self.queued = true;
        Ok(enters)
    }

    /// How it ended, as memory ran out. Its objects are told their end, and what they say then is handed out as far as memory suffices.
    pub(crate) fn run_out(&mut self, letters: &mut VecDeque<Letter>, now: u64) -> End
        ensures { let at = served_of S.state D.flow in LeavesAdding S.table now (at self.old) letters.old.items result (at self.new) letters.new.items }
    {
        self.session.close(now);
        let _ = self.hand_over(letters);
        let error = io::Error::from(ErrorKind::OutOfMemory);
        self.end_or(End::Failed(error))
    }

    /// Has a turn. A budget notes how much is kept for it then, or forgets it where it ended. Where it can't be noted, it ends. The
    /// letters to other connections come after those of before.
    pub(crate) fn turn(
        &mut self,
        piece: &mut [u8],
        budget: &mut Budget,
        letters: &mut VecDeque<Letter>,
        allowed: Allowance,
    ) -> Turn
        ensures visits { let at = served_of S.state D.flow in VisitsAdding S.table allowed (at self.old) letters.old.items result (at self.new) letters.new.items }
        ensures accounts { let at = served_of S.state D.flow in Accounts result allowed.account (kept_by S.table (at self.new)) budget.old budget.new }
    {
        if let Some(end) = self.visit(piece, letters, allowed) {
            budget.forget(allowed.account);
            return Turn::Over(end);
        }
        if budget.note(allowed.account, self.kept()).is_err() {
            budget.forget(allowed.account);
            return Turn::Over(self.run_out(letters, allowed.now));
        }
        self.queued = self.can_go_on();
        if !self.queued {
            return Turn::Waits;
        }
        Turn::More
    }

    /// Goes on by one piece. Says how it ended, where its stream failed, its session is over, or more is kept for it than it is allowed
    /// though its peer was refused.
    fn visit(
        &mut self,
        piece: &mut [u8],
        letters: &mut VecDeque<Letter>,
        allowed: Allowance,
    ) -> Option<End>
        ensures closes { let at = served_of S.state D.flow in IfSome result (λ end. ClosesAdding S.table allowed (at self.old) letters.old.items end (at self.new) letters.new.items) }
        ensures stays { let at = served_of S.state D.flow in IfNone result (StaysAdding S.table allowed (at self.old) letters.old.items (at self.new) letters.new.items) }
    {
        if let Err(error) = self.work(piece, letters, allowed) {
            return Some(self.end_or(End::Failed(error)));
        }
        self.shut();
        if self.session.is_over() {
            return Some(self.end_or(End::Ended));
        }
        if self.kept() > allowed.kept {
            return Some(self.end_or(End::Limit(Limit::Kept)));
        }
        None
    }

    /// Goes on by one piece, and has time pass. Notes events, and hands out the letters to other connections.
    fn work(
        &mut self,
        piece: &mut [u8],
        letters: &mut VecDeque<Letter>,
        allowed: Allowance,
    ) -> io::Result<()>
        ensures works { let at = served_of S.state D.flow in OnOk result (WorksAdding S.table allowed (at self.old) letters.old.items (at self.new) letters.new.items) }
        ensures fails { let at = served_of S.state D.flow in IfErr result (λ error. FailsAdding S.table allowed (at self.old) letters.old.items error (at self.new) letters.new.items) }
    {
        if let Err(error) = self.move_on(piece, allowed) {
            // What happened before the stream failed counts.
            self.note_events();
            self.session.close(allowed.now);
            self.hand_over(letters)?;
            return Err(error);
        }
        // A limit of time ends it at once. One that keeps too much is told so first.
        self.session.tick(allowed.now);
        self.refuse(allowed);
        self.note_events();
        self.hand_over(letters)?;
        Ok(())
    }

    /// Has its session refuse the peer, where more is kept for it than it is allowed: so the peer is told by an Abort.
    fn refuse(&mut self, allowed: Allowance)
        ensures refuses { Minds S.table allowed.kept allowed.now (S.state self.old.session) (S.state self.new.session) }
        ensures same { let at = served_of S.state D.flow in at self.new ≡ record (at self.old) { session = S.state self.new.session } }
    {
        let kept = self.kept();
        if kept > allowed.kept {
            self.session.refuse(allowed.now);
        }
    }

    /// Hands out the letters to other connections.
    fn hand_over(&mut self, letters: &mut VecDeque<Letter>) -> Result<(), AllocError>
        ensures all { let at = served_of S.state D.flow in OnOk result (HandsAdding S.table (at self.old) letters.old.items (at self.new) letters.new.items) }
        ensures some { let at = served_of S.state D.flow in OnErr result (HandsSomeAdding S.table (at self.old) letters.old.items (at self.new) letters.new.items) }
    {
        for _ in 0..u64::MAX {
            // Before one is taken out, so that none is lost.
            letters.reserve(1)?;
            let Some(letter) = self.session.next_letter() else {
                return Ok(());
            };
            letters.push_back_reserved(letter);
        }
        Err(AllocError)
    }

    /// Writes what waits to be written, takes one piece or polls the objects once, and writes what that leads to.
    fn move_on(&mut self, piece: &mut [u8], allowed: Allowance) -> io::Result<()>
        ensures goes_on { let at = served_of S.state D.flow in OnOk result (Proceeds S.table allowed.now (at self.old) (at self.new)) }
        ensures fails { let at = served_of S.state D.flow in IfErr result (λ error. Breaks S.table allowed.now (at self.old) error (at self.new)) }
    {
        // First what waits, so that more may be taken.
        self.write(allowed.now)?;
        self.go_on(piece, allowed)?;
        self.write(allowed.now)
    }

    /// Takes what is left of a piece, or the next one, or polls the objects.
    fn go_on(&mut self, piece: &mut [u8], allowed: Allowance) -> io::Result<()>
        ensures goes_on { let at = served_of S.state D.flow in OnOk result (Proceeds S.table allowed.now (at self.old) (at self.new)) }
        ensures fails { let at = served_of S.state D.flow in IfErr result (λ error. Breaks S.table allowed.now (at self.old) error (at self.new)) }
    {
        if !self.can_take() {
            // Why it failed an event says.
            let _ = self.session.poll(allowed.now);
            return Ok(());
        }
        if self.rest.is_empty() {
            return self.read(piece, allowed);
        }
        let left = self.rest.as_slice();
        let count = feed(&mut self.session, left, allowed);
        // A new vector, so that the memory of a long rest goes back.
        let rest = Vec::from_slice(self.alloc, &left[count..])?;
        self.rest = rest;
        Ok(())
    }

    /// Reads a piece, takes of it what may be taken, and keeps the rest.
    fn read(&mut self, piece: &mut [u8], allowed: Allowance) -> io::Result<()>
        requires { self.old.rest.items ≡ [] }
        ensures goes_on { let at = served_of S.state D.flow in OnOk result (Proceeds S.table allowed.now (at self.old) (at self.new)) }
        ensures fails { let at = served_of S.state D.flow in IfErr result (λ error. Breaks S.table allowed.now (at self.old) error (at self.new)) }
    {
        let got = self.stream.read(piece)?;
        self.take(got, piece, allowed)
    }

    /// Takes what a read gave, as far as it may be taken, and keeps the rest.
    fn take(&mut self, got: Got, piece: &[u8], allowed: Allowance) -> io::Result<()>
        requires empty { self.old.rest.items ≡ [] }
        requires fits { Fits got (length piece.now) }
        ensures goes_on { let at = served_of S.state D.flow in OnOk result (TakesIn S.table allowed.now (at self.old) (came_by got piece.now) (ends_by got) self.new.rest.items (at self.new)) }
        ensures stops { let at = served_of S.state D.flow in IfErr result (λ error. StopsShort S.table allowed.now (at self.old) (came_by got piece.now) (ends_by got) error (at self.new)) }
        ensures same { self.new.stream ≡ self.old.stream }
    {
        match got {
            Got::Bytes(length) => {
                let came = &piece[..length];
                let count = feed(&mut self.session, came, allowed);
                self.rest.extend_from_slice(&came[count..])?;
                Ok(())
            }
            Got::Nothing => Ok(()),
            Got::End => {
                // Why it failed an event says.
                let _ = self.session.end(allowed.now);
                Ok(())
            }
        }
    }

    /// Writes as much as the stream takes.
    fn write(&mut self, now: u64) -> io::Result<()>
        ensures goes_on { let at = served_of S.state D.flow in OnOk result (Proceeds S.table now (at self.old) (at self.new)) }
        ensures fails { let at = served_of S.state D.flow in IfErr result (λ error. Breaks S.table now (at self.old) error (at self.new)) }
    {
        for _ in 0..u64::MAX {
            if !self.can_write() {
                return Ok(());
            }
            self.write_some(now)?;
        }
        Ok(())
    }

    /// Offers the stream what waits, and says how much it took.
    fn write_some(&mut self, now: u64) -> io::Result<usize>
        ensures sends { let at = served_of S.state D.flow in IfOk result (λ count. Sends S.table (at self.old) count now (at self.new)) }
        ensures unsent { let at = served_of S.state D.flow in IfErr result (λ error. FailsBy (at self.old) error (at self.new)) }
    {
        let count = self.stream.write(self.session.outgoing())?;
        if count == 0 {
            return Ok(0);
        }
        self.session.wrote(count, now);
        Ok(count)
    }

    /// Keeps why nothing more is taken, once an event says it.
    fn note_events(&mut self)
        ensures { let at = served_of S.state D.flow in Hears S.table (at self.old) (at self.new) }
    {
        for _ in 0..u64::MAX {
            let is_told = self.note_event();
            if !is_told {
                return;
            }
        }
    }

    /// Takes the next event. Says whether there was one.
    fn note_event(&mut self) -> bool
        ensures { let at = served_of S.state D.flow in Hears S.table (at self.old) (at self.new) }
    {
        let Some(event) = self.session.poll_event() else {
            return false;
        };
        self.handle(event);
        true
    }

    /// Keeps how the connection ended, where an event says it.
    fn handle(&mut self, event: SessionEvent)
        ensures { let at = served_of S.state D.flow in at self.new ≡ heard event (at self.old) }
    {
        if let Some(end) = End::of_event(event) {
            drop(self.end.replace(end));
        }
    }

    /// Once all went out, has the peer told that nothing more comes. So one that got an Abort, or whose bytes were refused, loses
    /// nothing of it, as what it still sends is taken off the stream. One that sent an Abort closes by itself.
    fn shut(&mut self)
        ensures { let at = served_of S.state D.flow in at self.new ≡ at self.old }
    {
        if self.is_shut || !self.session.is_draining() {
            return;
        }
        self.is_shut = true;
        let is_peers = match &self.end {
            Some(end) => end.is_peers(),
            None => false,
        };
        if !is_peers {
            self.stream.shut();
        }
    }

    /// Whether it can go on before the next event.
    fn can_go_on(&self) -> bool {
        self.can_write() || self.can_take() || self.session.has_more()
    }

    /// Whether something can be written.
    fn can_write(&self) -> bool
        ensures { IsTrue result ↔ CanWrite S.state self.now }
    {
        self.stream.is_writable() && !self.session.outgoing().is_empty()
    }

    /// Whether there may be bytes of the peer, and some are taken.
    fn can_take(&self) -> bool
        ensures { IsTrue result ↔ CanTake S.state self.now }
    {
        self.session.takes_bytes() && self.may_have_bytes()
    }

    /// Whether there may be bytes of the peer, or its end.
    fn may_have_bytes(&self) -> bool
        ensures { IsTrue result ↔ MayHaveBytes S.state self.now }
    {
        self.stream.is_readable() || !self.rest.is_empty()
    }

    /// How it ended before, or else in this way.
    fn end_or(&mut self, other: End) -> End
        ensures end { result ≡ end_or self.old.end other }
        ensures same { let at = served_of S.state D.flow in at self.new ≡ record (at self.old) { end = None } }
    {
        match self.end.take() {
            Some(end) => end,
            None => other,
        }
    }
}

impl<S: DrivenSession, D: Socket> Watched for HostedConnection<S, D> {
    ghost use Rattle.net_host.specs.HostedConnections.{Served, served_of};

    ghost Kept = { Served S.Objects };

    ghost kept = { served_of S.state D.flow };

    ghost is_queued = { λ hosted. hosted.queued };

    /// It has no second stream.
    fn mark(&mut self, _is_second: bool, event: &Event) -> bool {
        self.stream.mark(event);
        let enters = !self.queued;
        self.queued = true;
        enters
    }
}

/// The number of the session of a connection, by its number and its key: 32 bits of each.
pub(crate) fn session_number(number: u64, key: usize) -> u64
    ensures { result ≡ session_of number key }
{
    (number % 0x1_0000_0000) * 0x1_0000_0000 + key as u64 % 0x1_0000_0000
}

/// Gives a session these bytes, within so many messages and until more is kept for it than it is allowed, and says how many were taken.
fn feed<S: DrivenSession>(session: &mut S, piece: &[u8], allowed: Allowance) -> usize
    ensures few { result ≤ length piece.now }
    ensures fed { IsFed S.table allowed.now (S.state session.old) (take result piece.now) (S.state session.new) }
{
    let mut left = piece;
    for _ in 0..allowed.messages {
        // Looked at after each message, so that no more is kept beyond that than one message leads to.
        if left.is_empty() || !session.takes_bytes() || session.kept() > allowed.kept {
            break;
        }
        let count = feed_next(session, left, allowed.now);
        left = &left[count..];
    }
    piece.len() - left.len()
}

/// Gives a session these bytes up to the end of a message, and says how many were taken: none at a fault, of which an event tells.
fn feed_next<S: DrivenSession>(session: &mut S, piece: &[u8], now: u64) -> usize
    ensures few { result ≤ length piece.now }
    ensures fed { IsFed S.table now (S.state session.old) (take result piece.now) (S.state session.new) }
{
    match session.receive(piece, now) {
        Ok(count) => count,
        Err(_) => 0,
    }
}
