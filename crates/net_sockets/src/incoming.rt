//! The connections that come to a listener.

ghost use Rattle.std.specs.Prelude.{◌≡◌, ◌<◌, ◌≤◌, ◌+◌, ◌↔◌, None, IsTrue, IfSome};
ghost use Rattle.net_sockets.specs.Incoming.{most, came_of, count_of, Keeps};
ghost use Rattle.net_sockets.specs.Reading.{failure_of};

use crate::greetings::Greetings;
use crate::listener::{Listener, Peer};
use crate::nonblocking_stream::NonblockingStream;
use crate::stream::StreamSocket;
use mio::{Registry, Token};
use std::alloc::Global;
use std::io::{self, ErrorKind};

/// The milliseconds after which a listener that failed is tried again.
const AGAIN: u64 = 100;

/// The milliseconds after which those are looked for whose proxy's header is late.
const LATE: u64 = 1_000;

/// The most connections that are taken between two rounds of turns.
const BURST: usize = 64;

/// A listener whose connections are taken without waiting, and how many came.
#[derive(Drop)]
pub struct Incoming {
    listener: Listener,
    /// A connection may be waiting. A wrong `true` costs one call.
    is_acceptable: bool,
    /// The listener failed, as no descriptor was left. No event says when there is one again.
    has_failed: bool,
    /// How many connections came to be served.
    came: u64,
    /// How many are to come, in all.
    count: u64,
    /// How many were taken since the last round of turns.
    burst: usize,
    /// Those whose proxy hasn't said yet whose they are, where they come by one.
    greetings: Option<Greetings>,
}

impl Incoming {
    /// A listener to which no connection came. So many are to come in all; `None`: no end.
    pub fn new(listener: Listener, count: Option<u64>) -> Incoming
        ensures came { came_of result ≡ 0 }
        ensures count { count_of result ≡ most count }
    {
        Incoming {
            listener,
            is_acceptable: true,
            has_failed: false,
            came: 0,
            count: count.unwrap_or(u64::MAX),
            burst: 0,
            greetings: None,
        }
    }

    /// Has its connections reported under a token.
    pub fn register(&mut self, alloc: Global, registry: &Registry, token: Token) -> io::Result<()>
        ensures { Keeps self.old self.new }
    {
        if self.listener.is_behind_proxy() {
            self.greetings = Some(Greetings::new(alloc, registry, token)?);
        }
        self.listener.register(registry, token)
    }

    /// Begins a round of turns. `has_event`: an event says that a connection may be waiting. A listener that failed is
    /// tried again.
    pub fn begin_round(&mut self, has_event: bool)
        ensures { Keeps self.old self.new }
    {
        self.burst = 0;
        // A listener that failed gets no event.
        self.is_acceptable = self.is_acceptable || self.has_failed || has_event;
        self.has_failed = false;
    }

    /// Looks at this time at the connections whose proxy hasn't said yet whose they are. `has_event`: an event says that one of them may go on.
    pub fn hear(&mut self, has_event: bool, now: u64)
        ensures { Keeps self.old self.new }
    {
        if let Some(greetings) = &mut self.greetings {
            greetings.hear(has_event, now);
        }
    }

    /// Whether all connections came that were to come.
    pub fn is_full(&self) -> bool
        ensures { IsTrue result ↔ count_of self.now ≤ came_of self.now }
    {
        self.came >= self.count
    }

    /// Whether so many were taken that there is a round of turns first.
    pub fn has_burst(&self) -> bool {
        self.burst >= BURST
    }

    /// Whether a connection may be waiting, and is wanted.
    pub fn may_accept(&self) -> bool
        ensures { IsTrue result → came_of self.now < count_of self.now }
    {
        self.may_have_one() && !self.has_burst() && !self.is_full()
    }

    /// Whether one may be waiting, of those whose proxy has said whose they are, or at the listener.
    fn may_have_one(&self) -> bool {
        match &self.greetings {
            Some(greetings) => greetings.has_known()
                || (self.is_acceptable && !greetings.is_full()),
            None => self.is_acceptable,
        }
    }

    /// The milliseconds after which it is to be looked at again, though no event comes: where the listener failed, or a proxy hasn't said yet whose
    /// a connection is.
    pub fn retry_after(&self) -> Option<u64> {
        if self.has_failed {
            return Some(AGAIN);
        }
        match &self.greetings {
            Some(greetings) if greetings.is_waiting() => Some(LATE),
            _ => None,
        }
    }

    /// Takes the next connection that waits, if one does. Its peer is who the proxy says, where it comes by one.
    pub fn accept(&mut self) -> Option<(NonblockingStream, Peer)>
        ensures same { Keeps self.old self.new }
        ensures unfailed { IfSome result (λ one. failure_of one.0 ≡ None) }
    {
        self.burst = self.burst.saturating_add(1);
        let (socket, peer) = match &mut self.greetings {
            Some(greetings) if greetings.has_known() => greetings.next_known()?,
            _ => self.accept_one()?,
        };
        Some((NonblockingStream::new(socket), peer))
    }

    /// Takes the next connection of the listener, if one waits. One that comes by a proxy waits for its header first.
    fn accept_one(&mut self) -> Option<(StreamSocket, Peer)>
        ensures { Keeps self.old self.new }
    {
        let (socket, peer) = match self.listener.accept() {
            Ok(one) => one,
            Err(error) => {
                self.note(error.kind());
                return None;
            }
        };
        let Some(greetings) = &mut self.greetings else {
            return Some((socket, peer));
        };
        greetings.begin(socket, peer);
        greetings.next_known()
    }

    /// Counts a connection that is served, and gives its number, from 1 on.
    pub fn admit(&mut self) -> u64
        requires { came_of self.old < count_of self.old }
        ensures number { result ≡ came_of self.old + 1 }
        ensures came { came_of self.new ≡ result }
        ensures count { count_of self.new ≡ count_of self.old }
    {
        self.came += 1;
        self.came
    }

    /// Notes why no connection was taken. One that its peer closed before says nothing of the next.
    fn note(&mut self, kind: ErrorKind)
        ensures { Keeps self.old self.new }
    {
        match kind {
            ErrorKind::ConnectionAborted | ErrorKind::Interrupted => (),
            ErrorKind::WouldBlock => self.is_acceptable = false,
            _ => {
                self.is_acceptable = false;
                self.has_failed = true;
            }
        }
    }
}
