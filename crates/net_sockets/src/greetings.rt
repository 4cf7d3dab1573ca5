//! The connections whose proxy hasn't said yet whose they are.

use crate::greeting::{Greeted, Greeting};
use crate::listener::Peer;
use crate::socket::Socket;
use crate::stream::StreamSocket;
use mio::{Registry, Token};
use std::alloc::Global;
use std::collections::VecDeque;
use std::io;

/// The most of these connections.
const MOST: usize = 256;

/// The milliseconds in which a header comes whole: what is lost on the way is sent again within three seconds.
const TIME: u64 = 5_000;

/// The milliseconds after which those are looked at of which no event came.
const AGAIN: u64 = 1_000;

/// A connection whose proxy hasn't said yet whose it is.
#[derive(Drop)]
struct Waiting {
    greeting: Greeting<StreamSocket>,
    /// The proxy.
    peer: Peer,
    /// When its header is to be whole.
    until: u64,
}

/// The connections whose proxy hasn't said yet whose they are.
#[derive(Drop)]
pub(crate) struct Greetings {
    alloc: Global,
    registry: Registry,
    token: Token,
    waiting: VecDeque<Waiting>,
    /// Those whose proxy has said it.
    known: VecDeque<(StreamSocket, Peer)>,
    now: u64,
    /// When all are looked at next.
    look_at: u64,
}

impl Greetings {
    /// No connection. Those that wait are reported under a token.
    pub(crate) fn new(alloc: Global, registry: &Registry, token: Token) -> io::Result<Greetings> {
        Ok(Greetings {
            alloc,
            registry: registry.try_clone()?,
            token,
            waiting: VecDeque::new(alloc),
            known: VecDeque::new(alloc),
            now: 0,
            look_at: 0,
        })
    }

    /// Whether some wait.
    pub(crate) fn is_waiting(&self) -> bool {
        !self.waiting.is_empty()
    }

    /// Whether there may be no more.
    pub(crate) fn is_full(&self) -> bool {
        self.waiting.len().saturating_add(self.known.len()) >= MOST
    }

    /// Whether there is one whose proxy has said whose it is.
    pub(crate) fn has_known(&self) -> bool {
        !self.known.is_empty()
    }

    /// Takes out the first whose proxy has said whose it is.
    pub(crate) fn next_known(&mut self) -> Option<(StreamSocket, Peer)> {
        self.known.pop_front()
    }

    /// Takes in a connection. Where memory runs out it is closed.
    pub(crate) fn begin(&mut self, socket: StreamSocket, peer: Peer) {
        let mut waiting = Waiting {
            greeting: Greeting::new(self.alloc, socket),
            peer,
            until: self.now.saturating_add(TIME),
        };
        if waiting
            .greeting
            .socket()
            .register(&self.registry, self.token)
            .is_err()
        {
            drop(waiting);
            return;
        }
        self.hear_one(waiting);
    }

    /// Looks at the connections at this time, where an event says that one of them may go on, or it is time to close those that are late.
    pub(crate) fn hear(&mut self, has_event: bool, now: u64) {
        self.now = now;
        if !has_event && now < self.look_at {
            return;
        }
        self.look_at = now.saturating_add(AGAIN);
        for _ in 0..self.waiting.len() {
            if let Some(waiting) = self.waiting.pop_front() {
                self.hear_one(waiting);
            }
        }
    }

    /// Hears one: it is known, waits on, or is closed.
    fn hear_one(&mut self, mut waiting: Waiting) {
        match waiting.greeting.hear() {
            Greeted::Whole(peer) => self.know(waiting, peer),
            Greeted::Waits if self.now < waiting.until => {
                let _ = self.waiting.push_back(waiting);
            }
            _ => drop(waiting),
        }
    }

    /// Puts one to those that are known. Events are reported of it no more.
    fn know(&mut self, waiting: Waiting, peer: Option<Peer>) {
        let Waiting {
            greeting,
            peer: proxy,
            until: _,
        } = waiting;
        let mut socket = greeting.into_socket();
        if socket.deregister(&self.registry).is_err() {
            drop(socket);
            return;
        }
        let _ = self.known.push_back((socket, peer.unwrap_or(proxy)));
    }
}
