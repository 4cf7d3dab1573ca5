//! Which streams of many are ready, and who can go on by that.

ghost use Rattle.std.specs.Prelude.{◌≡◌, ◌<◌, ◌≤◌, ◌+◌, ◌^◌, Bool, [], true, not, length, IfOk, OnErr};
ghost use Rattle.std.specs.VecDeque.{deque_capacity, deque_len};
ghost use Rattle.mio.specs.Events.{items};
ghost use Rattle.net_sockets.specs.Incoming.{Keeps};
ghost use Rattle.net_sockets.specs.Readiness.{Names, Notes};

use crate::incoming::Incoming;
use crate::nonblocking_stream::NonblockingStream;
use crate::socket::Socket;
use mio::event::Event;
use mio::{Events, Poll, Token};
use slab::Slab;
use std::alloc::AllocGlobal;
use std::collections::VecDeque;
use std::io;
use std::net::Net;
use std::time::Duration;

/// The listener's token, which no stream has.
const LISTENER: Token = Token(usize::MAX);

/// The most events that one wait reports.
const EVENTS: usize = 256;

/// An entry of a slab whose streams are watched: one, or two.
pub trait Watched: Drop {
    /// What no event changes.
    ghost Kept: { Type 0 } = { Unit {0} };

    ghost kept: { Self → Self.Kept };

    /// It is in the queue of those that can go on.
    ghost is_queued: { Self → Bool };

    /// What an event says of its first stream, or of its second. Says whether it comes into the queue.
    fn mark(&mut self, is_second: bool, event: &Event) -> bool
        ensures kept { kept self.new ≡ kept self.old }
        ensures queued { is_queued self.new ≡ true }
        ensures enters { result ≡ not (is_queued self.old) };
}

/// What waits for the events of a listener and of the streams of a slab's entries, and the keys of those that can go on.
#[derive(Drop)]
pub struct Readiness {
    poll: Poll,
    events: Events,
    /// The keys of those that can go on at once, in the order of their turns. Whoever takes one out has its entry say that it isn't
    /// there. One that names no entry is to be passed over.
    pub queue: VecDeque<usize>,
}

impl Readiness {
    /// Watches a listener, and no stream. Nobody can go on.
    pub fn new<N: Net + AllocGlobal>(rt: &N, incoming: &mut Incoming) -> io::Result<Readiness>
        ensures empty { IfOk result (λ it. it.queue.items ≡ []) }
        ensures same { Keeps incoming.old incoming.new }
    {
        let poll = Poll::new(rt)?;
        let alloc = rt.alloc();
        incoming.register(alloc, poll.registry(), LISTENER)?;
        Ok(Readiness {
            poll,
            events: Events::with_capacity(alloc, EVENTS)?,
            queue: VecDeque::new(alloc),
        })
    }

    /// Watches a stream of the entry under a key: its first, or its second.
    pub fn watch<D: Socket>(
        &self,
        stream: &mut NonblockingStream<D>,
        key: usize,
        is_second: bool,
    ) -> io::Result<()>
        ensures { stream.new ≡ stream.old }
    {
        stream.register(self.poll.registry(), token_of(key, is_second))
    }

    /// Waits for events, no longer than this, and notes what they say. Those that can go on by that come to the end of the queue. Says
    /// whether the listener had one. A signal ends the wait.
    ///
    /// # Errors
    ///
    /// Those of the system's set of sockets, or memory ran out. Then nothing is noted.
    pub fn wait<E: Watched>(
        &mut self,
        time: Option<Duration>,
        entries: &mut Slab<E>,
    ) -> io::Result<bool>
        ensures notes { Notes E.kept E.is_queued entries.old self.old.queue.items entries.new self.new.queue.items }
        ensures none_noted { OnErr result (entries.new ≡ entries.old) }
        ensures none_queued { OnErr result (self.new.queue.items ≡ self.old.queue.items) }
    {
        // Before the events are taken, of which none comes again.
        self.queue.reserve(self.events.capacity())?;
        self.poll.poll(&mut self.events, time)?;
        Ok(note_events(&self.events, entries, &mut self.queue))
    }
}

/// Notes what events say of entries. Says whether the listener had one.
fn note_events<E: Watched>(
    events: &Events,
    entries: &mut Slab<E>,
    queue: &mut VecDeque<usize>,
) -> bool
    requires { deque_len queue.old + length (items events.now) ≤ deque_capacity queue.old }
    ensures { Notes E.kept E.is_queued entries.old queue.old.items entries.new queue.new.items }
{
    let mut has_listener = false;
    for event in events {
        if event.token() == LISTENER {
            has_listener = true;
        } else {
            note_event(event, entries, queue);
        }
    }
    has_listener
}

/// Notes what an event says of the entry that its token names, if there is one.
fn note_event<E: Watched>(event: &Event, entries: &mut Slab<E>, queue: &mut VecDeque<usize>)
    requires { deque_len queue.old < deque_capacity queue.old }
    ensures notes { Notes E.kept E.is_queued entries.old queue.old.items entries.new queue.new.items }
    ensures room { deque_len queue.new ≤ deque_len queue.old + 1 }
    ensures capacity { deque_capacity queue.new ≡ deque_capacity queue.old }
{
    let token = event.token().0;
    let key = token / 2;
    let Some(entry) = entries.get_mut(key) else {
        return;
    };
    if entry.mark(token % 2 == 1, event) {
        queue.push_back_reserved(key);
    }
}

/// The token of a stream of the entry under a key: two tokens each, the even one for the first. There is no memory for 2^63 entries.
fn token_of(key: usize, is_second: bool) -> Token
    ensures { key < 2 ^ 63 → Names result key is_second }
{
    let first = key.wrapping_mul(2);
    Token(if is_second { first | 1 } else { first })
}
