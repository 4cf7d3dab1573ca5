//! A host.

ghost use Rattle.std.specs.Prelude.{◌≡◌, ◌<◌, ◌↔◌, ◌-◌, ◌^◌, min, Some, None, IsTrue, IfOk, OnOk, OnErr};
ghost use Rattle.cp_objects.specs.Context.{time_after};
ghost use Rattle.net_sockets.specs.Incoming.{came_of, count_of};
ghost use Rattle.net_sockets.specs.Sockets.{flow_of_socket};
ghost use Rattle.net_host.specs.Figures.{IsOfAll};
ghost use Rattle.net_host.specs.Floor as floor;
ghost use Rattle.net_host.specs.Floor.{IsFresh, LooksOn, Reports, Rests, Seats, connections_of, nobody, waking};
ghost use Rattle.net_host.specs.Connecting.{one_more, outgoing};
ghost use Rattle.net_host.specs.Limits.{HasRoom};
ghost use Rattle.net_host.specs.Roster.{begun, Accepts, Admits, GoesOn, Hears, IsOnTime, IsOpen, IsOver, Looks, LooksOnTime, Rounds};
ghost use Rattle.net_host.specs.RosterOf.{now_of, roster};
ghost use Rattle.net_host.specs.Timing.{IsNoLonger, until};
ghost use Rattle.net_host.specs.declared.host.HostEvent.TheVariants as all_news;

use crate::config::HostConfig;
use crate::end::{End, Ended};
use crate::event_loop::EventLoop;
use crate::figures::HostFigures;
use crate::limits::WhenFull;
use crate::pending::PendingConnection;
use crate::time::{earlier, has_come};
use cp_connection::ConnectionStats;
use cp_objects::Waker;
use cp_session::{DrivenSession, Session};
use net_sockets::{Incoming, Listener, Peer, StreamSocket};
use std::alloc::AllocGlobal;
use std::io::{self, ErrorKind};
use std::net::Net;
use std::time::{Clock, Duration};

/// The number of the first connection that is made from here. Those that come have numbers below, as long as there are fewer.
const OUTGOING: u64 = 0x8000_0000;

/// What a host tells its program.
#[derive(Drop)]
pub enum HostEvent {
    /// One came: give it its objects by `admit`, or it is closed. Numbers go up from 1.
    /// The application makes them, so it can look at the peer first.
    Connected {
        number: u64,
        peer: Peer,
    },
    /// One came and was closed, as there were as many as the host allows.
    Refused {
        peer: Peer,
    },
    /// One ended, and its objects were dropped. It took and sent so much in all, which `Host::figures` counts no more.
    Ended {
        number: u64,
        peer: Peer,
        end: End,
        stats: ConnectionStats,
    },
    /// The time has come that the program named by `wake_after`. It is told once.
    Woken,
}

/// What came of a look for news.
#[derive(Drop)]
enum Look {
    /// There is none yet.
    Nothing,
    HostEvent(HostEvent),
    /// All that were to come have come and ended.
    Over,
}

/// Serves many connections in one process, each with objects of its own, all in one thread: it waits for none of them.
///
/// # In which order calls are made
///
/// 1. `new` takes a listener.
/// 2. Call `next` until it gives none. It serves the connections until there is news, and gives that.
/// 3. At `Connected` make the connection's objects, and give them to `admit`: the one at place 0 is what a Bootstrap gets.
/// 4. Meanwhile have objects woken by `wake`, and name by `wake_after` when `next` is to give `Woken`.
/// 5. Drop it: the connections that are left are closed, and the listener.
///
/// # State of objects
///
/// `O` is the one type of all objects, such as an enum; each may make others. Those of one connection are `Objects`, and are called
/// by that one alone. What all share is a value that they hold together, as by an `Rc`: all calls are made in one
/// thread, one after another. An object that is to know its connection is made with its number.
/// Nothing is lent to a call beside its params, since boxed objects can hold no borrow.
///
/// An object, or the program (`wake`), may have one of another connection woken, of which it has a `Waker` by what they
/// share. Then that one is polled, and its connection has a turn, so that it can call its peer. If that connection ended, nothing is done.
///
/// They may call what they were given (`ServedObject::next_call`), and are told what that came to. Nobody else uses a connection's imports: each is released once no
/// object holds it, nor anything of the vat, also one that came with a call which reached no object.
///
/// # What each connection gets
///
/// - Connections that can go on have turns, one after another. In a turn what waits is written, and one piece of at most
///   64 KiB is read and taken, or so many of its messages as the limits say. After each message each object is polled once. While
///   an object says that it may give more, it is polled at each turn.
/// - Nothing is read of a peer while more than `ahead` bytes wait for it, so a peer that doesn't read is not served on.
/// - Limits of time, and the times at which objects are to be woken, are looked at when the first of them is met, and at most once in a
///   millisecond. A host that has nothing to do waits, and takes no time of a processor.
/// - A limit that is met closes the connection. What is reported says which. So does one that is met by what all connections keep
///   together: it closes the connection that came to keep more than its share, where the other ones leave no more.
/// - After an Abort that the peer gets for its fault, and after bytes of it that are refused, the stream is closed for writing, and
///   what comes is dropped, until the peer closes or its time is over: so it can read what it was sent. After an Abort of the peer's its
///   close is waited for likewise. After the end of its messages all that the objects give is written, and it is closed.
///
/// # Errors
///
/// An error of `next` is one of the listener's set of sockets, or says that memory ran out for it. Each end is still reported then, by
/// a further call. Of a connection that fails the news says so, and the others go on.
pub type Host<O> = SessionHost<Session<O>>;

/// A `Host` whose connections are sessions of this type.
pub struct SessionHost<S> {
    pub(crate) plan: HostConfig,
    incoming: Incoming,
    pending: Option<PendingConnection<StreamSocket>>,
    pub(crate) event_loop: EventLoop<S, StreamSocket>,
    /// How many connections were made from here.
    made: u64,
    /// When the program is to be told that its time has come, if it is to be.
    alarm: Option<u64>,
}

impl<S: Drop> Drop for SessionHost<S> {
    fn drop(self) {
        let SessionHost {
            plan: _,
            incoming: _,
            pending: _,
            event_loop: _,
            made: _,
            alarm: _,
        } = self;
    }
}

impl<S: DrivenSession> SessionHost<S> {
    /// A host to which no connection has come.
    pub fn new<N: Net + Clock + AllocGlobal>(
        rt: &N,
        plan: HostConfig,
        listener: Listener,
    ) -> io::Result<SessionHost<S>>
        ensures begun { IfOk result (λ host. roster host ≡ begun plan) }
        ensures empty { IfOk result (λ host. Rests (nobody plan.limits) (connections_of S.state host)) }
    {
        let mut incoming = Incoming::new(listener, plan.count);
        let event_loop = EventLoop::new(rt, &plan.limits, &mut incoming)?;
        Ok(SessionHost {
            plan,
            incoming,
            pending: None,
            event_loop,
            made: 0,
            alarm: None,
        })
    }

    /// Serves the connections until there is news. `None`: all that were to come have come and ended, whether or not a time was named.
    ///
    /// A connection that came last, and got no objects, is closed.
    pub fn next<N: Net + Clock>(&mut self, rt: &N) -> io::Result<Option<HostEvent>>
        ensures hears { IfOk result (λ news. Hears (roster self.old) news (roster self.new)) }
        ensures on_time { IfOk result (λ news. IsOnTime (roster self.old).alarm (now_of self.old) (now_of self.new) news) }
        ensures fresh { OnOk result (IsFresh self.new.pending) }
        ensures unheard { OnErr result (GoesOn (roster self.old) (roster self.new)) }
        ensures reports { IfOk result (λ news. Reports S.table (connections_of S.state self.old) news (connections_of S.state self.new)) }
        ensures unreported { OnErr result (floor.Rounds S.table (connections_of S.state self.old) (connections_of S.state self.new)) }
    {
        // A connection that got no objects is closed by this.
        self.pending = None;
        for _ in 0..u64::MAX {
            match self.look(rt)? {
                Look::Nothing => (),
                Look::HostEvent(news) => return Ok(Some(news)),
                Look::Over => return Ok(None),
            }
        }
        Err(io::Error::from(ErrorKind::TimedOut))
    }

    /// Serves the connection that came last with these objects. Where this fails, it is closed.
    pub fn admit(&mut self, objects: S::Objects) -> io::Result<()>
        ensures admits { OnOk result (Admits (roster self.old) (roster self.new)) }
        ensures lost { OnErr result (roster self.new ≡ record (roster self.old) { awaits = None }) }
        ensures seats { OnOk result (Seats S.table flow_of_socket self.old.plan self.old.pending objects (connections_of S.state self.old) (connections_of S.state self.new)) }
        ensures unseated { OnErr result (Rests (connections_of S.state self.old) (connections_of S.state self.new)) }
    {
        match self.pending.take() {
            Some(pending) => self.event_loop.admit(&self.plan, pending, objects),
            None => Ok(()),
        }
    }

    /// Has an object woken, as another object would (`Context::wake`): it is polled, and its connection has a turn. Nothing is done where the
    /// object is gone, or its connection.
    pub fn wake(&mut self, waker: Waker) -> io::Result<()>
        ensures woken { OnOk result (connections_of S.state self.new ≡ waking (connections_of S.state self.old) waker) }
        ensures unwoken { OnErr result (connections_of S.state self.new ≡ connections_of S.state self.old) }
        ensures same { roster self.new ≡ roster self.old }
        ensures waits { self.new.pending ≡ self.old.pending }
    {
        self.event_loop.wake(waker)
    }

    /// Has `next` give `HostEvent::Woken` after this many milliseconds, in place of any time that was named before. With 0 it is given before
    /// connections have turns.
    pub fn wake_after<N: Clock>(&mut self, rt: &N, milliseconds: u64) -> io::Result<()>
        ensures named { OnOk result (roster self.new ≡ record (roster self.old) { alarm = Some (time_after (now_of self.new) milliseconds) }) }
        ensures unnamed { OnErr result (roster self.new ≡ roster self.old) }
        ensures rests { Rests (connections_of S.state self.old) (connections_of S.state self.new) }
        ensures waits { self.new.pending ≡ self.old.pending }
    {
        self.event_loop.look(rt)?;
        self.alarm = Some(self.event_loop.now().saturating_add(milliseconds));
        Ok(())
    }

    /// What the connections did that are served now, and what is kept for them. What each of the others did, `HostEvent::Ended` said: with
    /// that the totals never fall. It looks at each connection: so ask now and then, and not at each event.
    pub fn figures(&self) -> HostFigures
        ensures { IsOfAll S.table S.state self.now result }
    {
        self.event_loop.figures()
    }

    /// The number of the next connection that is made from here.
    pub(crate) fn next_outgoing(&mut self) -> u64
        ensures number { result ≡ min (outgoing self.old.made) (2 ^ 64 - 1) }
        ensures rest { self.new ≡ record self.old { made = one_more self.old.made } }
    {
        let number = OUTGOING.saturating_add(self.made);
        self.made = self.made.saturating_add(1);
        number
    }

    /// Looks for news: an end of which there was none, the time that the program named, or a connection that waits. Where there is none of
    /// these, each connection that can go on has a turn.
    fn look<N: Net + Clock>(&mut self, rt: &N) -> io::Result<Look>
        requires { self.old.pending ≡ None }
        ensures looks { IfOk result (λ it. Looks (roster self.old) it (roster self.new)) }
        ensures on_time { IfOk result (λ it. LooksOnTime (roster self.old).alarm (now_of self.old) (now_of self.new) it) }
        ensures fresh { OnOk result (IsFresh self.new.pending) }
        ensures unheard { OnErr result (GoesOn (roster self.old) (roster self.new)) }
        ensures reports { IfOk result (λ it. LooksOn S.table (connections_of S.state self.old) it (connections_of S.state self.new)) }
        ensures unreported { OnErr result (floor.Rounds S.table (connections_of S.state self.old) (connections_of S.state self.new)) }
    {
        if let Some(ended) = self.event_loop.next_end() {
            return Ok(Look::HostEvent(HostEvent::ended(ended)));
        }
        if has_come(self.alarm, self.event_loop.now()) {
            self.alarm = None;
            return Ok(Look::HostEvent(HostEvent::Woken));
        }
        if self.can_accept() {
            return match self.accept() {
                Some(news) => Ok(Look::HostEvent(news)),
                None => Ok(Look::Nothing),
            };
        }
        if self.is_over() {
            return Ok(Look::Over);
        }
        self.round(rt)?;
        Ok(Look::Nothing)
    }

    /// Whether a connection may be waiting, and is wanted.
    fn can_accept(&self) -> bool
        ensures wanted { IsTrue result → came_of self.now.incoming < count_of self.now.incoming }
        ensures open { IsTrue result → IsOpen (roster self.now) }
    {
        self.incoming.may_accept()
            && (self.has_room() || self.plan.limits.when_full == WhenFull::Refuse)
    }

    /// Whether one more connection may be served.
    fn has_room(&self) -> bool
        ensures { IsTrue result ↔ HasRoom self.now.plan.limits (roster self.now).served }
    {
        self.plan.limits.has_room(self.event_loop.served())
    }

    /// Whether all that were to come have come and ended.
    fn is_over(&self) -> bool
        ensures { IsTrue result → IsOver (roster self.now) }
    {
        self.event_loop.served() == 0 && self.incoming.is_full()
    }

    /// Takes the next connection that waits, if one does, or closes it where there are as many as are allowed.
    fn accept(&mut self) -> Option<HostEvent>
        requires wanted { came_of self.old.incoming < count_of self.old.incoming }
        requires open { IsOpen (roster self.old) }
        ensures accepts { Accepts (roster self.old) result (roster self.new) }
        ensures fresh { IsFresh self.old.pending → IsFresh self.new.pending }
        ensures same { self.new.event_loop ≡ self.old.event_loop }
    {
        let (stream, peer) = self.incoming.accept()?;
        if !self.has_room() {
            // This closes it.
            drop(stream);
            return Some(HostEvent::Refused { peer });
        }
        let number = self.incoming.admit();
        self.pending = Some(PendingConnection {
            number,
            peer,
            stream,
        });
        Some(HostEvent::Connected { number, peer })
    }

    /// Waits for events, and gives each connection that can go on a turn.
    fn round<N: Net + Clock>(&mut self, rt: &N) -> io::Result<()>
        ensures rounds { Rounds (roster self.old) (roster self.new) }
        ensures turns { floor.Rounds S.table (connections_of S.state self.old) (connections_of S.state self.new) }
    {
        let wait = self.wait();
        let has_event = self.event_loop.wait(rt, wait.map(Duration::from_millis))?;
        self.incoming.begin_round(has_event);
        self.incoming.hear(has_event, self.event_loop.now());
        self.event_loop.round(&self.plan.limits)
    }

    /// How many milliseconds the next wait may take: none while a connection can go on or can be taken, else those until limits of time
    /// are looked at, the program is told, or the listener is tried again. Where there are none an event is waited for: a host that has
    /// nothing to do takes no time of a processor.
    fn wait(&self) -> Option<u64>
        ensures { IsNoLonger result (until self.now.event_loop.time self.now.alarm) }
    {
        if self.event_loop.has_turns() || self.incoming.has_burst() {
            return Some(0);
        }
        earlier(
            self.event_loop.until(self.alarm),
            self.incoming.retry_after(),
        )
    }
}

impl HostEvent {
    /// The news of a connection that ended.
    fn ended(ended: Ended) -> HostEvent
        ensures { result ≡ all_news.Ended ended.number ended.peer ended.end ended.stats }
    {
        HostEvent::Ended {
            number: ended.number,
            peer: ended.peer,
            end: ended.end,
            stats: ended.stats,
        }
    }
}
