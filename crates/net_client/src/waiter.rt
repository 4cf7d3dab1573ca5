//! How long a stream is waited for.

ghost use Rattle.std.specs.Prelude.{◌≡◌};
ghost use Rattle.net_sockets.specs.Reading.{flow_of};

use mio::{Events, Poll, Token};
use net_sockets::{NonblockingStream, Socket};
use std::alloc::Global;
use std::io::{self, ErrorKind};
use std::net::Net;
use std::time::{Clock, Duration, Instant};

/// What waits for a stream, and for how long.
#[derive(Drop)]
pub(crate) struct Waiter<'r, C> {
    clock: &'r C,
    poll: Poll,
    events: Events,
    /// The longest wait.
    silence: Option<Duration>,
    /// When each wait ends.
    pub(crate) deadline: Option<Instant>,
}

impl<'r, C: Clock> Waiter<'r, C> {
    /// What waits for this stream, each time so long at the most.
    pub(crate) fn new<D: Socket>(
        clock: &'r C,
        alloc: Global,
        stream: &mut NonblockingStream<D>,
        silence: Option<Duration>,
    ) -> io::Result<Waiter<'r, C>>
    where
        C: Net,
        ensures { stream.new ≡ stream.old }
    {
        let poll = Poll::new(clock)?;
        stream.register(poll.registry(), Token(0))?;
        Ok(Waiter {
            clock,
            poll,
            events: Events::with_capacity(alloc, 1)?,
            silence,
            deadline: None,
        })
    }

    /// From now on a wait takes so long at the most.
    pub(crate) fn set_silence(&mut self, time: Option<Duration>) {
        self.silence = time;
    }

    /// When so much time will be over. `None`: that is past all times of the clock.
    pub(crate) fn time_after(&self, time: Duration) -> io::Result<Option<Instant>> {
        Ok(Instant::now(self.clock)?.checked_add(time))
    }

    /// Whether the time has come at which each wait ends.
    pub(crate) fn is_late(&self) -> io::Result<bool> {
        match self.deadline {
            Some(deadline) => Ok(deadline <= Instant::now(self.clock)?),
            None => Ok(false),
        }
    }

    /// Waits for an event, and notes what it says of a stream. A signal ends no wait.
    ///
    /// # Errors
    ///
    /// `TimedOut`: none came in time. The others are those of the system's set of sockets, and of its clock.
    pub(crate) fn wait<D: Socket>(&mut self, stream: &mut NonblockingStream<D>) -> io::Result<()>
        ensures { flow_of D.flow stream.new ≡ flow_of D.flow stream.old }
    {
        let since = Instant::now(self.clock)?;
        for _ in 0..u64::MAX {
            let left = self.time_left(since)?;
            if self.poll(stream, left)? {
                return Ok(());
            }
            if left == Some(Duration::ZERO) {
                break;
            }
        }
        Err(io::Error::from(ErrorKind::TimedOut))
    }

    /// How long a wait may still take that began then. `None`: there is no limit.
    fn time_left(&self, since: Instant) -> io::Result<Option<Duration>> {
        if self.silence.is_none() && self.deadline.is_none() {
            return Ok(None);
        }
        let now = Instant::now(self.clock)?;
        let silence = match self.silence {
            Some(time) => Some(time.saturating_sub(now.duration_since(since))),
            None => None,
        };
        match (silence, self.deadline) {
            (Some(time), Some(deadline)) => Ok(Some(time.min(deadline.duration_since(now)))),
            (None, Some(deadline)) => Ok(Some(deadline.duration_since(now))),
            (time, None) => Ok(time),
        }
    }

    /// Waits so long for an event, and notes what it says. Says whether one came.
    fn poll<D: Socket>(
        &mut self,
        stream: &mut NonblockingStream<D>,
        time: Option<Duration>,
    ) -> io::Result<bool>
        ensures { flow_of D.flow stream.new ≡ flow_of D.flow stream.old }
    {
        self.poll.poll(&mut self.events, time)?;
        for event in &self.events {
            stream.mark(event);
        }
        Ok(!self.events.is_empty())
    }
}
