//! A stream that is read while it is written.

ghost use Rattle.std.specs.Prelude.{◌≡◌, ◌≤◌, [], true, false, Some, IfOk, IfSome, IfNone, OnOk, OnErr, length, take};
ghost use Rattle.std.specs.Io.{ReadsAtMost, WritesAtMost};
ghost use Rattle.net_sockets.specs.Reading.{flow_of};
ghost use Rattle.net_client.specs.Passing.{Passes, Sends, Waits, passage_of};

use crate::ahead::Ahead;
use crate::waiter::Waiter;
use net_sockets::{Got, NonblockingStream, Socket};
use std::alloc::Global;
use std::io::{self, ErrorKind};
use std::time::{Clock, Duration, Instant};

/// A stream of which a write that has to wait takes in what comes.
#[derive(Drop)]
pub(crate) struct Duplex<'r, C, D> {
    stream: NonblockingStream<D>,
    pub(crate) waiter: Waiter<'r, C>,
    /// The bytes that came before they were asked for, and the most of them that are taken in.
    ahead: Ahead,
    most_ahead: usize,
    /// The peer takes nothing more.
    is_shut: bool,
    /// Why the peer takes nothing more, where a call failed.
    failed: Option<io::Error>,
    /// Something was read since the deadline was set. Only then it ends reads, so that what came is taken, if slowly.
    has_read: bool,
}

impl<'r, C: Clock, D: Socket> Duplex<'r, C, D> {
    /// A stream of which nothing was read.
    pub(crate) fn new(
        alloc: Global,
        stream: NonblockingStream<D>,
        waiter: Waiter<'r, C>,
        most_ahead: usize,
    ) -> Duplex<'r, C, D>
        ensures { passage_of D.flow result ≡ record { ahead = []; flow = flow_of D.flow stream; is_shut = false } }
    {
        Duplex {
            stream,
            waiter,
            ahead: Ahead::new(alloc),
            most_ahead,
            is_shut: false,
            failed: None,
            has_read: false,
        }
    }

    /// Reads what came first, and waits for it where nothing came.
    pub(crate) fn read(&mut self, buf: &mut [u8]) -> io::Result<usize>
        ensures bound { ReadsAtMost result buf.new }
        ensures gives { let at = passage_of D.flow in IfOk result (λ count. Passes (at self.old) (take count buf.new) [] (at self.new)) }
        ensures gives_none { let at = passage_of D.flow in OnErr result (Waits (at self.old) (at self.new)) }
    {
        if self.ahead.len() > 0 {
            return Ok(self.ahead.give(buf));
        }
        for _ in 0..u64::MAX {
            if let Some(count) = self.read_next(buf)? {
                return Ok(count);
            }
        }
        Err(io::Error::from(ErrorKind::Other))
    }

    /// Writes some of these bytes. Where it has to wait for that, it takes in what comes meanwhile.
    pub(crate) fn write(&mut self, bytes: &[u8]) -> io::Result<usize>
        ensures bound { WritesAtMost result bytes.now }
        ensures sends { let at = passage_of D.flow in IfOk result (λ count. Sends (at self.old) (take count bytes.now) (at self.new)) }
        ensures sends_none { let at = passage_of D.flow in OnErr result (Waits (at self.old) (at self.new)) }
    {
        for _ in 0..u64::MAX {
            if let Some(count) = self.write_next(bytes)? {
                return Ok(count);
            }
        }
        Err(io::Error::from(ErrorKind::Other))
    }

    /// Has waits end once so much time is over.
    pub(crate) fn set_deadline(&mut self, time: Option<Duration>) -> io::Result<()>
        ensures { let at = passage_of D.flow in at self.new ≡ at self.old }
    {
        let deadline = match time {
            Some(time) => self.waiter.time_after(time)?,
            None => None,
        };
        self.restore_deadline(deadline);
        Ok(())
    }

    /// The same, unless what was set before comes earlier. Gives that.
    pub(crate) fn bring_deadline(&mut self, time: Duration) -> io::Result<Option<Instant>>
        ensures { let at = passage_of D.flow in at self.new ≡ at self.old }
    {
        let before = self.waiter.deadline;
        let deadline = self.waiter.time_after(time)?;
        self.restore_deadline(earlier(before, deadline));
        Ok(before)
    }

    /// Has waits end at this time.
    pub(crate) fn restore_deadline(&mut self, deadline: Option<Instant>)
        ensures { let at = passage_of D.flow in at self.new ≡ at self.old }
    {
        self.waiter.deadline = deadline;
        self.has_read = false;
    }

    /// Whether the time has come at which waits end.
    pub(crate) fn is_late(&self) -> io::Result<bool> {
        self.waiter.is_late()
    }

    /// Reads a piece, or waits where none came.
    fn read_next(&mut self, buf: &mut [u8]) -> io::Result<Option<usize>>
        requires { self.old.ahead ≡ [] }
        ensures none_ahead { self.new.ahead ≡ [] }
        ensures few { IfOk result (λ came. IfSome came (λ count. count ≤ length buf.new)) }
        ensures gives { let at = passage_of D.flow in IfOk result (λ came. IfSome came (λ count. Passes (at self.old) (take count buf.new) [] (at self.new))) }
        ensures waits { let at = passage_of D.flow in IfOk result (λ came. IfNone came (Waits (at self.old) (at self.new))) }
        ensures gives_none { let at = passage_of D.flow in OnErr result (Waits (at self.old) (at self.new)) }
    {
        if self.has_read && self.is_late()? {
            return Err(io::Error::from(ErrorKind::TimedOut));
        }
        if !self.stream.is_readable() {
            self.waiter.wait(&mut self.stream)?;
            return Ok(None);
        }
        match self.stream.read(buf) {
            Ok(Got::Bytes(count)) => {
                self.has_read = true;
                Ok(Some(count))
            }
            Ok(Got::Nothing) => Ok(None),
            Ok(Got::End) => self.end(),
            Err(error) if is_gone(&error) => self.end(),
            Err(error) => Err(error),
        }
    }

    /// The stream's end. It says why it took nothing more, if it didn't. A peer that is gone ended it.
    fn end(&self) -> io::Result<Option<usize>>
        ensures { IfOk result (λ came. came ≡ Some 0) }
    {
        match self.failed {
            Some(error) => Err(error),
            None => Ok(Some(0)),
        }
    }

    /// Writes some bytes where the stream takes any, or takes in what came, or waits.
    fn write_next(&mut self, bytes: &[u8]) -> io::Result<Option<usize>>
        ensures few { IfOk result (λ went. IfSome went (λ count. count ≤ length bytes.now)) }
        ensures sends { let at = passage_of D.flow in IfOk result (λ went. IfSome went (λ count. Sends (at self.old) (take count bytes.now) (at self.new))) }
        ensures waits { let at = passage_of D.flow in IfOk result (λ went. IfNone went (Waits (at self.old) (at self.new))) }
        ensures sends_none { let at = passage_of D.flow in OnErr result (Waits (at self.old) (at self.new)) }
    {
        if self.is_shut {
            // Lost without an error: the peer's reason may still be read.
            return Ok(Some(bytes.len()));
        }
        if bytes.is_empty() {
            return Ok(Some(0));
        }
        if !self.stream.is_writable() {
            self.take_in()?;
            return Ok(None);
        }
        match self.stream.write(bytes) {
            Ok(0) => Ok(None),
            Ok(count) => Ok(Some(count)),
            Err(error) => {
                self.shut(error);
                Ok(None)
            }
        }
    }

    /// Takes in what came, or waits where nothing came.
    ///
    /// # Errors
    ///
    /// Those of a wait. `QuotaExceeded`: as much was taken in as may be. `OutOfMemory`: there is no room for a piece.
    fn take_in(&mut self) -> io::Result<()>
        ensures { let at = passage_of D.flow in Waits (at self.old) (at self.new) }
    {
        if !self.stream.is_readable() {
            return self.waiter.wait(&mut self.stream);
        }
        if self.ahead.len() >= self.most_ahead {
            return Err(io::Error::from(ErrorKind::QuotaExceeded));
        }
        match self.ahead.fill(&mut self.stream)? {
            Ok(Got::End) => self.is_shut = true,
            Ok(_) => (),
            Err(error) => self.shut(error),
        }
        Ok(())
    }

    /// Keeps why the peer takes nothing more, unless it is that the peer is gone: then what it sent ends.
    fn shut(&mut self, error: io::Error)
        ensures { let at = passage_of D.flow in at self.new ≡ record (at self.old) { is_shut = true } }
    {
        self.is_shut = true;
        if !is_gone(&error) {
            self.failed = Some(error);
        }
    }
}

/// Whether an error says that the peer is gone. A peer that closes before it has read all resets the connection by that.
fn is_gone(error: &io::Error) -> bool {
    matches!(
        error.kind(),
        ErrorKind::ConnectionReset | ErrorKind::ConnectionAborted | ErrorKind::BrokenPipe
    )
}

/// The earlier of two times.
fn earlier(one: Option<Instant>, other: Option<Instant>) -> Option<Instant> {
    match (one, other) {
        (Some(one), Some(other)) => Some(one.min(other)),
        (None, other) => other,
        (one, None) => one,
    }
}
