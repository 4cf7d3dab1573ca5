//! A client's connection.

ghost use Rattle.std.specs.Io.{ReadsAtMost, WritesAtMost};

use crate::address::Address;
use crate::backoff::Backoff;
use crate::duplex::Duplex;
use crate::options::ConnectOptions;
use crate::waiter::Waiter;
use net_sockets::{NonblockingStream, StreamSocket};
use std::alloc::AllocGlobal;
use std::cell::{RefCell, RefMut};
use std::io::{self, ErrorKind, Read, Write};
use std::net::{Net, TcpListener, TcpStream};
use std::thread;
use std::time::{Clock, Duration, Instant};

/// A connection of a client, over TCP or a Unix socket. `&stream` is a reader and a writer, as that of a `TcpStream`:
///
/// ```rust
/// let stream = DuplexStream::connect(&rt, "127.0.0.1:7001", &ConnectOptions::standard())?;
/// let mut client = Client::new(alloc, &stream, &stream, Mode::Plain, Limits::standard());
/// ```
///
/// A write that has to wait takes in what comes, since a peer may not read on before its own bytes are read. So a client over it doesn't
/// stand still because both ends wait for each other to read, as long as what comes meanwhile is at most `ConnectOptions::ahead` bytes (1 GiB
/// by `standard`). Past them the write fails. Once the peer takes nothing more, what is written is lost, and what it had to say can still be
/// read.
///
/// It still waits for a peer that neither reads nor writes: for ever, unless `ConnectOptions::silence` or a deadline limits that.
///
/// # Errors
///
/// A client says each as `ClientFault::Device`. Nothing is lost by it: a later call goes on from there.
///
/// - `TimedOut`: no byte moved in time (`ConnectOptions::silence`), or the deadline came.
/// - `QuotaExceeded`: a write had to wait, and as many bytes as `ConnectOptions::ahead` came that nobody asked for yet. A client writes before
///   it reads, so it goes on only if its peer reads on: have fewer calls under way at once, or a larger `ahead`.
#[derive(Drop)]
pub struct DuplexStream<'r, C> {
    duplex: RefCell<Duplex<'r, C, StreamSocket>>,
}

impl<'r, N> DuplexStream<'r, N>
where
    N: Net<Listener = TcpListener, Stream = TcpStream> + Clock + AllocGlobal,
{
    /// Connects to an address, as `Address::of` reads it.
    ///
    /// # Errors
    ///
    /// `InvalidInput`: it isn't one. The others are the system's.
    pub fn connect(
        rt: &'r N,
        address: &str,
        options: &ConnectOptions,
    ) -> io::Result<DuplexStream<'r, N>> {
        let address = address_of(address)?;
        DuplexStream::new(rt, address.connect(rt, options)?, options)
    }

    /// The same, where each try that fails is followed by another one, after a wait that grows. At an error the last try failed so.
    ///
    /// A client over a connection that ended gets `Disconnected` for each open question. Make another client over this one: its
    /// session is a new one, so what the old one held isn't known to it, and a call whose outcome didn't come may have been made.
    pub fn reconnect(
        rt: &'r N,
        address: &str,
        options: &ConnectOptions,
        backoff: Backoff,
    ) -> io::Result<DuplexStream<'r, N>> {
        let address = address_of(address)?;
        let mut backoff = backoff;
        for _ in 0..u64::MAX {
            match address.connect(rt, options) {
                Ok(stream) => return DuplexStream::new(rt, stream, options),
                Err(error) => match backoff.next() {
                    Some(wait) => thread::sleep(rt, Duration::from_millis(wait)),
                    None => return Err(error),
                },
            }
        }
        Err(io::Error::from(ErrorKind::TimedOut))
    }

    /// The connection of a stream.
    pub fn new(
        rt: &'r N,
        stream: NonblockingStream,
        options: &ConnectOptions,
    ) -> io::Result<DuplexStream<'r, N>> {
        let mut stream = stream;
        let waiter = Waiter::new(rt, rt.alloc(), &mut stream, options.silence)?;
        let duplex = Duplex::new(rt.alloc(), stream, waiter, options.ahead);
        Ok(DuplexStream {
            duplex: RefCell::new(duplex),
        })
    }
}

impl<'r, C: Clock> DuplexStream<'r, C> {
    /// Has a call fail while no byte moves for so long, in place of what `ConnectOptions::silence` said.
    pub fn set_silence(&self, time: Option<Duration>) -> io::Result<()> {
        let mut duplex = self.borrowed()?;
        duplex.waiter.set_silence(time);
        drop(duplex);
        Ok(())
    }

    /// Has each call that waits fail once so much time is over, from now on. `None`: there is no such limit any more. Though the time is
    /// over, one piece of at most 64 KiB is read that came.
    pub fn set_deadline(&self, time: Option<Duration>) -> io::Result<()> {
        let mut duplex = self.borrowed()?;
        let set = duplex.set_deadline(time);
        drop(duplex);
        set
    }

    /// The same, unless what was set before comes earlier. Gives that.
    pub(crate) fn bring_deadline(&self, time: Duration) -> io::Result<Option<Instant>> {
        let mut duplex = self.borrowed()?;
        let before = duplex.bring_deadline(time);
        drop(duplex);
        before
    }

    /// Has the deadline be one that was set before.
    pub(crate) fn restore_deadline(&self, deadline: Option<Instant>) {
        if let Ok(mut duplex) = self.borrowed() {
            duplex.restore_deadline(deadline);
            drop(duplex);
        }
    }

    /// Whether the deadline came.
    pub(crate) fn is_late(&self) -> io::Result<bool> {
        let duplex = self.borrowed()?;
        let is_late = duplex.is_late();
        drop(duplex);
        is_late
    }

    /// The stream itself. Nobody has it between two calls, so that this doesn't fail.
    fn borrowed(&self) -> io::Result<RefMut<'_, Duplex<'r, C, StreamSocket>>> {
        match self.duplex.try_borrow_mut() {
            Ok(duplex) => Ok(duplex),
            Err(_) => Err(io::Error::from(ErrorKind::Other)),
        }
    }
}

impl<'s, 'r, C: Clock> Read for &'s DuplexStream<'r, C> {
    fn read(&mut self, buf: &mut [u8]) -> io::Result<usize> {
        let mut duplex = self.borrowed()?;
        let came = duplex.read(buf);
        drop(duplex);
        came
    }
}

impl<'s, 'r, C: Clock> Write for &'s DuplexStream<'r, C> {
    fn write(&mut self, buf: &[u8]) -> io::Result<usize> {
        let mut duplex = self.borrowed()?;
        let went = duplex.write(buf);
        drop(duplex);
        went
    }

    fn flush(&mut self) -> io::Result<()> {
        Ok(())
    }
}

/// The address that a word names.
fn address_of(word: &str) -> io::Result<Address<'_>> {
    match Address::of(word) {
        Some(address) => Ok(address),
        None => Err(io::Error::from(ErrorKind::InvalidInput)),
    }
}
