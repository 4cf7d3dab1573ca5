//! A stream, and what is known of it.

ghost use Rattle.std.specs.Prelude.{◌≡◌, ◌≤◌, [], Some, None, IfOk, IfErr, OnOk, OnErr, length, take};
ghost use Rattle.std.specs.IoError.{raw_os_error};
ghost use Rattle.net_sockets.specs.Flow.{Moves, Rests};
ghost use Rattle.net_sockets.specs.Reading.{Fits, came_by, ends_by, failure_of, flow_of, may_read, may_write};

use crate::socket::Socket;
use crate::stream::StreamSocket;
use mio::event::Event;
use mio::net::{TcpStream, UnixStream};
use mio::{Registry, Token};
use std::io::{self, ErrorKind};
use std::net::{Net, SocketAddr};

/// What came of a read.
#[derive(Clone, Copy)]
pub enum Got {
    Bytes(usize),
    /// Nothing came so far.
    Nothing,
    /// The peer sends no more.
    End,
}

/// A stream that never waits.
#[derive(Drop)]
pub struct NonblockingStream<D = StreamSocket> {
    socket: D,
    /// What the last events and calls say of it. A wrong `true` costs one call.
    readable: bool,
    writable: bool,
    /// The peer sends no more, or the stream failed: a short read needn't be the last one.
    closed: bool,
    /// The system's code of the error that a read or a write gave last, if one did and had a code.
    failure: Option<Option<i32>>,
}

impl NonblockingStream<StreamSocket> {
    /// Begins a connection to an address. An event says when there is one, or why there is none.
    pub fn connect<N: Net>(rt: &N, address: SocketAddr) -> io::Result<NonblockingStream>
        ensures unfailed { IfOk result (λ stream. failure_of stream ≡ None) }
    {
        Ok(NonblockingStream {
            socket: StreamSocket::connect(rt, address)?,
            readable: false,
            writable: false,
            closed: false,
            failure: None,
        })
    }

    /// A connection to the Unix socket at a path.
    pub fn connect_path<N: Net>(rt: &N, path: &str) -> io::Result<NonblockingStream>
        ensures unfailed { IfOk result (λ stream. failure_of stream ≡ None) }
    {
        Ok(NonblockingStream::of_unix(UnixStream::connect(rt, path)?))
    }

    /// A connection over TCP.
    pub fn of_tcp(stream: TcpStream) -> NonblockingStream {
        NonblockingStream::new(StreamSocket::Tcp(stream))
    }

    /// A connection over a Unix socket.
    pub fn of_unix(stream: UnixStream) -> NonblockingStream
        ensures unfailed { failure_of result ≡ None }
    {
        NonblockingStream::new(StreamSocket::Unix(stream))
    }
}

impl<D: Socket> NonblockingStream<D> {
    /// A stream of which nothing is known.
    pub(crate) fn new(socket: D) -> NonblockingStream<D>
        ensures unfailed { failure_of result ≡ None }
        ensures flow { flow_of D.flow result ≡ D.flow socket }
    {
        NonblockingStream {
            socket,
            readable: true,
            writable: true,
            closed: false,
            failure: None,
        }
    }

    /// Has its readiness reported under a token.
    pub fn register(&mut self, registry: &Registry, token: Token) -> io::Result<()>
        ensures { self.new ≡ self.old }
    {
        self.socket.register(registry, token)
    }

    /// What an event says of it.
    pub fn mark(&mut self, event: &Event)
        ensures failure { failure_of self.new ≡ failure_of self.old }
        ensures flow { flow_of D.flow self.new ≡ flow_of D.flow self.old }
    {
        let closed = event.is_read_closed() || event.is_error();
        self.closed = self.closed || closed;
        self.readable = self.readable || event.is_readable() || closed;
        self.writable = self.writable
            || event.is_writable()
            || event.is_write_closed()
            || event.is_error();
    }

    /// Whether it may have bytes, or its end.
    pub fn is_readable(&self) -> bool
        ensures { result ≡ may_read self.now }
    {
        self.readable
    }

    /// Whether it may take bytes.
    pub fn is_writable(&self) -> bool
        ensures { result ≡ may_write self.now }
    {
        self.writable
    }

    /// Reads a piece.
    pub fn read(&mut self, piece: &mut [u8]) -> io::Result<Got>
        ensures fits { IfOk result (λ got. Fits got (length piece.new)) }
        ensures gives { IfOk result (λ got. Moves (flow_of D.flow self.old) (came_by got piece.new) (ends_by got) [] (flow_of D.flow self.new)) }
        ensures gives_none { OnErr result (Rests (flow_of D.flow self.old) (flow_of D.flow self.new)) }
        ensures failed { IfErr result (λ error. failure_of self.new ≡ Some (raw_os_error error)) }
        ensures went_well { OnOk result (failure_of self.new ≡ failure_of self.old) }
    {
        match self.socket.read(piece) {
            Ok(0) => Ok(Got::End),
            Ok(count) => {
                // After a short read of a stream that goes on, the next bytes come with an event.
                self.readable = self.closed || count == piece.len();
                Ok(Got::Bytes(count))
            }
            Err(error) => match error.kind() {
                ErrorKind::WouldBlock => {
                    self.readable = false;
                    Ok(Got::Nothing)
                }
                // The stream still counts as readable, so the caller comes again.
                ErrorKind::Interrupted => Ok(Got::Nothing),
                _ => Err(self.fail(error)),
            },
        }
    }

    /// Writes the first of these bytes, which aren't none, and says how many.
    pub fn write(&mut self, bytes: &[u8]) -> io::Result<usize>
        ensures few { IfOk result (λ count. count ≤ length bytes.now) }
        ensures takes { IfOk result (λ count. Moves (flow_of D.flow self.old) [] 0 (take count bytes.now) (flow_of D.flow self.new)) }
        ensures takes_none { OnErr result (Rests (flow_of D.flow self.old) (flow_of D.flow self.new)) }
        ensures failed { IfErr result (λ error. failure_of self.new ≡ Some (raw_os_error error)) }
        ensures went_well { OnOk result (failure_of self.new ≡ failure_of self.old) }
    {
        match self.socket.write(bytes) {
            Ok(0) => Err(self.fail(io::Error::from(ErrorKind::WriteZero))),
            Ok(count) => Ok(count),
            Err(error) => match error.kind() {
                ErrorKind::WouldBlock => {
                    self.writable = false;
                    Ok(0)
                }
                ErrorKind::Interrupted => Ok(0),
                _ => Err(self.fail(error)),
            },
        }
    }

    /// Tells the peer that nothing more comes. One that is gone isn't told.
    pub fn shut(&self) {
        let _ = self.socket.shut();
    }

    /// Keeps that it failed with this error.
    fn fail(&mut self, error: io::Error) -> io::Error
        ensures same { result ≡ error }
        ensures kept { failure_of self.new ≡ Some (raw_os_error error) }
        ensures flow { flow_of D.flow self.new ≡ flow_of D.flow self.old }
    {
        self.failure = Some(error.raw_os_error());
        error
    }
}
