//! A connection's socket.

use crate::socket::Socket;
use mio::net::{TcpStream, UnixStream};
use mio::{Interest, Registry, Token};
use std::io::{self, Read, Write};
use std::net::{Net, Shutdown, SocketAddr};

/// A connection's socket.
#[derive(Drop)]
pub enum StreamSocket {
    Tcp(TcpStream),
    Unix(UnixStream),
}

impl StreamSocket {
    /// Begins a connection to an address. What is sent on it goes out at once, as the peer may wait for it.
    pub(crate) fn connect<N: Net>(rt: &N, address: SocketAddr) -> io::Result<StreamSocket> {
        let stream = TcpStream::connect(rt, address)?;
        let _ = stream.set_nodelay(true);
        Ok(StreamSocket::Tcp(stream))
    }

    /// Has its readiness reported no more.
    pub(crate) fn deregister(&mut self, registry: &Registry) -> io::Result<()> {
        match self {
            StreamSocket::Tcp(stream) => registry.deregister(stream),
            StreamSocket::Unix(stream) => registry.deregister(stream),
        }
    }
}

impl Socket for StreamSocket {
    ghost use Rattle.net_sockets.specs.Sockets.{flow_of_socket};

    ghost flow = { flow_of_socket };

    fn register(&mut self, registry: &Registry, token: Token) -> io::Result<()> {
        let both = Interest::READABLE | Interest::WRITABLE;
        match self {
            StreamSocket::Tcp(stream) => registry.register(stream, token, both),
            StreamSocket::Unix(stream) => registry.register(stream, token, both),
        }
    }

    fn read(&mut self, piece: &mut [u8]) -> io::Result<usize> {
        match self {
            StreamSocket::Tcp(stream) => stream.read(piece),
            StreamSocket::Unix(stream) => stream.read(piece),
        }
    }

    fn write(&mut self, bytes: &[u8]) -> io::Result<usize> {
        match self {
            StreamSocket::Tcp(stream) => stream.write(bytes),
            StreamSocket::Unix(stream) => stream.write(bytes),
        }
    }

    fn shut(&self) -> io::Result<()> {
        match self {
            StreamSocket::Tcp(stream) => stream.shutdown(Shutdown::Write),
            StreamSocket::Unix(stream) => stream.shutdown(Shutdown::Write),
        }
    }
}
