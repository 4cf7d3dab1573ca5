//! Where a client connects to.

use crate::options::ConnectOptions;
use mio::net as ready;
use net_sockets::NonblockingStream;
use std::io::{self, ErrorKind};
use std::net::{Net, TcpListener, TcpStream, ToSocketAddrs};
use std::os::unix::net::UnixStream;
use std::time::Duration;

/// Where a client connects to.
#[derive(Clone, Copy)]
pub enum Address<'a> {
    /// `HOST:PORT`.
    Tcp(&'a str),
    /// The path of a Unix socket.
    Unix(&'a str),
}

impl<'a> Address<'a> {
    /// The address that a word names: the path of a Unix socket, which has a slash or comes after `unix:`, or a `HOST:PORT`.
    pub fn of(word: &'a str) -> Option<Address<'a>> {
        if let Some(path) = word.strip_prefix("unix:") {
            return Some(Address::Unix(path));
        }
        if word.contains('/') {
            return Some(Address::Unix(word));
        }
        if has_port(word) {
            return Some(Address::Tcp(word));
        }
        None
    }

    /// A connection to it. What is sent on it goes out at once, as the peer may wait for it.
    pub(crate) fn connect<N>(
        self,
        rt: &N,
        options: &ConnectOptions,
    ) -> io::Result<NonblockingStream>
    where
        N: Net<Listener = TcpListener, Stream = TcpStream>,
    {
        match self {
            Address::Tcp(address) => connect_tcp(rt, address, options.connecting),
            Address::Unix(path) => connect_unix(rt, path),
        }
    }
}

/// A connection over TCP.
fn connect_tcp<N>(rt: &N, address: &str, time: Option<Duration>) -> io::Result<NonblockingStream>
where
    N: Net<Listener = TcpListener, Stream = TcpStream>,
{
    let stream = match time {
        Some(time) => connect_within(rt, address, time)?,
        None => TcpStream::connect(rt, address)?,
    };
    stream.set_nodelay(true)?;
    stream.set_nonblocking(true)?;
    Ok(NonblockingStream::of_tcp(ready::TcpStream::from_std(stream)))
}

/// The same, where each address of the host is tried for so long.
fn connect_within<N>(rt: &N, address: &str, time: Duration) -> io::Result<TcpStream>
where
    N: Net<Listener = TcpListener, Stream = TcpStream>,
{
    let mut last = io::Error::from(ErrorKind::NotFound);
    for address in address.to_socket_addrs(rt)? {
        match TcpStream::connect_timeout(rt, &address, time) {
            Ok(stream) => return Ok(stream),
            Err(error) => last = error,
        }
    }
    Err(last)
}

/// A connection to the Unix socket at a path.
fn connect_unix<N: Net>(rt: &N, path: &str) -> io::Result<NonblockingStream> {
    let stream = UnixStream::connect(rt, path)?;
    stream.set_nonblocking(true)?;
    Ok(NonblockingStream::of_unix(ready::UnixStream::from_std(stream)))
}

/// Whether a word ends in a port.
fn has_port(word: &str) -> bool {
    match word.rsplit_once(':') {
        Some((host, port)) => !host.is_empty() && port.parse::<u16>().is_ok(),
        None => false,
    }
}
