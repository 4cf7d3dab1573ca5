//! Where connections are relayed to.

use net_sockets::NonblockingStream;
use std::io::{self, ErrorKind};
use std::net::{Net, SocketAddr, ToSocketAddrs};

/// Where connections are relayed to.
#[derive(Clone, Copy)]
pub(crate) enum Target<'a> {
    Address(SocketAddr),
    /// The path of a Unix socket.
    Path(&'a str),
}

impl<'a> Target<'a> {
    /// What a word names: the path of a Unix socket, which has a slash or comes after `unix:`, or a `HOST:PORT`.
    pub(crate) fn of<N: Net>(rt: &N, word: &'a str) -> io::Result<Target<'a>> {
        if let Some(path) = word.strip_prefix("unix:") {
            return Ok(Target::Path(path));
        }
        if word.contains('/') {
            return Ok(Target::Path(word));
        }
        match word.to_socket_addrs(rt)?.next() {
            Some(address) => Ok(Target::Address(address)),
            None => Err(io::Error::from(ErrorKind::NotFound)),
        }
    }

    /// A connection to it.
    pub(crate) fn connect<N: Net>(&self, rt: &N) -> io::Result<NonblockingStream> {
        match *self {
            Target::Address(address) => NonblockingStream::connect(rt, address),
            Target::Path(path) => NonblockingStream::connect_path(rt, path),
        }
    }
}
