//! What connections come to: an address, or a path.

ghost use Rattle.std.specs.Prelude.{◌≡◌};
ghost use Rattle.net_sockets.specs.Incoming.{by_proxy, comes_by_proxy};

use crate::stream::StreamSocket;
use mio::net::{TcpListener, UnixListener};
use mio::{Interest, Registry, Token};
use std::fs::Files;
use std::net::{Net, SocketAddr};
use std::{fmt, io};

/// Who is at the other end of a connection.
#[derive(Clone, Copy)]
pub enum Peer {
    /// One at this address.
    Tcp(SocketAddr),
    /// One that connected to a path.
    Unix,
}

impl fmt::Display for Peer {
    fn fmt<W: fmt::Write>(&self, f: &mut fmt::Formatter<W>) -> fmt::Result {
        match self {
            Peer::Tcp(address) => address.fmt(f),
            Peer::Unix => f.write_str("unix"),
        }
    }
}

/// What connections come to.
#[derive(Drop)]
pub struct Listener {
    socket: ListeningSocket,
    behind_proxy: bool,
}

/// The socket of a listener.
#[derive(Drop)]
enum ListeningSocket {
    Tcp(TcpListener),
    Unix(UnixListener),
}

impl Listener {
    /// Listens on an address.
    pub fn bind<N: Net>(rt: &N, address: SocketAddr) -> io::Result<Listener> {
        Ok(Listener::of(ListeningSocket::Tcp(TcpListener::bind(rt, address)?)))
    }

    /// Listens on a path, at which a file is made. It isn't removed.
    /// A process that is killed leaves such a file too.
    pub fn bind_path<N: Net + Files>(rt: &N, path: &str) -> io::Result<Listener> {
        Ok(Listener::of(ListeningSocket::Unix(UnixListener::bind(rt, path)?)))
    }

    /// One whose connections come by a proxy, such as HAProxy, which says by a header before anything else whose each is: then that is its
    /// peer. One whose header is malformed, or doesn't come in five seconds, is closed. Let nobody but the proxy connect: whoever does
    /// can say that it is anybody.
    pub fn behind_proxy(self) -> Listener
        ensures { result ≡ by_proxy self }
    {
        let Listener {
            socket,
            behind_proxy: _,
        } = self;
        Listener {
            socket,
            behind_proxy: true,
        }
    }

    fn of(socket: ListeningSocket) -> Listener {
        Listener {
            socket,
            behind_proxy: false,
        }
    }

    /// Whether its connections begin with a proxy's header.
    pub(crate) fn is_behind_proxy(&self) -> bool
        ensures { result ≡ comes_by_proxy self.now }
    {
        self.behind_proxy
    }

    /// The address that it listens on, where it has one.
    pub fn address(&self) -> io::Result<Option<SocketAddr>> {
        match &self.socket {
            ListeningSocket::Tcp(listener) => Ok(Some(listener.local_addr()?)),
            ListeningSocket::Unix(_) => Ok(None),
        }
    }

    /// Has its connections reported under a token.
    pub(crate) fn register(&mut self, registry: &Registry, token: Token) -> io::Result<()> {
        match &mut self.socket {
            ListeningSocket::Tcp(listener) => registry.register(
                listener,
                token,
                Interest::READABLE,
            ),
            ListeningSocket::Unix(listener) => registry.register(
                listener,
                token,
                Interest::READABLE,
            ),
        }
    }

    /// The next connection. What is sent on it goes out at once, as the peer may wait for it.
    pub(crate) fn accept(&self) -> io::Result<(StreamSocket, Peer)> {
        match &self.socket {
            ListeningSocket::Tcp(listener) => {
                let (stream, address) = listener.accept()?;
                // A connection that failed meanwhile shows that at its first read.
                let _ = stream.set_nodelay(true);
                Ok((StreamSocket::Tcp(stream), Peer::Tcp(address)))
            }
            ListeningSocket::Unix(listener) => {
                let (stream, _) = listener.accept()?;
                Ok((StreamSocket::Unix(stream), Peer::Unix))
            }
        }
    }
}
