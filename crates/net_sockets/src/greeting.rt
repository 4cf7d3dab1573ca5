//! A connection that begins with its proxy's header.

ghost use Rattle.std.specs.Prelude.{IfSome, IfOk};
ghost use Rattle.net_sockets.specs.Greeting.{Greets, IsUnmet, TakesMore};

use crate::listener::Peer;
use crate::proxy_header::ProxyHeader;
use crate::socket::Socket;
use std::alloc::Global;
use std::io::{self, ErrorKind};

/// The most bytes of a header.
const MOST: usize = 232;

/// What came of a header.
#[derive(Clone, Copy)]
pub(crate) enum Greeted {
    /// It isn't whole.
    Waits,
    /// It is whole. `None`: the connection is the proxy's own, or the header doesn't say whose.
    Whole(Option<Peer>),
    /// No header begins so, or none comes.
    Broken,
}

/// A connection that begins with its proxy's header.
#[derive(Drop)]
pub(crate) struct Greeting<D> {
    socket: D,
    /// What came of the header, and nothing of what follows it.
    came: Vec<u8>,
}

impl<D: Socket> Greeting<D> {
    /// One of which nothing was read.
    pub(crate) fn new(alloc: Global, socket: D) -> Greeting<D> {
        Greeting {
            socket,
            came: Vec::new(alloc),
        }
    }

    /// Its socket.
    pub(crate) fn socket(&mut self) -> &mut D {
        &mut self.socket
    }

    /// Its socket, of which the header was taken.
    pub(crate) fn into_socket(self) -> D {
        let Greeting { socket, came: _ } = self;
        socket
    }

    /// Takes what came of the header, up to its end and no byte more.
    pub(crate) fn hear(&mut self) -> Greeted
        ensures { Greets D.flow self.old result self.new }
    {
        for _ in 0..=MOST {
            let more = match ProxyHeader::read(&self.came) {
                ProxyHeader::Partial(more) => more,
                ProxyHeader::Whole(peer) => return Greeted::Whole(peer),
                ProxyHeader::Malformed => return Greeted::Broken,
            };
            let count = match self.take(more) {
                Ok(count) => count,
                Err(error) => return greeted_at(error.kind()),
            };
            if count == 0 {
                return Greeted::Broken;
            }
        }
        Greeted::Broken
    }

    /// Takes so many bytes at most of what comes next, and says how many.
    fn take(&mut self, most: usize) -> io::Result<usize>
        ensures { TakesMore D.flow most self.old result self.new }
    {
        let mut room = [0u8; MOST];
        let piece = &mut room[..most.min(MOST)];
        let count = self.socket.read(piece)?;
        self.came.extend_from_slice(&piece[..count])?;
        Ok(count)
    }
}

/// What came of a header, where a read failed so.
fn greeted_at(kind: ErrorKind) -> Greeted
    ensures { IsUnmet result }
{
    match kind {
        ErrorKind::WouldBlock | ErrorKind::Interrupted => Greeted::Waits,
        _ => Greeted::Broken,
    }
}
