//! The connections that a host makes to other servers.

ghost use Rattle.std.specs.Prelude.{◌≡◌, None, IfOk, OnOk, OnErr};
ghost use Rattle.cp_session.specs.State.{state_of};
ghost use Rattle.net_host.specs.Connecting.{Connects, Joins, StaysAlone};
ghost use Rattle.net_sockets.specs.declared.listener.Peer.TheVariants.{Tcp, Unix};
ghost use Rattle.net_sockets.specs.Reading.{failure_of};
ghost use Rattle.net_host.specs.Floor.{Rests, connections_of};

use crate::host::Host;
use crate::pending::PendingConnection;
use cp_objects::{Objects, ServedObject, SharedCap};
use net_sockets::{NonblockingStream, Peer};
use std::io;
use std::net::{Net, SocketAddr};

impl<O: ServedObject<Makes = O>> Host<O> {
    /// Connects to another server at an address, and serves that connection as those that come, with these objects: without waiting. Gives
    /// its number, from 2^31 on, and the server's bootstrap capability, which may be called at once: calls wait until it is there. Where the
    /// server can't be reached, or the connection ends, `HostEvent::Ended` says so, and calls fail with `Disconnected`.
    /// No time of silence ends it.
    ///
    /// # Errors
    ///
    /// The system refuses to begin a connection, or memory ran out.
    pub fn connect<N: Net>(
        &mut self,
        rt: &N,
        address: SocketAddr,
        objects: Objects<O>,
    ) -> io::Result<(u64, SharedCap)>
        ensures connects { IfOk result (λ one. Connects O.makes (Tcp address) objects one.0 one.1 self.old self.new) }
        ensures unconnected { let at = connections_of state_of in OnErr result (Rests (at self.old) (at self.new)) }
        ensures joins { OnOk result (Joins self.old self.new) }
        ensures stays { OnErr result (StaysAlone self.old self.new) }
    {
        match NonblockingStream::connect(rt, address) {
            Ok(stream) => self.join(stream, Peer::Tcp(address), objects),
            Err(error) => {
                drop(objects);
                Err(error)
            }
        }
    }

    /// The same of the Unix socket at a path.
    pub fn connect_path<N: Net>(
        &mut self,
        rt: &N,
        path: &str,
        objects: Objects<O>,
    ) -> io::Result<(u64, SharedCap)>
        ensures connects { IfOk result (λ one. Connects O.makes Unix objects one.0 one.1 self.old self.new) }
        ensures unconnected { let at = connections_of state_of in OnErr result (Rests (at self.old) (at self.new)) }
        ensures joins { OnOk result (Joins self.old self.new) }
        ensures stays { OnErr result (StaysAlone self.old self.new) }
    {
        match NonblockingStream::connect_path(rt, path) {
            Ok(stream) => self.join(stream, Peer::Unix, objects),
            Err(error) => {
                drop(objects);
                Err(error)
            }
        }
    }

    /// Serves a connection that was begun here.
    fn join(
        &mut self,
        stream: NonblockingStream,
        peer: Peer,
        mut objects: Objects<O>,
    ) -> io::Result<(u64, SharedCap)>
        requires { failure_of stream ≡ None }
        ensures connects { IfOk result (λ one. Connects O.makes peer objects one.0 one.1 self.old self.new) }
        ensures unconnected { let at = connections_of state_of in OnErr result (Rests (at self.old) (at self.new)) }
        ensures joins { OnOk result (Joins self.old self.new) }
        ensures stays { OnErr result (StaysAlone self.old self.new) }
    {
        let number = self.next_outgoing();
        objects.set_session(self.event_loop.next_session(number));
        let bootstrap = objects.share_bootstrap()?;
        let pending = PendingConnection {
            number,
            peer,
            stream,
        };
        self.event_loop.admit_asking(&self.plan, pending, objects)?;
        Ok((number, bootstrap))
    }
}
