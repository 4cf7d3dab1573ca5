//! How a connection ended.

ghost use Rattle.std.specs.Prelude.{◌≡◌};
ghost use Rattle.net_host.specs.HostedConnections.{end_of};

use cp_connection::{ConnectionFault, ConnectionStats};
use cp_dispatch::{Limit, SessionEvent};
use cp_vat_machine::Reason;
use net_sockets::Peer;
use std::{fmt, io};

/// How a connection ended.
#[derive(Drop)]
pub enum End {
    /// The peer's messages ended.
    Ended,
    /// The vat closed: by an Abort of the peer's, or by one that the peer got for its fault.
    Closed(Reason),
    /// The peer's bytes can't be read on, or memory ran out.
    Fault(ConnectionFault),
    /// It met a limit.
    Limit(Limit),
    /// Its stream failed.
    Failed(io::Error),
}

/// A connection that ended.
#[derive(Drop)]
pub(crate) struct Ended {
    pub number: u64,
    pub peer: Peer,
    pub end: End,
    /// What was taken of its peer, and sent to it, in all.
    pub stats: ConnectionStats,
}

impl End {
    /// How the connection ended, if an event says so.
    pub(crate) fn of_event(event: SessionEvent) -> Option<End>
        ensures { result ≡ end_of event }
    {
        match event {
            SessionEvent::Outcome { outcome, .. } => {
                drop(outcome);
                None
            }
            SessionEvent::Restless => None,
            SessionEvent::Closed(reason) => Some(End::Closed(reason)),
            SessionEvent::Fault(fault) => Some(End::Fault(fault)),
            SessionEvent::Limit(limit) => Some(End::Limit(limit)),
            SessionEvent::Ended => Some(End::Ended),
        }
    }

    /// Whether the peer closed the connection, or is about to: nothing is to be told to it.
    pub(crate) fn is_peers(&self) -> bool {
        matches!(self, End::Ended | End::Closed(Reason::Peer(_)))
    }
}

impl fmt::Display for End {
    fn fmt<W: fmt::Write>(&self, f: &mut fmt::Formatter<W>) -> fmt::Result {
        match self {
            End::Ended => f.write_str("ended"),
            End::Closed(reason) => reason.fmt(f),
            End::Fault(ConnectionFault::OutOfMemory) => f.write_str("refused: V10 OutOfMemory"),
            End::Fault(fault) => fault.fmt(f),
            End::Limit(limit) => f.write_str(text_of(*limit)),
            End::Failed(error) => write!(f, "device: {error}"),
        }
    }
}

/// What a limit says.
fn text_of(limit: Limit) -> &'static str {
    match limit {
        Limit::Message => "closed: a message didn't come whole in time",
        Limit::Idle => "closed: no byte moved in time",
        Limit::Closing => "closed: the peer didn't close in time",
        Limit::Kept => "closed: too many bytes are kept",
    }
}
