//! A connection that waits for its objects.

use net_sockets::{NonblockingStream, Peer};

/// A connection that came, and has no objects yet.
#[derive(Drop)]
pub(crate) struct PendingConnection<D> {
    pub number: u64,
    pub peer: Peer,
    pub stream: NonblockingStream<D>,
}
