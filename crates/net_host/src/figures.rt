//! What a host did and holds, as numbers.

ghost use Rattle.std.specs.Prelude.{◌≡◌};
ghost use Rattle.net_host.specs.Figures.{SumsUp, with_one};

use crate::hosted_connection::HostedConnection;
use cp_connection::ConnectionStats;
use cp_session::DrivenSession;
use net_sockets::Socket;
use slab::Slab;

/// What the connections did that a host serves, and what is kept for them, at one moment. Those that ended count no more: `HostEvent::Ended`
/// said what they did. A number that a u64 can't hold is its greatest one.
#[derive(Clone, Copy)]
pub struct HostFigures {
    /// How many connections are served.
    pub served: usize,
    /// The bytes that are kept for them, as a host's limits count these.
    pub kept: u64,
    /// The messages that were taken of them.
    pub messages: u64,
    /// The bytes of the frames of these.
    pub bytes: u64,
    /// The messages that were sent to them, written or not.
    pub sent: u64,
}

impl HostFigures {
    /// With one connection more, which is counted.
    fn with(self, kept: u64, stats: ConnectionStats) -> HostFigures
        ensures { result ≡ with_one self kept stats }
    {
        HostFigures {
            served: self.served,
            kept: self.kept.saturating_add(kept),
            messages: self.messages.saturating_add(stats.messages),
            bytes: self.bytes.saturating_add(stats.bytes),
            sent: self.sent.saturating_add(stats.sent),
        }
    }
}

/// What these connections did, and what is kept for them.
pub(crate) fn figures_of<S: DrivenSession, D: Socket>(
    guests: &Slab<HostedConnection<S, D>>,
) -> HostFigures
    ensures sums { SumsUp S.table S.state guests.now result }
{
    let mut all = HostFigures {
        served: guests.len(),
        kept: 0,
        messages: 0,
        bytes: 0,
        sent: 0,
    };
    for entry in guests {
        let (_, hosted) = entry;
        all = all.with(hosted.kept(), hosted.stats());
    }
    all
}
