//! What a host allows.

ghost use Rattle.std.specs.Prelude.{◌≡◌, ◌↔◌, IsTrue};
ghost use Rattle.net_host.specs.Limits.{standard, pool_of, share_of, HasRoom};

use cp_session::SessionLimits;

/// What becomes of a connection that comes when there are as many as a host allows.
#[derive(Clone, Copy)]
pub enum WhenFull {
    /// It is closed.
    Refuse,
    /// It waits, among those that the system keeps, until another one ends.
    Wait,
}

/// What a host allows.
#[derive(Clone, Copy)]
pub struct HostLimits {
    /// The most connections at once.
    pub connections: usize,
    /// What becomes of one more.
    pub when_full: WhenFull,
    /// The most messages of a connection that one turn takes.
    pub messages: u32,
    /// The most bytes that are kept for all connections together, as the limit of each counts them, one message aside. Half of them
    /// are shared out: each connection may keep its share, whatever the others keep. What they keep beyond that is in the other half.
    pub memory: u64,
    /// What each connection is allowed.
    pub session: SessionLimits,
}

impl HostLimits {
    /// 1,000 connections, and one more is closed; 64 messages a turn; 4 GiB for all, so a share of 2 MiB; each within the standard
    /// limits of a session.
    pub fn standard() -> HostLimits
        ensures { result ≡ standard }
    {
        HostLimits {
            connections: 1_000,
            when_full: WhenFull::Refuse,
            messages: 64,
            memory: 4_294_967_296,
            session: SessionLimits::standard(),
        }
    }

    /// The bytes that each connection may keep, whatever the others keep.
    pub fn share(&self) -> u64
        ensures { result ≡ share_of self.now }
    {
        let shared = self.memory / 2;
        shared / (self.connections as u64).max(1)
    }

    /// The bytes that connections may keep beyond their shares, all together.
    pub fn pool(&self) -> u64
        ensures { result ≡ pool_of self.now }
    {
        self.memory / 2
    }

    /// Whether one more connection may be served beside this many.
    pub fn has_room(&self, connections: usize) -> bool
        ensures { IsTrue result ↔ HasRoom self.now connections }
    {
        connections < self.connections
    }
}
