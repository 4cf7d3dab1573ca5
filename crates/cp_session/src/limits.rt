//! What a session allows its peer.

ghost use Rattle.std.specs.Prelude.{◌≡◌, ◌/◌, max};
ghost use Rattle.cp_session.specs.Limits.{shortest, standard, unlimited};

/// What a session allows its peer. Times are in milliseconds.
#[derive(Clone, Copy)]
pub struct SessionLimits {
    /// The time in which a message comes whole, from its first byte on.
    pub message: u64,
    /// The time in which a byte moves, either way. A peer that is silent for half of it is asked for what it gives, once: one that is there
    /// answers, and so isn't taken for one that is gone.
    pub idle: u64,
    /// The time in which the peer closes, once nothing more goes to it.
    pub closing: u64,
    /// The bytes that may wait to be written while more is taken from the peer. With 0 nothing is taken before all was written; so
    /// two ends that only write would stop each other.
    pub ahead: usize,
    /// The most bytes that are kept: of the open message, of what waits to be written, and of what the vat has entries for, with the
    /// contents of calls that wait and of results.
    pub kept: u64,
}

impl SessionLimits {
    /// 30 seconds for a message, five minutes without a byte, 5 seconds for the peer's close; 64 KiB that wait to be written while
    /// more is taken, and 256 MiB that are kept, as large messages need.
    pub fn standard() -> SessionLimits
        ensures { result ≡ standard }
    {
        SessionLimits {
            message: 30_000,
            idle: 300_000,
            closing: 5_000,
            ahead: 65_536,
            kept: 268_435_456,
        }
    }

    /// No limit of time, nor of what is kept. Nothing is taken before all was written.
    pub fn unlimited() -> SessionLimits
        ensures { result ≡ unlimited }
    {
        SessionLimits {
            message: u64::MAX,
            idle: u64::MAX,
            closing: u64::MAX,
            ahead: 0,
            kept: u64::MAX,
        }
    }

    /// How often the times are to be looked at: a quarter of the shortest, and at least a millisecond.
    pub fn tick(&self) -> u64
        ensures { result ≡ max (shortest self.now / 4) 1 }
    {
        let shortest = self.message.min(self.idle).min(self.closing);
        (shortest / 4).max(1)
    }
}
