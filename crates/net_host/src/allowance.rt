//! What a connection may do in a turn.

/// What a connection may do in a turn.
#[derive(Clone, Copy)]
pub(crate) struct Allowance {
    /// The most messages that are taken.
    pub messages: u32,
    /// The most bytes that may be kept for it: what its host allows it now.
    pub kept: u64,
    /// Its number in the host's budget.
    pub account: u32,
    /// The time.
    pub now: u64,
}
