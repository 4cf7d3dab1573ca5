//! What a server did.

use cp_vat_machine::Reason;

/// What a server did until its run ended. Counts stay at `u64::MAX`.
#[derive(Drop)]
pub struct Report {
    /// The messages that it took.
    pub messages: u64,
    /// The messages that it sent.
    pub sent: u64,
    /// Why the vat closed. `None` says that the peer's messages ended, or that no more were read.
    pub closed: Option<Reason>,
}
