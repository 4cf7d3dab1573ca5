//! The status of a reader of messages.

use crate::fault::Refusal;

/// Whether a reader reads on.
#[derive(Clone, Copy)]
pub(crate) enum ReaderStatus {
    /// The stream is read on.
    Reading,
    /// A frame after messages that were given holds none: this is reported next.
    Refusing(Refusal),
    /// A fault was reported.
    Failed,
}
