//! The statuses that commands end with.

/// Accepted.
pub const ACCEPTED: u8 = 0;
/// Refused, with a line that says where and why.
pub const REFUSED: u8 = 1;
/// A usage fault, or a device that failed.
pub const BROKEN: u8 = 2;
/// The reader of what is printed went away: 128 and the number of SIGPIPE, as of other tools.
pub const CLOSED: u8 = 141;
