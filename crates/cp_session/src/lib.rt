//! A session: one end of a connection with its objects, without a device and without a clock. Bytes and time come in; bytes, events
//! and the next deadline go out.
#![tactic(auto)]

mod budget;
mod calling;
mod driven;
mod empty_polls;
mod endpoint;
mod laws;
mod limits;
mod options;
mod progress;
mod search;
mod session;
mod sweep;

pub use budget::Budget;
pub use calling::CallingSession;
pub use driven::DrivenSession;
pub use laws::{due_by_limits, keep_no_more, lives, nobody_serves, stays_within, written_first};
pub use limits::SessionLimits;
pub use options::SessionOptions;
pub use session::{Session, SessionOver};
