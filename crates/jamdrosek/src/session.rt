//! One end of a connection with its objects, without a device and without a clock (cp_session).
//!
//! A `Session` is a `Connection` with its objects and limits. Bytes, times and your calls go in. Bytes, events and the next deadline come
//! out. An event loop over sockets, pipes or threads only has to read, write and wait. `SessionLimits` say how long a message, a silent
//! peer and a peer's close may take, how many bytes may wait before more is taken, and how many are kept. The objects are `Objects`
//! (`server::Objects`).
//!
//! Its driver moves it by the calls of `DrivenSession`, and its program calls by those of `CallingSession`: bring these traits in.
//! `receive` takes bytes up to the end of a message, hands calls to their objects, and polls each object. A `SessionEvent` is the outcome of
//! a question of yours, or says why the session ended: that one comes once, and last.

pub use cp_connection::{ConnectionFault, ConnectionStats};
pub use cp_dispatch::{Limit, SessionEvent};
pub use cp_refs::{Cap, Caps, Outcome, Path, PromiseId, Request};
pub use cp_session::{CallingSession, DrivenSession, Session, SessionLimits, SessionOptions};
pub use cp_vat_machine::Reason;
