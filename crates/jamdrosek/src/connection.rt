//! One end of a connection with its frames, without devices (cp_connection).
//!
//! A `Connection` is a `Vat` with its frames. `receive` takes bytes of the peer in any pieces, `outgoing` has the bytes to write, and `next`
//! returns what happened. It fits a socket, a pipe or an event loop alike. The example `connection` joins two in memory.
//!
//! `Dispatcher` hands calls to objects (`server::Servant`). Its `receive` has the connection take bytes, lends calls to the objects and answers
//! them. `work_off` does so for whatever else happened, and `round` polls the objects. A `SessionEvent` is what is left for you.
//! `receive_lending` and `reuse` are for programs that lend calls themselves (`BorrowedCall`).

pub use cp_connection::{
    Connection, ConnectionEvent, ConnectionFault, ConnectionStats, Excess, Held,
};
pub use cp_dispatch::{Dispatcher, SessionEvent};
pub use cp_servants::any_has_more;
pub use cp_vat::BorrowedCall;
