//! A client's connection: a socket that is read while it is written, so that a client over it doesn't stand still because its peer waits
//! for its own bytes to be read, up to a limit of what is taken in; with limits of time, and tries to connect again.
#![tactic(auto)]

mod address;
mod ahead;
mod backoff;
mod duplex;
mod options;
mod stream;
mod waiter;
mod waiting;

pub use address::Address;
pub use backoff::Backoff;
pub use options::ConnectOptions;
pub use stream::DuplexStream;
pub use waiting::SocketClient;
