//! Sockets that never wait: a listener whose connections are taken as they come, and streams with what is known of them.
#![tactic(auto)]

mod greeting;
mod greetings;
mod incoming;
mod listener;
mod nonblocking_stream;
mod proxy_header;
mod readiness;
mod socket;
mod stream;

pub use incoming::Incoming;
pub use listener::{Listener, Peer};
pub use nonblocking_stream::{Got, NonblockingStream};
pub use proxy_header::ProxyHeader;
pub use readiness::{Readiness, Watched};
pub use socket::Socket;
pub use stream::StreamSocket;
