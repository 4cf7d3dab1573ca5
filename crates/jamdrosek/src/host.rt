//! Many connections in one thread (net_host), over TCP or a Unix socket (net_sockets).
//!
//! A `Listener` binds an address or a path. A `Host` over it serves each connection that comes. `next` serves until there is news of a
//! connection, and returns that. At `Connected` make the connection's objects and give them to `admit`, as a `server::Objects`. At
//! `Ended` its objects have been dropped, and the `End` says why. `next` returns `None` once all connections that were to come have ended.
//!
//! A `HostConfig` says how a host serves: whether packed, how many connections come, and the `HostLimits`. `HostConfig::standard` serves for
//! ever and unpacked. It allows 1,000 connections at once, and 4 GiB for all of them together. `WhenFull` says what becomes of one more.
//!
//! An object wakes one of another connection by its `server::Waker` (`Context::wake`), and so does the program (`Host::wake`). That one is
//! polled at once, and can call its peer. After `wake_after(ms)` the program's `next` returns `Woken`, for example to write down the host's
//! `figures`.

pub use cp_dispatch::Limit;
pub use cp_session::SessionLimits;
pub use net_host::{End, Host, HostConfig, HostEvent, HostFigures, HostLimits, WhenFull};
pub use net_sockets::{Listener, Peer};
