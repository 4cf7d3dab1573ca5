//! A connection without devices: bytes of the peer come in, bytes for the peer go out, and between them is a
//! vat, whose calls and outcomes are handed out.
#![tactic(auto)]

mod agenda;
mod behind;
mod connection;
mod event;
mod excess;
mod fault;
mod laws;
mod outgoing;
mod parts;

pub use connection::Connection;
pub use event::{ConnectionEvent, ConnectionStats, Held};
pub use excess::Excess;
pub use fault::ConnectionFault;
pub use laws::{any_cut, lives, lives_behind, lives_behind_until_abort, lives_until_abort};
