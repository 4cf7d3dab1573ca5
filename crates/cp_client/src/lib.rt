//! A client: asks questions over a connection's reader and writer, and waits for their outcomes; the objects that it exports
//! answer its peer's calls meanwhile.
#![tactic(auto)]

mod call_window;
mod caller;
mod client;
mod contents;
mod fault;
mod nobody;
mod piece;
mod question;
mod questions;
mod results;

pub use call_window::CallWindow;
pub use client::{Client, SessionClient};
pub use contents::{request_of, word_at};
pub use fault::{CallError, ClientFault};
pub use nobody::Nobody;
pub use question::Question;
