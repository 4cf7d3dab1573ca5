//! What is done for the objects of a connection: its peer's calls go to them, and what they answer goes back.
#![tactic(auto)]

mod answers;
mod calls;
mod canceling;
mod dispatcher;
mod event;
mod finishing;
mod holders;
mod idle;
mod imports;
mod incoming;
mod keyed;
mod laws;
mod promise_requests;
mod question_owner;

pub use dispatcher::Dispatcher;
pub use event::{Limit, SessionEvent};
pub use laws::waits_in_order;
