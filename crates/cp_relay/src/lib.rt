//! What is let through of a connection. A `Relay` of one direction: bytes go in, in any pieces, and the frames of the messages
//! that were accepted come out. A `Guard` of both, which judges the calls of one end by `Rules`, with a `Filter` for each.
#![tactic(auto)]

mod answer;
mod caps;
mod fault;
mod filter;
mod following;
mod guard;
mod laws;
mod numbers;
mod output;
mod passage;
mod references;
mod relay;
mod rules;
mod ruling;
mod state;
mod visitor;

pub use fault::{RelayCause, RelayFault};
pub use filter::{Filter, FilterFault};
pub use guard::{Guard, JudgedCall};
pub use laws::{answered_once, any_cut, only_allowed, only_given, only_judged};
pub use output::Output;
pub use relay::Relay;
pub use rules::{CallLimits, Callable, Grant, MethodId, MethodName, Rules};
pub use ruling::{Breach, Cause, Ruling};
pub use visitor::{AllowAll, Visitor};
