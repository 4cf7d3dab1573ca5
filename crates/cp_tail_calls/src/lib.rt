//! Tail calls (rpc.capnp, `sendResultsTo.yourself`, `resultsSentElsewhere`, `takeFromOtherQuestion`), served between a peer and a vat
//! that knows none.
#![tactic(auto)]

mod behind;
mod forwarding;
mod laws;
mod lending;
mod progress;
mod receiving;
mod results;
mod seen;
mod sending;
mod tail_calls;

pub use behind::OrdinaryVat;
pub use forwarding::{ForwardedMessage, Trigger};
pub use laws::{
    answered_once, bridges_turns, plain_turns, right_results, runs_behind, serves_alone, takes_back,
};
pub use tail_calls::TailCalls;
