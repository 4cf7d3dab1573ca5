//! Relays the connections of a port, both directions at once, and lets through what a relay accepts.
#![tactic(auto)]

mod direction;
mod figures;
mod gate;
mod pair;
mod plan;
mod proxy;
mod read_buffer;
mod tape;
mod target;
mod watch;

pub use gate::GuardPlan;
pub use plan::{RelayPlan, relay_port};
