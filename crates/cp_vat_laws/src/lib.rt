//! One vat over whole runs: what holds of it between events, that its turns are in order, and that what it sends can be written.
#![tactic(auto)]

pub mod call_order;
pub mod invariant;
pub mod message_sizes;
