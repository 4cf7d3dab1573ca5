//! Exchanges of a vat, and of two vats, as laws: what is no run of the machine, and what is in order.
#![tactic(auto)]

pub mod ledger_rows;
pub mod memory;
pub mod never;
pub mod order;
pub mod pair_rows;
