//! The counts of tail calls: what the vat behind them counts of exports and imports, and what its peer counts.
#![tactic(auto)]

pub mod counts;
