//! The words of `capnp_cli`, their help, and what they ask for.
#![tactic(auto)]

mod arguments;
mod connections;
mod files;
mod replaying;
mod serving;
mod sessions;
mod words;

pub use words::{Acts, run};
