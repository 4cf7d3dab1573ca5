//! A server on one connection: messages of a reader go to a vat, calls go to objects, and what the
//! vat sends goes to a writer.
#![tactic(auto)]

mod fault;
mod report;
mod serving;

pub use fault::ServeFault;
pub use report::Report;
pub use serving::{serve, serve_each};
