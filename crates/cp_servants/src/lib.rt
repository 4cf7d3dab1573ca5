//! Objects that answer calls, what stands in for one that can't, and objects whose answers are known; the contents of calls
//! and outcomes, made field by field and read.
#![tactic(auto)]

mod awaited;
mod cell;
mod desk;
mod outcomes;
mod payload_builder;
mod payload_fields;
mod placed;
mod request;
mod sample;
mod sample_outcomes;
mod script;
mod servant;

pub use awaited::Awaited;
pub use cell::Cell;
pub use desk::Desk;
pub use outcomes::{
    bad_outcome, dropped_call, named_imports, no_such_method, no_such_object, refused_call,
};
pub use payload_builder::{PayloadBuilder, outcome_of};
pub use payload_fields::{data_in, results_of, text_in, word_in};
pub use placed::{any_has_more, call_at, next_call_at, on_response_at, poll_at};
pub use request::RequestView;
pub use sample::Sample;
pub use script::Script;
pub use servant::{OutgoingCall, Reply, Servant, Settled};
