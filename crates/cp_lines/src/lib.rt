//! Messages as lines of text, which `show` prints, and calls as `call` takes and prints them: written, and read.
#![tactic(auto)]

mod calls;
mod digits;
mod line;
mod messages;
mod notation;
mod outcome;
mod reader;
mod trees;
mod wrong;

pub use calls::{WrittenCall, call_of, cap_of, outcome_of, payload_of};
pub use line::{push_exception, push_line};
pub use messages::message_of;
pub use outcome::{push_outcome, push_outcome_of, push_payload};
pub use wrong::Wrong;
