//! Capabilities as an application names them, what promises, imports, answers and questions came
//! to, where a call goes, and the calls that wait (rpc.capnp, level 1).
#![tactic(auto)]

pub mod bytes;
mod call;
mod cap;
mod entries;
mod kept_outcome;
mod memory;
mod outcome;
mod pointers;
mod route;
mod tickets;
mod values;
mod waiting;
mod walk;

pub use call::{Origin, Request, WaitingCall};
pub use cap::{Cap, Caps, Path, PromiseId};
pub use kept_outcome::KeptOutcome;
pub use memory::{content_memory, exception_memory};
pub use outcome::{Outcome, failed};
pub use route::{Gate, Route};
pub use values::{QuestionKind, QuestionState, Values};
pub use waiting::Waiting;
