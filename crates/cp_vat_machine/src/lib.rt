//! One end of a Cap'n Proto RPC connection between two parties (rpc.capnp, levels 0 and 1), without
//! the connection: what comes in are messages and calls of the application, what goes out are effects.
#![tactic(auto)]

mod acted;
mod effect;
mod entry;
mod event;
mod fault;
pub mod settling;

pub use acted::{Acted, Idle, Ids, Ran};
pub use effect::{Effect, Effects, Reason};
pub use entry::{AnswerEntry, ImportKind, Mentions, QuestionEntry, Tied, TiedPromises};
pub use event::{Event, Value};
pub use fault::{PeerFault, VatFault};
