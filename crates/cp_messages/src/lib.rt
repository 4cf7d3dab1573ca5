//! The messages of rpc.capnp, typed and owned: what they are, which tree says one, and making that tree.
//! cp_rpc reads them.
#![tactic(auto)]

mod call;
mod data;
mod descriptor;
mod disembargo;
mod draft;
mod exception;
mod fault;
mod laws;
mod message;
mod payload;
mod promised_answer;
mod resolve;
mod returned;
mod small;
mod target;
mod text;
mod write;

pub use call::{Call, SendResultsTo};
pub use descriptor::Descriptor;
pub use disembargo::{Disembargo, DisembargoContext};
pub use exception::{Exception, ExceptionKind};
pub use fault::{Field, SchemaFault};
pub use laws::{read_back, writable};
pub use message::{Message, OtherWhich};
pub use payload::{CapTable, Payload};
pub use promised_answer::{Op, PromisedAnswer, Transform};
pub use resolve::{Resolution, Resolve};
pub use returned::{Return, Returned};
pub use small::{Bootstrap, Finish, Release};
pub use target::Target;
pub use text::Text;
pub use write::{draft_of, tree_of};
