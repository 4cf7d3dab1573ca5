//! The messages of rpc.capnp, read from the tree that the root of a Cap'n Proto message is. What they are,
//! and making that tree of them, is cp_messages, whose names are passed on.
#![tactic(auto)]

mod call;
mod descriptor;
mod disembargo;
mod exception;
mod field;
mod message;
mod owned;
mod payload;
mod promised_answer;
mod read;
mod resolve;
mod returned;
mod small;
mod source;
mod target;
mod text;

pub use call::{CallView, SendResultsToView};
pub use cp_messages::{
    Bootstrap, Call, CapTable, Descriptor, Disembargo, DisembargoContext, Exception, ExceptionKind,
    Field, Finish, Message, Op, OtherWhich, Payload, PromisedAnswer, Release, Resolution, Resolve,
    Return, Returned, SchemaFault, SendResultsTo, Target, Text, Transform, draft_of, read_back,
    tree_of, writable,
};
pub use descriptor::DescriptorView;
pub use disembargo::DisembargoView;
pub use exception::ExceptionView;
pub use message::{MessageIn, MessageView};
pub use owned::Owned;
pub use payload::{CapTableView, PayloadView};
pub use promised_answer::{PromisedAnswerView, TransformView};
pub use read::{check_message, message_in, message_of, message_view};
pub use resolve::{ResolutionView, ResolveView};
pub use returned::{ReturnView, ReturnedView};
pub use source::{Source, SourceKind};
pub use target::TargetView;
pub use text::MessageText;
