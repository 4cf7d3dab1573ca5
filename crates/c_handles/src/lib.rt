//! What stands behind the structs that a program in C keeps: each is a handle on one object of this crate, which it
//! owns. `jamdrosek_c` has the calls of C.
#![tactic(auto)]

mod buffer;
mod bytes;
mod caps;
mod check;
mod code;
mod connection;
mod connection_handle;
mod content;
mod event;
mod fault;
mod holds;
mod limits;
mod loose;
mod message;
mod method;
mod reader;
mod reader_handle;
mod relay;
mod relay_handle;
mod text;

pub use buffer::fill;
pub use bytes::Bytes;
pub use caps::CapNumbers;
pub use check::{Verdict, check_all};
pub use code::{CallFault, NOWHERE, Spot};
pub use connection::ConnectionState;
pub use connection_handle::ConnectionHandle;
pub use event::{EventNumbers, OriginNumbers};
pub use fault::{fault_of, told};
pub use holds::ImportHolds;
pub use limits::LimitNumbers;
pub use message::MessageNumbers;
pub use method::{MethodNumbers, MethodRules};
pub use reader::ReaderState;
pub use reader_handle::ReaderHandle;
pub use relay::RelayState;
pub use relay_handle::RelayHandle;
