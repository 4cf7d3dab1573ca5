//! Messages of streams: each frame of a stream is one message of rpc.capnp, and a message goes out
//! as one frame. A struct of any schema goes out and comes in as one frame too.
#![tactic(auto)]

mod device;
mod fault;
mod laws;
mod read;
mod reader;
mod retry;
mod status;
mod structs;
mod tap;
mod view;
mod write;

pub use device::DeviceError;
pub use fault::{Refusal, StreamFault};
pub use laws::{any_cut, layout_denotes, one_front, read_back, written_is_read};
pub use read::{read_message, read_segments};
pub use reader::MessageReader;
pub use structs::{read_struct, write_struct};
pub use tap::Tap;
pub use view::{check_in, view_in, view_of};
pub use write::{frame_of_view, put_message, write_message, write_message_in, write_whole};
