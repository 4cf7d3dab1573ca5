//! Frames of Cap'n Proto messages (encoding specification, "Serialization Over a Stream" and
//! "Packing"): a stream is read in any pieces, and each message's segments are given with the piece
//! that brings their last byte.
#![tactic(auto)]

mod fault;
mod frame;
mod laws;
mod mode;
mod packing;
mod reader;
mod rest;
mod send;
mod single;
mod spare;
mod status;
mod stream;
mod table;
mod unpacking;
mod write;

pub use fault::FrameFault;
pub use laws::{any_cut, one_fault, one_reading, read_back};
pub use mode::Mode;
pub use packing::pack;
pub use reader::FrameReader;
pub use send::send_frame;
pub use unpacking::unpack;
pub use write::{write_after, write_frame, write_over};
