//! Trees, written into the segments of a Cap'n Proto message.
#![tactic(auto)]

mod arena;
mod block;
mod laws;
mod lay;
mod lay_list;
mod pack;
mod strip;
mod write;

pub use laws::{layout_exists, one_layout};
pub use write::{write_draft, write_draft_bytes, write_draft_over, write_root, write_segments};
