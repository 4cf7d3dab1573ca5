//! The packed form of words (encoding specification, "Packing"): groups written and taken, at once and
//! byte by byte; and words of 64 bits as bytes.
//!
//! The one error is an allocation failure. What the vector or the group holds then isn't promised, so the caller lets it go.
#![tactic(auto)]

mod ahead;
mod bulk;
mod decoding;
mod gather;
mod group;
mod packing;
mod runs;
mod scatter;
mod spelling;
mod words;

pub use bulk::take_groups;
pub use decoding::decode;
pub use group::{OpenGroup, Run};
pub use packing::{push_groups, push_packed, push_plain};
pub use spelling::LONGEST;
pub use words::{reserve_words, take_in, word_of};
