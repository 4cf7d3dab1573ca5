//! The 64-bit words of a Cap'n Proto message: what each pointer word says, where words stand, the
//! segments that hold them, and the limits that reading and writing keep to.
#![tactic(auto)]

mod kind;
mod limits;
mod place;
mod pointer;
mod segments;

pub use kind::BodyKind;
pub use limits::Limits;
pub use place::Place;
pub use pointer::{
    BadCapability, ElementSize, Pointer, Tag, decode, decode_tag, encode, list_words, offset_of,
    size_of,
};
pub use segments::Segments;
