//! Structs of a schema's types from text, in the notation that `capnp encode` reads and `capnp decode` prints.
#![tactic(auto)]

mod caps;
mod encoder;
mod escape;
mod fault;
mod fields;
mod given;
mod json;
mod laws;
mod lists;
mod making;
mod members;
mod naming;
mod nearest;
mod nested;
mod number;
mod numbers;
mod reader;
mod room;
mod splitter;
mod texts;
mod token;
mod value;

pub use encoder::{Encoded, Encoder};
pub use fault::{EncodeFault, NotationFault};
pub use laws::{given_numbers_come_back, given_pointers_come_back};
pub use making::object_of;
pub use naming::{name_of, put_type};
pub use nearest::{Nearest, nearest_types, put_name};
pub use splitter::{Piece, Splitter};
pub use value::{Fields, Number, TextPointer, TextValue, Width};
