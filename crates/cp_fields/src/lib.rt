//! The fields of a struct by their places, read where they lie: in a message, or in an owned tree. This
//! is what generated code stands on.
#![tactic(auto)]

mod bytes;
mod constant;
mod data;
mod element;
mod kind;
mod list;
mod numbers;
mod pointer_reader;
mod row;
mod structure;
mod text;
mod utf8;

pub use bytes::DataReader;
pub use constant::{Constant, ConstantBody};
pub use cp_tree::UnknownEnumerant;
pub use data::{bit_at, u16_at, u32_at, u64_at};
pub use element::Element;
pub use kind::{Kind, WrongKind};
pub use list::{List, ListIter};
pub use pointer_reader::PointerReader;
pub use structure::StructReader;
pub use text::{TextFault, TextReader};
