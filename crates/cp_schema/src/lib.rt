//! Schemas: the types of a request of `capnp compile`, owned, and messages as text by them, as `capnp decode --short` prints them.
#![tactic(auto)]

mod annotation;
mod brand;
mod call;
mod decoder;
mod fault;
mod field;
mod kind;
mod line;
mod load;
mod node;
mod notation;
mod number;
mod value;

pub use annotation::{DataForm, JsonOptions, UnionNames};
pub use brand::{Brand, Entered, Generics};
pub use call::{MethodNumber, call_line, json_string, results_json, return_line};
pub use decoder::{DecodeFault, Decoder, push_message};
pub use fault::RequestFault;
pub use field::{FieldKind, Slot, StructField};
pub use kind::{Base, Parameter, Type};
pub use node::{
    Comments, ConstNode, Enumerant, File, Interface, Method, Node, NodeKind, Schema, Structure,
};
pub use notation::Notation;
pub use value::SchemaValue;
