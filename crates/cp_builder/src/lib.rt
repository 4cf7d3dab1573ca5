//! Structs to be written, by the places of their fields. This is what generated code stands on, as
//! `cp_fields` is for reading.
#![tactic(auto)]

mod copies;
mod fault;
mod laws;
mod lists;
mod number_lists;
mod numbers;
mod parts;
mod structure;
mod value;
mod views;

pub use copies::{data_copy, list_copy, mark_named, placed, pointer_copy, struct_copy, text_copy};
pub use fault::BuildError;
pub use laws::{
    bits_come_back, data_comes_back, fields_are_kept, lists_come_back, numbers_come_back,
    numbers_stay, numbers_with_defaults_come_back, pointers_come_back, pointers_stay,
    sections_stay, texts_come_back,
};
pub use lists::StructListBuilder;
pub use number_lists::{
    Enumerant, enumerants_of, float32_of, float64_of, signed8_of, signed16_of, signed32_of,
    signed64_of,
};
pub use parts::{
    bits_of, bytes_of, cap_of, four_bytes_of, pointers_of, text_of, two_bytes_of, voids_of,
    words_of,
};
pub use structure::StructBuilder;
pub use value::FieldValue;
