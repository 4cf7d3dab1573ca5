//! The values of constants, and the defaults of fields.

use crate::fault::RequestFault;
use crate::load::text_of;
use cp_schema_capnp::{ValueReader, ValueWhich};
use cp_tree::Tree;
use std::alloc::Global;

/// The value of a constant, or a field's default.
pub enum SchemaValue {
    /// A number, a bool or a value of an enum, by its bits.
    Bits(u64),
    Text(String),
    Data(Vec<u8>),
    /// A struct, a list that has elements, or what a pointer of any kind stands for.
    Tree(Tree),
    /// A value of another type, null, or an empty list, which null stands for.
    Other,
}

// Not derived: who lets one go calls this function, and need not prove the drop of a tree.
impl Drop for SchemaValue {
    fn drop(self) {
        match self {
            SchemaValue::Bits(_) => {}
            SchemaValue::Text(_) => {}
            SchemaValue::Data(_) => {}
            SchemaValue::Tree(_) => {}
            SchemaValue::Other => {}
        }
    }
}

impl SchemaValue {
    /// Whether it is a pointer that reads otherwise than null.
    pub(crate) fn points(&self) -> bool {
        match self {
            SchemaValue::Text(text) => !text.is_empty(),
            SchemaValue::Data(bytes) => !bytes.is_empty(),
            SchemaValue::Tree(_) => true,
            SchemaValue::Bits(_) | SchemaValue::Other => false,
        }
    }
}

/// The value of a constant, or a field's default.
pub(crate) fn value_of(alloc: Global, view: &ValueReader<'_>) -> Result<SchemaValue, RequestFault> {
    match view.which() {
        ValueWhich::Text => Ok(SchemaValue::Text(text_of(alloc, view.text())?)),
        ValueWhich::Data => Ok(SchemaValue::Data(view.data_()?.to_vec(alloc)?)),
        // All of these are the same pointer.
        ValueWhich::List => Ok(list_in(view.list().tree(alloc)?)),
        ValueWhich::Struct | ValueWhich::AnyPointer => Ok(tree_in(view.list().tree(alloc)?)),
        ValueWhich::Void | ValueWhich::Interface | ValueWhich::Unknown(_) => Ok(SchemaValue::Other),
        _ => Ok(SchemaValue::Bits(bits_of(view))),
    }
}

/// A list that has elements: null reads as the empty list already.
fn list_in(list: Tree) -> SchemaValue {
    if is_empty(&list) {
        drop(list);
        return SchemaValue::Other;
    }
    SchemaValue::Tree(list)
}

/// A tree that isn't null.
fn tree_in(tree: Tree) -> SchemaValue {
    if let Tree::Null = &tree {
        drop(tree);
        return SchemaValue::Other;
    }
    SchemaValue::Tree(tree)
}

/// The bits of a number.
pub(crate) fn bits_of(value: &ValueReader<'_>) -> u64 {
    match value.which() {
        ValueWhich::Bool => value.bool_() as u64,
        // By their bits: the sign is the type's.
        ValueWhich::Int8 | ValueWhich::Uint8 => value.uint8() as u64,
        ValueWhich::Int16 | ValueWhich::Uint16 | ValueWhich::Enum => value.uint16() as u64,
        ValueWhich::Int32 | ValueWhich::Uint32 | ValueWhich::Float32 => value.uint32() as u64,
        ValueWhich::Int64 | ValueWhich::Uint64 | ValueWhich::Float64 => value.uint64(),
        _ => 0,
    }
}

/// Whether a tree is null, or a list without elements.
fn is_empty(tree: &Tree) -> bool {
    match tree {
        Tree::Null => true,
        Tree::Voids(count) => *count == 0,
        Tree::Bits(items) => items.is_empty(),
        Tree::Bytes(items) => items.is_empty(),
        Tree::Halves(items) => items.is_empty(),
        Tree::Quads(items) => items.is_empty(),
        Tree::Words(items) => items.is_empty(),
        Tree::Ptrs(items) => items.is_empty(),
        Tree::Structs { items, .. } => items.is_empty(),
        Tree::Cap(_) | Tree::Struct(_) => false,
    }
}
