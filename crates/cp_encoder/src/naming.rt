//! Types by their names, as a schema has them.

use cp_schema::{Base, Schema, Type};
use std::alloc::AllocError;

/// Adds the name of a type.
pub fn put_type(line: &mut String, schema: &Schema, of: Type) -> Result<(), AllocError> {
    for _ in 0..of.lists {
        line.push_str("List(")?;
    }
    put_base(line, schema, of.of)?;
    for _ in 0..of.lists {
        line.push(')')?;
    }
    Ok(())
}

/// The name of the type of this number.
pub fn name_of(schema: &Schema, id: u64) -> &str {
    match schema.find(id) {
        Some(node) => node.name(),
        None => "a type that the schema lacks",
    }
}

/// Adds the name of a type that isn't one of lists.
fn put_base(line: &mut String, schema: &Schema, of: Base) -> Result<(), AllocError> {
    match of {
        Base::Void => line.push_str("Void"),
        Base::Bool => line.push_str("Bool"),
        Base::Signed(width) => write!(line, "Int{width}"),
        Base::Unsigned(width) => write!(line, "UInt{width}"),
        Base::Float(width) => write!(line, "Float{width}"),
        Base::Text => line.push_str("Text"),
        Base::Data => line.push_str("Data"),
        Base::Enum(id) | Base::Struct(id) | Base::Interface(id) => {
            line.push_str(name_of(schema, id))
        }
        Base::AnyPointer => line.push_str("AnyPointer"),
    }
}
