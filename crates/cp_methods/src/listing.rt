//! The methods of a request, as lines.

use crate::finding::{interface_of, method_at};
use cp_encoder::{name_of, put_name, put_type};
use cp_schema::{
    FieldKind, Interface, Method, MethodNumber, Node, NodeKind, Schema, StructField, Structure,
};
use std::alloc::{AllocError, Global};

/// The number of the struct of results that streaming methods have.
const STREAM: u64 = 0x995f_9a33_77c0_b16e;

/// A line for each interface of a schema, and below it one for each of its methods, with the types of their params and results.
pub fn list_methods(alloc: Global, schema: &Schema) -> Result<String, AllocError> {
    let mut lines = String::new(alloc);
    match put_interfaces(&mut lines, schema) {
        Ok(()) => Ok(lines),
        Err(error) => {
            drop(lines);
            Err(error)
        }
    }
}

/// Adds the lines of all interfaces.
fn put_interfaces(lines: &mut String, schema: &Schema) -> Result<(), AllocError> {
    for node in &schema.nodes {
        if let Some(of) = interface_of(node) {
            put_interface(lines, schema, node, of)?;
        }
    }
    Ok(())
}

/// Adds an interface's line, and those of its methods.
fn put_interface(
    lines: &mut String,
    schema: &Schema,
    node: &Node,
    of: &Interface,
) -> Result<(), AllocError> {
    put_head(lines, schema, node, of)?;
    for method in &of.methods {
        lines.push_str("\n  ")?;
        put_name(lines, node.name(), method.name.as_str())?;
        put_types(lines, schema, method)?;
    }
    lines.push('\n')
}

/// Adds an interface with those that it extends.
pub(crate) fn put_head(
    line: &mut String,
    schema: &Schema,
    node: &Node,
    of: &Interface,
) -> Result<(), AllocError> {
    line.push_str("interface ")?;
    line.push_str(node.name())?;
    for (place, base) in of.supers.iter().enumerate() {
        line.push_str(if place == 0 { " extends(" } else { ", " })?;
        line.push_str(name_of(schema, *base))?;
    }
    if !of.supers.is_empty() {
        line.push(')')?;
    }
    Ok(())
}

/// Adds the types of a method's params and results.
pub(crate) fn put_types(
    line: &mut String,
    schema: &Schema,
    method: &Method,
) -> Result<(), AllocError> {
    line.push(' ')?;
    put_struct(line, schema, method.params)?;
    line.push_str(" -> ")?;
    if method.results == STREAM {
        return line.push_str("stream");
    }
    put_struct(line, schema, method.results)
}

/// Adds the struct of params or results: its name, or its fields where it has none of its own.
fn put_struct(line: &mut String, schema: &Schema, id: u64) -> Result<(), AllocError> {
    match struct_of(schema, id) {
        Some((node, of)) if node.name().contains('$') => put_fields(line, schema, of),
        _ => line.push_str(name_of(schema, id)),
    }
}

/// The struct of this number.
fn struct_of(schema: &Schema, id: u64) -> Option<(&Node, &Structure)> {
    let node = schema.find(id)?;
    match &node.kind {
        NodeKind::Struct(of) => Some((node, of)),
        _ => None,
    }
}

/// Adds fields with their types.
fn put_fields(line: &mut String, schema: &Schema, of: &Structure) -> Result<(), AllocError> {
    line.push('(')?;
    for (place, field) in of.fields.iter().enumerate() {
        if place > 0 {
            line.push_str(", ")?;
        }
        put_field(line, schema, field)?;
    }
    line.push(')')
}

/// Adds a field with its type. (Params and results have no groups.)
fn put_field(line: &mut String, schema: &Schema, field: &StructField) -> Result<(), AllocError> {
    line.push_str(field.name.as_str())?;
    line.push_str(" :")?;
    match &field.kind {
        FieldKind::Slot(slot) => put_type(line, schema, slot.of),
        _ => line.push_str("group"),
    }
}
