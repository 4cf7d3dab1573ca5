//! What interfaces extend, and by which structs capabilities can be named.

use cp_schema::{Base, FieldKind, Node, NodeKind, Schema, StructField};
use std::alloc::{AllocError, Global};

/// An interface, and all that it extends, those of them too that they extend.
#[derive(Drop)]
pub struct Line {
    pub id: u64,
    pub supers: Vec<u64>,
}

/// By which table a struct names capabilities.
#[derive(Clone, Copy)]
pub enum Naming {
    /// It can name none.
    Never,
    /// By its own.
    Own,
    /// By that of the params or the results which it is or lies in.
    Shared,
}

/// Adds the interfaces of a schema with all that they extend.
pub fn push_lines(alloc: Global, schema: &Schema, lines: &mut Vec<Line>) -> Result<(), AllocError> {
    for node in &schema.nodes {
        if let NodeKind::Interface(of) = &node.kind {
            let supers = all_supers(alloc, schema, of.supers.as_slice())?;
            let id = node.id;
            lines.push(Line { id, supers })?;
        }
    }
    Ok(())
}

/// These interfaces, and all that they extend, each once.
fn all_supers(alloc: Global, schema: &Schema, first: &[u64]) -> Result<Vec<u64>, AllocError> {
    let mut all = Vec::from_slice(alloc, first)?;
    match push_supers(schema, &mut all) {
        Ok(()) => Ok(all),
        Err(error) => {
            drop(all);
            Err(error)
        }
    }
}

/// Adds all that interfaces extend and that isn't there yet.
fn push_supers(schema: &Schema, all: &mut Vec<u64>) -> Result<(), AllocError> {
    // No more interfaces than nodes, which bounds the walk.
    for i in 0..schema.nodes.len() {
        let Some(id) = all.get(i).copied() else {
            break;
        };
        for each in supers_of(schema, id) {
            if !all.contains(each) {
                all.push(*each)?;
            }
        }
    }
    Ok(())
}

/// The interfaces that the interface of this number extends itself.
fn supers_of(schema: &Schema, id: u64) -> &[u64] {
    match schema.find(id) {
        Some(node) => match &node.kind {
            NodeKind::Interface(of) => of.supers.as_slice(),
            _ => &[],
        },
        None => &[],
    }
}

/// Adds the structs and groups of a schema that can name a capability: by a field of their own, or by a struct, a group or a list
/// in them.
pub fn push_naming(schema: &Schema, found: &mut Vec<u64>) -> Result<(), AllocError> {
    // Each round finds one more, or is the last.
    for _ in 0..schema.nodes.len() {
        let before = found.len();
        for node in &schema.nodes {
            if !found.contains(&node.id) && names_one(node, found.as_slice()) {
                found.push(node.id)?;
            }
        }
        if found.len() == before {
            break;
        }
    }
    Ok(())
}

/// Whether a node has a field that can name a capability, where these structs and groups can.
fn names_one(node: &Node, found: &[u64]) -> bool {
    let NodeKind::Struct(of) = &node.kind else {
        return false;
    };
    for field in &of.fields {
        if can_name(field, found) {
            return true;
        }
    }
    false
}

/// Whether a field can name a capability, where these structs and groups can.
fn can_name(field: &StructField, found: &[u64]) -> bool {
    match &field.kind {
        FieldKind::Group(id) => found.contains(id),
        FieldKind::Slot(slot) => match slot.of.of {
            Base::Interface(_) | Base::AnyPointer => true,
            Base::Struct(id) => found.contains(&id),
            _ => false,
        },
        FieldKind::Unknown => false,
    }
}
