//! Interfaces and their methods by name.

ghost use Rattle.std.specs.Prelude.{◌≡◌, IfSome, HoldsAt, string_bytes};

use cp_schema::{Interface, Method, MethodNumber, Node, NodeKind, Schema};
use std::alloc::{AllocError, Global};

/// The interface that a node is, if it is one.
pub(crate) fn interface_of(node: &Node) -> Option<&Interface> {
    match &node.kind {
        NodeKind::Interface(of) => Some(of),
        _ => None,
    }
}

/// The number of the interface of this name.
pub(crate) fn interface_named(schema: &Schema, name: &str) -> Option<u64> {
    for node in &schema.nodes {
        if interface_of(node).is_some() && node.name() == name {
            return Some(node.id);
        }
    }
    None
}

/// The method of this name that an interface has, or one that it extends.
pub(crate) fn method_named(
    alloc: Global,
    schema: &Schema,
    interface: u64,
    name: &str,
) -> Result<Option<MethodNumber>, AllocError> {
    let line = lineage(alloc, schema, interface)?;
    let found = first_named(schema, &line, name);
    drop(line);
    Ok(found)
}

/// An interface and after it those that it extends, each once.
pub(crate) fn lineage(
    alloc: Global,
    schema: &Schema,
    interface: u64,
) -> Result<Vec<u64>, AllocError> {
    let mut found = Vec::new(alloc);
    match put_lineage(schema, interface, &mut found) {
        Ok(()) => Ok(found),
        Err(error) => {
            drop(found);
            Err(error)
        }
    }
}

/// The method of this number.
pub(crate) fn method_at(schema: &Schema, number: MethodNumber) -> Option<&Method> {
    interface_of(schema.find(number.interface)?)?
        .methods
        .get(number.method as usize)
}

/// The first method of this name that one of these interfaces has.
fn first_named(schema: &Schema, interfaces: &[u64], name: &str) -> Option<MethodNumber> {
    for interface in interfaces {
        if let Some(method) = own_method(schema, *interface, name) {
            let interface = *interface;
            return Some(MethodNumber { interface, method });
        }
    }
    None
}

/// Adds an interface and after it those that it extends, each once.
fn put_lineage(schema: &Schema, interface: u64, found: &mut Vec<u64>) -> Result<(), AllocError> {
    found.push(interface)?;
    // Each stands there once, so that there are no more than nodes.
    for place in 0..schema.nodes.len() {
        let Some(next) = found.get(place).copied() else {
            break;
        };
        for base in supers_of(schema, next) {
            if !found.contains(base) {
                found.push(*base)?;
            }
        }
    }
    Ok(())
}

/// The interfaces that an interface extends.
fn supers_of(schema: &Schema, interface: u64) -> &[u64] {
    let Some(node) = schema.find(interface) else {
        return &[];
    };
    match interface_of(node) {
        Some(of) => &of.supers,
        None => &[],
    }
}

/// The number of an interface's own method of this name.
pub(crate) fn own_method(schema: &Schema, interface: u64, name: &str) -> Option<u16> {
    place_of(interface_of(schema.find(interface)?)?, name)
}

/// The place of a method of this name.
fn place_of(of: &Interface, name: &str) -> Option<u16>
    ensures { IfSome result (λ place. HoldsAt (λ method. string_bytes method.name ≡ name.now) of.now.methods.items place) }
{
    for (place, method) in of.methods.iter().enumerate() {
        if method.name.as_str() == name {
            return u16::try_from(place).ok();
        }
    }
    None
}
