//! Methods by the names that rules on them use.

use crate::finding::{interface_named, interface_of, lineage, method_named};
use cp_encoder::put_name;
use cp_schema::{Method, MethodNumber, Node, Schema};
use std::alloc::{AllocError, Global};
use std::fmt;

/// Why a word names no method.
#[derive(Clone, Copy, PartialEq, Eq, Debug)]
pub enum RuleFault {
    /// The schema has no method of this name.
    Unknown,
    /// Several interfaces of the schema have this name.
    Ambiguous,
    OutOfMemory,
}

/// A method, and what it is called.
#[derive(Drop)]
pub struct NamedMethod {
    pub number: MethodNumber,
    pub name: String,
}

/// The method that a rule names: `Interface.method`, where the interface may be named with the types that it lies in, and
/// the method may be one that it inherits.
pub fn ruled_method(alloc: Global, schema: &Schema, word: &str) -> Result<MethodNumber, RuleFault> {
    let Some((interface, method)) = word.rsplit_once('.') else {
        return Err(RuleFault::Unknown);
    };
    let id = ruled_interface(schema, interface)?;
    match method_named(alloc, schema, id, method)? {
        Some(number) => Ok(number),
        None => Err(RuleFault::Unknown),
    }
}

/// What a rule lets be called of what calls gave.
#[derive(Clone, Copy)]
pub enum RuledGiven {
    All,
    /// The methods of the interface of this number.
    Interface(u64),
    Method(MethodNumber),
}

/// What a rule names after its arrow: `*`, a method as `ruled_method` reads it, or `Interface.*`, which is that interface and each
/// that it extends.
pub fn ruled_given(
    alloc: Global,
    schema: &Schema,
    word: &str,
) -> Result<Vec<RuledGiven>, RuleFault> {
    let mut found = Vec::new(alloc);
    match put_given(alloc, schema, word, &mut found) {
        Ok(()) => Ok(found),
        Err(fault) => {
            drop(found);
            Err(fault)
        }
    }
}

/// All methods of a schema, by their interfaces' names and their own.
pub fn named_methods(alloc: Global, schema: &Schema) -> Result<Vec<NamedMethod>, AllocError> {
    let mut found = Vec::new(alloc);
    match put_all(alloc, schema, &mut found) {
        Ok(()) => Ok(found),
        Err(error) => {
            drop(found);
            Err(error)
        }
    }
}

/// Adds what a rule names after its arrow.
fn put_given(
    alloc: Global,
    schema: &Schema,
    word: &str,
    found: &mut Vec<RuledGiven>,
) -> Result<(), RuleFault> {
    if word == "*" {
        return Ok(put(found, RuledGiven::All)?);
    }
    let Some(interface) = word.strip_suffix(".*") else {
        let method = ruled_method(alloc, schema, word)?;
        return Ok(put(found, RuledGiven::Method(method))?);
    };
    let line = lineage(alloc, schema, ruled_interface(schema, interface)?)?;
    let added = put_interfaces(found, &line);
    drop(line);
    Ok(added?)
}

/// Adds interfaces.
fn put_interfaces(found: &mut Vec<RuledGiven>, interfaces: &[u64]) -> Result<(), AllocError> {
    for interface in interfaces {
        put(found, RuledGiven::Interface(*interface))?;
    }
    Ok(())
}

/// Adds one.
fn put(found: &mut Vec<RuledGiven>, given: RuledGiven) -> Result<(), AllocError> {
    found.push(given)?;
    Ok(())
}

/// The interface that a rule names. Its own name is enough where no other interface has it.
fn ruled_interface(schema: &Schema, name: &str) -> Result<u64, RuleFault> {
    if let Some(id) = interface_named(schema, name) {
        return Ok(id);
    }
    let mut found = None;
    for node in &schema.nodes {
        if interface_of(node).is_some() && own_name(node) == name {
            if found.is_some() {
                return Err(RuleFault::Ambiguous);
            }
            found = Some(node.id);
        }
    }
    found.ok_or(RuleFault::Unknown)
}

/// A node's name without the types that it lies in.
fn own_name(node: &Node) -> &str {
    match node.name().rsplit_once('.') {
        Some((_, name)) => name,
        None => node.name(),
    }
}

/// Adds the methods of all interfaces.
fn put_all(alloc: Global, schema: &Schema, found: &mut Vec<NamedMethod>) -> Result<(), AllocError> {
    for node in &schema.nodes {
        if let Some(of) = interface_of(node) {
            put_methods(alloc, node, &of.methods, found)?;
        }
    }
    Ok(())
}

/// Adds the methods of an interface.
fn put_methods(
    alloc: Global,
    node: &Node,
    methods: &[Method],
    found: &mut Vec<NamedMethod>,
) -> Result<(), AllocError> {
    let interface = node.id;
    let mut method = 0u16;
    for named in methods {
        let name = full_name(alloc, node, named)?;
        let number = MethodNumber { interface, method };
        found.push(NamedMethod { number, name })?;
        method = method.wrapping_add(1);
    }
    Ok(())
}

/// A method's name after that of its interface.
fn full_name(alloc: Global, node: &Node, method: &Method) -> Result<String, AllocError> {
    let mut name = String::new(alloc);
    match put_name(&mut name, node.name(), method.name.as_str()) {
        Ok(()) => Ok(name),
        Err(error) => {
            drop(name);
            Err(error)
        }
    }
}

impl fmt::Display for RuleFault {
    fn fmt<W: fmt::Write>(&self, f: &mut fmt::Formatter<W>) -> fmt::Result {
        f.write_str(match self {
            RuleFault::Unknown => "the schema has no such method",
            RuleFault::Ambiguous =>
                "several interfaces have this name; give the types that it lies in too",
            RuleFault::OutOfMemory => "memory ran out",
        })
    }
}

impl From<AllocError> for RuleFault {
    fn from(_: AllocError) -> RuleFault {
        RuleFault::OutOfMemory
    }
}
