//! What users are told of the names in a crate.

use crate::names::is_reserved;
use crate::only::has_method;
use crate::out::Out;
use cp_schema::{Node, NodeKind, Schema};
use std::io;

/// Says which fields and methods that are written of a file, by its path, have an underscore at the end of their names.
pub fn tell_names(rt: &HostRuntime, schema: &Schema, path: &str, only: &str) -> io::Result<()> {
    for node in &schema.nodes {
        if node.path() == path {
            tell_members(rt, node, only)?;
        }
    }
    Ok(())
}

/// Says which fields or methods of a node have an underscore.
fn tell_members(rt: &HostRuntime, node: &Node, only: &str) -> io::Result<()> {
    match &node.kind {
        NodeKind::Struct(of) => {
            for field in &of.fields {
                let name = field.name.as_str();
                if has_method(only, node.name(), name) {
                    tell_name(rt, node, name)?;
                }
            }
            Ok(())
        }
        NodeKind::Interface(of) if only.is_empty() => {
            for method in &of.methods {
                tell_name(rt, node, method.name.as_str())?;
            }
            Ok(())
        }
        _ => Ok(()),
    }
}

/// Says what a member is called, if its name is reserved.
fn tell_name(rt: &HostRuntime, node: &Node, name: &str) -> io::Result<()> {
    let word = Out::spelled(rt.alloc(), name, "snake");
    if is_reserved(word.as_str()) {
        let (scope, word) = (node.name(), word.as_str());
        eprintln!(rt;
            "{scope}.{name} is called {word}_, since {word} is a word of Rattle or of generated code"
        )?;
    }
    Ok(())
}
