//! The types of a request with the names that they get.

use crate::names::{is_ambiguous, is_taken};
use crate::only::{has_method, has_type};
use crate::out::{Out, before, file_name};
use crate::pages::CONSTANTS;
use crate::reach::{Line, Naming, push_lines, push_naming};
use cp_schema::{Node, NodeKind, Schema};
use std::alloc::{AllocError, Global};

/// The deepest that types may lie within one another.
const DEEPEST: u32 = 64;

/// A type or a constant, by the names that it gets.
pub struct Named {
    pub id: u64,
    /// Its name as a type.
    pub name: Out,
    /// Its name in definitions.
    pub word: Out,
    /// The module that it is in: that of the struct which a group is in, or of the interface whose params or results it is.
    pub module: Out,
    /// The name of its file's crate.
    pub krate: Out,
    /// Whether it is written: a struct, an enum, a constant or an interface.
    pub is_written: bool,
}

// Not derived: who lets one go calls this function, and need not prove the drop of its names.
impl Drop for Named {
    fn drop(self) {
        let Named {
            id: _,
            name: _,
            word: _,
            module: _,
            krate: _,
            is_written: _,
        } = self;
    }
}

/// All types and constants of a request.
pub struct Book<'s> {
    pub alloc: Global,
    pub schema: &'s Schema,
    pub names: Vec<Named>,
    /// The methods of readers that are written, and nothing else; empty where all is.
    pub only: &'s str,
    /// The interfaces with all that they extend.
    pub lines: Vec<Line>,
    /// The structs and groups that can name a capability.
    pub naming: Vec<u64>,
}

// Not derived: who lets one go calls this function, and need not prove the drop of all that it holds.
impl Drop for Book<'_> {
    fn drop(self) {
        let Book {
            alloc: _,
            schema: _,
            names: _,
            only: _,
            lines: _,
            naming: _,
        } = self;
    }
}

impl<'s> Book<'s> {
    /// The types and constants of a request. Those of the file of this path are in this crate, if one is named.
    pub fn of(
        alloc: Global,
        schema: &'s Schema,
        (path, krate): (&str, &str),
        only: &'s str,
    ) -> Result<Book<'s>, AllocError> {
        let mut book = Book {
            alloc,
            schema,
            names: Vec::new(alloc),
            only,
            lines: Vec::new(alloc),
            naming: Vec::new(alloc),
        };
        match book.name_all(path, krate) {
            Ok(()) => Ok(book),
            Err(error) => {
                drop(book);
                Err(error)
            }
        }
    }

    /// Names all types and constants, and adds what interfaces extend and which structs name capabilities.
    fn name_all(&mut self, path: &str, krate: &str) -> Result<(), AllocError> {
        let schema = self.schema;
        for node in &schema.nodes {
            // `--name` names the crate of this file alone.
            let krate = if node.path() == path { krate } else { "" };
            self.names
                .push(names_of(self.alloc, schema, node, krate, self.only))?;
        }
        push_lines(self.alloc, schema, &mut self.lines)?;
        push_naming(schema, &mut self.naming)
    }

    /// The names of the node of this number.
    pub fn find(&self, id: u64) -> Option<&Named> {
        for named in &self.names {
            if named.id == id {
                return Some(named);
            }
        }
        None
    }

    /// Whether the reader of a struct or of a group has the method of this name.
    pub fn has_method(&self, node: &Node, name: &str) -> bool {
        has_method(self.only, node.name(), name)
    }

    /// Whether all is written, and not readers alone.
    pub fn is_whole(&self) -> bool {
        self.only.is_empty()
    }

    /// By which table the struct of this number names capabilities.
    pub fn naming_of(&self, id: u64) -> Naming {
        if !self.naming.contains(&id) {
            return Naming::Never;
        }
        match self.schema.find(id) {
            // No other struct has these as a part.
            Some(node) if !has_name(node) => Naming::Own,
            _ => Naming::Shared,
        }
    }

    /// All interfaces that the one of this number extends.
    pub fn supers(&self, id: u64) -> &[u64] {
        for line in &self.lines {
            if line.id == id {
                return line.supers.as_slice();
            }
        }
        &[]
    }

    /// The comment of a node, and that of a member of it.
    pub fn about(&self, id: u64) -> &str {
        for comments in &self.schema.comments {
            if comments.id == id {
                return comments.about.as_str();
            }
        }
        ""
    }

    /// The comment of a member of a node.
    pub fn about_member(&self, id: u64, i: usize) -> &str {
        for comments in &self.schema.comments {
            if comments.id == id {
                return match comments.members.get(i) {
                    Some(about) => about.as_str(),
                    None => "",
                };
            }
        }
        ""
    }
}

/// Whether a node is written.
fn is_written(node: &Node, only: &str) -> bool {
    match node.kind {
        NodeKind::Struct(_) | NodeKind::Enum(_) | NodeKind::Const(_) => {
            has_type(only, node.name())
        }
        NodeKind::Interface(_) => only.is_empty(),
        _ => false,
    }
}

/// A node's names.
fn names_of<'s>(
    alloc: Global,
    schema: &'s Schema,
    node: &'s Node,
    krate: &str,
    only: &str,
) -> Named {
    let name = type_name(alloc, node);
    let word = Out::spelled(alloc, name.as_str(), "snake");
    Named {
        id: node.id,
        name,
        word,
        module: module_of(alloc, schema, node),
        krate: crate_name(alloc, node.path(), krate),
        is_written: is_written(node, only),
    }
}

/// A type's name in upper camel case, which is none of those that generated code has from elsewhere. Those of structs
/// and groups get an ending.
fn type_name(alloc: Global, node: &Node) -> Out {
    let mut name = Out::spelled(alloc, node.name(), "camel");
    let is_enum = matches!(node.kind, NodeKind::Enum(_));
    if is_ambiguous(name.as_str()) || is_enum && is_taken(name.as_str()) {
        name.push('_');
    }
    name
}

/// The module that a node is in: that of the struct which a group is in, or of the interface whose params or results it is.
fn module_of<'s>(alloc: Global, schema: &'s Schema, node: &'s Node) -> Out {
    if matches!(node.kind, NodeKind::Const(_)) {
        return Out::spelled(alloc, CONSTANTS, "");
    }
    let owner = owner_of(schema, node);
    let name = Out::spelled(alloc, interface_of(owner).unwrap_or(owner.name()), "camel");
    let module = Out::spelled(alloc, name.as_str(), "method");
    drop(name);
    module
}

/// The struct that a group is in; another node is its own.
fn owner_of<'s>(schema: &'s Schema, node: &'s Node) -> &'s Node {
    let mut owner = node;
    // Bounded, since the scopes of a wrong request could be a circle.
    for _ in 0..DEEPEST {
        match &owner.kind {
            NodeKind::Struct(structure) if structure.is_group => {}
            _ => return owner,
        }
        match schema.find(owner.scope) {
            Some(outer) => owner = outer,
            None => return owner,
        }
    }
    owner
}

/// The name of a file's crate: this one, or else the file's own, without its folders and what follows its first dot.
pub fn crate_name(alloc: Global, path: &str, krate: &str) -> Out {
    let mut name = Out::new(alloc);
    if !krate.is_empty() {
        name.put(krate);
        return name;
    }
    for c in before(file_name(path), '.').chars() {
        name.push(if c.is_ascii_alphanumeric() {
            c.to_ascii_lowercase()
        } else {
            '_'
        });
    }
    name
}

/// The name of the interface whose params or results a struct is, if it is that.
fn interface_of(node: &Node) -> Option<&str> {
    if has_name(node) {
        return None;
    }
    Some(node.name().rsplit_once('.')?.0)
}

/// Whether a struct has a name in its schema, so that a list of it can be a field's type: not the params or results of a
/// method.
pub fn has_name(node: &Node) -> bool {
    !node.name().contains("$")
}

/// Whether a struct is the params of a method, which has no name in its schema.
pub fn is_params(node: &Node) -> bool {
    // The schema compiler calls params so that have no name.
    node.name().ends_with("$Params")
}
