//! A type as schema text.

use crate::defaults::bits_of;
use crate::listing::{put_head, put_types};
use cp_encoder::{Nearest, put_type};
use cp_schema::{
    Comments, Enumerant, FieldKind, Interface, Node, NodeKind, Schema, Slot, StructField, Structure,
};
use std::alloc::{AllocError, Global};

/// The deepest that groups may lie within one another.
const DEEPEST: u32 = 64;

/// The node of a struct, an enum, an interface or a constant of this name.
pub fn type_named<'s>(schema: &'s Schema, name: &str) -> Option<&'s Node> {
    for node in &schema.nodes {
        if is_type(node) && node.name() == name {
            return Some(node);
        }
    }
    None
}

/// A type, such as those of a schema whose names are nearest to this.
pub fn nearest_names(alloc: Global, schema: &Schema, name: &str) -> Result<String, AllocError> {
    let mut nearest = Nearest::new(alloc, name.as_bytes());
    for node in &schema.nodes {
        if is_type(node) {
            nearest.add(node.name());
        }
    }
    let wanted = nearest.wanted("a type");
    drop(nearest);
    wanted
}

/// A type as schema text, with its comments.
pub fn describe<'s>(
    alloc: Global,
    schema: &'s Schema,
    node: &'s Node,
) -> Result<String, AllocError> {
    let mut text = Text {
        schema,
        comments: comments_of(schema, node.id),
        lines: String::new(alloc),
        depth: 0,
    };
    match text.node(node) {
        Ok(()) => Ok(text.lines),
        Err(error) => {
            drop(text);
            Err(error)
        }
    }
}

/// Whether a node is a type that has a text of its own.
fn is_type(node: &Node) -> bool {
    match &node.kind {
        NodeKind::Struct(of) => !of.is_group,
        NodeKind::Enum(_) | NodeKind::Interface(_) | NodeKind::Const(_) => true,
        NodeKind::File | NodeKind::Other => false,
    }
}

/// The comments of a node.
fn comments_of(schema: &Schema, id: u64) -> Option<&Comments> {
    for comments in &schema.comments {
        if comments.id == id {
            return Some(comments);
        }
    }
    None
}

/// A schema's text, as it is put together.
#[derive(Drop)]
pub(crate) struct Text<'s> {
    pub(crate) schema: &'s Schema,
    /// The comments of the node that is put.
    comments: Option<&'s Comments>,
    pub(crate) lines: String,
    /// How far a line is indented.
    depth: u32,
}

impl<'s> Text<'s> {
    /// Adds a node.
    fn node(&mut self, node: &'s Node) -> Result<(), AllocError> {
        match &node.kind {
            NodeKind::Struct(of) => {
                self.head("struct ", node)?;
                self.structure(of, DEEPEST)?;
                self.close()
            }
            NodeKind::Enum(items) => {
                self.head("enum ", node)?;
                self.enumerants(items)?;
                self.close()
            }
            NodeKind::Interface(of) => self.interface(node, of),
            NodeKind::Const(of) => {
                write!(self.lines, "const {} :", node.name())?;
                put_type(&mut self.lines, self.schema, of.of)?;
                self.value(of.of, bits_of(&of.value), &of.value)?;
                self.put(";\n")
            }
            NodeKind::File | NodeKind::Other => Ok(()),
        }
    }

    /// Adds the first line of a struct or an enum, and its comment.
    fn head(&mut self, word: &str, node: &Node) -> Result<(), AllocError> {
        write!(self.lines, "{word}{}", node.name())?;
        self.open()
    }

    /// Opens a bracket, and adds the node's comment.
    fn open(&mut self) -> Result<(), AllocError> {
        self.put(" {\n")?;
        self.depth = self.depth.saturating_add(1);
        match self.comments {
            Some(comments) => self.comment(comments.about.as_str()),
            None => Ok(()),
        }
    }

    /// Closes a bracket.
    fn close(&mut self) -> Result<(), AllocError> {
        self.depth = self.depth.saturating_sub(1);
        self.indent()?;
        self.put("}\n")
    }

    /// Adds an interface.
    fn interface(&mut self, node: &Node, of: &Interface) -> Result<(), AllocError> {
        put_head(&mut self.lines, self.schema, node, of)?;
        self.open()?;
        for (place, method) in of.methods.iter().enumerate() {
            self.indent()?;
            write!(self.lines, "{} @{place}", method.name.as_str())?;
            put_types(&mut self.lines, self.schema, method)?;
            self.put(";\n")?;
            self.member_comment(place)?;
        }
        self.close()
    }

    /// Adds the values of an enum.
    fn enumerants(&mut self, items: &[Enumerant]) -> Result<(), AllocError> {
        for (place, item) in items.iter().enumerate() {
            self.indent()?;
            write!(self.lines, "{} @{place};\n", item.name.as_str())?;
            self.member_comment(place)?;
        }
        Ok(())
    }

    /// Adds the fields of a struct or a group, those of its union last.
    #[cycle(text)]
    fn structure(&mut self, of: &'s Structure, room: u32) -> Result<(), AllocError> {
        for (place, field) in of.fields.iter().enumerate() {
            if !field.is_member() {
                self.field(place, field, room)?;
            }
        }
        if of.tags == 0 {
            return Ok(());
        }
        self.indent()?;
        self.put("union {\n")?;
        self.depth = self.depth.saturating_add(1);
        for (place, field) in of.fields.iter().enumerate() {
            if field.is_member() {
                self.field(place, field, room)?;
            }
        }
        self.close()
    }

    /// Adds the field at this place of its struct.
    #[cycle(text)]
    fn field(&mut self, place: usize, field: &'s StructField, room: u32) -> Result<(), AllocError> {
        self.indent()?;
        self.put(field.name.as_str())?;
        match &field.kind {
            FieldKind::Slot(slot) => {
                self.slot(field, slot)?;
                self.put(";\n")?;
                self.member_comment(place)
            }
            FieldKind::Group(id) => self.group(*id, room),
            FieldKind::Unknown => self.put(";\n"),
        }
    }

    /// Adds the type of a field that isn't a group, and its default.
    fn slot(&mut self, field: &StructField, slot: &Slot) -> Result<(), AllocError> {
        write!(self.lines, " @{} :", field.ordinal)?;
        put_type(&mut self.lines, self.schema, slot.of)?;
        if slot.default != 0 || slot.points {
            self.value(slot.of, slot.default, &field.default)?;
        }
        Ok(())
    }

    /// Adds the fields of the group of this node.
    #[cycle(text)]
    fn group(&mut self, id: u64, room: u32) -> Result<(), AllocError> {
        self.put(" :group {\n")?;
        self.depth = self.depth.saturating_add(1);
        let outer = self.comments;
        self.comments = comments_of(self.schema, id);
        if room > 0 {
            if let Some(node) = self.schema.find(id) {
                if let NodeKind::Struct(of) = &node.kind {
                    self.structure(of, room - 1)?;
                }
            }
        }
        self.comments = outer;
        self.close()
    }

    /// Adds the comment of the member at this place.
    fn member_comment(&mut self, place: usize) -> Result<(), AllocError> {
        let Some(comments) = self.comments else {
            return Ok(());
        };
        match comments.members.get(place) {
            Some(text) => self.comment(text.as_str()),
            None => Ok(()),
        }
    }

    /// Adds a comment, line by line.
    fn comment(&mut self, text: &str) -> Result<(), AllocError> {
        for line in text.lines() {
            self.indent()?;
            let mark = if line.is_empty() { "#" } else { "# " };
            write!(self.lines, "{mark}{line}\n")?;
        }
        Ok(())
    }

    /// Begins a line.
    fn indent(&mut self) -> Result<(), AllocError> {
        for _ in 0..self.depth {
            self.put("  ")?;
        }
        Ok(())
    }

    /// Adds a text.
    pub(crate) fn put(&mut self, text: &str) -> Result<(), AllocError> {
        self.lines.push_str(text)
    }
}
