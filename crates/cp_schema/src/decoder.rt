//! Structs, lists and values, as the reference prints them.

use crate::annotation::{DataForm, UnionNames};
use crate::brand::Brand;
use crate::field::{FieldKind, Slot, StructField};
use crate::kind::{Base, Type};
use crate::line::Line;
use crate::node::{Node, NodeKind, Schema, Structure};
use crate::notation::Notation;
use crate::number::signed;
use crate::value::SchemaValue;
use cp_fields::{DataReader, PointerReader, StructReader, WrongKind};
use cp_reading::View;
use cp_tree::Tree;
use std::alloc::Global;
use std::{fmt, mem};

/// The deepest that structs and lists may lie within one another, and groups too.
const DEEPEST: u32 = 4_096;

/// By what messages are shown: a schema, the struct that each message is with what its type binds, and the notation.
#[derive(Clone, Copy)]
pub struct Decoder<'s> {
    schema: &'s Schema,
    of: &'s Structure,
    brand: Option<&'s Brand>,
    notation: Notation,
}

/// Why a message isn't shown.
#[derive(Clone, Copy, Debug)]
pub enum DecodeFault {
    /// A pointer is of another kind than the schema says.
    WrongKind(WrongKind),
    /// Its schema has groups that lie in themselves.
    TooDeep,
    /// A text isn't UTF-8, as those of JSON are.
    NotUtf8,
    OutOfMemory,
}

impl fmt::Display for DecodeFault {
    fn fmt<W: fmt::Write>(&self, f: &mut fmt::Formatter<W>) -> fmt::Result {
        match self {
            DecodeFault::WrongKind(fault) => fault.fmt(f),
            DecodeFault::TooDeep => f.write_str("its schema has groups that lie in themselves"),
            DecodeFault::NotUtf8 => f.write_str("a text isn't UTF-8"),
            DecodeFault::OutOfMemory => f.write_str("memory ran out"),
        }
    }
}

impl<'s> Decoder<'s> {
    /// By the struct of this name in a schema, if it has one: its own name after those of the types that it lies in.
    pub fn by_name(schema: &'s Schema, name: &str) -> Option<Decoder<'s>> {
        for node in &schema.nodes {
            if node.name() == name {
                return Decoder::of(schema, node);
            }
        }
        None
    }

    /// By the struct of this number with this brand, if a schema has it.
    pub(crate) fn by_number(schema: &'s Schema, id: u64, brand: &'s Brand) -> Option<Decoder<'s>> {
        let decoder = Decoder::of(schema, schema.find(id)?)?;
        Some(Decoder {
            brand: Some(brand),
            ..decoder
        })
    }

    /// The same in this notation.
    pub fn written_as(self, notation: Notation) -> Decoder<'s> {
        Decoder { notation, ..self }
    }

    /// The line of a message after a text.
    pub(crate) fn line_after(&self, alloc: Global, text: String) -> Line<'s> {
        Line::after(alloc, text, self.schema, self.notation)
    }

    /// Adds a message to a line.
    pub(crate) fn put(&self, line: &mut Line<'s>, view: View<'_>) {
        match StructReader::of(PointerReader::of_view(view)) {
            Ok(at) => {
                if let Some(brand) = self.brand {
                    line.generics.begin(brand);
                }
                let first = line.open_struct();
                fields(line, self.of, self.of.json.union_names(None), &at, DEEPEST);
                line.close_struct(first);
            }
            Err(wrong) => line.refuse(wrong),
        }
    }

    /// By this node of a schema, if it is a struct.
    fn of(schema: &'s Schema, node: &'s Node) -> Option<Decoder<'s>> {
        match &node.kind {
            NodeKind::Struct(of) => Some(Decoder {
                schema,
                of,
                brand: None,
                notation: Notation::Text,
            }),
            _ => None,
        }
    }
}

/// Adds the line of a message, with its line feed, to a text, which is lost where it isn't right.
pub fn push_message(
    alloc: Global,
    text: &mut String,
    decoder: &Decoder<'_>,
    view: View<'_>,
) -> Result<(), DecodeFault> {
    let earlier = mem::replace(text, String::new(alloc));
    let mut line = decoder.line_after(alloc, earlier);
    decoder.put(&mut line, view);
    drop(mem::replace(text, line.done()?));
    Ok(())
}

/// Adds the fields of a struct or a group whose union has these names.
#[cycle(show)]
fn fields<'s>(
    line: &mut Line<'s>,
    of: &'s Structure,
    names: UnionNames<'s>,
    at: &StructReader<'_>,
    depth: u32,
) {
    if depth == 0 {
        line.is_deep = true;
        return;
    }
    let set = at.u16(of.tag_place);
    // In JSON the union's member comes last.
    let is_json = line.is_json();
    for field in &of.fields {
        if !field.is_member() || !is_json && of.is_set(field, set) {
            show_field(line, field, field_name(is_json, field), at, depth - 1);
        }
    }
    for field in &of.fields {
        if is_json && of.is_set(field, set) {
            show_member(line, field, names, at, depth - 1);
        }
    }
}

/// The name of a field.
fn field_name(is_json: bool, field: &StructField) -> &str {
    if is_json {
        field.json_name()
    } else {
        field.name.as_str()
    }
}

/// Adds the member of a union that is set, as JSON has it: where the union has a tag, with that before it.
#[cycle(show)]
fn show_member<'s>(
    line: &mut Line<'s>,
    field: &'s StructField,
    names: UnionNames<'s>,
    at: &StructReader<'_>,
    depth: u32,
) {
    if let Some(tag) = names.tag {
        line.field(tag);
        line.characters(field.json_name());
        if field.is_void() {
            return;
        }
    }
    show_field(
        line,
        field,
        names.value.unwrap_or(field.json_name()),
        at,
        depth,
    );
}

/// Adds a field under this name, if it isn't a pointer that is null; a member of a union that is set is added even so.
#[cycle(show)]
fn show_field<'s>(
    line: &mut Line<'s>,
    field: &'s StructField,
    name: &str,
    at: &StructReader<'_>,
    depth: u32,
) {
    let (kind, entered) = line.generics.enter(field);
    match (&field.json.prefix, &kind) {
        (Some(prefix), _) if line.is_json() => {
            line.begin(prefix.as_str());
            flat_fields(line, field, &kind, at, depth);
            line.end();
        }
        (_, FieldKind::Group(id)) => {
            line.field(name);
            node(line, *id, Some(field.union_names()), at, depth);
        }
        (_, FieldKind::Slot(slot)) => show_slot(line, field, slot, name, at, depth),
        (_, FieldKind::Unknown) => {}
    }
    line.generics.leave(entered);
}

/// The same of a field that isn't a group, and lies there.
#[cycle(show)]
fn show_slot(
    line: &mut Line<'_>,
    field: &StructField,
    slot: &Slot,
    name: &str,
    at: &StructReader<'_>,
    depth: u32,
) {
    let is_null = is_pointer(slot.of) && at.pointer(slot.place).is_null();
    // As the reference does, which shows all but the first member of a union in texts, and all of them in JSON.
    if is_null && (!field.is_member() || field.tag == 0 && !line.is_json()) {
        return;
    }
    line.field(name);
    match &field.default {
        SchemaValue::Text(text) if is_null => line.characters(text.as_str()),
        SchemaValue::Data(bytes) if is_null => line.data(&DataReader::of_slice(bytes), slot.data),
        SchemaValue::Tree(tree) if is_null => default_value(line, slot.of, tree, depth),
        _ => value(line, slot, at, depth),
    }
}

/// Adds the fields of a field of this kind that stand in its place.
#[cycle(show)]
fn flat_fields<'s>(
    line: &mut Line<'s>,
    field: &'s StructField,
    kind: &FieldKind,
    at: &StructReader<'_>,
    depth: u32,
) {
    match kind {
        FieldKind::Group(id) => node_fields(line, *id, Some(field.union_names()), at, depth),
        FieldKind::Slot(slot) if at.pointer(slot.place).is_null() && !field.is_member() => {}
        FieldKind::Slot(slot) => {
            let Base::Struct(id) = slot.of.of else {
                return;
            };
            match at.structure(slot.place) {
                Ok(inner) => node_fields(line, id, None, &inner, depth),
                Err(wrong) => line.refuse(wrong),
            }
        }
        FieldKind::Unknown => {}
    }
}

/// Adds a default, which is a struct or a list, or what a pointer of any kind stands for.
#[cycle(show)]
fn default_value(line: &mut Line<'_>, of: Type, tree: &Tree, depth: u32) {
    if depth == 0 {
        line.is_deep = true;
        return;
    }
    let at = StructReader::of_pointer(PointerReader::of_tree(tree));
    value(line, &only(of), &at, depth - 1);
}

/// The place of a struct's one field.
fn only(of: Type) -> Slot {
    Slot {
        place: 0,
        of,
        default: 0,
        points: false,
        data: DataForm::Numbers,
    }
}

/// Adds the struct of this node, or the group, whose union has these names.
#[cycle(show)]
fn node<'s>(
    line: &mut Line<'s>,
    id: u64,
    names: Option<UnionNames<'s>>,
    at: &StructReader<'_>,
    depth: u32,
) {
    let first = line.open_struct();
    node_fields(line, id, names, at, depth);
    line.close_struct(first);
}

/// Adds the fields of the struct of this node, or of the group, whose union has these names.
#[cycle(show)]
fn node_fields<'s>(
    line: &mut Line<'s>,
    id: u64,
    names: Option<UnionNames<'s>>,
    at: &StructReader<'_>,
    depth: u32,
) {
    let schema = line.schema;
    if let Some(node) = schema.find(id) {
        if let NodeKind::Struct(of) = &node.kind {
            let names = names.unwrap_or(of.json.union_names(None));
            fields(line, of, names, at, depth);
        }
    }
}

/// Adds the value of a field that isn't a group.
#[cycle(show)]
fn value(line: &mut Line<'_>, slot: &Slot, at: &StructReader<'_>, depth: u32) {
    if depth == 0 {
        line.is_deep = true;
        return;
    }
    if slot.of.lists > 0 {
        list(line, slot, at, depth - 1);
        return;
    }
    match slot.of.of {
        Base::Struct(id) => match at.structure(slot.place) {
            Ok(inner) => node(line, id, None, &inner, depth - 1),
            Err(wrong) => line.refuse(wrong),
        },
        Base::Text => match at.text(slot.place) {
            Ok(text) => line.string(&text),
            Err(wrong) => line.refuse(wrong),
        },
        Base::Data => match at.data(slot.place) {
            Ok(data) => line.data(&data, slot.data),
            Err(wrong) => line.refuse(wrong),
        },
        Base::Interface(_) => match at.cap(slot.place) {
            Ok(_) => line.word("<external capability>"),
            Err(wrong) => line.refuse(wrong),
        },
        Base::AnyPointer => line.word("<opaque pointer>"),
        of => number(line, of, slot, at),
    }
}

/// Adds a list. An element of any kind is seen as a struct with that one field.
#[cycle(show)]
fn list(line: &mut Line<'_>, slot: &Slot, at: &StructReader<'_>, depth: u32) {
    if depth == 0 {
        line.is_deep = true;
        return;
    }
    // Bits can't be read as structs.
    if slot.of.lists == 1 && matches!(slot.of.of, Base::Bool) {
        bools(line, at, slot.place);
        return;
    }
    let element = only(Type {
        lists: slot.of.lists.saturating_sub(1),
        ..slot.of
    });
    // Seen as structs, elements of another edition's list are shown too, and narrower numbers, which the reference tool refuses.
    match at.list::<StructReader<'_>>(slot.place) {
        Ok(items) => {
            line.open_list();
            for item in items {
                line.item();
                show_item(line, &element, &item, depth - 1);
            }
            line.close_list();
        }
        Err(wrong) => line.refuse(wrong),
    }
}

/// Adds an element of a list.
#[cycle(show)]
fn show_item(line: &mut Line<'_>, element: &Slot, item: &StructReader<'_>, depth: u32) {
    if depth == 0 {
        line.is_deep = true;
        return;
    }
    match element.of.of {
        Base::Struct(id) if element.of.lists == 0 => node(line, id, None, item, depth - 1),
        _ => value(line, element, item, depth - 1),
    }
}

/// Adds a list of bools.
fn bools(line: &mut Line<'_>, at: &StructReader<'_>, place: u32) {
    match at.list::<bool>(place) {
        Ok(items) => {
            line.open_list();
            for item in items {
                line.item();
                line.put(if item { "true" } else { "false" });
            }
            line.close_list();
        }
        Err(wrong) => line.refuse(wrong),
    }
}

/// Whether a type's values are pointers.
fn is_pointer(of: Type) -> bool {
    of.lists > 0
        || matches!(
            of.of,
            Base::Text | Base::Data | Base::Struct(_) | Base::Interface(_) | Base::AnyPointer
        )
}

/// Adds a number, a bool or a value of an enum.
fn number(line: &mut Line<'_>, of: Base, slot: &Slot, at: &StructReader<'_>) {
    let place = slot.place;
    match of {
        Base::Bool => line.put(if at.bit(place) != (slot.default != 0) {
            "true"
        } else {
            "false"
        }),
        Base::Unsigned(width) => line.integer(width, "", bits(width, slot, at)),
        Base::Signed(width) => {
            let (sign, size) = signed(width, bits(width, slot, at));
            line.integer(width, sign, size);
        }
        Base::Float(32) => {
            let default = u32::try_from(slot.default).unwrap_or(0);
            line.float32(at.f32_or(place, default));
        }
        Base::Float(_) => line.float64(at.f64_or(place, slot.default)),
        Base::Enum(id) => enum_value(line, id, bits(16, slot, at)),
        _ => line.put(if line.is_json() { "null" } else { "void" }),
    }
}

/// The bits of a number of this width.
fn bits(width: u32, slot: &Slot, at: &StructReader<'_>) -> u64 {
    let stored = match width {
        8 => at.u8(slot.place) as u64,
        16 => at.u16(slot.place) as u64,
        32 => at.u32(slot.place) as u64,
        _ => at.u64(slot.place),
    };
    stored ^ slot.default
}

/// Adds a value of an enum: its name, or its number where the schema has none.
fn enum_value(line: &mut Line<'_>, id: u64, number: u64) {
    let schema = line.schema;
    if let Some(node) = schema.find(id) {
        if let NodeKind::Enum(items) = &node.kind {
            if let Some(item) = items.get(number as usize) {
                line.enumerant(item);
                return;
            }
        }
    }
    line.unknown(number);
}
