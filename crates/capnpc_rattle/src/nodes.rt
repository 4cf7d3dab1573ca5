//! The types and constants of a module, as templates have them.

use crate::book::{Book, Named, has_name, is_params};
use crate::fields::{DEEPEST, Part, field, is_plain, is_void, named, names, naming, parts, slot};
use crate::interfaces::interface;
use crate::model::Model;
use crate::trees::tree;
use crate::types::{base_of, is_lent};
use cp_schema::{
    Base, ConstNode, Enumerant, FieldKind, Node, NodeKind, SchemaValue, StructField, Structure,
};

/// Adds a type or a constant.
pub fn node<'m>(model: &mut Model<'m>, book: &'m Book<'_>, of: &'m Node, with: &'m Named) {
    model.record("");
    names(model, book, with);
    model.text("about", book.about(of.id));
    match &of.kind {
        NodeKind::Struct(it) => structure(
            model,
            book,
            &Part {
                node: of,
                of: it,
                word: with.word.as_str(),
                chosen: "",
            },
            with,
        ),
        NodeKind::Enum(items) => {
            model.text("kind", "enum");
            model.number("numbered", 1);
            if items.is_empty() {
                // `UnknownEnumerant` needs a last value.
                model.refuse(of.name(), "", "an enum without values can't be written");
            }
            enumeration(model, book, of.id, items.as_slice());
        }
        NodeKind::Const(it) => constant(model, book, of, it),
        NodeKind::Interface(it) => interface(model, book, of, it),
        _ => {}
    }
    model.close();
}

/// Adds the values of an enum.
fn enumeration<'m>(model: &mut Model<'m>, book: &'m Book<'_>, id: u64, items: &'m [Enumerant]) {
    model.number("last", items.len().saturating_sub(1) as u64);
    model.list("values");
    for (i, item) in items.iter().enumerate() {
        value(model, i, item.name.as_str(), book.about_member(id, i));
    }
    model.close();
}

/// Adds a value of an enum or of a union.
fn value<'m>(model: &mut Model<'m>, number: usize, name: &'m str, about: &'m str) {
    model.record("");
    model.text("name", name);
    model.number("number", number as u64);
    model.text("about", about);
    model.close();
}

/// Adds a struct or a group.
fn structure<'m>(model: &mut Model<'m>, book: &'m Book<'_>, part: &Part<'m>, with: &'m Named) {
    let (of, own) = (part.of, part.node);
    let is_struct = !of.is_group;
    // What params are plain are arguments, and no question gives params.
    let is_whole = book.is_whole() && is_struct;
    let builds = is_whole && !(is_params(own) && is_plain(book, own, of));
    let is_empty = is_whole && !has_name(own) && of.fields.is_empty();
    model.text("kind", if is_empty { "empty" } else { "struct" });
    model.numbers(&[
        ("group", of.is_group as u64),
        ("items", (is_struct && has_name(own)) as u64),
        ("methods", (is_struct || of.tags > 0 || has_bits(of)) as u64),
        (
            "constructor",
            (is_struct && has_name(own) && book.has_method(own, "of")) as u64,
        ),
        ("tag_place", of.tag_place as u64),
        ("words", of.words as u64),
        ("pointers", of.pointers as u64),
        ("builder", builds as u64),
        ("list", (builds && has_name(own)) as u64),
        ("results", (is_whole && !is_params(own)) as u64),
    ]);
    naming(model, book.naming_of(own.id));
    getters(model, book, part);
    if of.tags > 0 {
        union(model, book, part, with);
    }
    if builds {
        model.list("parts");
        let is_piped = parts(model, book, part, "", "", DEEPEST);
        model.close();
        model.number("piped", is_piped as u64);
    }
}

/// Whether a struct has a field with bits.
fn has_bits(of: &Structure) -> bool {
    for field in &of.fields {
        if !is_void(&field.kind) {
            return true;
        }
    }
    false
}

/// Adds the fields that readers read. One without bits has no method.
fn getters<'m>(model: &mut Model<'m>, book: &'m Book<'_>, part: &Part<'m>) {
    model.list("fields");
    for (i, of) in part.of.fields.iter().enumerate() {
        if book.has_method(part.node, of.name.as_str()) && !is_void(&of.kind) {
            model.record("");
            field(model, book, part, i, of);
            getter(model, book, part, of);
            model.close();
        }
    }
    model.close();
}

/// Adds how a field is read.
fn getter<'m>(model: &mut Model<'m>, book: &'m Book<'_>, part: &Part<'m>, of: &'m StructField) {
    match &of.kind {
        FieldKind::Slot(at) => {
            model.text("kind", "slot");
            slot(model, book, part, of, at);
        }
        FieldKind::Group(id) => {
            model.text("kind", "group");
            match book.find(*id) {
                Some(with) => named(model, book, "of", with),
                None => model.refuse(
                    part.node.name(),
                    of.name.as_str(),
                    "the request has no node of its type",
                ),
            }
        }
        FieldKind::Unknown => model.refuse(
            part.node.name(),
            of.name.as_str(),
            "it is no slot and no group",
        ),
    }
}

/// Adds a union: its numbers, and its members with what they hold, where all of them have methods.
fn union<'m>(model: &mut Model<'m>, book: &'m Book<'_>, part: &Part<'m>, with: &'m Named) {
    model.record("which");
    model.own("Type", &[with.name.as_str(), "Which"]);
    model.own("word", &[with.word.as_str(), "_which"]);
    members(model, book, part, "values");
    model.close();
    if book.is_whole() {
        model.record("member");
        model.text("body", "t");
        members(model, book, part, "members");
        model.close();
    }
}

/// Adds the members of a union in the order of their numbers: as values, or with what they hold.
fn members<'m>(model: &mut Model<'m>, book: &'m Book<'_>, part: &Part<'m>, key: &'static str) {
    let (mut count, mut lends) = (0_u64, false);
    model.list(key);
    for number in 0..part.of.tags {
        for of in &part.of.fields {
            if of.tag == number {
                if key == "values" {
                    value(model, count as usize, of.name.as_str(), "");
                } else {
                    lends = holds(model, book, part, of) || lends;
                }
                count = count.saturating_add(1);
            }
        }
    }
    model.close();
    model.number("last", count.saturating_sub(1));
    model.number("lends", lends as u64);
}

/// Adds a member of a union with what it holds, and whether that is lent.
fn holds<'m>(
    model: &mut Model<'m>,
    book: &'m Book<'_>,
    part: &Part<'m>,
    of: &'m StructField,
) -> bool {
    model.record("");
    model.text("name", of.name.as_str());
    let mut lends = false;
    match &of.kind {
        FieldKind::Slot(at) if !is_void(&of.kind) => {
            lends = is_lent(at.of);
            held(model, "slot");
            slot(model, book, part, of, at);
        }
        FieldKind::Group(id) => {
            lends = true;
            held(model, "group");
            model.number("values", 0);
            if let Some(with) = book.find(*id) {
                named(model, book, "of", with);
            }
        }
        _ => held(model, "nothing"),
    }
    model.close();
    lends
}

/// Adds what kind of thing a member holds.
fn held(model: &mut Model<'_>, kind: &'static str) {
    model.text("held", kind);
    model.number("holds", (kind != "nothing") as u64);
}

/// Adds a constant, if it can be written. One without a kind is left out.
fn constant<'m>(model: &mut Model<'m>, book: &'m Book<'_>, node: &'m Node, of: &'m ConstNode) {
    let (base, width) = base_of(of.of.of);
    model.number("width", width as u64);
    match &of.value {
        SchemaValue::Tree(it) => tree(model, "tree", it),
        SchemaValue::Text(text) => {
            model.texts(&[("base", "text"), ("literal", text.as_str())]);
        }
        SchemaValue::Data(bytes) => {
            model.text("base", "data");
            model.bytes("literal", bytes.as_slice());
        }
        SchemaValue::Bits(bits) if of.of.lists == 0 && number(model, book, of.of.of, *bits) => {
            model.text("base", base);
        }
        _ => {
            model.leave_out(node.name(), "a constant of this type can't be written");
            return;
        }
    }
    model.text("kind", "const");
}

/// Adds a number, a bool or a value of an enum, if it can be written.
fn number<'m>(model: &mut Model<'m>, book: &'m Book<'_>, of: Base, bits: u64) -> bool {
    match of {
        Base::Bool | Base::Unsigned(_) => model.number("number", bits),
        Base::Signed(width) => {
            let (is_negative, size) = signed(width, bits);
            model.number("negative", is_negative as u64);
            model.number("number", size);
        }
        Base::Enum(id) => return item(model, book, id, bits),
        _ => return false,
    }
    true
}

/// Whether a number of this width is negative, and its size.
fn signed(width: u32, bits: u64) -> (bool, u64) {
    let (half, past) = match width {
        8 => (128, 256),
        16 => (32_768, 65_536),
        32 => (2_147_483_648, 4_294_967_296),
        _ => (9_223_372_036_854_775_808, 0_u64),
    };
    if bits < half {
        (false, bits)
    } else {
        (true, past.wrapping_sub(bits))
    }
}

/// Adds a value of an enum by its name, if it has one.
fn item<'m>(model: &mut Model<'m>, book: &'m Book<'_>, id: u64, number: u64) -> bool {
    let (Some(with), Some(node)) = (book.find(id), book.schema.find(id)) else {
        return false;
    };
    let NodeKind::Enum(items) = &node.kind else {
        return false;
    };
    let Some(item) = items.get(number as usize) else {
        return false;
    };
    named(model, book, "of", with);
    model.text("item", item.name.as_str());
    true
}
