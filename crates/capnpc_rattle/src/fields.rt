//! The fields of structs, as templates have them.

use crate::book::{Book, Named, has_name};
use crate::groups::cells;
use crate::model::Model;
use crate::out::Out;
use crate::reach::Naming;
use crate::trees::tree;
use crate::types::{base_of, can_fail, elements_of, setting_of, size_of};
use cp_schema::{Base, FieldKind, Node, NodeKind, SchemaValue, Slot, StructField, Structure};

/// The deepest that groups may lie within one another.
pub const DEEPEST: u32 = 64;

/// The most arguments that a method has.
const MOST: usize = 4;

/// Adds a node's names, and where a module finds it.
pub fn named<'m>(model: &mut Model<'m>, book: &'m Book<'_>, key: &'static str, of: &'m Named) {
    model.record(key);
    names(model, book, of);
    model.close();
}

/// Adds these names to a record.
pub fn names<'m>(model: &mut Model<'m>, book: &'m Book<'_>, of: &'m Named) {
    let (title, is_struct) = match book.schema.find(of.id) {
        Some(node) => (node.name(), matches!(node.kind, NodeKind::Struct(_))),
        None => ("", false),
    };
    model.texts(&[
        ("Type", of.name.as_str()),
        ("word", of.word.as_str()),
        ("krate", of.krate.as_str()),
        ("module", of.module.as_str()),
        ("title", title),
    ]);
    model.numbers(&[
        ("id", of.id),
        ("struct", is_struct as u64),
        ("elsewhere", is_elsewhere(model, of) as u64),
    ]);
    let (krate, module) = model.page;
    if of.krate.as_str() != krate {
        model.own("from", &[of.krate.as_str(), "::"]);
    } else if of.module.as_str() != module {
        model.own("from", &["crate::", of.module.as_str(), "::"]);
    } else {
        model.text("from", "self::");
    }
}

/// Whether a node is in another module.
fn is_elsewhere(model: &Model<'_>, of: &Named) -> bool {
    let (krate, module) = model.page;
    of.krate.as_str() != krate || of.module.as_str() != module
}

/// A struct or a group, whose field this is.
#[derive(Clone, Copy)]
pub struct Part<'m> {
    pub node: &'m Node,
    pub of: &'m Structure,
    /// Its word in definitions.
    pub word: &'m str,
    /// That of the nearest group around its fields that is a member of a union. Empty if there is none.
    pub chosen: &'m str,
}

/// Adds what is said of a field of any kind.
pub fn field<'m>(
    model: &mut Model<'m>,
    book: &'m Book<'_>,
    part: &Part<'m>,
    i: usize,
    of: &'m StructField,
) {
    model.texts(&[
        ("name", of.name.as_str()),
        ("about", book.about_member(part.node.id, i)),
    ]);
    model.numbers(&[
        ("ordinal", of.ordinal as u64),
        ("member", of.is_member() as u64),
        ("tag", of.tag as u64),
        ("tag_place", part.of.tag_place as u64),
    ]);
}

/// Adds what is said of a field that is no group, as it is read.
pub fn slot<'m>(
    model: &mut Model<'m>,
    book: &'m Book<'_>,
    part: &Part<'m>,
    field: &'m StructField,
    slot: &'m Slot,
) {
    let (base, width) = base_of(slot.of.of);
    let shape = if slot.of.lists > 0 { "list" } else { base };
    let has_default = slot.points || slot.of.lists == 0 && slot.default != 0;
    model.texts(&[("base", base), ("shape", shape), ("size", size_of(slot.of))]);
    model.own("form", &[shape, if has_default { "_or" } else { "" }]);
    model.numbers(&[
        ("width", width as u64),
        ("place", slot.place as u64),
        ("inner", slot.of.lists.saturating_sub(1) as u64),
        ("fails", can_fail(slot.of) as u64),
        ("reads", (shape == "struct") as u64),
    ]);
    type_of(model, book, part, field, slot);
    default(model, part, field, slot);
}

/// Adds the node of a field's type, and its interface.
fn type_of<'m>(
    model: &mut Model<'m>,
    book: &'m Book<'_>,
    part: &Part<'m>,
    field: &'m StructField,
    slot: &'m Slot,
) {
    let mut values = false;
    if let Base::Enum(id) | Base::Struct(id) = slot.of.of {
        match book.find(id) {
            Some(of) => {
                named(model, book, "of", of);
                values = matches!(slot.of.of, Base::Enum(_))
                    && slot.of.lists == 0
                    && is_elsewhere(model, of);
            }
            None => model.refuse(
                part.node.name(),
                field.name.as_str(),
                "the request has no node of its type",
            ),
        }
    }
    model.number("values", values as u64);
    if let Some(of) = client_of(book, slot) {
        named(model, book, "client", of);
    }
}

/// Adds what a field is by default.
fn default<'m>(model: &mut Model<'m>, part: &Part<'m>, field: &'m StructField, slot: &'m Slot) {
    match &field.default {
        SchemaValue::Text(text) => model.text("literal", text.as_str()),
        SchemaValue::Data(bytes) => model.bytes("literal", bytes.as_slice()),
        SchemaValue::Tree(of) if slot.points => {
            let name = Out::spelled(model.alloc, field.name.as_str(), "snake");
            model.own("default", &[part.word, "_", name.as_str(), "_default"]);
            drop(name);
            tree(model, "tree", of);
            return;
        }
        _ => {}
    }
    model.number("default", slot.default);
}

/// The interface of a field that is a capability, where interfaces are written.
pub fn client_of<'b>(book: &'b Book<'_>, slot: &Slot) -> Option<&'b Named> {
    match slot.of.of {
        Base::Interface(id) if book.is_whole() && slot.of.lists == 0 => book.find(id),
        _ => None,
    }
}

/// Adds how a field is set.
fn setting(model: &mut Model<'_>, slot: &Slot, is_member: bool) {
    let of = setting_of(slot);
    let (base, width) = base_of(slot.of.of);
    let (elements, maker) = elements_of(width);
    let has_default = !of.points && slot.default != 0;
    model.own("form", &[of.form, if has_default { "_or" } else { "" }]);
    model.texts(&[
        ("base", base),
        ("kind", of.kind),
        ("elements", elements),
        ("maker", maker),
    ]);
    model.numbers(&[
        ("width", width as u64),
        ("place", slot.place as u64),
        ("default", slot.default),
        ("depth", slot.of.lists.saturating_sub(1) as u64),
        ("points", of.points as u64),
        ("fails", of.fails as u64),
        ("copied", (of.kind == "copied") as u64),
        ("first", (of.fails && is_member) as u64),
    ]);
}

/// Adds the fields of a struct with those of its groups, as they are set and promised, and says whether one is promised. Their names begin
/// with `prefix`; `chosen` is how the nearest group around them that is a member of a union is chosen.
#[cycle(parts)]
pub fn parts<'m>(
    model: &mut Model<'m>,
    book: &'m Book<'_>,
    part: &Part<'m>,
    prefix: &str,
    chosen: &str,
    depth: u32,
) -> bool {
    let mut is_piped = false;
    for (i, of) in part.of.fields.iter().enumerate() {
        let name = Out::spelled(model.alloc, of.name.as_str(), "snake");
        let joined = Out::of(model.alloc, &[prefix, name.as_str()]);
        model.record("");
        model.own("joined", &[joined.as_str()]);
        model.own("chosen", &[chosen]);
        model.text("chosen_word", part.chosen);
        field(model, book, part, i, of);
        is_piped = setter(model, book, part, of) || is_piped;
        model.close();
        if let FieldKind::Group(id) = &of.kind {
            let nearest = if of.is_member() {
                joined.as_str()
            } else {
                chosen
            };
            let word = match book.find(*id) {
                Some(with) if of.is_member() => with.word.as_str(),
                _ => part.chosen,
            };
            is_piped = group(model, book, (*id, word), joined.as_str(), nearest, depth) || is_piped;
        }
        drop(name);
        drop(joined);
    }
    is_piped
}

/// Adds the fields of a group. It has no builder of its own, since its fields lie in the struct.
#[cycle(parts)]
fn group<'m>(
    model: &mut Model<'m>,
    book: &'m Book<'_>,
    (id, word): (u64, &'m str),
    name: &str,
    chosen: &str,
    depth: u32,
) -> bool {
    let Some(node) = book.schema.find(id) else {
        return false;
    };
    let NodeKind::Struct(of) = &node.kind else {
        return false;
    };
    // In a wrong request a group could lie in itself.
    if depth == 0 {
        model.refuse(node.name(), "", "its groups are too deep");
        return false;
    }
    let prefix = Out::of(model.alloc, &[name, "_"]);
    let part = Part {
        node,
        of,
        word: "",
        chosen: word,
    };
    let is_piped = parts(model, book, &part, prefix.as_str(), chosen, depth - 1);
    drop(prefix);
    is_piped
}

/// Adds how a field is set and what it is promised as, and says whether it is. A group is set if it is a member of a union, and so is a
/// field without bits.
fn setter<'m>(
    model: &mut Model<'m>,
    book: &'m Book<'_>,
    part: &Part<'m>,
    of: &'m StructField,
) -> bool {
    match &of.kind {
        FieldKind::Slot(at) if !is_void(&of.kind) => {
            model.text("setter", "field");
            setting(model, at, of.is_member());
            taking(model, book, at);
            type_of(model, book, part, of, at);
            return promised(model, book, at);
        }
        FieldKind::Slot(_) if of.is_member() => model.text("setter", "member"),
        FieldKind::Group(id) if of.is_member() => {
            model.text("setter", "group");
            if let Some(with) = book.find(*id) {
                named(model, book, "of", with);
            }
            cells(model, book, *id);
        }
        _ => model.text("setter", ""),
    }
    false
}

/// Adds what a field will be, if it is a struct or a capability, and says whether it is.
fn promised<'m>(model: &mut Model<'m>, book: &'m Book<'_>, slot: &'m Slot) -> bool {
    let (id, ending) = match slot.of.of {
        Base::Struct(id) => (id, "Pipeline"),
        Base::Interface(id) => (id, "Client"),
        _ => return false,
    };
    match book.find(id) {
        Some(of) if slot.of.lists == 0 => {
            model.record("promised");
            names(model, book, of);
            model.text("ending", ending);
            model.close();
            true
        }
        _ => false,
    }
}

/// Adds what a pointer field is set to if its type can name no capability: what was built or what was read, as a reader's method gives it.
fn taking(model: &mut Model<'_>, book: &Book<'_>, slot: &Slot) {
    let shape = if slot.of.lists > 0 {
        "list"
    } else {
        base_of(slot.of.of).0
    };
    let of = setting_of(slot);
    let converts = of.points && of.form != "whole" && !can_name(book, slot);
    model.text("shape", shape);
    model.numbers(&[
        ("inner", slot.of.lists.saturating_sub(1) as u64),
        ("converts", converts as u64),
    ]);
}

/// Whether a value of a field's type can name a capability.
fn can_name(book: &Book<'_>, slot: &Slot) -> bool {
    match slot.of.of {
        Base::Interface(_) | Base::AnyPointer => true,
        Base::Struct(id) => !matches!(book.naming_of(id), Naming::Never),
        _ => false,
    }
}

/// Whether a field has no bits.
pub fn is_void(kind: &FieldKind) -> bool {
    match kind {
        FieldKind::Slot(slot) => slot.of.lists == 0 && matches!(slot.of.of, Base::Void),
        FieldKind::Group(_) | FieldKind::Unknown => false,
    }
}

/// Adds the params that are values or capabilities: methods are called with these, in place of a builder.
pub fn plain<'m>(model: &mut Model<'m>, book: &'m Book<'_>, id: u64) {
    let Some(node) = book.schema.find(id) else {
        return;
    };
    match &node.kind {
        NodeKind::Struct(of) if is_plain(book, node, of) => {
            let part = Part {
                node,
                of,
                word: "",
                chosen: "",
            };
            model.record("plain");
            model.numbers(&[("words", of.words as u64), ("pointers", of.pointers as u64)]);
            wraps(model, of);
            model.text("alloc", "self.target.alloc()");
            arguments(model, book, &part);
            clients(model, book, &part, ("clients", of.fields.len()));
            longs(model, of);
            model.close();
        }
        _ => {}
    }
}

/// Adds the arguments that may be too long for a message, and whether they are several.
fn longs<'m>(model: &mut Model<'m>, of: &'m Structure) {
    model.list("longs");
    let mut count = 0_u64;
    for field in &of.fields {
        if let FieldKind::Slot(slot) = &field.kind {
            let set = setting_of(slot);
            if set.fails {
                model.record("");
                model.number("more", (count > 0) as u64);
                model.text("kind", set.kind);
                value(model, field.name.as_str());
                model.close();
                count = count.saturating_add(1);
            }
        }
    }
    model.close();
    model.number("several", (count > 1) as u64);
}

/// Adds for each field whether it is a pointer, the last one first.
fn wraps(model: &mut Model<'_>, of: &Structure) {
    model.list("wraps");
    for field in of.fields.iter().rev() {
        if let FieldKind::Slot(slot) = &field.kind {
            model.record("");
            model.number("points", setting_of(slot).points as u64);
            model.close();
        }
    }
    model.close();
}

/// Adds the fields as arguments, each with the capabilities before it.
fn arguments<'m>(model: &mut Model<'m>, book: &'m Book<'_>, part: &Part<'m>) {
    model.list("args");
    for (i, of) in part.of.fields.iter().enumerate() {
        if let FieldKind::Slot(at) = &of.kind {
            model.record("");
            model.text("name", of.name.as_str());
            model.number("more", (i > 0) as u64);
            value(model, of.name.as_str());
            setting(model, at, false);
            type_of(model, book, part, of, at);
            clients(model, book, part, ("before", i));
            model.close();
        }
    }
    model.close();
}

/// Adds those of the first so many fields that are capabilities.
fn clients<'m>(
    model: &mut Model<'m>,
    book: &'m Book<'_>,
    part: &Part<'m>,
    (key, count): (&'static str, usize),
) {
    model.list(key);
    for of in part.of.fields.iter().take(count) {
        if let FieldKind::Slot(at) = &of.kind {
            if let Some(with) = client_of(book, at) {
                model.record("");
                value(model, of.name.as_str());
                named(model, book, "client", with);
                model.close();
            }
        }
    }
    model.close();
}

/// Adds what an argument is called.
fn value(model: &mut Model<'_>, name: &str) {
    let word = Out::spelled(model.alloc, name, "argument");
    model.own("value", &[word.as_str()]);
    drop(word);
}

/// Whether a struct has no name in its schema, and all its fields are values or capabilities, and few.
pub fn is_plain(book: &Book<'_>, node: &Node, of: &Structure) -> bool {
    if has_name(node) {
        return false;
    }
    for field in &of.fields {
        let is_argument = match &field.kind {
            FieldKind::Slot(slot) => is_value(book, slot) || client_of(book, slot).is_some(),
            _ => false,
        };
        if !is_argument {
            return false;
        }
    }
    of.fields.len() <= MOST
}

/// Whether a field's value is given by itself, and can name no capability.
fn is_value(book: &Book<'_>, slot: &Slot) -> bool {
    !matches!(slot.of.of, Base::Void) && setting_of(slot).form != "whole" && !can_name(book, slot)
}

/// Adds by which table a struct names capabilities.
pub fn naming(model: &mut Model<'_>, of: Naming) {
    let text = match of {
        Naming::Never => "never",
        Naming::Own => "own",
        Naming::Shared => "shared",
    };
    model.text("naming", text);
    model.numbers(&[
        ("never", (text == "never") as u64),
        ("own", (text == "own") as u64),
        ("shared", (text == "shared") as u64),
    ]);
}
