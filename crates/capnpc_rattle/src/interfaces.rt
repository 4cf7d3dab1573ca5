//! Interfaces and their methods, as templates have them.

use crate::book::Book;
use crate::fields::{names, naming, plain};
use crate::model::Model;
use cp_schema::{Interface, Method, Node, NodeKind};

/// The number of `struct StreamResult` of stream.capnp, which methods with `-> stream` have for their results.
const STREAM_RESULT: u64 = 0x995f_9a33_77c0_b16e;

/// Adds an interface.
pub fn interface<'m>(model: &mut Model<'m>, book: &'m Book<'_>, node: &'m Node, of: &'m Interface) {
    model.text("kind", "interface");
    model.number("count", of.methods.len() as u64);
    model.number("last", of.methods.len().saturating_sub(1) as u64);
    model.list("methods");
    for (number, it) in of.methods.iter().enumerate() {
        model.record("");
        model.number("number", number as u64);
        model.text("about", book.about_member(node.id, number));
        if let Err(why) = method(model, book, it) {
            model.refuse(node.name(), it.name.as_str(), why);
        }
        model.close();
    }
    model.close();
    supers(model, book, of);
    family(model, book, node);
    streams(model, book, node);
}

/// Adds a method; `Err` says why it can't be written.
fn method<'m>(
    model: &mut Model<'m>,
    book: &'m Book<'_>,
    of: &'m Method,
) -> Result<(), &'static str> {
    model.text("name", of.name.as_str());
    let Some(params) = book.find(of.params) else {
        return Err("the request has no node of its params");
    };
    model.record("params");
    names(model, book, params);
    naming(model, book.naming_of(of.params));
    model.close();
    model.record("results");
    naming(model, book.naming_of(of.results));
    let is_found = results(model, book, of.results);
    model.close();
    plain(model, book, of.params);
    if is_found {
        Ok(())
    } else {
        Err("the request has no node of its results")
    }
}

/// Adds the names of results, if there are such.
fn results<'m>(model: &mut Model<'m>, book: &'m Book<'_>, id: u64) -> bool {
    if id == STREAM_RESULT {
        model.texts(&[("Type", "NoFields"), ("from", "cp_interfaces::")]);
        return true;
    }
    match book.find(id) {
        Some(of) => {
            names(model, book, of);
            true
        }
        None => false,
    }
}

/// Adds the interfaces that one extends itself.
fn supers<'m>(model: &mut Model<'m>, book: &'m Book<'_>, of: &'m Interface) {
    let mut is_later = false;
    model.list("supers");
    for id in &of.supers {
        match book.find(*id) {
            Some(with) => {
                model.record("");
                names(model, book, with);
                model.number("later", is_later as u64);
                model.close();
                is_later = true;
            }
            None => model.refuse(
                "",
                "",
                "the request has no node of an interface that is extended",
            ),
        }
    }
    model.close();
}

/// Adds an interface, and all that it extends.
fn family<'m>(model: &mut Model<'m>, book: &'m Book<'_>, node: &'m Node) {
    model.list("family");
    one_of_family(model, book, node.id, false);
    for id in book.supers(node.id) {
        one_of_family(model, book, *id, true);
    }
    model.close();
}

fn one_of_family<'m>(model: &mut Model<'m>, book: &'m Book<'_>, id: u64, is_extended: bool) {
    if let Some(with) = book.find(id) {
        model.record("");
        names(model, book, with);
        model.number("extended", is_extended as u64);
        model.close();
    }
}

/// Adds the methods with `-> stream` of an interface, and of all that it extends.
fn streams<'m>(model: &mut Model<'m>, book: &'m Book<'_>, node: &'m Node) {
    model.list("streams");
    let mut is_later = add_streams(model, book, node.id, false);
    for id in book.supers(node.id) {
        is_later = add_streams(model, book, *id, is_later);
    }
    model.close();
}

/// Adds those of one interface. Says whether there is one by then.
fn add_streams<'m>(model: &mut Model<'m>, book: &'m Book<'_>, id: u64, mut is_later: bool) -> bool {
    let Some(node) = book.schema.find(id) else {
        return is_later;
    };
    if let NodeKind::Interface(of) = &node.kind {
        for (number, it) in of.methods.iter().enumerate() {
            if it.results == STREAM_RESULT {
                model.record("");
                model.numbers(&[
                    ("id", id),
                    ("number", number as u64),
                    ("later", is_later as u64),
                ]);
                model.close();
                is_later = true;
            }
        }
    }
    is_later
}
