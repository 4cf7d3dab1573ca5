//! Trees: constants, and what pointers are by default.

use crate::model::Model;
use cp_tree::{Body, Tree};

/// Adds a tree.
#[cycle(trees)]
pub fn tree(model: &mut Model<'_>, key: &'static str, of: &Tree) {
    model.record(key);
    match of {
        // A default names no capability.
        Tree::Null | Tree::Cap(_) => {
            model.text("node", "null");
            model.number("leaf", 1);
        }
        Tree::Struct(of) => {
            model.text("node", "struct");
            body(model, of);
        }
        Tree::Ptrs(items) => {
            model.text("node", "ptrs");
            row(model, items);
        }
        Tree::Structs { words, ptrs, items } => {
            model.text("node", "structs");
            model.numbers(&[("words", *words as u64), ("ptrs", *ptrs as u64)]);
            bodies(model, items);
        }
        Tree::Voids(count) => {
            model.text("node", "voids");
            model.number("count", *count as u64);
        }
        _ => list(model, of),
    }
    model.close();
}

/// Adds the elements of a composite list.
#[cycle(trees)]
fn bodies(model: &mut Model<'_>, items: &[Body]) {
    model.list("bodies");
    for item in items {
        model.record("");
        body(model, item);
        model.close();
    }
    model.close();
}

/// Adds the words and the pointers of a struct.
#[cycle(trees)]
fn body(model: &mut Model<'_>, of: &Body) {
    numbers(model, of.words.as_slice());
    row(model, of.ptrs.as_slice());
}

/// Adds trees one after another.
#[cycle(trees)]
fn row(model: &mut Model<'_>, trees: &[Tree]) {
    model.list("trees");
    for each in trees {
        tree(model, "", each);
    }
    model.close();
}

/// Adds a list without pointers: its variant in code, its constructor in definitions, and its elements.
fn list(model: &mut Model<'_>, of: &Tree) {
    model.text("node", "list");
    match of {
        Tree::Bits(items) => {
            kind(model, "Bits", "bits");
            bits(model, items);
        }
        Tree::Bytes(items) => {
            kind(model, "Bytes", "bytes");
            numbers(model, items);
        }
        Tree::Halves(items) => {
            kind(model, "TwoBytes", "halves");
            numbers(model, items);
        }
        Tree::Quads(items) => {
            kind(model, "FourBytes", "quads");
            numbers(model, items);
        }
        Tree::Words(items) => {
            kind(model, "Words", "words");
            numbers(model, items);
        }
        _ => {}
    }
}

fn kind<'m>(model: &mut Model<'m>, variant: &'m str, elements: &'m str) {
    model.texts(&[("variant", variant), ("elements", elements)]);
}

fn bits(model: &mut Model<'_>, items: &[bool]) {
    model.list("numbers");
    for item in items {
        model.record("");
        model.text("n", if *item { "true" } else { "false" });
        model.close();
    }
    model.close();
}

fn numbers<T: Copy + Into<u64>>(model: &mut Model<'_>, items: &[T]) {
    model.list("numbers");
    for item in items {
        model.record("");
        model.number("n", (*item).into());
        model.close();
    }
    model.close();
}
