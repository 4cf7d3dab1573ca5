//! What was read, copied to be set in a struct that is built. All that it has is kept, the fields of a newer schema too: the structs of a
//! list keep the sizes that they have, and lists of numbers or pointers stay such lists.
//!
//! A capability is named by its place in the table that goes with its message. A copy goes with another table, so each function gets the
//! places that those of the reader's table have there; a capability that has none is null in the copy.

ghost use Rattle.std.specs.Prelude.{◌≡◌, ◌≤◌, ◌+◌, ◌^◌, [], None, Err, IfOk, Ok, get_or, length, map};
ghost use Rattle.cp_tree.specs.Node.{Node, cap};
ghost use Rattle.cp_tree.specs.NodeOf.{body_of, bodies_of, node_of, nodes_of};
ghost use Rattle.cp_tree.specs.Shaped.{Shaped};
ghost use Rattle.cp_builder.specs.Copies.{IsListOf, Marks, names, names_in, names_one, placed, placed_bodies, placed_nodes, pointer_to};
ghost use Rattle.cp_builder.specs.Drafts.{bytes_tree, text_tree};
ghost use Rattle.cp_builder.specs.declared.fault.BuildError.TheVariants.{TooLong};

use crate::fault::BuildError;
use crate::parts::bytes_of;
use cp_fields::{DataReader, Element, List, PointerReader, StructReader, TextReader, WrongKind};
use cp_tree::{Body, Tree, Whole};
use cp_words::ElementSize;
use std::alloc::Global;

/// A copy of what a pointer stands for. `TooLong` says that no message can hold it, as a tree that a program owns may be.
pub fn pointer_copy(
    alloc: Global,
    at: &PointerReader<'_>,
    places: &[Option<u32>],
) -> Result<Whole, BuildError>
    ensures copied { IfOk result (λ whole. whole ≡ placed places.now at.now) }
    ensures long { result ≡ Err TooLong → ¬ (Shaped (placed places.now at.now)) }
{
    placed(at.tree(alloc)?, places)
}

/// A copy of a struct. `TooLong` says that no message can hold it.
pub fn struct_copy(
    alloc: Global,
    view: &StructReader<'_>,
    places: &[Option<u32>],
) -> Result<Whole, BuildError>
    ensures copied { IfOk result (λ whole. whole ≡ placed places.now view.now) }
    ensures long { result ≡ Err TooLong → ¬ (Shaped (placed places.now view.now)) }
{
    placed(view.tree(alloc)?, places)
}

/// A copy of a list, in which a reader of such a list finds the same elements. `TooLong` says that no message can hold the tree that the
/// list was read from. A list shows its elements alone, so no clause says when; that of `pointer_copy` does, of the pointer.
#[tactic(auto, using(crate::proofs::Copied::none_copied))]
pub fn list_copy<'a, T: Element<'a>>(
    alloc: Global,
    list: &List<'a, T>,
    places: &[Option<u32>],
) -> Result<Whole, BuildError>
    ensures { IfOk result (IsListOf T.SIZE (map (placed places.now) list.now)) }
{
    let at = list.pointer();
    // Null would stand for the default of the field that is set.
    if at.is_null() {
        return Ok(Whole::from_shaped(empty_list(alloc, T::size())));
    }
    // It was read so before, which a list doesn't show to the proof.
    let again: Result<List<'a, T>, WrongKind> = List::of(at.reborrow());
    if again.is_err() {
        return Err(BuildError::TooLong);
    }
    pointer_copy(alloc, &at, places)
}

/// A copy of a text, with its zero byte.
pub fn text_copy(alloc: Global, text: &TextReader<'_>) -> Result<Whole, BuildError>
    ensures text { IfOk result (λ whole. whole ≡ text_tree text.now) }
    ensures long { result ≡ Err TooLong → 2 ^ 29 ≤ length text.now + 1 }
{
    let mut bytes = Vec::with_capacity(alloc, text.len().saturating_add(1))?;
    text.bytes().append_to(&mut bytes)?;
    bytes.push(0)?;
    bytes_of(bytes)
}

/// A copy of data.
pub fn data_copy(alloc: Global, bytes: &DataReader<'_>) -> Result<Whole, BuildError>
    ensures data { IfOk result (λ whole. whole ≡ bytes_tree bytes.now) }
    ensures long { result ≡ Err TooLong → 2 ^ 29 ≤ length bytes.now }
{
    bytes_of(bytes.to_vec(alloc)?)
}

/// A tree whose capabilities get their places. `TooLong` says that no message can hold it.
pub fn placed(tree: Tree, places: &[Option<u32>]) -> Result<Whole, BuildError>
    ensures placed { IfOk result (λ whole. whole ≡ placed places.now (node_of tree)) }
    ensures long { result ≡ Err TooLong → ¬ (Shaped (placed places.now (node_of tree))) }
{
    let mut tree = tree;
    place(&mut tree, places);
    match Whole::new(tree) {
        Ok(whole) => Ok(whole),
        Err(_) => Err(BuildError::TooLong),
    }
}

/// Marks each capability that a tree names, of as many as there are marks.
#[cycle(mark)]
pub fn mark_named(tree: &Tree, marks: &mut Vec<bool>)
    ensures { Marks (names (node_of tree.now)) marks.old.items marks.new.items }
{
    match tree {
        Tree::Cap(index) => mark(*index, marks),
        Tree::Struct(body) => mark_row(&body.ptrs, marks),
        Tree::Ptrs(trees) => mark_row(trees, marks),
        Tree::Structs { items, .. } => mark_bodies(items, marks),
        _ => {}
    }
}

/// Gives the capabilities of a tree their places.
#[cycle(place)]
fn place(tree: &mut Tree, places: &[Option<u32>])
    ensures { node_of tree.new ≡ placed places.now (node_of tree.old) }
{
    match tree {
        Tree::Cap(index) => *tree = pointer_at(*index, places),
        Tree::Struct(body) => place_body(body, places),
        Tree::Ptrs(trees) => place_row(trees, places),
        Tree::Structs { items, .. } => place_bodies(items, places),
        _ => {}
    }
}

/// Gives the capabilities of trees their places.
#[cycle(place)]
fn place_row(trees: &mut Vec<Tree>, places: &[Option<u32>])
    ensures { nodes_of (map node_of trees.new.items) ≡ placed_nodes places.now (nodes_of (map node_of trees.old.items)) }
{
    for i in 0..trees.len() {
        place(&mut trees[i], places);
    }
}

/// Gives the capabilities of structs their places.
#[cycle(place)]
fn place_bodies(items: &mut Vec<Body>, places: &[Option<u32>])
    ensures { bodies_of (map body_of items.new.items) ≡ placed_bodies places.now (bodies_of (map body_of items.old.items)) }
{
    for i in 0..items.len() {
        place_body(&mut items[i], places);
    }
}

/// Gives the capabilities of a struct their places.
#[cycle(place)]
fn place_body(body: &mut Body, places: &[Option<u32>])
    ensures words { (body_of body.new).0 ≡ (body_of body.old).0 }
    ensures pointers { (body_of body.new).1 ≡ placed_nodes places.now (body_of body.old).1 }
{
    place_row(&mut body.ptrs, places);
}

/// Marks each capability that trees name.
#[cycle(mark)]
fn mark_row(trees: &[Tree], marks: &mut Vec<bool>)
    ensures { Marks (names_one (nodes_of (map node_of trees.now))) marks.old.items marks.new.items }
{
    for tree in trees {
        mark_named(tree, marks);
    }
}

/// Marks each capability that structs name.
#[cycle(mark)]
fn mark_bodies(items: &[Body], marks: &mut Vec<bool>)
    ensures { Marks (names_in (bodies_of (map body_of items.now))) marks.old.items marks.new.items }
{
    for body in items {
        mark_row(&body.ptrs, marks);
    }
}

/// Marks this capability, if there is a mark for it.
fn mark(index: u32, marks: &mut Vec<bool>)
    ensures { Marks (names (cap index)) marks.old.items marks.new.items }
{
    let place = index as usize;
    if place < marks.len() {
        marks[place] = true;
    }
}

/// The pointer to a capability that had this place.
fn pointer_at(index: u32, places: &[Option<u32>]) -> Tree
    ensures { node_of result ≡ pointer_to (get_or places.now index None) }
{
    match places.get(index as usize) {
        Some(Some(place)) => Tree::Cap(*place),
        _ => Tree::Null,
    }
}

/// The empty list whose elements have this size.
fn empty_list(alloc: Global, size: ElementSize) -> Tree
    ensures list { IsListOf size [] (node_of result) }
    ensures shaped { Shaped (node_of result) }
{
    match size {
        ElementSize::Void => Tree::Voids(0),
        ElementSize::Bit => Tree::Bits(Vec::new(alloc)),
        ElementSize::Byte => Tree::Bytes(Vec::new(alloc)),
        ElementSize::TwoBytes => Tree::Halves(Vec::new(alloc)),
        ElementSize::FourBytes => Tree::Quads(Vec::new(alloc)),
        ElementSize::EightBytes => Tree::Words(Vec::new(alloc)),
        ElementSize::Pointer => Tree::Ptrs(Vec::new(alloc)),
        ElementSize::Composite => Tree::Structs {
            words: 0,
            ptrs: 0,
            items: Vec::new(alloc),
        },
    }
}
