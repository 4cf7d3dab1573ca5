//! The elements of a list, where they lie.

ghost use Rattle.std.specs.Prelude.{◌≡◌, ◌<◌, length, map, slice_index_or};
ghost use Rattle.cp_tree.specs.Node.{null};
ghost use Rattle.cp_tree.specs.NodeOf.{node_of};
ghost use Rattle.cp_fields.specs.Constants.{constant_of};
ghost use Rattle.cp_fields.specs.Items.{items_of};
ghost use Rattle.cp_fields.specs.Rows.{tree_item, body_item};

use crate::constant::{Constant, ConstantBody, bit_value, list_count, list_number};
use crate::data::packed_at;
use crate::kind::element_bits;
use crate::pointer_reader::PointerReader;
use crate::structure::StructReader;
use cp_reading::View;
use cp_tree::{Shape, Tree};
use cp_words::ElementSize;
use std::marker::Model;

/// Where the elements of a list lie.
#[derive(Drop)]
pub(crate) enum Row<'a> {
    /// No list: a null pointer.
    Null,
    /// A list that is read in place: of voids, of numbers of this many bits that words hold, of pointers, or of structs.
    Voids(View<'a>),
    Packed(View<'a>, &'a [u64], usize),
    Pointers(View<'a>),
    Structs(View<'a>),
    /// A list that is owned.
    Owned(&'a Tree),
    /// A list that is a constant.
    Constant(&'a Constant<'a>),
}

/// The elements of a list, each seen as a struct. Contracts see it as the list's tree.
#[derive(Drop)]
pub(crate) struct Elements<'a> {
    row: Row<'a>,
    count: usize,
}

impl<'a> Model for Elements<'a> {
    ghost use Rattle.cp_tree.specs.Node.{Node};
    ghost use Rattle.cp_tree.specs.Code.{tree_code};

    ghost Value = { Node };

    ghost coded = { tree_code };

    ghost use Rattle.cp_fields.specs.Rows.{row_tree, IsRow};

    ghost view = { λ e. row_tree e.row };

    ghost invariant = { λ e. IsRow e.row e.count };
}

impl<'a> Elements<'a> {
    ghost use Rattle.std.specs.Prelude.{◌≡◌, ◌<◌, [], length, slice_index_or};
    ghost use Rattle.cp_tree.specs.Node.{null};
    ghost use Rattle.cp_tree.specs.NodeOf.{node_of};
    ghost use Rattle.cp_fields.specs.Constants.{constant_of};
    ghost use Rattle.cp_fields.specs.Items.{items_of};
    ghost use Rattle.cp_fields.specs.Rows.{row_tree, IsRow};

    /// None: a null pointer stands for the empty list.
    #[inline(always)]
    pub(crate) fn null() -> Elements<'a>
        ensures { result ≡ null }
    {
        Elements::new(Row::Null, 0)
    }

    /// Those of a list that is read in place. Any other tree has none.
    #[inline(always)]
    pub(crate) fn of_view(view: View<'a>) -> Elements<'a>
        ensures { result ≡ view.entry }
    {
        match view.shape() {
            Shape::List { size, count } => match size {
                ElementSize::Void => Elements::new(Row::Voids(view), count as usize),
                ElementSize::Pointer => Elements::new(Row::Pointers(view), count as usize),
                // A composite list doesn't come here: its shape is `Structs`.
                ElementSize::Composite => Elements::new(Row::Voids(view), 0),
                _ => {
                    let words = view.words();
                    let row = Row::Packed(view, words, element_bits(size) as usize);
                    Elements::new(row, count as usize)
                }
            },
            Shape::Structs { count, .. } => Elements::new(Row::Structs(view), count as usize),
            _ => Elements::new(Row::Voids(view), 0),
        }
    }

    /// Those of a list that is owned.
    pub(crate) fn of_tree(tree: &'a Tree) -> Elements<'a>
        ensures { result ≡ node_of tree.now }
    {
        Elements::new(Row::Owned(tree), owned_count(tree))
    }

    /// Those of a list that is a constant.
    pub(crate) fn of_constant(tree: &'a Constant<'a>) -> Elements<'a>
        ensures { result ≡ constant_of tree.now }
    {
        Elements::new(Row::Constant(tree), constant_count(tree))
    }

    /// A row of this many elements.
    #[inline(always)]
    fn new(row: Row<'a>, count: usize) -> Elements<'a>
        requires { IsRow row count }
        ensures { result ≡ row_tree row.entry }
    {
        Elements { row, count }
    }

    /// The number of elements.
    #[inline(always)]
    pub(crate) fn len(&self) -> usize
        ensures { result ≡ length (items_of self.now) }
    {
        self.count
    }

    /// Element `i`.
    #[inline(always)]
    pub(crate) fn get(&self, i: usize) -> StructReader<'a>
        requires { i < length (items_of self.now) }
        ensures { result ≡ slice_index_or (items_of self.now) i null }
    {
        match &self.row {
            // It has no elements.
            Row::Null => unreachable!(),
            Row::Voids(_) => StructReader::of_number(0),
            Row::Packed(_, words, width) => StructReader::of_number(packed_at(words, *width, i)),
            Row::Pointers(view) => StructReader::of_pointer(PointerReader::of_view(view.child(
                i as u32,
            ))),
            Row::Structs(view) => StructReader::of_struct(view.child(i as u32)),
            Row::Owned(tree) => owned_item(tree, i),
            Row::Constant(tree) => constant_item(tree, i),
        }
    }

    /// What the list's pointer stands for.
    pub(crate) fn pointer(&self) -> PointerReader<'a>
        ensures { result ≡ self.now }
    {
        match &self.row {
            Row::Null => PointerReader::null(),
            Row::Voids(view) => PointerReader::of_view(view.reborrow()),
            Row::Packed(view, _, _) => PointerReader::of_view(view.reborrow()),
            Row::Pointers(view) => PointerReader::of_view(view.reborrow()),
            Row::Structs(view) => PointerReader::of_view(view.reborrow()),
            Row::Owned(tree) => PointerReader::of_tree(tree),
            Row::Constant(tree) => PointerReader::of_constant(tree),
        }
    }
}

/// The number of elements of a list that is owned.
fn owned_count(tree: &Tree) -> usize
    ensures { result ≡ length (items_of (node_of tree.now)) }
{
    match tree {
        Tree::Voids(count) => *count as usize,
        Tree::Bits(items) => items.len(),
        Tree::Bytes(items) => items.len(),
        Tree::Halves(items) => items.len(),
        Tree::Quads(items) => items.len(),
        Tree::Words(items) => items.len(),
        Tree::Ptrs(items) => items.len(),
        Tree::Structs { items, .. } => items.len(),
        Tree::Null | Tree::Cap(_) | Tree::Struct(_) => 0,
    }
}

/// Element `i` of a list that is owned.
fn owned_item(tree: &Tree, i: usize) -> StructReader<'_>
    requires { i < length (items_of (node_of tree.now)) }
    ensures { result ≡ slice_index_or (items_of (node_of tree.now)) i null }
{
    match tree {
        Tree::Voids(_) => StructReader::of_number(0),
        Tree::Bits(items) => StructReader::of_number(bit_value(items[i])),
        Tree::Bytes(items) => StructReader::of_number(items[i] as u64),
        Tree::Halves(items) => StructReader::of_number(items[i] as u64),
        Tree::Quads(items) => StructReader::of_number(items[i] as u64),
        Tree::Words(items) => StructReader::of_number(items[i]),
        Tree::Ptrs(items) => StructReader::of_pointer(PointerReader::of_tree(&items[i])),
        Tree::Structs { items, .. } => StructReader::of_body(&items[i]),
        // These have no elements.
        Tree::Null | Tree::Cap(_) | Tree::Struct(_) => unreachable!(),
    }
}

/// The number of elements of a list that is a constant.
fn constant_count(tree: &Constant<'_>) -> usize
    ensures { result ≡ length (items_of (constant_of tree.now)) }
{
    match tree {
        Constant::List(items) => list_count(items),
        Constant::Ptrs(items) => items.len(),
        Constant::Structs { items, .. } => items.len(),
        Constant::Null | Constant::Struct(_) => 0,
    }
}

/// Element `i` of a list that is a constant.
fn constant_item<'a>(tree: &'a Constant<'a>, i: usize) -> StructReader<'a>
    requires { i < length (items_of (constant_of tree.now)) }
    ensures { result ≡ slice_index_or (items_of (constant_of tree.now)) i null }
{
    match tree {
        Constant::List(items) => StructReader::of_number(list_number(items, i)),
        Constant::Ptrs(items) => constant_pointer(items, i),
        Constant::Structs { items, .. } => constant_struct(items, i),
        // These have no elements.
        Constant::Null | Constant::Struct(_) => unreachable!(),
    }
}

/// Element `i` of a list of pointers that is a constant.
fn constant_pointer<'a>(items: &'a [Constant<'a>], i: usize) -> StructReader<'a>
    requires { i < length (map tree_item items.now) }
    ensures { result ≡ slice_index_or (map tree_item items.now) i null }
{
    StructReader::of_pointer(PointerReader::of_constant(&items[i]))
}

/// Element `i` of a list of structs that is a constant.
fn constant_struct<'a>(items: &'a [ConstantBody<'a>], i: usize) -> StructReader<'a>
    requires { i < length (map body_item items.now) }
    ensures { result ≡ slice_index_or (map body_item items.now) i null }
{
    StructReader::of_constant_body(&items[i])
}
