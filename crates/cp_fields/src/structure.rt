//! Structs that are looked at by the places of their fields (encoding specification, "Structs").

ghost use Rattle.std.specs.Prelude.{◌≡◌, ◌<◌, ◌^◌, [], slice_index, map, IfOk};
ghost use Rattle.cp_tree.specs.Elements.{element};
ghost use Rattle.cp_tree.specs.Node.{struct, data_of, no_nodes, IsStruct, count};
ghost use Rattle.cp_tree.specs.NodeOf.{node_of, body_of, nodes_of};
ghost use Rattle.cp_tree.specs.Seen.{pointee_of};
ghost use Rattle.cp_fields.specs.Constants.{constant_of, constant_body_of};
ghost use Rattle.cp_fields.specs.Items.{number_item, pointer_item};
ghost use Rattle.cp_fields.specs.Parts.{data_in, pointers_in, HaveStruct};
ghost use Rattle.cp_fields.specs.Pointers.{pointers_of, struct_field, text_field, data_field, cap_field, list_field, or_default};

use crate::bytes::DataReader;
use crate::constant::{Constant, ConstantBody, pointers_copy};
use crate::element::Element;
use crate::kind::{Kind, WrongKind};
use crate::list::List;
use crate::pointer_reader::{Part, PointerReader};
use crate::text::TextReader;
use cp_reading::View;
use cp_tree::{Body, Shape, Tree, TreeRef, tree_copy};
use std::alloc::{AllocError, Global};
use std::marker::Model;

/// The data words of a struct: those of a body, or a number alone, as an element of a list of numbers has.
#[derive(Clone, Copy)]
pub(crate) enum Data<'a> {
    Words(&'a [u64]),
    Number(u64),
}

/// The pointers of a struct: those of a body, or a pointer alone, as an element of a list of pointers has.
#[derive(Drop)]
pub(crate) enum Pointers<'a> {
    Nulls,
    View(View<'a>),
    Body(&'a Body),
    Constant(&'a ConstantBody<'a>),
    Only(PointerReader<'a>),
}

/// A struct, where it lies. Its fields are read by their places: number `i` of a width counts numbers of
/// that width from the start of the data section, and what lies past the end is zero or null. Contracts
/// see it as its tree.
pub struct StructReader<'a> {
    data: Data<'a>,
    pointers: Pointers<'a>,
}

// Not derived: a crate that lets one go calls this function, and need not prove the drop of all that it holds.
impl<'a> Drop for StructReader<'a> {
    #[inline(always)]
    fn drop(self) {
        let StructReader {
            data: _,
            pointers: _,
        } = self;
    }
}

impl<'a> Model for StructReader<'a> {
    ghost use Rattle.cp_tree.specs.Node.{Node, struct};
    ghost use Rattle.cp_tree.specs.Code.{tree_code};

    ghost Value = { Node };

    ghost coded = { tree_code };

    ghost use Rattle.cp_fields.specs.Parts.{data_in, pointers_in, HaveStruct};

    ghost view = { λ s. struct (data_in s.data) (pointers_in s.pointers) };

    ghost invariant = { λ s. HaveStruct s.pointers };
}

impl<'a> StructReader<'a> {
    ghost use Rattle.std.specs.Prelude.{◌≡◌, ◌<◌, ◌^◌, [], slice_index, IfOk};
    ghost use Rattle.cp_tree.specs.Elements.{element};
    ghost use Rattle.cp_tree.specs.Node.{struct, data_of, no_nodes, IsStruct};
    ghost use Rattle.cp_tree.specs.NodeOf.{node_of, body_of};
    ghost use Rattle.cp_tree.specs.Seen.{pointee_of};
    ghost use Rattle.cp_fields.specs.Constants.{constant_of, constant_body_of};
    ghost use Rattle.cp_fields.specs.Items.{number_item, pointer_item};
    ghost use Rattle.cp_fields.specs.Pointers.{pointers_of, struct_field, text_field, data_field, cap_field, list_field, or_default};

    /// The struct that a pointer stands for. Null stands for the struct whose fields are all as by
    /// default.
    #[inline(always)]
    pub fn of(at: PointerReader<'a>) -> Result<StructReader<'a>, WrongKind>
        ensures { result ≡ struct_field at.entry }
    {
        match at.into_part() {
            Part::Null => Ok(StructReader::empty()),
            Part::View(view) => of_view(view),
            Part::Tree(tree) => of_tree(tree),
            Part::Constant(tree) => of_constant(tree),
        }
    }

    /// The struct whose fields are all as by default.
    pub fn empty() -> StructReader<'a>
        ensures { result ≡ struct [] no_nodes }
    {
        StructReader::of_data(&[])
    }

    /// The same once more.
    pub fn reborrow(&self) -> StructReader<'a>
        ensures { result ≡ self.now }
    {
        let pointers = pointers_again(&self.pointers);
        StructReader {
            data: self.data,
            pointers,
        }
    }

    /// What pointer `i` stands for.
    #[inline(always)]
    pub fn pointer(&self, i: u32) -> PointerReader<'a>
        ensures { result ≡ pointee_of self.now i }
    {
        match &self.pointers {
            Pointers::Nulls => PointerReader::null(),
            Pointers::View(view) => PointerReader::of_view(view.child(i)),
            Pointers::Body(body) => match body.pointer(i) {
                Some(tree) => PointerReader::of_tree(tree),
                None => PointerReader::null(),
            },
            Pointers::Constant(body) => match body.pointer(i) {
                Some(tree) => PointerReader::of_constant(tree),
                None => PointerReader::null(),
            },
            Pointers::Only(only) => {
                if i == 0 {
                    only.reborrow()
                } else {
                    PointerReader::null()
                }
            }
        }
    }

    /// What pointer `i` stands for; null stands for the default.
    #[inline]
    pub fn pointer_or(&self, i: u32, default: &'a Constant<'a>) -> PointerReader<'a>
        ensures { result ≡ or_default (pointee_of self.now i) (constant_of default.now) }
    {
        self.pointer(i).or(PointerReader::of_constant(default))
    }

    /// The struct at pointer `i`.
    #[inline]
    pub fn structure(&self, i: u32) -> Result<StructReader<'a>, WrongKind>
        ensures { result ≡ struct_field (pointee_of self.now i) }
    {
        StructReader::of(self.pointer(i))
    }

    /// The struct at pointer `i`; null is the default.
    #[inline]
    pub fn structure_or(
        &self,
        i: u32,
        default: &'a Constant<'a>,
    ) -> Result<StructReader<'a>, WrongKind>
        ensures { result ≡ struct_field (or_default (pointee_of self.now i) (constant_of default.now)) }
    {
        StructReader::of(self.pointer_or(i, default))
    }

    /// The text at pointer `i`; null is the empty text.
    #[inline]
    pub fn text(&self, i: u32) -> Result<TextReader<'a>, WrongKind>
        ensures { result ≡ text_field [] (pointee_of self.now i) }
    {
        TextReader::of(self.pointer(i), "")
    }

    /// The text at pointer `i`; null is the default.
    #[inline]
    pub fn text_or(&self, i: u32, default: &'a str) -> Result<TextReader<'a>, WrongKind>
        ensures { result ≡ text_field default.now (pointee_of self.now i) }
    {
        TextReader::of(self.pointer(i), default)
    }

    /// The data at pointer `i`; null is no bytes.
    #[inline]
    pub fn data(&self, i: u32) -> Result<DataReader<'a>, WrongKind>
        ensures { result ≡ data_field [] (pointee_of self.now i) }
    {
        DataReader::of(self.pointer(i), &[])
    }

    /// The data at pointer `i`; null is the default.
    #[inline]
    pub fn data_or(&self, i: u32, default: &'a [u8]) -> Result<DataReader<'a>, WrongKind>
        ensures { result ≡ data_field default.now (pointee_of self.now i) }
    {
        DataReader::of(self.pointer(i), default)
    }

    /// The list at pointer `i`; null is the empty list.
    #[inline]
    pub fn list<T: Element<'a>>(&self, i: u32) -> Result<List<'a, T>, WrongKind>
        ensures { result ≡ list_field T.SIZE (pointee_of self.now i) }
    {
        List::of(self.pointer(i))
    }

    /// The list at pointer `i`; null is the default.
    #[inline]
    pub fn list_or<T: Element<'a>>(
        &self,
        i: u32,
        default: &'a Constant<'a>,
    ) -> Result<List<'a, T>, WrongKind>
        ensures { result ≡ list_field T.SIZE (or_default (pointee_of self.now i) (constant_of default.now)) }
    {
        List::of(self.pointer_or(i, default))
    }

    /// The index of the capability at pointer `i` in the table that goes with the message; null is none.
    #[inline]
    pub fn cap(&self, i: u32) -> Result<Option<u32>, WrongKind>
        ensures { result ≡ cap_field (pointee_of self.now i) }
    {
        self.pointer(i).cap()
    }

    /// The struct with all that it has, owned: the fields that a newer schema knows too.
    pub fn tree(&self, alloc: Global) -> Result<Tree, AllocError>
        ensures same { IfOk result (λ t. node_of t ≡ self.now) }
        ensures is_struct { IfOk result (λ t. IsStruct (node_of t)) }
    {
        Ok(Tree::Struct(Body {
            words: words_copy(alloc, &self.data)?,
            ptrs: trees_copy(alloc, &self.pointers)?,
        }))
    }

    /// Word `index` of the data section.
    #[inline(always)]
    pub(crate) fn word(&self, index: usize) -> u64
        ensures { result ≡ slice_index (data_of self.now) index }
    {
        match &self.data {
            Data::Words(words) => match words.get(index) {
                Some(word) => *word,
                None => 0,
            },
            Data::Number(number) => { if index == 0 { *number } else { 0 } }
        }
    }

    /// Number `index` of this many bits.
    #[inline(always)]
    pub(crate) fn number(&self, width: usize, index: u32) -> u64
        requires some { 0 < width }
        requires narrow { width < 64 }
        ensures value { result ≡ element (data_of self.now) width index }
        ensures fits { result < 2 ^ width }
    {
        let bit = index as usize * width;
        (self.word(bit / 64) >> (bit % 64)) % (1 << width)
    }

    /// The struct that has these data words, and no pointers.
    #[inline(always)]
    pub fn of_data(words: &'a [u64]) -> StructReader<'a>
        ensures { result ≡ struct words.now no_nodes }
    {
        StructReader {
            data: Data::Words(words),
            pointers: Pointers::Nulls,
        }
    }

    /// An element of a list of numbers.
    #[inline(always)]
    pub(crate) fn of_number(number: u64) -> StructReader<'a>
        ensures { result ≡ number_item number }
    {
        StructReader {
            data: Data::Number(number),
            pointers: Pointers::Nulls,
        }
    }

    /// The struct that has this as its one pointer, as an element of a list of pointers is read.
    #[inline(always)]
    pub fn of_pointer(pointer: PointerReader<'a>) -> StructReader<'a>
        ensures { result ≡ pointer_item pointer.entry }
    {
        StructReader {
            data: Data::Words(&[]),
            pointers: Pointers::Only(pointer),
        }
    }

    /// An owned struct.
    #[inline(always)]
    pub(crate) fn of_body(body: &'a Body) -> StructReader<'a>
        ensures { result ≡ struct (body_of body.now).0 (body_of body.now).1 }
    {
        StructReader {
            data: Data::Words(&body.words),
            pointers: Pointers::Body(body),
        }
    }

    /// A struct that is a constant.
    pub(crate) fn of_constant_body(body: &'a ConstantBody<'a>) -> StructReader<'a>
        ensures { result ≡ struct (constant_body_of body.now).0 (constant_body_of body.now).1 }
    {
        StructReader {
            data: Data::Words(body.words),
            pointers: Pointers::Constant(body),
        }
    }

    /// A struct that is read in place.
    #[inline(always)]
    pub(crate) fn of_struct(view: View<'a>) -> StructReader<'a>
        requires { IsStruct view }
        ensures { result ≡ view.entry }
    {
        StructReader {
            data: Data::Words(struct_words(&view)),
            pointers: Pointers::View(view),
        }
    }
}

/// The same pointers once more.
fn pointers_again<'a>(pointers: &Pointers<'a>) -> Pointers<'a>
    ensures same { pointers_in result ≡ pointers_in pointers.now }
    ensures kept { HaveStruct pointers.now → HaveStruct result }
{
    match pointers {
        Pointers::Nulls => Pointers::Nulls,
        Pointers::View(view) => Pointers::View(view.reborrow()),
        Pointers::Body(body) => Pointers::Body(body),
        Pointers::Constant(body) => Pointers::Constant(body),
        Pointers::Only(only) => Pointers::Only(only.reborrow()),
    }
}

/// The same data words, owned.
fn words_copy(alloc: Global, part: &Data<'_>) -> Result<Vec<u64>, AllocError>
    ensures { IfOk result (λ words. words.items ≡ data_in part.now) }
{
    match part {
        Data::Words(words) => Vec::from_slice(alloc, words),
        Data::Number(number) => Ok(vec![in alloc; *number]?),
    }
}

/// What the pointers of a struct stand for, owned.
fn trees_copy(alloc: Global, pointers: &Pointers<'_>) -> Result<Vec<Tree>, AllocError>
    requires { HaveStruct pointers.now }
    ensures { IfOk result (λ trees. nodes_of (map node_of trees.items) ≡ pointers_in pointers.now) }
{
    match pointers {
        Pointers::Nulls => Ok(Vec::new(alloc)),
        // A view gives its tree whole; the data words in it are dropped.
        Pointers::View(view) => Ok(struct_trees(alloc, view.tree(alloc)?.into_tree())),
        Pointers::Body(body) => row_copy(alloc, &body.ptrs),
        Pointers::Constant(body) => pointers_copy(alloc, body),
        Pointers::Only(only) => Ok(vec![in alloc; only.tree(alloc)?]?),
    }
}

/// What the pointers of an owned struct stand for; any other tree has none.
fn struct_trees(alloc: Global, tree: Tree) -> Vec<Tree>
    ensures { nodes_of (map node_of result.items) ≡ pointers_of (node_of tree) }
{
    match tree {
        Tree::Struct(Body { words: _, ptrs }) => ptrs,
        _ => Vec::new(alloc),
    }
}

/// Equal trees.
fn row_copy(alloc: Global, trees: &[Tree]) -> Result<Vec<Tree>, AllocError>
    ensures { IfOk result (λ v. map node_of v.items ≡ map node_of trees.now) }
{
    let mut found = Vec::with_capacity(alloc, trees.len())?;
    for tree in trees {
        found.push(tree_copy(alloc, TreeRef::Tree(tree))?)?;
    }
    Ok(found)
}

/// The data words of a struct; any other tree has none.
#[inline(always)]
fn struct_words<'a>(view: &View<'a>) -> &'a [u64]
    ensures { result.now ≡ data_of view.now }
{
    match view.shape() {
        Shape::Struct { .. } => view.words(),
        _ => &[],
    }
}

/// The struct that is read in place.
#[inline(always)]
fn of_view<'a>(view: View<'a>) -> Result<StructReader<'a>, WrongKind>
    ensures { result ≡ struct_field view.entry }
{
    match view.shape() {
        Shape::Null => Ok(StructReader::empty()),
        Shape::Struct { .. } => Ok(StructReader::of_struct(view)),
        _ => Err(PointerReader::of_view(view).wrong(Kind::Struct)),
    }
}

/// The struct that is owned.
fn of_tree(tree: &Tree) -> Result<StructReader<'_>, WrongKind>
    ensures { result ≡ struct_field (node_of tree.now) }
{
    match tree {
        Tree::Null => Ok(StructReader::empty()),
        Tree::Struct(body) => Ok(StructReader::of_body(body)),
        _ => Err(PointerReader::of_tree(tree).wrong(Kind::Struct)),
    }
}

/// The struct that is a constant.
fn of_constant<'a>(tree: &'a Constant<'a>) -> Result<StructReader<'a>, WrongKind>
    ensures { result ≡ struct_field (constant_of tree.now) }
{
    match tree {
        Constant::Null => Ok(StructReader::empty()),
        Constant::Struct(body) => Ok(StructReader::of_constant_body(body)),
        _ => Err(PointerReader::of_constant(tree).wrong(Kind::Struct)),
    }
}
