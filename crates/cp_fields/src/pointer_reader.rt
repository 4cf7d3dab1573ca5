//! What a pointer stands for, in a message or in an owned tree.

ghost use Rattle.std.specs.Prelude.{◌≡◌, ◌↔◌, IsTrue, IfOk};
ghost use Rattle.cp_tree.specs.Node.{null};
ghost use Rattle.cp_tree.specs.NodeOf.{node_of};
ghost use Rattle.cp_fields.specs.Kinds.{kind_of};

use crate::constant::{Constant, constant_copy, constant_kind};
use crate::kind::{Kind, WrongKind};
use cp_reading::View;
use cp_tree::{Object, Shape, Tree, TreeRef, Whole, tree_copy};
use cp_words::ElementSize;
use std::alloc::{AllocError, Global};
use std::marker::Model;

/// What a pointer stands for, where it lies.
#[derive(Drop)]
pub(crate) enum Part<'a> {
    Null,
    View(View<'a>),
    Tree(&'a Tree),
    Constant(&'a Constant<'a>),
}

/// What a pointer stands for, where it lies: the value of a field of the type AnyPointer. Contracts see
/// it as its tree.
pub struct PointerReader<'a> {
    pub(crate) part: Part<'a>,
}

// Not derived: a crate that lets one go calls this function, and need not prove the drop of all that it holds.
impl<'a> Drop for PointerReader<'a> {
    #[inline(always)]
    fn drop(self) {
        let PointerReader { part: _ } = self;
    }
}

impl<'a> Model for PointerReader<'a> {
    ghost use Rattle.cp_tree.specs.Node.{Node};
    ghost use Rattle.cp_tree.specs.Code.{tree_code};

    ghost Value = { Node };

    ghost coded = { tree_code };

    ghost use Rattle.cp_fields.specs.Parts.{part_node};

    ghost view = { λ p. part_node p.part };
}

impl<'a> PointerReader<'a> {
    ghost use Rattle.std.specs.Prelude.{◌≡◌, ◌↔◌, IsTrue, IfOk};
    ghost use Rattle.cp_tree.specs.Node.{null};
    ghost use Rattle.cp_tree.specs.NodeOf.{node_of};
    ghost use Rattle.cp_fields.specs.Constants.{constant_of};
    ghost use Rattle.cp_fields.specs.Kinds.{kind_of};
    ghost use Rattle.cp_fields.specs.Parts.{part_node};
    ghost use Rattle.cp_fields.specs.Pointers.{cap_field, or_default};

    /// A null pointer.
    #[inline(always)]
    pub fn null() -> PointerReader<'a>
        ensures { result ≡ null }
    {
        PointerReader { part: Part::Null }
    }

    /// What is read in place.
    #[inline(always)]
    pub fn of_view(view: View<'a>) -> PointerReader<'a>
        ensures { result ≡ view.entry }
    {
        PointerReader {
            part: Part::View(view),
        }
    }

    /// A tree that is owned.
    pub fn of_tree(tree: &'a Tree) -> PointerReader<'a>
        ensures { result ≡ node_of tree.now }
    {
        PointerReader {
            part: Part::Tree(tree),
        }
    }

    /// A tree that is owned, and that a message can hold.
    pub fn of_whole(whole: &'a Whole) -> PointerReader<'a>
        ensures { result ≡ whole.now }
    {
        PointerReader::of_tree(whole.tree())
    }

    /// A tree that is a constant of the program.
    pub fn of_constant(tree: &'a Constant<'a>) -> PointerReader<'a>
        ensures { result ≡ constant_of tree.now }
    {
        PointerReader {
            part: Part::Constant(tree),
        }
    }

    /// A struct that is owned, and that a message can hold.
    pub fn of_object(object: &'a Object) -> PointerReader<'a>
        ensures { result ≡ object.now }
    {
        PointerReader::of_tree(object.tree())
    }

    /// The same once more.
    pub fn reborrow(&self) -> PointerReader<'a>
        ensures { result ≡ self.now }
    {
        match &self.part {
            Part::Null => PointerReader::null(),
            Part::View(view) => PointerReader::of_view(view.reborrow()),
            Part::Tree(tree) => PointerReader::of_tree(tree),
            Part::Constant(tree) => PointerReader::of_constant(tree),
        }
    }

    /// Where it lies.
    #[inline(always)]
    pub(crate) fn into_part(self) -> Part<'a>
        ensures { part_node result ≡ self.entry }
    {
        let PointerReader { part } = self;
        part
    }

    /// Its kind.
    pub fn kind(&self) -> Kind
        ensures { result ≡ kind_of self.now }
    {
        match &self.part {
            Part::Null => Kind::Null,
            Part::View(view) => view_kind(view),
            Part::Tree(tree) => tree_kind(tree),
            Part::Constant(tree) => constant_kind(tree),
        }
    }

    /// Whether it is null.
    #[inline(always)]
    pub fn is_null(&self) -> bool
        ensures { IsTrue result ↔ (self.now ≡ null) }
    {
        match &self.part {
            Part::Null => true,
            Part::View(view) => matches!(view.shape(), Shape::Null),
            Part::Tree(tree) => matches!(tree, Tree::Null),
            Part::Constant(tree) => matches!(tree, Constant::Null),
        }
    }

    /// This, or where it is null, a default.
    pub fn or(self, default: PointerReader<'a>) -> PointerReader<'a>
        ensures { result ≡ or_default self.entry default.entry }
    {
        if self.is_null() { default } else { self }
    }

    /// A capability's index in the table that goes with the message; null is none (encoding
    /// specification, "Capabilities (Interfaces)").
    pub fn cap(&self) -> Result<Option<u32>, WrongKind>
        ensures { result ≡ cap_field self.now }
    {
        match &self.part {
            Part::Null => Ok(None),
            Part::View(view) => match view.shape() {
                Shape::Null => Ok(None),
                Shape::Cap(index) => Ok(Some(index)),
                _ => Err(self.wrong(Kind::Capability)),
            },
            Part::Tree(tree) => match tree {
                Tree::Null => Ok(None),
                Tree::Cap(index) => Ok(Some(*index)),
                _ => Err(self.wrong(Kind::Capability)),
            },
            Part::Constant(tree) => match tree {
                Constant::Null => Ok(None),
                _ => Err(self.wrong(Kind::Capability)),
            },
        }
    }

    /// The tree, owned.
    pub fn tree(&self, alloc: Global) -> Result<Tree, AllocError>
        ensures { IfOk result (λ t. node_of t ≡ self.now) }
    {
        Ok(match &self.part {
            Part::Null => Tree::Null,
            Part::View(view) => view.tree(alloc)?.into_tree(),
            Part::Tree(tree) => tree_copy(alloc, TreeRef::Tree(tree))?,
            Part::Constant(tree) => constant_copy(alloc, tree)?,
        })
    }

    /// That this is of another kind than a field's type wants.
    #[cold]
    pub(crate) fn wrong(&self, wanted: Kind) -> WrongKind
        ensures { result ≡ record { wanted = wanted; found = kind_of self.now } }
    {
        WrongKind {
            wanted,
            found: self.kind(),
        }
    }
}

/// The kind of what is read in place.
fn view_kind(view: &View<'_>) -> Kind
    ensures { result ≡ kind_of view.now }
{
    match view.shape() {
        Shape::Null => Kind::Null,
        Shape::Cap(_) => Kind::Capability,
        Shape::Struct { .. } => Kind::Struct,
        Shape::List { size, .. } => Kind::List(size),
        Shape::Structs { .. } => Kind::List(ElementSize::Composite),
    }
}

/// The kind of an owned tree.
fn tree_kind(tree: &Tree) -> Kind
    ensures { result ≡ kind_of (node_of tree.now) }
{
    match tree {
        Tree::Null => Kind::Null,
        Tree::Cap(_) => Kind::Capability,
        Tree::Struct(_) => Kind::Struct,
        Tree::Voids(_) => Kind::List(ElementSize::Void),
        Tree::Bits(_) => Kind::List(ElementSize::Bit),
        Tree::Bytes(_) => Kind::List(ElementSize::Byte),
        Tree::Halves(_) => Kind::List(ElementSize::TwoBytes),
        Tree::Quads(_) => Kind::List(ElementSize::FourBytes),
        Tree::Words(_) => Kind::List(ElementSize::EightBytes),
        Tree::Ptrs(_) => Kind::List(ElementSize::Pointer),
        Tree::Structs { .. } => Kind::List(ElementSize::Composite),
    }
}
