//! Parts of owned trees, looked at where they stand.

ghost use Rattle.std.specs.Prelude.{◌≡◌, ◌≤◌, map, Decides};
ghost use Rattle.cp_tree.specs.Node.{depth, cost};
ghost use Rattle.cp_tree.specs.NodeOf.{node_of};
ghost use Rattle.cp_messages.specs.Fields.{items_of};
ghost use Rattle.cp_rpc.specs.Looked.{look_of};
ghost use Rattle.cp_rpc.specs.OwnedNode.{body_node};

use crate::source::{Source, SourceKind};
use crate::text::{is_text, text_at};
use cp_fields::PointerReader;
use cp_messages::Text;
use cp_tree::{Body, BodyRef, Object, Tree, Whole, fits, nests};
use std::alloc::{AllocError, Global};
use std::marker::Model;

/// A part of a tree: a null pointer past a struct's end, a tree, or an element of a composite
/// list.
#[derive(Clone, Copy)]
pub(crate) enum TreePart<'a> {
    Null,
    Tree(&'a Tree),
    Body(&'a Body),
}

/// A part of an owned tree that a message can hold, looked at where it is. Contracts see it as
/// its tree.
/// It isn't `cp_fields::PointerReader`, which may be any tree: here a message can hold the tree, by its type.
#[derive(Drop)]
pub struct Owned<'a> {
    part: TreePart<'a>,
}

impl<'a> Model for Owned<'a> {
    ghost use Rattle.cp_tree.specs.Node.{Node};
    ghost use Rattle.cp_tree.specs.Code.{tree_code};

    ghost Value = { Node };

    ghost coded = { tree_code };

    ghost use Rattle.cp_tree.specs.Shaped.{Shaped};
    ghost use Rattle.cp_rpc.specs.OwnedNode.{part_node};

    ghost view = { λ o. part_node o.part };

    ghost invariant = { λ o. Shaped (part_node o.part) };
}

impl<'a> Owned<'a> {
    ghost use Rattle.std.specs.Prelude.{◌≡◌};
    ghost use Rattle.cp_tree.specs.Node.{null, IsStruct};
    ghost use Rattle.cp_tree.specs.NodeOf.{node_of};
    ghost use Rattle.cp_tree.specs.Shaped.{Shaped};

    /// The root of a message.
    pub fn root(root: &'a Object) -> Owned<'a>
        ensures same { result ≡ root.now }
        ensures is_struct { IsStruct result }
    {
        Owned::of(root.tree())
    }

    /// A null pointer.
    fn null() -> Owned<'a>
        ensures { result ≡ null }
    {
        Owned {
            part: TreePart::Null,
        }
    }

    /// The tree.
    fn of(tree: &'a Tree) -> Owned<'a>
        requires { Shaped (node_of tree.now) }
        ensures { result ≡ node_of tree.now }
    {
        Owned {
            part: TreePart::Tree(tree),
        }
    }
}

impl<'a> Source for Owned<'a> {
    ghost seen = { λ o. o };

    fn source_kind(&self) -> SourceKind {
        match self.part {
            TreePart::Null => SourceKind::Null,
            TreePart::Body(_) => SourceKind::Struct,
            TreePart::Tree(tree) => look_at(tree),
        }
    }

    fn data(&self) -> &[u64] {
        match self.part {
            TreePart::Null => &[],
            TreePart::Tree(tree) => tree.data(),
            TreePart::Body(body) => &body.words,
        }
    }

    fn pointer(&self, i: u32) -> Owned<'a> {
        match self.part {
            TreePart::Null => Owned::null(),
            TreePart::Tree(tree) => match tree.pointer(i) {
                Some(tree) => Owned::of(tree),
                None => Owned::null(),
            },
            TreePart::Body(body) => match body.pointer(i) {
                Some(tree) => Owned::of(tree),
                None => Owned::null(),
            },
        }
    }

    fn item(&self, i: usize) -> Owned<'a> {
        let TreePart::Tree(tree) = self.part else {
            // Only a composite list has elements.
            unreachable!();
        };
        Owned {
            part: TreePart::Body(&items_in(tree)[i]),
        }
    }

    fn is_text(&self) -> bool {
        match self.part {
            TreePart::Tree(tree) => is_text(PointerReader::of_tree(tree)),
            TreePart::Null | TreePart::Body(_) => false,
        }
    }

    fn text(&self, alloc: Global) -> Result<Text, AllocError> {
        match self.part {
            TreePart::Tree(tree) => text_at(alloc, PointerReader::of_tree(tree)),
            TreePart::Null | TreePart::Body(_) => Ok(Text::new(String::new(alloc))),
        }
    }

    fn fits(&self, nesting: u32, traversal: u64) -> bool {
        match self.part {
            TreePart::Null => true,
            TreePart::Tree(tree) => fits(tree, nesting, traversal),
            TreePart::Body(body) => body_fits(body, nesting, traversal),
        }
    }

    fn whole(&self, alloc: Global) -> Result<Whole, AllocError> {
        match self.part {
            TreePart::Null => Ok(Whole::null()),
            TreePart::Tree(tree) => tree.copy(alloc),
            TreePart::Body(body) => body.copy(alloc),
        }
    }
}

/// What a tree is.
fn look_at(tree: &Tree) -> SourceKind
    ensures { result ≡ look_of (node_of tree.now) }
{
    match tree {
        Tree::Null => SourceKind::Null,
        Tree::Struct(_) => SourceKind::Struct,
        Tree::Structs { items, .. } => SourceKind::Items(items.as_slice().len()),
        Tree::Bytes(items) => SourceKind::Bytes(items.len()),
        _ => SourceKind::Other,
    }
}

/// The elements of a composite list.
fn items_in(tree: &Tree) -> &[Body]
    ensures { map body_node result.now ≡ items_of (node_of tree.now) }
{
    match tree {
        Tree::Structs { items, .. } => items.as_slice(),
        _ => &[],
    }
}

/// Whether a struct's depth and cost are no more than this.
fn body_fits(body: &Body, nesting: u32, traversal: u64) -> bool
    ensures { Decides result ((depth (body_node body.now) ≤ nesting) × (cost (body_node body.now) ≤ traversal)) }
{
    if nesting == 0 {
        return false;
    }
    let lent = BodyRef::of(body);
    let price = 1 + lent.words.len() as u64 + lent.ptrs.len() as u64;
    let mut budget = traversal.checked_sub(price);
    for tree in lent.ptrs {
        if !nests(tree, nesting - 1, &mut budget) {
            return false;
        }
    }
    budget.is_some()
}
