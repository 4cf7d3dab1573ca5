//! Copies of trees.

ghost use Rattle.std.specs.Prelude.{◌≡◌, map, IfOk};
ghost use Rattle.cp_tree.specs.DraftOf.{draft_of};
ghost use Rattle.cp_tree.specs.Lent.{node_in, row_in, body_in, bodies_in, elements_in};
ghost use Rattle.cp_tree.specs.Node.{struct, list as list_node};
ghost use Rattle.cp_tree.specs.NodeOf.{node_of, body_of};
ghost use Rattle.cp_tree.specs.Shaped.{Shaped};

use crate::draft::Draft;
use crate::lent::{BodiesRef, BodyRef, ListRef, RowRef, Top, TreeRef};
use crate::tree::{Body, Tree};
use crate::whole::Whole;
use std::alloc::{AllocError, Global};

impl Tree {
    /// An equal tree, owned, of one that a message can hold.
    pub fn copy(&self, alloc: Global) -> Result<Whole, AllocError>
        requires { Shaped (node_of self.now) }
        ensures { IfOk result (λ w. w ≡ node_of self.now) }
    {
        Ok(Whole::from_shaped(tree_copy(alloc, TreeRef::Tree(self))?))
    }
}

impl Body {
    /// An equal struct, owned, of one that a message can hold.
    pub fn copy(&self, alloc: Global) -> Result<Whole, AllocError>
        requires { Shaped (struct (body_of self.now).0 (body_of self.now).1) }
        ensures { IfOk result (λ w. w ≡ struct (body_of self.now).0 (body_of self.now).1) }
    {
        Ok(Whole {
            tree: Tree::Struct(body_copy(alloc, BodyRef::of(self))?),
        })
    }
}

impl<'a> Draft<'a> {
    /// An owned copy of the tree, of one that a message can hold.
    pub fn copy(&self, alloc: Global) -> Result<Whole, AllocError>
        requires { Shaped (draft_of self.now) }
        ensures { IfOk result (λ w. w ≡ draft_of self.now) }
    {
        Ok(Whole::from_shaped(tree_copy(alloc, TreeRef::Draft(self))?))
    }
}

/// An equal tree, of any, whether a message can hold it or not. `AllocError` if memory runs out.
#[cycle(copy)]
pub fn tree_copy(alloc: Global, tree: TreeRef) -> Result<Tree, AllocError>
    ensures { IfOk result (λ t. node_of t ≡ node_in tree.entry) }
{
    match tree.top() {
        Top::Null => Ok(Tree::Null),
        Top::Cap(index) => Ok(Tree::Cap(index)),
        Top::List(list) => list_copy(alloc, list),
        Top::Struct(body) => Ok(Tree::Struct(body_copy(alloc, body)?)),
        Top::Ptrs(trees) => Ok(Tree::Ptrs(row_copy(alloc, trees)?)),
        Top::Structs(list) => Ok(Tree::Structs {
            words: list.words,
            ptrs: list.ptrs,
            items: bodies_copy(alloc, list.items)?,
        }),
    }
}

/// An equal struct.
#[cycle(copy)]
fn body_copy(alloc: Global, body: BodyRef) -> Result<Body, AllocError>
    ensures { IfOk result (λ b. body_of b ≡ body_in body.entry) }
{
    Ok(Body {
        words: Vec::from_slice(alloc, body.words)?,
        ptrs: row_copy(alloc, body.ptrs)?,
    })
}

/// Equal trees.
#[cycle(copy)]
fn row_copy(alloc: Global, trees: RowRef) -> Result<Vec<Tree>, AllocError>
    ensures { IfOk result (λ v. map node_of v.items ≡ row_in trees.entry) }
{
    let mut found = Vec::with_capacity(alloc, trees.len())?;
    for tree in trees {
        found.push(tree_copy(alloc, tree)?)?;
    }
    Ok(found)
}

/// Equal structs.
#[cycle(copy)]
fn bodies_copy(alloc: Global, bodies: BodiesRef) -> Result<Vec<Body>, AllocError>
    ensures { IfOk result (λ v. map body_of v.items ≡ bodies_in bodies.entry) }
{
    let mut found = Vec::with_capacity(alloc, bodies.len())?;
    for body in bodies {
        found.push(body_copy(alloc, body)?)?;
    }
    Ok(found)
}

/// An equal list.
fn list_copy(alloc: Global, list: ListRef) -> Result<Tree, AllocError>
    ensures { IfOk result (λ t. node_of t ≡ list_node (elements_in list.entry)) }
{
    Ok(match list {
        ListRef::Voids(count) => Tree::Voids(count),
        ListRef::Bits(items) => Tree::Bits(Vec::from_slice(alloc, items)?),
        ListRef::Bytes(items) => Tree::Bytes(Vec::from_slice(alloc, items)?),
        ListRef::TwoBytes(items) => Tree::Halves(Vec::from_slice(alloc, items)?),
        ListRef::FourBytes(items) => Tree::Quads(Vec::from_slice(alloc, items)?),
        ListRef::Words(items) => Tree::Words(Vec::from_slice(alloc, items)?),
    })
}
