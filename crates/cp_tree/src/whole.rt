//! Owned trees.

use crate::copy::tree_copy;
use crate::lent::TreeRef;
use crate::shaped::is_shaped;
use crate::tree::Tree;
use std::alloc::{AllocError, Global};
use std::marker::Model;

/// A tree that a message can hold, owned. Contracts see it as its tree without where it lies in
/// memory.
pub struct Whole {
    pub(crate) tree: Tree,
}

// Not derived: a crate that lets one go calls this function, and need not prove the drop of all that it holds.
impl Drop for Whole {
    fn drop(self) {
        let Whole { tree: _ } = self;
    }
}

impl Model for Whole {
    ghost use Rattle.cp_tree.specs.Node.{Node};
    ghost use Rattle.cp_tree.specs.Code.{tree_code};

    ghost Value = { Node };

    ghost coded = { tree_code };

    ghost use Rattle.cp_tree.specs.NodeOf.{node_of};
    ghost use Rattle.cp_tree.specs.Shaped.{Shaped};

    ghost view = { λ w. node_of w.tree };

    ghost invariant = { λ w. Shaped (node_of w.tree) };
}

/// A struct that a message can hold, owned. Contracts see it as its tree without where it lies in
/// memory.
pub struct Object {
    pub(crate) tree: Tree,
}

// Not derived: a crate that lets one go calls this function, and need not prove the drop of all that it holds.
impl Drop for Object {
    fn drop(self) {
        let Object { tree: _ } = self;
    }
}

impl Model for Object {
    ghost use Rattle.cp_tree.specs.Node.{Node};
    ghost use Rattle.cp_tree.specs.Code.{tree_code};

    ghost Value = { Node };

    ghost coded = { tree_code };

    ghost use Rattle.cp_tree.specs.Node.{IsStruct};
    ghost use Rattle.cp_tree.specs.NodeOf.{node_of};
    ghost use Rattle.cp_tree.specs.Shaped.{Shaped};

    ghost view = { λ o. node_of o.tree };

    ghost invariant = { λ o. IsStruct (node_of o.tree) × Shaped (node_of o.tree) };
}

impl Whole {
    ghost use Rattle.std.specs.Prelude.{◌≡◌, IfOk, IfErr};
    ghost use Rattle.cp_tree.specs.Node.{IsStruct, null};
    ghost use Rattle.cp_tree.specs.NodeOf.{node_of};
    ghost use Rattle.cp_tree.specs.Shaped.{Shaped};

    /// Holds the tree, if a message can: each number fits its bits, and the elements of a composite
    /// list are all of its sizes (encoding specification, "Structs", "Lists"). Else the tree is
    /// handed back.
    pub fn new(tree: Tree) -> Result<Whole, Tree>
        ensures held { IfOk result (λ w. (w ≡ node_of tree) × Shaped w) }
        ensures other { IfErr result (λ back. (back ≡ tree) × ¬ (Shaped (node_of tree))) }
    {
        if is_shaped(&tree) {
            Ok(Whole { tree })
        } else {
            Err(tree)
        }
    }

    /// Holds a tree that is known to be one that a message can hold. Nothing is looked at.
    pub fn from_shaped(tree: Tree) -> Whole
        requires { Shaped (node_of tree) }
        ensures { result ≡ node_of tree }
    {
        Whole { tree }
    }

    /// A null pointer.
    pub fn null() -> Whole
        ensures { result ≡ null }
    {
        Whole { tree: Tree::Null }
    }

    /// The tree, lent.
    pub fn tree(&self) -> &Tree
        ensures tree { node_of result.now ≡ self.now }
        ensures shaped { Shaped self.now }
    {
        &self.tree
    }

    /// The tree itself.
    pub fn into_tree(self) -> Tree
        ensures tree { node_of result ≡ self }
        ensures shaped { Shaped self }
    {
        let Whole { tree } = self;
        tree
    }

    /// An equal tree.
    pub fn copy(&self, alloc: Global) -> Result<Whole, AllocError>
        ensures { IfOk result (λ w. w ≡ self.now) }
    {
        Ok(Whole {
            tree: tree_copy(alloc, TreeRef::Tree(&self.tree))?,
        })
    }

    /// The same tree as an object, if it is a struct; else the tree is handed back.
    pub fn into_object(self) -> Result<Object, Whole>
        ensures object { IfOk result (λ o. (o ≡ self) × IsStruct self) }
        ensures other { IfErr result (λ w. (w ≡ self) × ¬ (IsStruct self)) }
    {
        let Whole { tree } = self;
        if matches!(tree, Tree::Struct(_)) {
            Ok(Object { tree })
        } else {
            Err(Whole { tree })
        }
    }
}

impl Object {
    ghost use Rattle.std.specs.Prelude.{◌≡◌, IfOk, IfErr};
    ghost use Rattle.cp_tree.specs.Node.{IsStruct};
    ghost use Rattle.cp_tree.specs.Seen.{pointee_of};
    ghost use Rattle.cp_tree.specs.NodeOf.{node_of};
    ghost use Rattle.cp_tree.specs.Shaped.{Shaped};

    /// Holds the tree, if it is a struct that a message can hold. Else the tree is handed back.
    pub fn new(tree: Tree) -> Result<Object, Tree>
        ensures held { IfOk result (λ o. (o ≡ node_of tree) × IsStruct o × Shaped o) }
        ensures other { IfErr result (λ back. (back ≡ tree) × ¬ (IsStruct (node_of tree) × Shaped (node_of tree))) }
    {
        if matches!(tree, Tree::Struct(_)) && is_shaped(&tree) {
            Ok(Object { tree })
        } else {
            Err(tree)
        }
    }

    /// The tree, lent.
    pub fn tree(&self) -> &Tree
        ensures tree { node_of result.now ≡ self.now }
        ensures is_struct { IsStruct self.now }
        ensures shaped { Shaped self.now }
    {
        &self.tree
    }

    /// A copy of what pointer `i` of the struct stands for. Past the end it is null.
    pub fn child(&self, alloc: Global, i: u32) -> Result<Whole, AllocError>
        ensures { IfOk result (λ w. w ≡ pointee_of self.now i) }
    {
        Ok(Whole {
            tree: match self.tree.pointer(i) {
                Some(tree) => tree_copy(alloc, TreeRef::Tree(tree))?,
                None => Tree::Null,
            },
        })
    }

    /// An equal object.
    pub fn copy(&self, alloc: Global) -> Result<Object, AllocError>
        ensures { IfOk result (λ o. o ≡ self.now) }
    {
        Ok(Object {
            tree: tree_copy(alloc, TreeRef::Tree(&self.tree))?,
        })
    }

    /// The tree itself.
    pub fn into_tree(self) -> Tree
        ensures tree { node_of result ≡ self }
        ensures is_struct { IsStruct self }
        ensures shaped { Shaped self }
    {
        let Object { tree } = self;
        tree
    }
}
