//! The pointers of trees.

ghost use Rattle.std.specs.Prelude.{◌≡◌, map, IfOk};
ghost use Rattle.cp_tree.specs.NodeOf.{node_of};
ghost use Rattle.cp_refs.specs.Kept.{pointers_of};

use cp_tree::{Body, Tree};
use std::alloc::{AllocError, Global};

/// A tree's structs without their data, and the capabilities in them. Nothing else is looked at.
#[cycle(pointers)]
pub(crate) fn pointers_of(alloc: Global, tree: &Tree) -> Result<Tree, AllocError>
    ensures { IfOk result (λ t. node_of t ≡ pointers_of (node_of tree.now)) }
{
    match tree {
        Tree::Cap(index) => Ok(Tree::Cap(*index)),
        Tree::Struct(body) => {
            let ptrs = all_pointers_of(alloc, &body.ptrs)?;
            Ok(Tree::Struct(Body {
                words: Vec::new(alloc),
                ptrs,
            }))
        }
        // No path leads into a list.
        Tree::Null
        | Tree::Voids(_)
        | Tree::Bits(_)
        | Tree::Bytes(_)
        | Tree::Halves(_)
        | Tree::Quads(_)
        | Tree::Words(_)
        | Tree::Ptrs(_)
        | Tree::Structs { .. } => Ok(Tree::Null),
    }
}

#[cycle(pointers)]
fn all_pointers_of(alloc: Global, trees: &[Tree]) -> Result<Vec<Tree>, AllocError>
    ensures { IfOk result (λ v. map node_of v.items ≡ map (λ t. pointers_of (node_of t)) trees.now) }
{
    let mut found = Vec::with_capacity(alloc, trees.len())?;
    for tree in trees {
        found.push(pointers_of(alloc, tree)?)?;
    }
    Ok(found)
}
