//! The results of the samples.

ghost use Rattle.std.specs.Prelude.{◌≡◌, IfOk, map};
ghost use Rattle.cp_tree.specs.Node.{struct};
ghost use Rattle.cp_tree.specs.NodeOf.{node_of, nodes_of};
ghost use Rattle.cp_servants.specs.Samples.{word_results, object_results};

use cp_refs::{Cap, Caps, Outcome};
use cp_tree::{Body, Tree, Whole};
use std::alloc::{AllocError, Global};

/// Results of one data word.
pub(crate) fn word_results(alloc: Global, word: u64) -> Result<Outcome, AllocError>
    ensures { IfOk result (λ o. o ≡ word_results word) }
{
    let tree = struct_of(vec![in alloc; word]?, Vec::new(alloc));
    Ok(Outcome::Results {
        content: Whole::from_shaped(tree),
        caps: Caps::new(Vec::new(alloc)),
    })
}

/// Results of one pointer, to this object.
pub(crate) fn object_results(alloc: Global, object: u32) -> Result<Outcome, AllocError>
    ensures { IfOk result (λ o. o ≡ object_results object) }
{
    let tree = struct_of(Vec::new(alloc), vec![in alloc; Tree::Cap(0)]?);
    Ok(Outcome::Results {
        content: Whole::from_shaped(tree),
        caps: Caps::new(vec![in alloc; Cap::Object(object)]?),
    })
}

/// A struct of these parts.
fn struct_of(words: Vec<u64>, ptrs: Vec<Tree>) -> Tree
    ensures { node_of result ≡ struct words.items (nodes_of (map node_of ptrs.items)) }
{
    Tree::Struct(Body { words, ptrs })
}
