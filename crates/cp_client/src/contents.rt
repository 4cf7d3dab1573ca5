//! Short words for the contents of calls and of outcomes.

ghost use Rattle.std.specs.Prelude.{◌≡◌, [], IfOk, map};
ghost use Rattle.cp_tree.specs.Node.{struct, no_nodes};
ghost use Rattle.cp_tree.specs.NodeOf.{node_of, nodes_of};
ghost use Rattle.cp_tree.specs.Shaped.{Shaped};
ghost use Rattle.cp_client.specs.Contents.{word_of};

use cp_refs::{Caps, Outcome, Request};
use cp_tree::{Body, Tree, Whole};
use std::alloc::{AllocError, Global};

/// A call of this method, with a struct of these data words, at most 65,535 of them: past these its content is null.
pub fn request_of(
    alloc: Global,
    interface: u64,
    method: u16,
    words: &[u64],
) -> Result<Request, AllocError>
    ensures method { IfOk result (λ r. (r.interface ≡ interface) × (r.method ≡ method) × (r.caps ≡ [])) }
    ensures content { IfOk result (λ r. Shaped (struct words.now no_nodes) → r.content ≡ struct words.now no_nodes) }
{
    let copy = Vec::from_slice(alloc, words)?;
    let content = match Whole::new(struct_of(copy, Vec::new(alloc))) {
        Ok(content) => content,
        Err(_) => Whole::null(),
    };
    Ok(Request {
        interface,
        method,
        content,
        caps: Caps::new(Vec::new(alloc)),
    })
}

/// A data word of an outcome's results. Past those that they have it is 0, and without results there is none.
pub fn word_at(outcome: &Outcome, place: usize) -> Option<u64>
    ensures { result ≡ word_of outcome.now place }
{
    match outcome {
        Outcome::Results { content, .. } => {
            Some(content.tree().data().get(place).copied().unwrap_or(0))
        }
        _ => None,
    }
}

/// A struct of these parts.
fn struct_of(words: Vec<u64>, ptrs: Vec<Tree>) -> Tree
    ensures { node_of result ≡ struct words.items (nodes_of (map node_of ptrs.items)) }
{
    Tree::Struct(Body { words, ptrs })
}
