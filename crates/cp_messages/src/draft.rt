//! The parts of trees that messages are written as.

ghost use Rattle.std.specs.Prelude.{◌≡◌, [], ◌∷◌, map, IfOk};
ghost use Rattle.cp_tree.specs.Node.{null, struct, structs};
ghost use Rattle.cp_tree.specs.NodeOf.{nodes_of, bodies_of};
ghost use Rattle.cp_tree.specs.DraftOf.{draft_of, draft_body_of};
ghost use Rattle.cp_tree.specs.Shaped.{Shaped};

use cp_tree::{Draft, DraftBody, Tree, Whole};
use std::alloc::{AllocError, Global};

/// A struct's data words, where it has no pointers.
pub(crate) fn words_of<'a>(alloc: Global, words: &[u64]) -> Result<DraftBody<'a>, AllocError>
    ensures { IfOk result (λ b. draft_body_of b ≡ (words.now, nodes_of [])) }
{
    with_words(alloc, words, Vec::new(alloc))
}

/// A struct's data words and its one pointer.
pub(crate) fn body_of<'a>(
    alloc: Global,
    words: &[u64],
    ptr: Draft<'a>,
) -> Result<DraftBody<'a>, AllocError>
    ensures { IfOk result (λ b. draft_body_of b ≡ (words.now, nodes_of (draft_of ptr.entry ∷ []))) }
{
    with_words(alloc, words, vec![in alloc; ptr]?)
}

/// A struct of these data words and one pointer.
pub(crate) fn struct_of<'a>(
    alloc: Global,
    words: &[u64],
    ptr: Draft<'a>,
) -> Result<Draft<'a>, AllocError>
    ensures { IfOk result (λ d. draft_of d ≡ struct words.now (nodes_of (draft_of ptr.entry ∷ []))) }
{
    struct_with(alloc, words, vec![in alloc; ptr]?)
}

/// A struct of these data words and two pointers.
pub(crate) fn pair_of<'a>(
    alloc: Global,
    words: &[u64],
    first: Draft<'a>,
    second: Draft<'a>,
) -> Result<Draft<'a>, AllocError>
    ensures { IfOk result (λ d. draft_of d ≡ struct words.now (nodes_of (draft_of first.entry ∷ draft_of second.entry ∷ []))) }
{
    struct_with(alloc, words, vec![in alloc; first, second]?)
}

/// A struct of these data words and three pointers.
pub(crate) fn triple_of<'a>(
    alloc: Global,
    words: &[u64],
    first: Draft<'a>,
    second: Draft<'a>,
    third: Draft<'a>,
) -> Result<Draft<'a>, AllocError>
    ensures { IfOk result (λ d. draft_of d ≡ struct words.now (nodes_of (draft_of first.entry ∷ draft_of second.entry ∷ draft_of third.entry ∷ []))) }
{
    struct_with(alloc, words, vec![in alloc; first, second, third]?)
}

/// A composite list of these elements, each of this many data words and pointers.
pub(crate) fn list_of<'a>(words: u16, ptrs: u16, items: Vec<DraftBody<'a>>) -> Draft<'a>
    ensures { draft_of result ≡ structs words ptrs (bodies_of (map draft_body_of items.entry.items)) }
{
    Draft::Structs { words, ptrs, items }
}

/// A tree that is lent.
pub(crate) fn lent<'a>(tree: &'a Whole) -> Draft<'a>
    ensures tree { draft_of result ≡ tree.now }
    ensures shaped { Shaped tree.now }
{
    Draft::Lent(tree.tree())
}

/// A null pointer.
pub(crate) fn null<'a>() -> Draft<'a>
    ensures { draft_of result ≡ null }
{
    Draft::Own(Tree::Null)
}

/// A struct's data words, and its pointers.
fn with_words<'a>(
    alloc: Global,
    words: &[u64],
    ptrs: Vec<Draft<'a>>,
) -> Result<DraftBody<'a>, AllocError>
    ensures { IfOk result (λ b. draft_body_of b ≡ (words.now, nodes_of (map draft_of ptrs.entry.items))) }
{
    let words = Vec::from_slice(alloc, words)?;
    Ok(DraftBody { words, ptrs })
}

/// A struct of these data words and pointers.
fn struct_with<'a>(
    alloc: Global,
    words: &[u64],
    ptrs: Vec<Draft<'a>>,
) -> Result<Draft<'a>, AllocError>
    ensures { IfOk result (λ d. draft_of d ≡ struct words.now (nodes_of (map draft_of ptrs.entry.items))) }
{
    Ok(Draft::Struct(with_words(alloc, words, ptrs)?))
}
