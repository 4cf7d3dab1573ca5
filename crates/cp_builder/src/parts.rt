//! What pointer fields are written as (encoding specification, "Lists").

ghost use Rattle.std.specs.Prelude.{◌≡◌, ◌<◌, ◌≤◌, ◌+◌, ◌^◌, ◌++◌, ◌∷◌, [], Err, IfOk, IfErr, IsTrue, IsFalse, length, map};
ghost use Rattle.cp_tree.specs.Node.{list, ptrs, voids, bytes, halves, quads, words};
ghost use Rattle.cp_tree.specs.NodeOf.{node_of, nodes_of};
ghost use Rattle.cp_tree.specs.Shaped.{ElementsFit, EachShaped};
ghost use Rattle.cp_builder.specs.Drafts.{text_tree, bits_tree, bytes_tree, halves_tree, quads_tree, words_tree, cap_tree};
ghost use Rattle.cp_builder.specs.declared.fault.BuildError.TheVariants.{TooLong};

use crate::fault::BuildError;
use cp_tree::{Tree, Whole};
use std::alloc::{AllocError, Global};

/// The number of elements that a list has fewer of.
const MOST: usize = 0x2000_0000;

/// A text: its bytes, and a zero byte after them.
#[inline]
pub fn text_of(alloc: Global, text: &str) -> Result<Whole, BuildError>
    ensures text { IfOk result (λ whole. whole ≡ text_tree text.now) }
    ensures long { result ≡ Err TooLong → 2 ^ 29 ≤ length text.now + 1 }
{
    bytes_of(with_zero(alloc, text.as_bytes())?)
}

/// A list of this many elements without bits.
pub fn voids_of(count: u32) -> Result<Whole, BuildError>
    ensures list { IfOk result (λ whole. whole ≡ list (voids count)) }
    ensures long { IfErr result (λ fault. (fault ≡ TooLong) × (2 ^ 29 ≤ count)) }
{
    if count as usize >= MOST {
        return Err(BuildError::TooLong);
    }
    Ok(Whole::from_shaped(Tree::Voids(count)))
}

/// A list of bits.
pub fn bits_of(items: Vec<bool>) -> Result<Whole, BuildError>
    ensures list { IfOk result (λ whole. whole ≡ bits_tree items.items) }
    ensures long { IfErr result (λ fault. (fault ≡ TooLong) × (2 ^ 29 ≤ length items.items)) }
{
    if items.len() >= MOST {
        return Err(BuildError::TooLong);
    }
    Ok(Whole::from_shaped(Tree::Bits(items)))
}

/// A list of bytes, or data.
#[inline]
pub fn bytes_of(items: Vec<u8>) -> Result<Whole, BuildError>
    ensures list { IfOk result (λ whole. whole ≡ bytes_tree items.items) }
    ensures long { IfErr result (λ fault. (fault ≡ TooLong) × (2 ^ 29 ≤ length items.items)) }
{
    if !are_bytes(&items) {
        return Err(BuildError::TooLong);
    }
    Ok(Whole::from_shaped(Tree::Bytes(items)))
}

/// A list of numbers of 16 bits.
pub fn two_bytes_of(items: Vec<u16>) -> Result<Whole, BuildError>
    ensures list { IfOk result (λ whole. whole ≡ halves_tree items.items) }
    ensures long { IfErr result (λ fault. (fault ≡ TooLong) × (2 ^ 29 ≤ length items.items)) }
{
    if !are_two_bytes(&items) {
        return Err(BuildError::TooLong);
    }
    Ok(Whole::from_shaped(Tree::Halves(items)))
}

/// A list of numbers of 32 bits.
pub fn four_bytes_of(items: Vec<u32>) -> Result<Whole, BuildError>
    ensures list { IfOk result (λ whole. whole ≡ quads_tree items.items) }
    ensures long { IfErr result (λ fault. (fault ≡ TooLong) × (2 ^ 29 ≤ length items.items)) }
{
    if !are_four_bytes(&items) {
        return Err(BuildError::TooLong);
    }
    Ok(Whole::from_shaped(Tree::Quads(items)))
}

/// A list of numbers of 64 bits.
pub fn words_of(items: Vec<u64>) -> Result<Whole, BuildError>
    ensures list { IfOk result (λ whole. whole ≡ words_tree items.items) }
    ensures long { IfErr result (λ fault. (fault ≡ TooLong) × (2 ^ 29 ≤ length items.items)) }
{
    if !are_words(&items) {
        return Err(BuildError::TooLong);
    }
    Ok(Whole::from_shaped(Tree::Words(items)))
}

/// A capability: its index in the table that goes with the message.
pub fn cap_of(index: u32) -> Whole
    ensures { result ≡ cap_tree index }
{
    Whole::from_shaped(Tree::Cap(index))
}

/// A list of pointers: texts, data, lists, or structs of any kind.
pub fn pointers_of(alloc: Global, items: Vec<Whole>) -> Result<Whole, BuildError>
    ensures list { IfOk result (λ whole. whole ≡ ptrs (nodes_of items.items)) }
    ensures long { result ≡ Err TooLong → 2 ^ 29 ≤ length items.items }
{
    if items.len() >= MOST {
        return Err(BuildError::TooLong);
    }
    Ok(Whole::from_shaped(Tree::Ptrs(trees_of(alloc, items)?)))
}

/// Bytes with a zero byte after them.
#[inline]
fn with_zero(alloc: Global, bytes: &[u8]) -> Result<Vec<u8>, AllocError>
    ensures { IfOk result (λ ended. ended.items ≡ bytes.now ++ 0 ∷ []) }
{
    let mut ended = Vec::with_capacity(alloc, bytes.len() + 1)?;
    ended.extend_from_slice(bytes)?;
    ended.push(0)?;
    Ok(ended)
}

/// The trees themselves.
pub(crate) fn trees_of(alloc: Global, wholes: Vec<Whole>) -> Result<Vec<Tree>, AllocError>
    ensures trees { IfOk result (λ trees. map node_of trees.items ≡ wholes.items) }
    ensures shaped { IfOk result (λ trees. EachShaped (nodes_of (map node_of trees.items))) }
{
    let mut trees = Vec::with_capacity(alloc, wholes.len())?;
    for whole in wholes {
        trees.push(whole.into_tree())?;
    }
    Ok(trees)
}

/// Whether a list of bytes is short enough.
/// It takes a slice, whose type tells the proof that each item fits its bits.
fn are_bytes(items: &[u8]) -> bool
    ensures fit { IsTrue result → ElementsFit (bytes items.now) }
    ensures long { IsFalse result → 2 ^ 29 ≤ length items.now }
{
    items.len() < MOST
}

/// Whether a list of numbers of 16 bits is short enough.
fn are_two_bytes(items: &[u16]) -> bool
    ensures fit { IsTrue result → ElementsFit (halves items.now) }
    ensures long { IsFalse result → 2 ^ 29 ≤ length items.now }
{
    items.len() < MOST
}

/// Whether a list of numbers of 32 bits is short enough.
fn are_four_bytes(items: &[u32]) -> bool
    ensures fit { IsTrue result → ElementsFit (quads items.now) }
    ensures long { IsFalse result → 2 ^ 29 ≤ length items.now }
{
    items.len() < MOST
}

/// Whether a list of numbers of 64 bits is short enough.
fn are_words(items: &[u64]) -> bool
    ensures fit { IsTrue result → ElementsFit (words items.now) }
    ensures long { IsFalse result → 2 ^ 29 ≤ length items.now }
{
    items.len() < MOST
}
