//! Whether a message can hold a tree.

ghost use Rattle.std.specs.Prelude.{◌≡◌, ◌<◌, ◌*◌, ◌+◌, ◌^◌, [], ◌∷◌, length, map, Decides};
ghost use Rattle.cp_tree.specs.NodeOf.{node_of, body_of, nodes_of, bodies_of};
ghost use Rattle.cp_tree.specs.Shaped.{AllFit, HasSizes, Shaped, EachShaped, EachEven};

use crate::tree::{Body, Tree};

/// Whether a message can hold the tree.
#[cycle(shaped)]
pub(crate) fn is_shaped(tree: &Tree) -> bool
    ensures { Decides result (Shaped (node_of tree.now)) }
{
    match tree {
        Tree::Null => true,
        Tree::Cap(index) => {
            // For the proof: an index fits 32 bits by its type.
            prove!(*index <= u32::MAX);
            true
        }
        Tree::Struct(body) => {
            struct_fits(&body.words, body.ptrs.len()) && row_shaped(&body.ptrs)
        }
        Tree::Voids(count) => count_fits(*count as usize),
        Tree::Bits(items) => count_fits(items.len()),
        Tree::Bytes(items) => bytes_fit(items),
        Tree::Halves(items) => halves_fit(items),
        Tree::Quads(items) => quads_fit(items),
        Tree::Words(items) => words_fit(items),
        Tree::Ptrs(items) => count_fits(items.len()) && row_shaped(items),
        Tree::Structs { words, ptrs, items } => {
            elements_fit(items.len(), *words, *ptrs) && bodies_even(*words, *ptrs, items)
        }
    }
}

/// Whether a struct's data words and pointers fit 16 bits each.
fn struct_fits(words: &[u64], ptrs: usize) -> bool
    ensures { Decides result (HasSizes (length words.now) ptrs × AllFit 64 words.now) }
{
    words.len() < 0x1_0000 && ptrs < 0x1_0000
}

/// Whether a message can hold each of the trees.
#[cycle(shaped)]
fn row_shaped(trees: &[Tree]) -> bool
    ensures { Decides result (EachShaped (nodes_of (map node_of trees.now))) }
{
    for tree in trees {
        if !is_shaped(tree) {
            return false;
        }
    }
    true
}

/// Whether a list has fewer than 2^29 elements (encoding specification, "Lists").
fn count_fits(count: usize) -> bool
    ensures { Decides result (count < 2 ^ 29) }
{
    count < 0x2000_0000
}

/// Whether a list of bytes has fewer than 2^29 of them.
fn bytes_fit(items: &[u8]) -> bool
    ensures { Decides result ((length items.now < 2 ^ 29) × AllFit 8 items.now) }
{
    items.len() < 0x2000_0000
}

/// Whether a list of 16-bit elements has fewer than 2^29 of them.
fn halves_fit(items: &[u16]) -> bool
    ensures { Decides result ((length items.now < 2 ^ 29) × AllFit 16 items.now) }
{
    items.len() < 0x2000_0000
}

/// Whether a list of 32-bit elements has fewer than 2^29 of them.
fn quads_fit(items: &[u32]) -> bool
    ensures { Decides result ((length items.now < 2 ^ 29) × AllFit 32 items.now) }
{
    items.len() < 0x2000_0000
}

/// Whether a list of 64-bit elements has fewer than 2^29 of them.
fn words_fit(items: &[u64]) -> bool
    ensures { Decides result ((length items.now < 2 ^ 29) × AllFit 64 items.now) }
{
    items.len() < 0x2000_0000
}

/// Whether this many elements of a composite list take fewer than 2^29 words together.
fn elements_fit(count: usize, words: u16, ptrs: u16) -> bool
    ensures { Decides result (HasSizes words ptrs × (count < 2 ^ 30) × (count * (words + ptrs) < 2 ^ 29)) }
{
    // A tag counts elements in 30 bits, and a list pointer counts words in 29.
    count < 0x4000_0000 && count * (words as usize + ptrs as usize) < 0x2000_0000
}

/// Whether each element of a composite list is of the list's sizes, and a message can hold its trees.
#[cycle(shaped)]
fn bodies_even(words: u16, ptrs: u16, bodies: &[Body]) -> bool
    ensures { Decides result (EachEven words ptrs (bodies_of (map body_of bodies.now))) }
{
    for body in bodies {
        if !body_even(words, ptrs, body) {
            return false;
        }
    }
    true
}

/// Whether a composite list's element is of the list's sizes, and a message can hold its trees.
#[cycle(shaped)]
fn body_even(words: u16, ptrs: u16, body: &Body) -> bool
    ensures { Decides result (EachEven words ptrs (bodies_of (body_of body.now ∷ []))) }
{
    element_fits(&body.words, body.ptrs.len(), words, ptrs) && row_shaped(&body.ptrs)
}

/// Whether a composite list's element is of the list's sizes.
fn element_fits(words: &[u64], ptrs: usize, d: u16, n: u16) -> bool
    ensures { Decides result ((length words.now ≡ d) × (ptrs ≡ n) × AllFit 64 words.now) }
{
    words.len() == d as usize && ptrs == n as usize
}
