//! The fields of contents.

ghost use Rattle.std.specs.Prelude.{◌≡◌, ℕ, List, IfSome, IfNone, slice_index_or};
ghost use Rattle.cp_tree.specs.Node.{data_of};
ghost use Rattle.cp_tree.specs.Seen.{pointee_of};
ghost use Rattle.cp_servants.specs.PayloadFields.{IsBytes, IsNoBytes, HoldText, IsText, IsNoText, HasResults, HasNone};

use cp_refs::Outcome;
use cp_tree::{Tree, Whole};
use std::str;

/// The content of results. Of another outcome there is none.
pub fn results_of(outcome: &Outcome) -> Option<&Whole>
    ensures results { IfSome result (λ content. HasResults outcome.now content.now) }
    ensures none { IfNone result (HasNone outcome.now) }
{
    match outcome {
        Outcome::Results { content, .. } => Some(content),
        _ => None,
    }
}

/// A data word of a struct. Past its end, and of a content that is no struct, it is 0.
pub fn word_in(content: &Whole, place: usize) -> u64
    ensures { result ≡ slice_index_or (data_of content.now) place 0 }
{
    content.tree().data().get(place).copied().unwrap_or(0)
}

/// The bytes that a pointer of a struct stands for: data, or a text with the zero byte that ends it. `None` says that it
/// stands for no list of bytes.
pub fn data_in(content: &Whole, place: u32) -> Option<&[u8]>
    ensures bytes { IfSome result (λ bytes. IsBytes (pointee_of content.now place) bytes.now) }
    ensures none { IfNone result (IsNoBytes (pointee_of content.now place)) }
{
    match content.tree().pointer(place) {
        Some(Tree::Bytes(bytes)) => Some(bytes),
        _ => None,
    }
}

/// The text that a pointer of a struct stands for: UTF-8, and a zero byte after it. `None` says that it stands for none.
pub fn text_in(content: &Whole, place: u32) -> Option<&str>
    ensures text { IfSome result (λ text. IsText (pointee_of content.now place) text.now) }
    ensures none { IfNone result (IsNoText (pointee_of content.now place)) }
{
    let bytes = data_in(content, place)?;
    text_of(bytes)
}

/// The text that bytes hold: UTF-8, and a zero byte after it.
fn text_of(bytes: &[u8]) -> Option<&str>
    ensures text { IfSome result (λ text. HoldText bytes.now text.now) }
    ensures none { IfNone result ((text : List ℕ) → HoldText bytes.now text → ⊥) }
{
    if bytes.is_empty() {
        return None;
    }
    let last = bytes.len() - 1;
    if bytes[last] != 0 {
        return None;
    }
    match str::from_utf8(&bytes[..last]) {
        Ok(text) => Some(text),
        Err(_) => None,
    }
}
