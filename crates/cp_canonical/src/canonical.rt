//! The canonical form of trees and messages.

ghost use Rattle.std.specs.Prelude.{◌≡◌, ◌≤◌, ℕ, List, IfOk, IfErr, IfSome, OnOk, None, length};
ghost use Rattle.cp_tree.specs.Shaped.{Shaped};
ghost use Rattle.cp_tree.specs.declared.fault.WriteFault.TheVariants.{OutOfMemory};
ghost use Rattle.cp_canonical.specs.declared.fault.CanonicalFault.TheVariants.{Write};
ghost use Rattle.cp_canonical.specs.Canonical.{AnswersForm, DifferFirst, IsCanonicalMessage, IsCanonicalOf, IsFormOf, IsMessageRefusal, IsNotCanonical, IsRefusalOf};

use crate::arena::Arena;
use crate::fault::CanonicalFault;
use crate::fit::segments_fit;
use crate::lay::lay;
use cp_reading::View;
use cp_words::{Limits, Place, Segments};
use std::alloc::Global;

/// The words of the canonical form of a tree that is read in place (encoding specification, "Canonicalization"): the one
/// segment of its message, without a segment table.
pub fn canonical_of(alloc: Global, view: &View, limits: Limits) -> Result<Vec<u64>, CanonicalFault>
    ensures canonical { IfOk result (λ v. IsCanonicalOf view.now v.items) }
    ensures small { IfOk result (λ v. length v.items ≤ limits.frame_words) }
    ensures refused { IfErr result (IsRefusalOf limits view.now) }
{
    let mut arena = Arena::new(alloc, limits.frame_words() as usize)?;
    // For the proof, that the tree is shaped.
    view.shape();
    lay(&mut arena, 0, view)?;
    let Arena { words, most: _ } = arena;
    Ok(words)
}

/// The words of the canonical form of a message, as `canonical_of` gives them.
pub fn canonical_message(
    alloc: Global,
    segments: &Segments,
    limits: Limits,
) -> Result<Vec<u64>, CanonicalFault>
    ensures canonical { IfOk result (λ v. IsFormOf segments.now limits v.items) }
    // The canonical form is written, unless memory runs out.
    ensures only { (ws : List ℕ) → IsFormOf segments.now limits ws → AnswersForm result ws }
    ensures refused { IfErr result (IsMessageRefusal segments.now limits) }
{
    let view = View::root(segments, limits)?;
    segments_fit(segments.lists());
    canonical_of(alloc, &view, limits)
}

/// Whether a message is canonical: it has one segment, of the words that `canonical_message` gives.
pub fn is_canonical(
    alloc: Global,
    segments: &Segments,
    limits: Limits,
) -> Result<(), CanonicalFault>
    ensures canonical { OnOk result (IsCanonicalMessage segments.now limits) }
    // A canonical message is taken, unless memory runs out.
    ensures only { IsCanonicalMessage segments.now limits → IfErr result (λ e. e ≡ Write OutOfMemory) }
    ensures refused { IfErr result (IsNotCanonical segments.now limits) }
{
    let canonical = canonical_message(alloc, segments, limits)?;
    let lists = segments.lists();
    let found = difference(&lists[0], &canonical);
    drop(canonical);
    if let Some(word) = found {
        return Err(CanonicalFault::Difference(Place { segment: 0, word }));
    }
    if lists.len() > 1 {
        return Err(CanonicalFault::Difference(Place {
            segment: 1,
            word: 0,
        }));
    }
    Ok(())
}

/// The first place where two lists of words differ.
fn difference(words: &[u64], others: &[u64]) -> Option<usize>
    ensures same { result ≡ None → words.now ≡ others.now }
    ensures first { IfSome result (DifferFirst words.now others.now) }
{
    for i in 0..words.len().min(others.len()) {
        if words[i] != others[i] {
            return Some(i);
        }
    }
    if words.len() == others.len() {
        None
    } else {
        Some(words.len().min(others.len()))
    }
}
