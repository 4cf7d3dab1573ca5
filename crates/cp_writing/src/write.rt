//! Trees, written into segments.

ghost use Rattle.std.specs.Prelude.{◌≡◌, ◌≤◌, ◌<◌, ◌∷◌, [], sum, length, map, IfOk, OnOk, IfErr};
ghost use Rattle.cp_writing.specs.Layout.{Layout, Built};
ghost use Rattle.cp_tree.specs.Node.{cost};
ghost use Rattle.cp_tree.specs.DraftOf.{draft_of};
ghost use Rattle.cp_tree.specs.Lent.{node_in};
ghost use Rattle.cp_tree.specs.Shaped.{Shaped};
ghost use Rattle.cp_writing.specs.Sheets.{written};
ghost use Rattle.cp_writing.specs.Strips.{words_on};
ghost use Rattle.cp_writing.specs.Writes.{AreBytesOf, IsCostFaultOf, IsWriteFaultOf, FitsIn};
ghost use Rattle.cp_writing.specs.LaidOut.{capacity_for, laid_out, MeetsLimit};

use crate::arena::{Arena, Capacity};
use crate::block::Block;
use crate::lay::lay;
use crate::strip::Strip;
use cp_tree::{Draft, Object, TreeRef, WriteFault, nests};
use cp_words::{Limits, Place, Segments};
use std::alloc::Global;

/// Writes a tree with lent parts, of one that a message can hold, into segments of at most this many
/// words, in the order of its pointers (encoding specification, "Messages", "Inter-Segment
/// Pointers"). 0 counts as 1. What doesn't fit in its pointer's segment goes after a landing pad of one word;
/// a body that is larger than a segment has a segment of its own. B1 if the tree nests deeper than the
/// limit, else B2 if it costs more, else B4 if its segments have more words together than a frame may
/// have; B3 if memory runs out.
pub fn write_draft(
    alloc: Global,
    draft: &Draft,
    max_words: u32,
    limits: Limits,
) -> Result<Segments, WriteFault>
    requires shaped { Shaped (draft_of draft.now) }
    ensures layout { IfOk result (λ s. Layout s (record { words = max_words; segments = limits.segments }) (draft_of draft.now)) }
    ensures fits { OnOk result (FitsIn limits (draft_of draft.now)) }
    ensures small { IfOk result (λ s. (length s ≤ limits.segments) × (sum (map length s) ≤ limits.frame_words)) }
    ensures refused { IfErr result (IsWriteFaultOf limits (record { words = max_words; segments = limits.segments }) (draft_of draft.now)) }
{
    write_draft_over(alloc, Vec::new(alloc), draft, max_words, limits)
}

/// Writes a tree with lent parts as `write_draft` does, the first segment over what a buffer holds, whose memory is
/// used again.
pub fn write_draft_over(
    alloc: Global,
    buffer: Vec<u64>,
    draft: &Draft,
    max_words: u32,
    limits: Limits,
) -> Result<Segments, WriteFault>
    requires shaped { Shaped (draft_of draft.now) }
    ensures layout { IfOk result (λ s. Layout s (record { words = max_words; segments = limits.segments }) (draft_of draft.now)) }
    ensures fits { OnOk result (FitsIn limits (draft_of draft.now)) }
    ensures small { IfOk result (λ s. (length s ≤ limits.segments) × (sum (map length s) ≤ limits.frame_words)) }
    ensures refused { IfErr result (IsWriteFaultOf limits (record { words = max_words; segments = limits.segments }) (draft_of draft.now)) }
{
    write_tree(alloc, buffer, TreeRef::Draft(draft), max_words, limits)
}

/// Writes the tree into segments of at most this many words, as `write_draft` writes it lent.
pub fn write_segments(
    alloc: Global,
    object: &Object,
    max_words: u32,
    limits: Limits,
) -> Result<Segments, WriteFault>
    ensures layout { IfOk result (λ s. Layout s (record { words = max_words; segments = limits.segments }) object.now) }
    ensures fits { OnOk result (FitsIn limits object.now) }
    ensures small { IfOk result (λ s. (length s ≤ limits.segments) × (sum (map length s) ≤ limits.frame_words)) }
    ensures refused { IfErr result (IsWriteFaultOf limits (record { words = max_words; segments = limits.segments }) object.now) }
{
    let tree = TreeRef::Tree(object.tree());
    write_tree(alloc, Vec::new(alloc), tree, max_words, limits)
}

/// Writes the tree into one segment, in the order of its pointers (encoding specification,
/// "Messages"). B1 if the tree nests deeper than the limit, else B2 if it costs more, else B4 if its
/// words are more than a frame may have; B3 if memory runs out.
pub fn write_root(alloc: Global, object: &Object, limits: Limits) -> Result<Vec<u64>, WriteFault>
    ensures built { IfOk result (λ v. Built object.now v.items) }
    ensures fits { OnOk result (FitsIn limits object.now) }
    ensures small { IfOk result (λ v. length v.items ≤ limits.frame_words) }
    ensures refused { IfErr result (IsWriteFaultOf limits (record { words = limits.frame_words; segments = 1 }) object.now) }
{
    let tree = TreeRef::Tree(object.tree());
    let arena = lay_out(
        alloc,
        Strip::Words(Vec::new(alloc)),
        tree,
        // One segment, which only B4 bounds.
        limits.frame_words(),
        1,
        limits,
    )?;
    Ok(arena.into_last()?)
}

/// Writes a tree with lent parts, of one that a message can hold, into one segment, as `write_root` writes a tree, and gives
/// its bytes, over what a buffer holds, whose memory is used again: eight zero bytes, in the place of a segment
/// table, and then eight bytes for each word, the lowest first (encoding specification, "Messages"). B1 if the tree
/// nests deeper than the limit, else B2 if it costs more, else B4 if its words are more than a frame may have; B3 if
/// memory runs out. At an error the buffer is let go.
pub fn write_draft_bytes(
    alloc: Global,
    buffer: Vec<u8>,
    draft: &Draft,
    limits: Limits,
) -> Result<Vec<u8>, WriteFault>
    requires shaped { Shaped (draft_of draft.now) }
    ensures built { IfOk result (λ b. AreBytesOf limits (draft_of draft.now) b.items) }
    ensures fits { OnOk result (FitsIn limits (draft_of draft.now)) }
    ensures refused { IfErr result (IsWriteFaultOf limits (record { words = limits.frame_words; segments = 1 }) (draft_of draft.now)) }
{
    let strip = Strip::Bytes(Block::new(buffer)?);
    let tree = TreeRef::Draft(draft);
    let arena = lay_out(alloc, strip, tree, limits.frame_words(), 1, limits)?;
    Ok(arena.into_bytes()?)
}

/// Writes a tree, of one that a message can hold, into segments as `write_draft_over` writes one with lent parts.
fn write_tree(
    alloc: Global,
    buffer: Vec<u64>,
    tree: TreeRef,
    max_words: u32,
    limits: Limits,
) -> Result<Segments, WriteFault>
    requires shaped { Shaped (node_in tree) }
    ensures layout { IfOk result (λ s. Layout s (record { words = max_words; segments = limits.segments }) (node_in tree.entry)) }
    ensures fits { OnOk result (FitsIn limits (node_in tree.entry)) }
    ensures small { IfOk result (λ s. (length s ≤ limits.segments) × (sum (map length s) ≤ limits.frame_words)) }
    ensures refused { IfErr result (IsWriteFaultOf limits (record { words = max_words; segments = limits.segments }) (node_in tree.entry)) }
{
    let words = if max_words == 0 { 1 } else { max_words };
    let strip = Strip::over(buffer);
    let arena = lay_out(alloc, strip, tree, words, limits.segments(), limits)?;
    Ok(arena.into_segments()?)
}

/// The tree written into segments of at most this many words each, and of them at most this many, the first
/// on a strip that holds no words.
fn lay_out(
    alloc: Global,
    strip: Strip,
    tree: TreeRef,
    words: u32,
    segments: u32,
    limits: Limits,
) -> Result<Arena, WriteFault>
    requires blank { words_on strip ≡ [] }
    requires shaped { Shaped (node_in tree) }
    requires few { segments ≤ 512 }
    ensures written { IfOk result (λ w. written w ≡ laid_out (capacity_for words segments limits) (node_in tree.entry)) }
    ensures fits { OnOk result (FitsIn limits (node_in tree.entry)) }
    ensures within { IfOk result (λ w. (written w).words ≤ limits.frame_words) }
    ensures small { IfOk result (λ w. (written w).words ≤ 67108864) }
    ensures refused { IfErr result (MeetsLimit limits (capacity_for words segments limits) (node_in tree.entry)) }
{
    let capacity = Capacity {
        words: words as usize,
        segments: segments as usize,
        whole: limits.frame_words() as usize,
    };
    let mut arena = Arena::new(alloc, strip, capacity, limits.traversal() as u64)?;
    let root = Place {
        segment: 0,
        word: 0,
    };
    match lay(&mut arena, root, tree, limits.nesting()) {
        Ok(()) => Ok(arena),
        // The walk ended before the limits were known, so B3 stands.
        Err(WriteFault::OutOfMemory) => Err(WriteFault::OutOfMemory),
        Err(fault) => {
            // The first limit that was met may not be the one to report: B1 comes before B2, and both before
            // B4. Testing them in a pass beforehand took half as long again.
            keeps_to(tree, limits)?;
            Err(fault)
        }
    }
}

/// Whether the tree keeps to the limits on nesting and on cost.
#[cold]
fn keeps_to(tree: TreeRef, limits: Limits) -> Result<(), WriteFault>
    ensures fits { OnOk result (FitsIn limits (node_in tree.entry)) }
    ensures refused { IfErr result (IsCostFaultOf limits (node_in tree.entry)) }
{
    let mut budget = Some(limits.traversal() as u64);
    if !nests(tree, limits.nesting(), &mut budget) {
        return Err(WriteFault::TooDeep);
    }
    match budget {
        Some(_) => Ok(()),
        None => Err(WriteFault::TooCostly),
    }
}
