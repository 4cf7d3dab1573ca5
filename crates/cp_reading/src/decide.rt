//! Whether a word denotes a given tree, part by part: slow, for comparing with the reader.

ghost use Rattle.std.specs.Prelude.{◌≡◌, ◌<◌, ◌≤◌, ◌+◌, ◌*◌, ◌^◌, length, map, Some, IfOk, IfSome, Decides};
ghost use Rattle.cp_words.specs.Targets.{segment};
ghost use Rattle.cp_reading.specs.Locates.{Locates};
ghost use Rattle.cp_reading.specs.Denotes.{Denotes, EachDenotes, EachBody};
ghost use Rattle.cp_reading.specs.Fills.{form_of, Fills, FindsWhole, IsBodyAt};
ghost use Rattle.cp_tree.specs.NodeOf.{node_of, body_of, nodes_of, bodies_of};
ghost use Rattle.cp_words.specs.Segments.{words_of};
ghost use Rattle.cp_reading.specs.Reading.{body_words, IsWithin};
ghost use Rattle.cp_reading.specs.declared.area.Form.{Form};

use crate::area::{Area, Form, area_of};
use crate::decide_list::{list_count, list_holds};
use crate::target::{pointer_at, segment_at, target_of};
use crate::view::words_at;
use cp_tree::{Body, Tree};
use cp_words::{ElementSize, Place, Pointer, Segments};
use std::alloc::{AllocError, Global};

/// Whether a message's root word denotes the tree (encoding specification, "Messages"), without limits. It goes over the
/// tree part by part, slowly: it is to compare a reader with. The error is an allocation failure.
pub fn root_denotes(alloc: Global, segments: &Segments, tree: &Tree) -> Result<bool, AllocError>
    ensures { IfOk result (λ b. Decides b (Denotes segments.now 0 0 (node_of tree.now))) }
{
    let segments = segments.lists();
    if segment_at(segments, 0).is_empty() {
        return Ok(false);
    }
    let root = Place {
        segment: 0,
        word: 0,
    };
    denotes(alloc, segments, root, tree)
}

/// Whether a pointer word denotes the tree.
#[cycle(decide)]
fn denotes(alloc: Global, segments: &[Vec<u64>], at: Place, tree: &Tree) -> Result<bool, AllocError>
    requires { at.word < length (segment (words_of segments.now) at.segment) }
    ensures { IfOk result (λ b. Decides b (Denotes (words_of segments.now) at.segment at.word (node_of tree.now))) }
{
    match tree {
        Tree::Null => Ok(matches!(pointer_at(segments, at), Some(Pointer::Null))),
        Tree::Cap(index) => Ok(
            matches!(pointer_at(segments, at), Some(Pointer::Cap(i)) if i == *index),
        ),
        _ => match body_found(segments, at) {
            Some(area) => fills(alloc, segments, area, tree),
            None => Ok(false),
        },
    }
}

/// The body that a pointer word has.
fn body_found(segments: &[Vec<u64>], at: Place) -> Option<Area>
    requires { at.word < length (segment (words_of segments.now) at.segment) }
    ensures within { IfSome result (IsWithin (words_of segments.now)) }
    ensures small { IfSome result (λ a. a.start + body_words a.form < 2 ^ 63) }
    ensures located { IfSome result (λ a. Locates (words_of segments.now) at.segment at.word a.form a.segment a.start) }
    ensures only { FindsWhole (words_of segments.now) at result }
{
    let pointer = pointer_at(segments, at)?;
    let Ok(target) = target_of(segments, at, pointer) else {
        return None;
    };
    let Ok(area) = area_of(segments, at, target) else {
        return None;
    };
    Some(area)
}

/// Whether a body is the tree's.
#[cycle(decide)]
fn fills(alloc: Global, segments: &[Vec<u64>], area: Area, tree: &Tree) -> Result<bool, AllocError>
    requires within { IsWithin (words_of segments.now) area }
    requires small { area.start + body_words area.form < 2 ^ 63 }
    ensures { IfOk result (λ b. Decides b ((form_of (node_of tree.now) ≡ area.form) × Fills (words_of segments.now) area.segment area.start (node_of tree.now))) }
{
    let first = Place {
        segment: area.segment,
        word: area.start,
    };
    match (tree, area.form) {
        (Tree::Struct(body), Form::Struct { words, ptrs }) => {
            body_holds(alloc, segments, first, words, ptrs, body)
        }
        (Tree::Ptrs(items), form) => match list_count(form, ElementSize::Pointer, items.len()) {
            Some(_) => row_holds(alloc, segments, first, items),
            None => Ok(false),
        },
        (
            Tree::Structs { words, ptrs, items },
            Form::Structs {
                words: d,
                ptrs: n,
                count,
            },
        ) => {
            if *words != d || *ptrs != n || items.len() != count as usize {
                return Ok(false);
            }
            bodies_hold(alloc, segments, first, d, n, items)
        }
        (tree, form) => {
            let words = words_at(segments, area.segment, area.start, form.lent_words());
            list_holds(alloc, form, words, tree)
        }
    }
}

/// Whether a struct of such a size is at a place.
#[cycle(decide)]
fn body_holds(
    alloc: Global,
    segments: &[Vec<u64>],
    first: Place,
    words: u16,
    ptrs: u16,
    body: &Body,
) -> Result<bool, AllocError>
    requires exists { first.segment < length segments.now }
    requires within { first.word + words + ptrs ≤ length (segment (words_of segments.now) first.segment) }
    requires small { first.word + words + ptrs < 2 ^ 63 }
    ensures { IfOk result (λ b. Decides b (IsBodyAt (words_of segments.now) first.segment first.word words ptrs (body_of body.now))) }
{
    let row = Place {
        segment: first.segment,
        word: first.word + words as usize,
    };
    if body.words.len() != words as usize || body.ptrs.len() != ptrs as usize {
        return Ok(false);
    }
    if words_at(segments, first.segment, first.word, words as usize) != body.words.as_slice() {
        return Ok(false);
    }
    row_holds(alloc, segments, row, &body.ptrs)
}

/// Whether the words from a place on denote the trees, one after another.
#[cycle(decide)]
fn row_holds(
    alloc: Global,
    segments: &[Vec<u64>],
    first: Place,
    trees: &[Tree],
) -> Result<bool, AllocError>
    requires exists { first.segment < length segments.now }
    requires within { first.word + length trees.now ≤ length (segment (words_of segments.now) first.segment) }
    requires small { first.word + length trees.now < 2 ^ 63 }
    ensures { IfOk result (λ b. Decides b (EachDenotes (words_of segments.now) first.segment first.word (nodes_of (map node_of trees.now)))) }
{
    let mut at = first;
    for tree in trees {
        if !denotes(alloc, segments, at, tree)? {
            return Ok(false);
        }
        at.word += 1;
    }
    Ok(true)
}

/// Whether structs of such a size are at a place, one after another.
#[cycle(decide)]
fn bodies_hold(
    alloc: Global,
    segments: &[Vec<u64>],
    first: Place,
    words: u16,
    ptrs: u16,
    bodies: &[Body],
) -> Result<bool, AllocError>
    requires exists { first.segment < length segments.now }
    requires within { first.word + length bodies.now * (words + ptrs) ≤ length (segment (words_of segments.now) first.segment) }
    requires small { first.word + length bodies.now * (words + ptrs) < 2 ^ 63 }
    ensures { IfOk result (λ b. Decides b (EachBody (words_of segments.now) first.segment first.word words ptrs (bodies_of (map body_of bodies.now)))) }
{
    let mut at = first;
    for body in bodies {
        if !body_holds(alloc, segments, at, words, ptrs, body)? {
            return Ok(false);
        }
        at.word += words as usize + ptrs as usize;
    }
    Ok(true)
}
