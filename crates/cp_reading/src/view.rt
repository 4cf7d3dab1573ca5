//! Trees that are read in place.

ghost use Rattle.std.specs.Prelude.{◌≡◌, ◌<◌, ◌≤◌, ◌+◌, ◌*◌, ◌^◌, length, take, drop, true, is_ok, IfOk, IfErr, Ok, Err};
ghost use Rattle.cp_words.specs.Targets.{segment, words_at};
ghost use Rattle.cp_reading.specs.Denotes.{Root};
ghost use Rattle.cp_reading.specs.Faults.{IsFaultOf};
ghost use Rattle.cp_reading.specs.FirstFault.{IsFirstFault};
ghost use Rattle.cp_reading.specs.declared.fault.TreeFault.{TreeFault};
ghost use Rattle.cp_tree.specs.Node.{Node};
ghost use Rattle.cp_words.specs.Segments.{words_of};
ghost use Rattle.cp_reading.specs.Reading.{tree_read, pointer_read, node_in};
ghost use Rattle.cp_reading.specs.Viewed.{form_shape_of, viewed_node, IsViewed, IsHere};
ghost use Rattle.cp_tree.specs.Seen.{part_of};
ghost use Rattle.cp_reading.specs.declared.view.Viewed.TheVariants.{Body};

use crate::area::{Area, Form, area_again, area_of};
use crate::build::whole_of;
use crate::check::Checker;
use crate::fault::TreeFault;
use crate::fit::segments_fit;
use crate::target::{pointer_in, segment_at, target_of};
use crate::visits::Visits;
use cp_tree::{Shape, Whole};
use cp_words::{ElementSize, Limits, Place, Pointer, Segments};
use std::alloc::{AllocError, Global};
use std::marker::{Brand, Model};
use std::sync::ledger::{Blank, Ledger};

/// What a view shows: a tree without a body, or one with a body.
#[derive(Clone, Copy)]
pub(crate) enum Viewed {
    Null,
    Cap(u32),
    Body(Area),
}

/// A tree of a message that is read where it lies, without copying. Contracts see it as its tree.
#[derive(Drop)]
pub struct View<'a> {
    segments: &'a [Vec<u64>],
    /// The words of the segment that the body lies in.
    /// Kept with the view, so that a child in the same segment needs no look-up.
    here: &'a [u64],
    part: Viewed,
}

impl<'a> Model for View<'a> {
    ghost use Rattle.cp_tree.specs.Node.{Node};
    ghost use Rattle.cp_tree.specs.Code.{tree_code};

    ghost Value = { Node };

    ghost coded = { tree_code };

    ghost use Rattle.cp_words.specs.Segments.{words_of};
    ghost use Rattle.cp_reading.specs.Viewed.{viewed_node, IsViewed, IsHere};
    ghost use Rattle.cp_tree.specs.Shaped.{Shaped};

    ghost view = { λ v. viewed_node (words_of v.segments.now) v.part };

    ghost invariant = { λ v. IsViewed (words_of v.segments.now) v.part × Shaped (viewed_node (words_of v.segments.now) v.part) × IsHere (words_of v.segments.now) v.here.now v.part };
}

impl<'a> View<'a> {
    ghost use Rattle.std.specs.Prelude.{◌≡◌, ◌+◌, ◌≤◌, IfOk, IfErr, Ok, Err};
    ghost use Rattle.cp_reading.specs.Denotes.{Root};
    ghost use Rattle.cp_reading.specs.Faults.{IsFaultOf};
    ghost use Rattle.cp_reading.specs.FirstFault.{IsFirstFault};
    ghost use Rattle.cp_reading.specs.Visited.{pointers};
    ghost use Rattle.cp_reading.specs.declared.fault.TreeFault.{TreeFault};
    ghost use Rattle.cp_tree.specs.Node.{Node};
    ghost use Rattle.cp_words.specs.Segments.{words_of};
    ghost use Rattle.cp_reading.specs.Viewed.{viewed_node, IsViewed};
    ghost use Rattle.cp_tree.specs.Seen.{shape_of, part_of, AreWordsOf};
    ghost use Rattle.cp_tree.specs.Shaped.{Shaped};

    /// The message's tree: what word 0 of segment 0 stands for (encoding specification,
    /// "Messages"). All that is reachable is gone over once and checked against the limits, without
    /// taking memory. The fault is the first in reading order: the root's word comes first, each word
    /// before what hangs on it, and a body's pointers from the left. It names its pointer word.
    #[inline(always)]
    pub fn root(segments: &'a Segments, limits: Limits) -> Result<View<'a>, TreeFault>
        // What is viewed is the message's tree.
        ensures found { IfOk result (λ t. Root segments.now limits t) }
        // The message's tree is viewed.
        ensures only { (t : Node) → Root segments.now limits t → result ≡ Ok t }
        // A fault is one that the message has: of its root, of a reachable word, or of a limit.
        ensures fault { IfErr result (IsFaultOf segments.now limits) }
        // It is the message's first in reading order.
        ensures first { IfErr result (IsFirstFault segments.now limits) }
        // The message's first fault is reported.
        ensures reported { (fault : TreeFault) → IsFirstFault segments.now limits fault → result ≡ Err fault }
    {
        root_uncounted::<Brand>(segments, limits, Blank::new(1))
    }

    /// As `root`, and counts each pointer word that it visits. Words of landing pads aren't counted; a
    /// far pointer has at most two.
    #[inline(always)]
    pub fn root_counted<L: Ledger>(
        segments: &'a Segments,
        limits: Limits,
        visits: &mut Visits<L>,
    ) -> Result<View<'a>, TreeFault>
        ensures found { IfOk result (λ t. Root segments.now limits t) }
        ensures only { (t : Node) → Root segments.now limits t → result ≡ Ok t }
        ensures fault { IfErr result (IsFaultOf segments.now limits) }
        ensures first { IfErr result (IsFirstFault segments.now limits) }
        ensures reported { (fault : TreeFault) → IsFirstFault segments.now limits fault → result ≡ Err fault }
        // The root's word and each pointer word below it are visited once.
        ensures exact { IfOk result (λ t. visits.new ≡ visits.old + 1 + pointers t) }
        // No more is visited than one word beyond the traversal limit, whatever the message is.
        ensures few { visits.new ≤ visits.old + 1 + limits.traversal }
    {
        let segments = segments.lists();
        // For the proof.
        segments_fit(segments);
        let mut checker = Checker {
            segments,
            budget: limits.traversal() as u64,
            visits,
        };
        let area = checker.check_root(limits.nesting())?;
        Ok(View {
            segments,
            here: segment_at(segments, area.segment),
            part: Viewed::Body(area),
        })
    }

    /// The same view once more.
    /// It stands in place of `Copy`: a type that contracts see as a value gives no fields back.
    #[inline(always)]
    pub fn reborrow(&self) -> View<'a>
        ensures { result ≡ self.now }
    {
        View {
            segments: self.segments,
            here: self.here,
            part: self.part,
        }
    }

    /// The tree's kind and sizes.
    #[inline(always)]
    pub fn shape(&self) -> Shape
        ensures is { result ≡ shape_of self.now }
        // The trees of messages are those that can be written.
        ensures shaped { Shaped self.now }
    {
        match self.part {
            Viewed::Null => Shape::Null,
            Viewed::Cap(index) => Shape::Cap(index),
            Viewed::Body(area) => form_shape(area.form),
        }
    }

    /// A struct's data words, or the words that hold a list's elements of one bit to eight bytes
    /// (encoding specification, "Lists"); else none.
    #[inline(always)]
    pub fn words(&self) -> &'a [u64]
        ensures { AreWordsOf result.now self.now }
    {
        let Viewed::Body(area) = self.part else {
            return &[];
        };
        words_in(self.here, area.start, area.form.lent_words())
    }

    /// Part `i` of the tree: a struct's pointer, or an element of a list of pointers or of a
    /// composite list. Past the end it is null.
    #[inline(always)]
    pub fn child(&self, i: u32) -> View<'a>
        ensures { result ≡ part_of self.now i }
    {
        let Viewed::Body(area) = self.part else {
            return View {
                segments: self.segments,
                here: &[],
                part: Viewed::Null,
            };
        };
        let part = child_in(self.segments, self.here, area, i);
        View {
            segments: self.segments,
            here: words_of_part(self.segments, self.here, area.segment, part),
            part,
        }
    }

    /// The tree, owned.
    pub fn tree(&self, alloc: Global) -> Result<Whole, AllocError>
        ensures { IfOk result (λ w. w ≡ self.now) }
    {
        tree_uncounted::<Brand>(alloc, self, Blank::new(1))
    }

    /// Where the tree lies.
    #[inline]
    pub(crate) fn place(&self) -> (&'a [Vec<u64>], Viewed)
        ensures tree { viewed_node (words_of result.0.now) result.1 ≡ self.now }
        ensures part { IsViewed (words_of result.0.now) result.1 }
        ensures shaped { Shaped self.now }
    {
        (self.segments, self.part)
    }
}

/// This many words of a segment.
#[inline(always)]
pub(crate) fn words_at(segments: &[Vec<u64>], index: usize, start: usize, count: usize) -> &[u64]
    requires exists { index < length segments.now }
    requires within { start + count ≤ length (segment (words_of segments.now) index) }
    ensures { result.now ≡ words_at (words_of segments.now) index start count }
{
    &segment_at(segments, index)[start..start + count]
}

/// This many words of those of a segment.
#[inline(always)]
fn words_in(here: &[u64], start: usize, count: usize) -> &[u64]
    requires { start + count ≤ length here.now }
    ensures { result.now ≡ take count (drop start here.now) }
{
    &here[start..start + count]
}

/// What a pointer word that was checked stands for.
#[inline(always)]
pub(crate) fn viewed_at(segments: &[Vec<u64>], at: Place) -> Viewed
    requires exists { at.segment < length segments.now }
    requires within { at.word < length (segment (words_of segments.now) at.segment) }
    requires checked { is_ok (tree_read (words_of segments.now) at.segment at.word) ≡ true }
    ensures node { viewed_node (words_of segments.now) result ≡ node_in (tree_read (words_of segments.now) at.segment at.word) }
    ensures part { IsViewed (words_of segments.now) result }
{
    viewed_in(segments, segment_at(segments, at.segment), at)
}

/// What a pointer word that was checked stands for, by the words of its segment.
#[inline(always)]
fn viewed_in(segments: &[Vec<u64>], here: &[u64], at: Place) -> Viewed
    requires exists { at.segment < length segments.now }
    requires here { here.now ≡ segment (words_of segments.now) at.segment }
    requires within { at.word < length (segment (words_of segments.now) at.segment) }
    requires checked { is_ok (tree_read (words_of segments.now) at.segment at.word) ≡ true }
    ensures node { viewed_node (words_of segments.now) result ≡ node_in (tree_read (words_of segments.now) at.segment at.word) }
    ensures part { IsViewed (words_of segments.now) result }
{
    match pointer_in(here[at.word]) {
        // A bad capability word doesn't come here: the message was checked.
        None | Some(Pointer::Null) => Viewed::Null,
        Some(Pointer::Cap(index)) => Viewed::Cap(index),
        Some(pointer) => body_at(segments, here, at, pointer),
    }
}

/// The words of the segment that a part's body lies in, where those of another segment are known.
#[inline(always)]
fn words_of_part<'a>(
    segments: &'a [Vec<u64>],
    here: &'a [u64],
    index: usize,
    part: Viewed,
) -> &'a [u64]
    requires here { here.now ≡ segment (words_of segments.now) index }
    requires part { IsViewed (words_of segments.now) part }
    ensures { IsHere (words_of segments.now) result.now part }
{
    match part {
        Viewed::Body(area) => {
            // Most bodies lie in the segment of their pointer.
            if area.segment == index {
                here
            } else {
                segment_at(segments, area.segment)
            }
        }
        Viewed::Null | Viewed::Cap(_) => here,
    }
}

/// The message's tree, by a count that is dropped.
#[inline(always)]
fn root_uncounted<'a, L: Ledger>(
    segments: &'a Segments,
    limits: Limits,
    blank: Blank,
) -> Result<View<'a>, TreeFault>
    requires name { blank.name ≡ L.name }
    requires parts { blank.parts ≡ L.parts }
    requires some { 0 < blank.parts }
    ensures found { IfOk result (λ t. Root segments.now limits t) }
    ensures only { (t : Node) → Root segments.now limits t → result ≡ Ok t }
    ensures fault { IfErr result (IsFaultOf segments.now limits) }
    ensures first { IfErr result (IsFirstFault segments.now limits) }
    ensures reported { (fault : TreeFault) → IsFirstFault segments.now limits fault → result ≡ Err fault }
{
    View::root_counted(segments, limits, &mut Visits::<L>::new(blank))
}

/// The kind and sizes of a tree that has a body.
#[inline(always)]
fn form_shape(form: Form) -> Shape
    ensures { result ≡ form_shape_of form }
{
    match form {
        Form::Struct { words, ptrs } => Shape::Struct { words, ptrs },
        Form::List { size, count } => Shape::List { size, count },
        Form::Structs { words, ptrs, count } => Shape::Structs { words, ptrs, count },
    }
}

/// Part `i` of a body that was checked.
#[inline(always)]
fn child_in(segments: &[Vec<u64>], here: &[u64], area: Area, i: u32) -> Viewed
    requires part { IsViewed (words_of segments.now) (Body area) }
    requires here { here.now ≡ segment (words_of segments.now) area.segment }
    ensures node { viewed_node (words_of segments.now) result ≡ part_of (viewed_node (words_of segments.now) (Body area)) i }
    ensures part { IsViewed (words_of segments.now) result }
{
    let segment = area.segment;
    match area.form {
        Form::Struct { words, ptrs } => {
            if i >= ptrs as u32 {
                return Viewed::Null;
            }
            let word = area.start + words as usize + i as usize;
            viewed_in(segments, here, Place { segment, word })
        }
        Form::List { size, count } => match size {
            ElementSize::Pointer => {
                if i >= count {
                    return Viewed::Null;
                }
                let word = area.start + i as usize;
                viewed_in(segments, here, Place { segment, word })
            }
            _ => Viewed::Null,
        },
        Form::Structs { words, ptrs, count } => {
            if i >= count {
                return Viewed::Null;
            }
            let start = area.start + i as usize * (words as usize + ptrs as usize);
            let form = Form::Struct { words, ptrs };
            Viewed::Body(Area {
                form,
                segment,
                start,
            })
        }
    }
}

/// The tree, owned, by a count that is dropped.
fn tree_uncounted<L: Ledger>(alloc: Global, view: &View, blank: Blank) -> Result<Whole, AllocError>
    requires name { blank.name ≡ L.name }
    requires parts { blank.parts ≡ L.parts }
    requires some { 0 < blank.parts }
    ensures { IfOk result (λ w. w ≡ view.now) }
{
    whole_of(alloc, view, &mut Visits::<L>::new(blank))
}

/// The body of a struct, list or far pointer that was checked.
#[inline(always)]
fn body_at(segments: &[Vec<u64>], here: &[u64], at: Place, pointer: Pointer) -> Viewed
    requires exists { at.segment < length segments.now }
    requires here { here.now ≡ segment (words_of segments.now) at.segment }
    requires small { at.word < 2 ^ 63 }
    requires checked { is_ok (pointer_read (words_of segments.now) at pointer) ≡ true }
    ensures node { viewed_node (words_of segments.now) result ≡ node_in (pointer_read (words_of segments.now) at pointer) }
    ensures part { IsViewed (words_of segments.now) result }
{
    match pointer {
        Pointer::Struct { .. } => Viewed::Body(area_again(here, at, pointer)),
        Pointer::List { .. } => Viewed::Body(area_again(here, at, pointer)),
        _ => far_body(segments, at, pointer),
    }
}

/// The body of a pointer that was checked, wherever it leads.
#[cold]
fn far_body(segments: &[Vec<u64>], at: Place, pointer: Pointer) -> Viewed
    requires exists { at.segment < length segments.now }
    requires small { at.word < 2 ^ 63 }
    requires checked { is_ok (pointer_read (words_of segments.now) at pointer) ≡ true }
    ensures node { viewed_node (words_of segments.now) result ≡ node_in (pointer_read (words_of segments.now) at pointer) }
    ensures part { IsViewed (words_of segments.now) result }
{
    let Ok(target) = target_of(segments, at, pointer) else {
        // It can't fail: the same pointer was followed when the message was checked.
        return Viewed::Null;
    };
    match area_of(segments, at, target) {
        Ok(area) => Viewed::Body(area),
        Err(_) => Viewed::Null,
    }
}
