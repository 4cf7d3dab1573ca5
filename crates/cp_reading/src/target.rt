//! Where pointers lead.

ghost use Rattle.std.specs.Prelude.{◌≡◌, ◌<◌, ◌^◌, length, slice_index, IfOk, IfSome};
ghost use Rattle.cp_words.specs.Word.{pointer_of};
ghost use Rattle.cp_words.specs.Targets.{segment};
ghost use Rattle.cp_words.specs.Segments.{words_of};
ghost use Rattle.cp_reading.specs.Reading.{start_of, target_here, target_by_two, target_by_one, target_by_far, target_by, tag_kind_of};

use crate::fault::TreeFault;
use cp_words::{BodyKind, Place, Pointer, decode};

/// The body that a pointer leads to. `None` starts before its segment.
#[derive(Clone, Copy)]
pub(crate) struct PointerTarget {
    pub kind: BodyKind,
    pub segment: usize,
    pub start: Option<usize>,
}

/// The body that a pointer leads to.
pub(crate) fn target_of(
    segments: &[Vec<u64>],
    at: Place,
    pointer: Pointer,
) -> Result<PointerTarget, TreeFault>
    requires exists { at.segment < length segments.now }
    requires small { at.word < 2 ^ 63 }
    ensures target { result ≡ target_by at (words_of segments.now) pointer }
    ensures exists { IfOk result (λ a. a.segment < length segments.now) }
{
    if let Pointer::Far {
        double,
        place,
        segment,
    } = pointer
    {
        return target_by_far(segments, at, double, place, segment);
    }
    target_at(at, pointer).ok_or(TreeFault::BadPad(at))
}

/// What the pointer word at a place says.
#[inline(always)]
pub(crate) fn pointer_at(segments: &[Vec<u64>], at: Place) -> Option<Pointer>
    requires { at.word < length (segment (words_of segments.now) at.segment) }
    ensures says { result ≡ pointer_of (slice_index (segment (words_of segments.now) at.segment) at.word) }
    ensures small { at.word < 2 ^ 63 }
{
    pointer_in(segments[at.segment][at.word])
}

/// What a pointer word says. `None` is a capability word with a bit that should be zero.
#[inline(always)]
pub(crate) fn pointer_in(word: u64) -> Option<Pointer>
    ensures { result ≡ pointer_of word }
{
    decode(word).ok()
}

/// The words of a segment.
#[inline(always)]
pub(crate) fn segment_at(segments: &[Vec<u64>], index: usize) -> &[u64]
    requires { index < length segments.now }
    ensures words { result.now ≡ segment (words_of segments.now) index }
    ensures small { length result.now < 2 ^ 63 }
{
    segments[index].as_slice()
}

/// Where a body begins, unless that is before its segment.
#[inline(always)]
pub(crate) fn start_from(word: usize, offset: i32) -> Option<usize>
    requires { word < 2 ^ 63 }
    ensures { result ≡ start_of word offset }
{
    if offset >= 0 {
        Some(word + 1 + offset as usize)
    } else {
        // Widened first: the least `i32` has no negation.
        (word + 1).checked_sub((-i64::from(offset)) as usize)
    }
}

/// The body that a far pointer leads to.
fn target_by_far(
    segments: &[Vec<u64>],
    at: Place,
    double: bool,
    place: u32,
    segment: u32,
) -> Result<PointerTarget, TreeFault>
    ensures target { result ≡ target_by_far at (words_of segments.now) double place segment }
    ensures exists { IfOk result (λ a. a.segment < length segments.now) }
{
    let (place, segment) = (place as usize, segment as usize);
    if segment >= segments.len() {
        return Err(TreeFault::NoSegment(at));
    }
    let words = segment_at(segments, segment);
    let landing_pad = Place {
        segment,
        word: place,
    };
    if double {
        if place + 1 >= words.len() {
            return Err(TreeFault::OutOfBounds(at));
        }
        let next = Place {
            segment,
            word: place + 1,
        };
        return target_by_two(
            segments,
            at,
            pointer_at(segments, landing_pad),
            pointer_at(segments, next),
        );
    }
    if place >= words.len() {
        return Err(TreeFault::OutOfBounds(at));
    }
    landing_pad_at(at, landing_pad, pointer_at(segments, landing_pad))
}

/// The body of a landing pad of one word.
fn landing_pad_at(
    at: Place,
    landing_pad: Place,
    pointer: Option<Pointer>,
) -> Result<PointerTarget, TreeFault>
    requires { landing_pad.word < 2 ^ 63 }
    ensures target { result ≡ target_by_one at landing_pad.segment landing_pad.word pointer }
    ensures here { IfOk result (λ a. a.segment ≡ landing_pad.segment) }
{
    // A zero word, a capability or another far pointer is no landing pad of one word.
    match pointer {
        None => Err(TreeFault::BadPad(at)),
        Some(pointer) => target_at(landing_pad, pointer).ok_or(TreeFault::BadPad(at)),
    }
}

/// The body that a landing pad of two words names.
fn target_by_two(
    segments: &[Vec<u64>],
    at: Place,
    first: Option<Pointer>,
    second: Option<Pointer>,
) -> Result<PointerTarget, TreeFault>
    ensures target { result ≡ target_by_two at (words_of segments.now) first second }
    ensures exists { IfOk result (λ a. a.segment < length segments.now) }
{
    let Some(
        Pointer::Far {
            double: false,
            place,
            segment,
        },
    ) = first
    else {
        return Err(TreeFault::BadPad(at));
    };
    // The form of both words before the segment that they name: G5 is reported before G4.
    let Some(kind) = tag_kind(second) else {
        return Err(TreeFault::BadPad(at));
    };
    if segment as usize >= segments.len() {
        return Err(TreeFault::NoSegment(at));
    }
    Ok(PointerTarget {
        kind,
        segment: segment as usize,
        start: Some(place as usize),
    })
}

/// What the second word of a landing pad says that the body is: a struct or list word with offset 0, where
/// a word of zero bits is a struct of size zero.
fn tag_kind(second: Option<Pointer>) -> Option<BodyKind>
    ensures { result ≡ tag_kind_of second }
{
    match second {
        // The reference library writes such frames; the specification asks for a pointer here.
        Some(Pointer::Null) => Some(BodyKind::Struct { words: 0, ptrs: 0 }),
        Some(
            Pointer::Struct {
                offset: 0,
                words,
                ptrs,
            },
        ) => Some(BodyKind::Struct { words, ptrs }),
        Some(
            Pointer::List {
                offset: 0,
                size,
                count,
            },
        ) => Some(BodyKind::List { size, count }),
        _ => None,
    }
}

/// The body of a struct or list pointer.
fn target_at(at: Place, pointer: Pointer) -> Option<PointerTarget>
    requires { at.word < 2 ^ 63 }
    ensures target { result ≡ target_here at.segment at.word pointer }
    ensures here { IfSome result (λ a. a.segment ≡ at.segment) }
{
    match pointer {
        Pointer::Struct {
            offset,
            words,
            ptrs,
        } => Some(PointerTarget {
            kind: BodyKind::Struct { words, ptrs },
            segment: at.segment,
            start: start_from(at.word, offset),
        }),
        Pointer::List {
            offset,
            size,
            count,
        } => Some(PointerTarget {
            kind: BodyKind::List { size, count },
            segment: at.segment,
            start: start_from(at.word, offset),
        }),
        Pointer::Null | Pointer::Far { .. } | Pointer::Cap(_) => None,
    }
}
