//! Bodies, and where they lie.

ghost use Rattle.std.specs.Prelude.{◌≡◌, ◌<◌, ◌≤◌, ◌+◌, ◌*◌, ◌^◌, length, true, Some, is_some, is_ok, IfOk, Ok, slice_index};
ghost use Rattle.cp_words.specs.Word.{tag_of};
ghost use Rattle.cp_words.specs.Targets.{segment};
ghost use Rattle.cp_words.specs.Segments.{words_of};
ghost use Rattle.cp_reading.specs.Reading.{in_segment, start_of, placed, tagged, area_by, area_here, price, body_words, lent_words, IsWhole, IsWithin};

use crate::fault::TreeFault;
use crate::target::{PointerTarget, segment_at};
use cp_words::{BodyKind, ElementSize, Place, Pointer, decode_tag, list_words};

/// What a body is.
/// It isn't `Shape`, which has trees without a body too: a match of five kinds made lists about twice as
/// slow.
#[derive(Clone, Copy)]
pub(crate) enum Form {
    Struct { words: u16, ptrs: u16 },
    /// A list that is no composite one.
    List { size: ElementSize, count: u32 },
    /// A composite list: this many elements, each of `words` data words and `ptrs` pointers.
    Structs { words: u16, ptrs: u16, count: u32 },
}

/// A body, wholly inside its segment. The elements of a composite list start after its tag.
#[derive(Clone, Copy)]
pub(crate) struct Area {
    pub form: Form,
    pub segment: usize,
    pub start: usize,
}

impl Form {
    /// What a body costs, apart from what hangs on it.
    #[inline(always)]
    pub(crate) fn price(self) -> u64
        ensures { result ≡ price self }
    {
        match self {
            Form::Struct { words, ptrs } => 1 + words as u64 + ptrs as u64,
            Form::List { size, count } => 1 + list_words(size, count),
            Form::Structs { words, ptrs, count } => {
                // Each element costs one more than its words, so that many empty structs cost something.
                2 + count as u64 * (1 + words as u64 + ptrs as u64)
            }
        }
    }

    /// How many words at the body's start are data: a struct's data words, or all words of a list
    /// without pointers.
    #[inline(always)]
    pub(crate) fn lent_words(self) -> usize
        ensures count { result ≡ lent_words self }
        ensures within { result ≤ body_words self }
    {
        match self {
            Form::Struct { words, .. } => words as usize,
            Form::List {
                size: ElementSize::Pointer,
                ..
            }
            | Form::Structs { .. } => 0,
            Form::List { size, count } => list_words(size, count) as usize,
        }
    }
}

/// The body to which a pointer leads, if it lies wholly inside its segment.
#[inline(always)]
pub(crate) fn area_of(
    segments: &[Vec<u64>],
    at: Place,
    target: PointerTarget,
) -> Result<Area, TreeFault>
    requires exists { target.segment < length segments.now }
    ensures area { result ≡ area_by at (words_of segments.now) target }
    ensures within { IfOk result (IsWithin (words_of segments.now)) }
    ensures small { IfOk result (λ a. a.start + body_words a.form < 2 ^ 63) }
{
    let words = segment_at(segments, target.segment);
    let (form, size) = match target.kind {
        BodyKind::List {
            size: ElementSize::Composite,
            count,
        } => {
            // The list pointer doesn't count the tag.
            let tag = inside(at, words, count as usize + 1, target.start)?;
            return elements_at(segments, at, target.segment, tag, count);
        }
        BodyKind::Struct { words, ptrs } => {
            (Form::Struct { words, ptrs }, words as usize + ptrs as usize)
        }
        BodyKind::List { size, count } => {
            (Form::List { size, count }, list_words(size, count) as usize)
        }
    };
    let start = inside(at, words, size, target.start)?;
    Ok(Area {
        form,
        segment: target.segment,
        start,
    })
}

/// The body of a pointer that leads into its own segment and was checked: no bound is looked at
/// again.
#[inline(always)]
pub(crate) fn area_again(words: &[u64], at: Place, pointer: Pointer) -> Area
    requires small { at.word < 2 ^ 63 }
    requires checked { is_ok (area_here at words.now pointer) ≡ true }
    ensures area { area_here at words.now pointer ≡ Ok result }
    ensures within { result.start + body_words result.form ≤ length words.now }
    ensures small { result.start + body_words result.form < 2 ^ 63 }
    ensures whole { IsWhole result.form }
    ensures here { result.segment ≡ at.segment }
{
    let (form, start) = match pointer {
        Pointer::Struct {
            offset,
            words,
            ptrs,
        } => (Form::Struct { words, ptrs }, start_again(at.word, offset)),
        Pointer::List {
            offset,
            size: ElementSize::Composite,
            count,
        } => return elements_again(words, at, start_again(at.word, offset), count),
        Pointer::List {
            offset,
            size,
            count,
        } => (Form::List { size, count }, start_again(at.word, offset)),
        // The caller sends null, capability and far pointers elsewhere.
        _ => unreachable!(),
    };
    Area {
        form,
        segment: at.segment,
        start,
    }
}

/// The elements of a composite list, by its tag.
#[inline(always)]
fn elements_at(
    segments: &[Vec<u64>],
    at: Place,
    index: usize,
    tag: usize,
    size: u32,
) -> Result<Area, TreeFault>
    requires exists { index < length segments.now }
    requires inside { tag + (size + 1) ≤ length (segment (words_of segments.now) index) }
    requires small { tag + (size + 1) < 2 ^ 63 }
    ensures area { result ≡ tagged at index size tag (tag_of (slice_index (segment (words_of segments.now) index) tag)) }
    ensures within { IfOk result (IsWithin (words_of segments.now)) }
    ensures small { IfOk result (λ a. a.start + body_words a.form < 2 ^ 63) }
{
    let Some(elements) = decode_tag(segment_at(segments, index)[tag]) else {
        return Err(TreeFault::BadTag(at));
    };
    let each = elements.words as u64 + elements.ptrs as u64;
    // Fewer words than the list has are allowed, as in the reference library.
    if elements.count as u64 * each > size as u64 {
        return Err(TreeFault::OutOfBounds(at));
    }
    Ok(Area {
        form: Form::Structs {
            words: elements.words,
            ptrs: elements.ptrs,
            count: elements.count,
        },
        segment: index,
        start: tag + 1,
    })
}

/// Where a body begins, if it lies wholly inside its segment.
#[inline(always)]
fn inside(at: Place, words: &[u64], size: usize, start: Option<usize>) -> Result<usize, TreeFault>
    ensures place { result ≡ placed at (in_segment words.now size start) }
    ensures inside { IfOk result (λ p. p + size ≤ length words.now) }
    ensures small { IfOk result (λ p. p + size < 2 ^ 63) }
{
    match start {
        // The start is compared first, so that the difference can't wrap.
        Some(start) if start <= words.len() && size <= words.len() - start => Ok(start),
        _ => Err(TreeFault::OutOfBounds(at)),
    }
}

/// The elements of a composite list whose tag was checked.
#[inline(always)]
fn elements_again(words: &[u64], at: Place, tag: usize, size: u32) -> Area
    requires inside { tag + (size + 1) ≤ length words.now }
    requires checked { is_ok (tagged at at.segment size tag (tag_of (slice_index words.now tag))) ≡ true }
    ensures area { tagged at at.segment size tag (tag_of (slice_index words.now tag)) ≡ Ok result }
    ensures within { result.start + body_words result.form ≤ length words.now }
    ensures small { result.start + body_words result.form < 2 ^ 63 }
    ensures whole { IsWhole result.form }
    ensures here { result.segment ≡ at.segment }
{
    let Some(elements) = decode_tag(words[tag]) else {
        // The tag was decoded when the message was checked.
        unreachable!();
    };
    Area {
        form: Form::Structs {
            words: elements.words,
            ptrs: elements.ptrs,
            count: elements.count,
        },
        segment: at.segment,
        start: tag + 1,
    }
}

/// Where a body begins that was found to begin in its segment.
#[inline(always)]
fn start_again(word: usize, offset: i32) -> usize
    requires small { word < 2 ^ 63 }
    requires checked { is_some (start_of word offset) ≡ true }
    ensures { start_of word offset ≡ Some result }
{
    if offset >= 0 {
        word + 1 + offset as usize
    } else {
        // Widened first: the least `i32` has no negation.
        word + 1 - (-i64::from(offset)) as usize
    }
}
