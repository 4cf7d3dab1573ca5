//! Segments while they are written.

ghost use Rattle.std.specs.Prelude.{ℕ, ◌≡◌, ◌<◌, ◌≤◌, ◌++◌, IfErr, ◌+◌, ◌∷◌, ◌^◌, [], length, replicate, OnOk, IfOk};
ghost use Rattle.cp_tree.specs.Node.{bits, bytes, halves, quads};
ghost use Rattle.cp_writing.specs.Allowed.{Charges};
ghost use Rattle.cp_writing.specs.Blocks.{block_of};
ghost use Rattle.cp_writing.specs.Packed.{packed};
ghost use Rattle.cp_writing.specs.Sheets.{written, segments_of, end_of, put, begin, place_on, body_word, IsNamed, with_segment_for, here, after_landing_pad, IsCapacity, IsWithin, SameLimits, IsPlace, Appends, Places};
ghost use Rattle.cp_writing.specs.Strips.{words_on};
ghost use Rattle.cp_tree.specs.declared.fault.WriteFault.TheVariants.{TooManyWords};

use crate::strip::Strip;
use cp_tree::WriteFault;
use cp_words::{BodyKind, Place, Pointer, Segments, encode};
use std::alloc::{AllocError, Global};
use std::mem;

/// A segment begins with capacity for this many words, if it may have them.
/// A message that fits grows no buffer.
const FIRST_WORDS: usize = 128;

/// How much may be written: at most this many words in a segment, this many segments, and this many words
/// in all of them together.
#[derive(Clone, Copy)]
pub(crate) struct Capacity {
    pub words: usize,
    pub segments: usize,
    pub whole: usize,
}

/// What is written so far: the segments that are full, the last one, and the number of words of all; how
/// much may be written, and what the tree may still cost. A segment is made with capacity for `reserved`
/// words.
#[derive(Drop)]
pub(crate) struct Arena {
    alloc: Global,
    reserved: usize,
    capacity: Capacity,
    budget: u64,
    full: Vec<Vec<u64>>,
    last: Strip,
    words: usize,
}

impl Arena {
    /// One segment with a blank word, the root's pointer, written on a strip that holds no words.
    pub fn new(
        alloc: Global,
        mut strip: Strip,
        capacity: Capacity,
        budget: u64,
    ) -> Result<Arena, AllocError>
        requires capacity { IsCapacity capacity }
        requires blank { words_on strip ≡ [] }
        ensures written { IfOk result (λ w. written w ≡ record { full = []; last = 0 ∷ []; words = 1 }) }
        ensures limits { IfOk result (λ w. (w.capacity ≡ capacity) × (w.budget ≡ budget)) }
        ensures keeps { IfOk result IsWithin }
    {
        let reserved = capacity.words.min(FIRST_WORDS);
        strip.reserve(reserved)?;
        strip.append_blank(1)?;
        Ok(Arena {
            alloc,
            reserved,
            capacity,
            budget,
            full: Vec::new(alloc),
            last: strip,
            words: 1,
        })
    }

    /// The segments. Most messages have one, which needs no vector around it.
    pub fn into_segments(self) -> Result<Segments, AllocError>
        ensures { IfOk result (λ s. s ≡ segments_of (written self)) }
    {
        let last = self.last.into_words(self.alloc)?;
        let mut segments = self.full;
        if segments.is_empty() {
            return Ok(Segments::one(last));
        }
        segments.push(last)?;
        // There is at least the last segment.
        let Ok(segments) = Segments::new(segments) else {
            unreachable!()
        };
        Ok(segments)
    }

    /// The words of the last segment.
    pub fn into_last(self) -> Result<Vec<u64>, AllocError>
        ensures { IfOk result (λ v. v.items ≡ (written self).last) }
    {
        self.last.into_words(self.alloc)
    }

    /// The bytes of the last segment, after zero bytes in the place of a segment table.
    pub fn into_bytes(self) -> Result<Vec<u8>, AllocError>
        ensures { IfOk result (λ v. v.items ≡ block_of (written self).last) }
    {
        self.last.into_bytes(self.alloc)
    }

    /// Goes one level down, to a body or a list that costs this much without what hangs on it. Gives how
    /// many levels are left below it.
    #[inline(always)]
    pub fn charge(&mut self, levels: u32, price: u64) -> Result<u32, WriteFault>
        ensures { Charges self.old self.new levels result price }
    {
        // Which limit is met first doesn't matter here: `keeps_to` decides which one is reported.
        if levels == 0 {
            return Err(WriteFault::TooDeep);
        }
        if price > self.budget {
            return Err(WriteFault::TooCostly);
        }
        self.budget -= price;
        Ok(levels - 1)
    }

    /// How many words a segment has.
    fn end(&self, segment: usize) -> usize
        requires { segment ≤ length (written self.now).full }
        ensures { result ≡ end_of (written self.now) segment }
    {
        if segment == self.full.len() {
            self.last.len()
        } else {
            self.full[segment].len()
        }
    }

    /// Writes a word in place of one that was written.
    #[inline]
    pub fn put(&mut self, at: Place, word: u64)
        requires { IsPlace (written self.old) at }
        ensures written { written self.new ≡ put at.segment at.word word (written self.old) }
        ensures limits { SameLimits self.old self.new }
    {
        if at.segment == self.full.len() {
            self.last.put(at.word, word);
        } else {
            self.full[at.segment][at.word] = word;
        }
    }

    /// Counts this many more words.
    #[inline(always)]
    fn count(&mut self, words: usize) -> Result<(), WriteFault>
        requires { IsWithin self.old }
        ensures counted { OnOk result (self.new ≡ record self.old { words = self.old.words + words }) }
        ensures within { OnOk result (self.old.words + words ≤ self.old.capacity.whole) }
        ensures past { IfErr result (λ e. (e ≡ TooManyWords) × (self.old.capacity.whole < self.old.words + words)) }
    {
        // The words never pass the whole, so the difference can't wrap.
        if words > self.capacity.whole - self.words {
            return Err(WriteFault::TooManyWords);
        }
        self.words += words;
        Ok(())
    }

    /// Appends the words to the last segment.
    #[inline(always)]
    pub fn append(&mut self, words: &[u64]) -> Result<(), WriteFault>
        requires { IsWithin self.old }
        ensures { Appends self.old self.new result words.now }
    {
        self.count(words.len())?;
        self.last.append(words)?;
        Ok(())
    }

    /// Appends this many blank words to the last segment.
    #[inline(always)]
    pub fn append_blank(&mut self, words: usize) -> Result<(), WriteFault>
        requires { IsWithin self.old }
        ensures { Appends self.old self.new result (replicate words 0) }
    {
        self.count(words)?;
        self.last.append_blank(words)?;
        Ok(())
    }

    pub fn append_bits(&mut self, items: &[bool]) -> Result<(), WriteFault>
        requires { IsWithin self.old }
        ensures { Appends self.old self.new result (packed (bits items.now)) }
    {
        self.count((items.len() + 63) / 64)?;
        self.last.append_bits(items)?;
        Ok(())
    }

    pub fn append_bytes(&mut self, items: &[u8]) -> Result<(), WriteFault>
        requires { IsWithin self.old }
        ensures { Appends self.old self.new result (packed (bytes items.now)) }
    {
        self.count((items.len() + 7) / 8)?;
        self.last.append_bytes(items)?;
        Ok(())
    }

    pub fn append_two_bytes(&mut self, items: &[u16]) -> Result<(), WriteFault>
        requires { IsWithin self.old }
        ensures { Appends self.old self.new result (packed (halves items.now)) }
    {
        self.count((items.len() + 3) / 4)?;
        self.last.append_two_bytes(items)?;
        Ok(())
    }

    pub fn append_four_bytes(&mut self, items: &[u32]) -> Result<(), WriteFault>
        requires { IsWithin self.old }
        ensures { Appends self.old self.new result (packed (quads items.now)) }
    {
        self.count((items.len() + 1) / 2)?;
        self.last.append_four_bytes(items)?;
        Ok(())
    }

    /// Ends the last segment and begins a new one, with capacity for a landing pad and a body of this many words.
    #[cold]
    fn begin(&mut self, size: usize) -> Result<(), AllocError>
        requires { size < 2 ^ 60 }
        ensures written { OnOk result (written self.new ≡ begin (written self.old)) }
        ensures limits { OnOk result (SameLimits self.old self.new) }
    {
        let next = Vec::with_capacity(self.alloc, self.reserved.max(size + 1))?;
        let last = mem::replace(&mut self.last, Strip::Words(next));
        self.full.push(last.into_words(self.alloc)?)?;
        Ok(())
    }

    /// Begins a new segment, if a body of this many words, whose pointer is in a segment, doesn't fit
    /// into the last one and a new one may be begun.
    #[inline(always)]
    fn segment_for(&mut self, segment: usize, size: usize) -> Result<(), AllocError>
        requires keeps { IsWithin self.old }
        requires sized { size < 2 ^ 60 }
        ensures written { OnOk result (written self.new ≡ with_segment_for self.old.capacity segment size (written self.old)) }
        ensures limits { OnOk result (SameLimits self.old self.new) }
    {
        // A pointer in an earlier segment needs a landing pad beside the body.
        let landing_pad = if segment == self.full.len() { 0 } else { 1 };
        if size == 0 || self.last.len() + landing_pad + size <= self.capacity.words {
            return Ok(());
        }
        // With no further segment allowed, the last one takes all that is left, however much.
        if self.full.len() + 1 >= self.capacity.segments {
            return Ok(());
        }
        self.begin(size)
    }

    /// Names a body directly, and gives where it is to be written: at the end of its pointer's segment.
    #[inline(always)]
    fn place_here(&mut self, at: Place, kind: BodyKind) -> Place
        requires small { (s : ℕ) → end_of (written self.old) s ≤ 67108864 }
        requires there { IsPlace (written self.old) at }
        requires named { IsNamed kind }
        ensures written { written self.new ≡ (here at.segment at.word kind (written self.old)).arena }
        ensures at { result ≡ (here at.segment at.word kind (written self.old)).at }
        ensures limits { SameLimits self.old self.new }
    {
        let start = self.end(at.segment);
        self.put(at, body_word(kind, start - (at.word + 1)));
        Place {
            segment: at.segment,
            word: start,
        }
    }

    /// Names a body by a landing pad, and gives where it is to be written: after the landing pad, which is at the end
    /// of the last segment.
    #[cold]
    fn place_after_landing_pad(&mut self, at: Place, kind: BodyKind) -> Result<Place, WriteFault>
        requires keeps { IsWithin self.old }
        requires there { IsPlace (written self.old) at }
        requires named { IsNamed kind }
        ensures { Places self.old self.new result (after_landing_pad at.segment at.word kind (written self.old)) }
    {
        let place = self.last.len();
        let segment = self.full.len();
        let far = Pointer::Far {
            double: false,
            place: place as u32,
            segment: segment as u32,
        };
        self.put(at, encode(far));
        self.append(&[body_word(kind, 0)])?;
        Ok(Place {
            segment,
            word: place + 1,
        })
    }

    /// Places a body of this many words, whose pointer is at a place: directly, or after a landing pad.
    /// Gives where it is to be written.
    #[inline(always)]
    pub fn place(&mut self, at: Place, kind: BodyKind, size: usize) -> Result<Place, WriteFault>
        requires keeps { IsWithin self.old }
        requires there { IsPlace (written self.old) at }
        requires named { IsNamed kind }
        requires sized { size < 2 ^ 60 }
        ensures { Places self.old self.new result (place_on self.old at kind size) }
    {
        self.segment_for(at.segment, size)?;
        // A body without words fits anywhere, even in a full segment.
        if size == 0 || at.segment == self.full.len() {
            return Ok(self.place_here(at, kind));
        }
        self.place_after_landing_pad(at, kind)
    }
}

/// The word of a pointer to a body that begins this many words after it.
fn body_word(kind: BodyKind, offset: usize) -> u64
    requires named { IsNamed kind }
    requires near { offset < 2 ^ 29 }
    ensures { result ≡ body_word kind offset }
{
    let offset = offset as i32;
    encode(match kind {
        BodyKind::Struct { words, ptrs } => Pointer::Struct {
            offset,
            words,
            ptrs,
        },
        BodyKind::List { size, count } => Pointer::List {
            offset,
            size,
            count,
        },
    })
}
