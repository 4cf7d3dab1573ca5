//! The frame of which a part has come.

ghost use Rattle.std.specs.Prelude.{◌≡◌, ◌⊎◌, ◌^◌, ◌+◌, ◌*◌, ◌/◌, ◌<◌, ◌≤◌, ◌++◌, ◌∷◌, [], ◌↔◌, IsTrue, IfOk, OnOk, IfErr, length, sum, replicate, slice_index, vec_capacity};
ghost use Rattle.cp_frame.specs.Framed.{sizes_of};
ghost use Rattle.cp_packed.specs.Words.{bytes_of};
ghost use Rattle.std.specs.Int.{to_le_bytes, w64};
ghost use Rattle.cp_frame.specs.Parts.{EndsInOne, Takes, IsBegun, InTable, InSegments, halves, count_of, IsWholeTable, IsFaultOf, Fills, body, rest_of, IsOpen, IsEmpty, least_words, kept_words};
ghost use Rattle.cp_words.specs.Segments.{words_of};
ghost use Rattle.cp_frame.specs.Stream.{numbers, named_sizes};
ghost use Rattle.cp_frame.specs.Rest.{IsFaultOfWords};
ghost use Rattle.cp_frame.specs.Bulk.{TakesPart};
ghost use Rattle.cp_frame.specs.Single.{TakesTable};

use crate::fault::FrameFault;
use crate::spare::Spare;
use crate::table;
use cp_packed::{Run, reserve_words, take_groups, take_in, word_of};
use cp_words::{Limits, Segments};
use std::alloc::{AllocError, Global};
use std::mem;

/// How many words a header alone may reserve: with the table and the list of segments 1 MiB.
/// Its bytes may never come.
const FIRST_CAPACITY: usize = 129_024;

/// What has come of a frame.
#[derive(Drop)]
pub struct OpenFrame {
    /// The words of the segment table.
    pub table: Vec<u64>,
    /// The sizes that they name, together.
    pub total: u64,
    /// The segments that are whole.
    pub segments: Vec<Vec<u64>>,
    /// The words of the segment after them.
    pub words: Vec<u64>,
    /// The bytes of a word that isn't whole.
    pub part: Vec<u8>,
    /// A buffer that was given back, for the words of a segment.
    pub spare: Spare,
}

impl OpenFrame {
    /// Nothing of a frame.
    pub fn new(alloc: Global) -> OpenFrame
        ensures empty { IsEmpty result }
        ensures no_spare { vec_capacity result.spare.words ≡ 0 }
    {
        OpenFrame {
            table: Vec::new(alloc),
            total: 0,
            segments: Vec::new(alloc),
            words: Vec::new(alloc),
            part: Vec::new(alloc),
            spare: Spare::new(alloc),
        }
    }

    /// All segments have come.
    pub fn is_complete(&self) -> bool
        ensures { IsTrue result ↔ (IsWholeTable self.now.table.items × (length self.now.segments.items ≡ count_of self.now.table.items)) }
    {
        table::is_whole(&self.table) && self.segments.len() == table::count(&self.table)
    }

    /// Takes one word of the table. With the last, the segments begin.
    fn push_table(&mut self, alloc: Global, limits: Limits, word: u64) -> Result<(), FrameFault>
        requires begun { InTable limits self.old }
        requires no_part { self.old.part.items ≡ [] }
        ensures rest { OnOk result (rest_of self.new ≡ rest_of self.old ++ to_le_bytes w64 word) }
        ensures no_part { OnOk result (self.new.part.items ≡ []) }
        ensures begun { OnOk result (IsBegun limits self.new) }
        ensures fault { IfErr result (IsFaultOf limits (halves (self.old.table.items ++ word ∷ []))) }
    {
        table::push(&mut self.table, &mut self.total, limits, word)?;
        if table::is_whole(&self.table) {
            self.segments = Vec::with_capacity(alloc, table::count(&self.table))?;
            self.words = first_segment(alloc, table::size(&self.table, 0), &mut self.spare)?;
            // A first segment of size zero is whole at once.
            close(alloc, &self.table, &mut self.segments, &mut self.words)?;
        }
        Ok(())
    }

    /// Takes bytes of the table.
    fn take_of_table<'a>(
        &mut self,
        alloc: Global,
        limits: Limits,
        left: &'a [u8],
    ) -> Result<&'a [u8], FrameFault>
        requires begun { InTable limits self.old }
        requires some { 0 < length left.now }
        ensures rest { IfOk result (λ back. rest_of self.new ++ back.now ≡ rest_of self.old ++ left.now) }
        ensures shorter { IfOk result (λ back. length back.now < length left.now) }
        ensures begun { OnOk result (IsBegun limits self.new) }
        ensures fault { IfErr result (IsFaultOf limits (numbers (rest_of self.old ++ left.now))) }
    {
        let (word, back) = take_word(&mut self.part, left)?;
        match word {
            // Four bytes make a number known, so a fault may show inside a word.
            None => table::check_part(&self.table, self.total, limits, &self.part)?,
            Some(word) => self.push_table(alloc, limits, word)?,
        }
        Ok(back)
    }

    /// Takes one word of the segments.
    fn push_words(&mut self, alloc: Global, limits: Limits, word: u64) -> Result<(), AllocError>
        requires begun { InSegments limits self.old }
        requires no_part { self.old.part.items ≡ [] }
        ensures rest { OnOk result (rest_of self.new ≡ rest_of self.old ++ to_le_bytes w64 word) }
        ensures no_part { OnOk result (self.new.part.items ≡ []) }
        ensures begun { OnOk result (IsBegun limits self.new) }
    {
        self.words.push(word)?;
        close(alloc, &self.table, &mut self.segments, &mut self.words)
    }

    /// Takes one word.
    fn push(&mut self, alloc: Global, limits: Limits, word: u64) -> Result<(), FrameFault>
        requires begun { IsOpen limits self.old }
        requires no_part { self.old.part.items ≡ [] }
        ensures rest { OnOk result (rest_of self.new ≡ rest_of self.old ++ to_le_bytes w64 word) }
        ensures no_part { OnOk result (self.new.part.items ≡ []) }
        ensures begun { OnOk result (IsBegun limits self.new) }
        ensures fault { IfErr result (IsFaultOf limits (numbers (rest_of self.old ++ to_le_bytes w64 word))) }
    {
        if table::is_whole(&self.table) {
            Ok(self.push_words(alloc, limits, word)?)
        } else {
            self.push_table(alloc, limits, word)
        }
    }

    /// Takes the words of a run.
    pub fn push_run(&mut self, alloc: Global, limits: Limits, run: Run) -> Result<(), FrameFault>
        requires begun { IsOpen limits self.old }
        requires no_part { self.old.part.items ≡ [] }
        ensures rest { OnOk result (rest_of self.new ≡ rest_of self.old ++ bytes_of (replicate run.count run.word)) }
        ensures no_part { OnOk result (self.new.part.items ≡ []) }
        ensures begun { OnOk result (IsBegun limits self.new) }
        ensures fault { IfErr result (IsFaultOfWords limits (rest_of self.old ++ bytes_of (replicate run.count run.word))) }
    {
        let mut left = run.count;
        'pushing: while 0 < left {
            if self.is_complete() {
                return Err(FrameFault::RunPastFrame);
            }
            self.push(alloc, limits, run.word)?;
            left -= 1;
        }
        Ok(())
    }

    /// Takes the group of a table that names one segment, and no fault, if it has come.
    pub fn take_table_group<'a>(
        &mut self,
        alloc: Global,
        limits: Limits,
        left: &'a [u8],
    ) -> Result<&'a [u8], AllocError>
        requires { IsEmpty self.old }
        ensures { IfOk result (λ back. TakesTable limits left.now self.new back.now) }
    {
        let mut run = 0;
        let back = take_groups(&mut self.table, &mut run, 1, left)?;
        let size = table::size_of_one(&self.table, limits);
        if size == 0 {
            // Several segments, a fault or too few bytes: the table is read anew, byte by byte.
            self.table.clear();
            return Ok(left);
        }
        self.total = size as u64;
        self.words = first_segment(alloc, size, &mut self.spare)?;
        Ok(back)
    }

    /// Takes words of a raw run, of which this many are to come, and groups of the packed form, up to the
    /// end of the open segment.
    pub fn take_segment_groups<'a>(
        &mut self,
        alloc: Global,
        limits: Limits,
        run: &mut usize,
        left: &'a [u8],
    ) -> Result<&'a [u8], AllocError>
        requires begun { InSegments limits self.old }
        requires no_part { self.old.part.items ≡ [] }
        requires few { run.old < 256 }
        ensures { IfOk result (λ back. TakesPart limits self.old run.old left.now self.new run.new back.now) }
    {
        let most = table::size(&self.table, self.segments.len());
        let back = take_groups(&mut self.words, run, most, left)?;
        if self.words.len() == most {
            close(alloc, &self.table, &mut self.segments, &mut self.words)?;
        }
        Ok(back)
    }

    /// Takes bytes of the segments.
    fn take_of_segments<'a>(
        &mut self,
        alloc: Global,
        limits: Limits,
        left: &'a [u8],
    ) -> Result<&'a [u8], AllocError>
        requires begun { InSegments limits self.old }
        requires some { 0 < length left.now }
        ensures rest { IfOk result (λ back. rest_of self.new ++ back.now ≡ rest_of self.old ++ left.now) }
        ensures shorter { IfOk result (λ back. length back.now < length left.now) }
        ensures begun { OnOk result (IsBegun limits self.new) }
    {
        // Whole words at once, where none is open.
        if self.part.is_empty() && 8 <= left.len() {
            return take_words(
                alloc,
                &self.table,
                &mut self.segments,
                &mut self.words,
                left,
            );
        }
        let (word, back) = take_word(&mut self.part, left)?;
        if let Some(word) = word {
            self.push_words(alloc, limits, word)?;
        }
        Ok(back)
    }

    /// Takes bytes up to the end of the frame at most, and gives back what follows them.
    pub fn take<'a>(
        &mut self,
        alloc: Global,
        limits: Limits,
        left: &'a [u8],
    ) -> Result<&'a [u8], FrameFault>
        requires begun { IsOpen limits self.old }
        requires some { 0 < length left.now }
        ensures rest { IfOk result (λ back. rest_of self.new ++ back.now ≡ rest_of self.old ++ left.now) }
        ensures shorter { IfOk result (λ back. length back.now < length left.now) }
        ensures begun { OnOk result (IsBegun limits self.new) }
        ensures fault { IfErr result (IsFaultOf limits (numbers (rest_of self.old ++ left.now))) }
    {
        if table::is_whole(&self.table) {
            Ok(self.take_of_segments(alloc, limits, left)?)
        } else {
            self.take_of_table(alloc, limits, left)
        }
    }

    /// The frame, with the number of its bytes. Nothing is left of it.
    pub fn finish(&mut self, alloc: Global) -> (u64, Segments)
        requires some { 0 < length self.old.segments.items }
        requires total { self.old.total ≡ sum (sizes_of (words_of self.old.segments.items)) }
        requires small { length self.old.table.items + self.old.total < 2 ^ 40 }
        requires no_words { self.old.words.items ≡ [] }
        requires no_part { self.old.part.items ≡ [] }
        ensures taken { result.0 ≡ length (rest_of self.old) }
        ensures segments { result.1 ≡ words_of self.old.segments.items }
        ensures empty { IsEmpty self.new }
    {
        let taken = 8 * (self.table.len() as u64 + self.total);
        self.table.clear();
        self.total = 0;
        (taken, take_segments(alloc, &mut self.segments))
    }

    /// Forgets what has come.
    pub fn clear(&mut self, alloc: Global)
        ensures { IsEmpty self.new }
    {
        // The buffers go too: after a fault nothing more is read.
        *self = OpenFrame::new(alloc);
    }

    /// Nothing has come.
    pub fn is_empty(&self) -> bool
        ensures { IsTrue result ↔ (length self.now.table.items + length self.now.part.items ≡ 0) }
    {
        self.table.is_empty() && self.part.is_empty()
    }

    /// How many bytes it still needs at the least, by what has come of its table.
    pub fn needs(&self) -> usize
        requires kept { kept_words self.now < least_words self.now }
        requires short { length self.now.part.items < 8 }
        requires small { least_words self.now < 2 ^ 40 }
        ensures { result + length (rest_of self.now) ≡ 8 * least_words self.now }
    {
        let table = if self.table.is_empty() {
            0
        } else {
            // Each word after the first has two sizes.
            table::count(&self.table) / 2
        };
        let words = table + 1 + self.total as usize;
        8 * (words - self.kept_words()) - self.part.len()
    }

    /// How many words are kept.
    pub fn kept_words(&self) -> usize
        requires { kept_words self.now < 2 ^ 64 }
        ensures { result ≡ kept_words self.now }
    {
        let mut words = self.table.len() + self.words.len();
        for segment in &self.segments {
            words += segment.len();
        }
        words
    }
}

/// The first segment, of this many words, of which nothing has come.
fn first_segment(alloc: Global, size: usize, spare: &mut Spare) -> Result<Vec<u64>, AllocError>
    ensures items { IfOk result (λ v. v.items ≡ []) }
    ensures capacity { IfOk result (λ v. (vec_capacity v ≤ FIRST_CAPACITY) ⊎ (vec_capacity v ≡ vec_capacity spare.old.words)) }
{
    spare.buffer_for(alloc, size.min(FIRST_CAPACITY), size)
}

/// Puts away each segment that is whole.
fn close(
    alloc: Global,
    table: &[u64],
    segments: &mut Vec<Vec<u64>>,
    words: &mut Vec<u64>,
) -> Result<(), AllocError>
    requires whole { IsWholeTable table.now }
    requires fills { Fills (named_sizes (halves table.now)) (words_of segments.old.items) words.old.items }
    ensures fills { OnOk result (Fills (named_sizes (halves table.now)) (words_of segments.new.items) words.new.items) }
    ensures body { OnOk result (body (words_of segments.new.items) words.new.items ≡ body (words_of segments.old.items) words.old.items) }
    ensures ends { OnOk result (EndsInOne table.now segments.new.items words.new.items) }
{
    let count = table::count(table);
    // A segment of size zero is whole as soon as it begins.
    'closing: while segments.len() < count && words.len() == table::size(table, segments.len()) {
        let next = new_segment(alloc, table, segments.len() + 1)?;
        segments.push(mem::replace(words, next))?;
    }
    Ok(())
}

/// A segment of which nothing has come. A large one begins with less capacity than it will need, since
/// its bytes may never come.
fn new_segment(alloc: Global, table: &[u64], segment: usize) -> Result<Vec<u64>, AllocError>
    requires { IsWholeTable table.now }
    ensures items { IfOk result (λ v. v.items ≡ []) }
    ensures capacity { IfOk result (λ v. vec_capacity v ≤ FIRST_CAPACITY) }
{
    let capacity = if segment < table::count(table) {
        table::size(table, segment).min(FIRST_CAPACITY)
    } else {
        0
    };
    Vec::with_capacity(alloc, capacity)
}

/// Takes the bytes of one word, or of what there is of it, and gives back what follows them.
fn take_word<'a>(part: &mut Vec<u8>, left: &'a [u8]) -> Result<(Option<u64>, &'a [u8]), AllocError>
    requires short { length part.old.items < 8 }
    requires some { 0 < length left.now }
    ensures takes { IfOk result (λ taken. Takes part.old.items left.now part.new.items taken.0 taken.1.now) }
    ensures shorter { IfOk result (λ taken. length taken.1.now < length left.now) }
{
    if part.is_empty() && 8 <= left.len() {
        let (front, back) = left.split_at(8);
        return Ok((Some(word_of(front)), back));
    }
    let (front, back) = left.split_at((8 - part.len()).min(left.len()));
    part.extend_from_slice(front)?;
    if part.len() < 8 {
        return Ok((None, back));
    }
    let word = word_of(part);
    part.clear();
    Ok((Some(word), back))
}

/// Takes whole words of the open segment, and gives back what follows them.
fn take_words<'a>(
    alloc: Global,
    table: &[u64],
    segments: &mut Vec<Vec<u64>>,
    words: &mut Vec<u64>,
    left: &'a [u8],
) -> Result<&'a [u8], AllocError>
    requires whole { IsWholeTable table.now }
    requires fills { Fills (named_sizes (halves table.now)) (words_of segments.old.items) words.old.items }
    requires open { length words.old.items < slice_index (named_sizes (halves table.now)) (length segments.old.items) }
    requires some { 8 ≤ length left.now }
    ensures fills { OnOk result (Fills (named_sizes (halves table.now)) (words_of segments.new.items) words.new.items) }
    ensures ends { OnOk result (EndsInOne table.now segments.new.items words.new.items) }
    ensures body { IfOk result (λ back. body (words_of segments.new.items) words.new.items ++ back.now ≡ body (words_of segments.old.items) words.old.items ++ left.now) }
    ensures shorter { IfOk result (λ back. length back.now < length left.now) }
{
    let missing = table::size(table, segments.len()) - words.len();
    let taken = missing.min(left.len() / 8);
    let (front, back) = left.split_at(8 * taken);
    reserve_words(words, taken, missing)?;
    take_in(words, front)?;
    close(alloc, table, segments, words)?;
    Ok(back)
}

/// The segments. One alone leaves the vector its capacity, for the next frame's.
fn take_segments(alloc: Global, segments: &mut Vec<Vec<u64>>) -> Segments
    requires { 0 < length segments.old.items }
    ensures all { result ≡ words_of segments.old.items }
    ensures none { segments.new.items ≡ [] }
{
    if segments.len() == 1 {
        return Segments::one(segments.swap_remove(0));
    }
    let Ok(held) = Segments::new(mem::replace(segments, Vec::new(alloc))) else {
        // A frame has at least one segment.
        unreachable!()
    };
    held
}
