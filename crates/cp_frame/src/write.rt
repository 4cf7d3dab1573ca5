//! Writing frames.

ghost use Rattle.std.specs.Prelude.{◌≡◌, [], ◌+◌, ◌^◌, ◌<◌, ◌≤◌, ◌++◌, IfOk, OnOk, OnErr, IfErr, IfSome, IfNone, length, sum};
ghost use Rattle.cp_frame.specs.Framed.{sizes_of};
ghost use Rattle.cp_packed.specs.Words.{bytes_of};
ghost use Rattle.cp_packed.specs.Packing.{Appends};
ghost use Rattle.cp_frame.specs.Frame.{IsWithin, Written, WrittenAfter, IsWrittenAfter, IsRefusedFor, padded_table};
ghost use Rattle.cp_frame.specs.Sending.{PutsTable};
ghost use Rattle.cp_words.specs.Segments.{words_of};
ghost use Rattle.cp_frame.specs.declared.mode.Mode.TheVariants.{Plain, Packed};

use crate::fault::FrameFault;
use crate::mode::Mode;
use cp_packed::{LONGEST, push_packed, push_plain, take_in};
use cp_words::{Limits, Segments};
use std::alloc::{AllocError, Global};

/// How many bytes are reserved for a packed frame at first. A large one is mostly shorter than it could be.
const FIRST_CAPACITY: usize = 65_536;

/// Writes the segment table. At an `Err` some of it may be written.
pub fn push_table(out: &mut Vec<u8>, segments: &[Vec<u64>]) -> Result<(), AllocError>
    requires some { 0 < length segments.now }
    requires few { length segments.now ≤ 512 }
    requires small { sum (sizes_of (words_of segments.now)) < 2 ^ 32 }
    ensures put { OnOk result (out.new.items ≡ out.old.items ++ padded_table (words_of segments.now)) }
    ensures grown { OnErr result (Appends out.old.items out.new.items) }
{
    out.extend_from_slice(&((segments.len() - 1) as u32).to_le_bytes())?;
    for segment in segments {
        out.extend_from_slice(&(segment.len() as u32).to_le_bytes())?;
    }
    // An even number of segments leaves half a word, which is padding.
    if segments.len() % 2 == 0 {
        out.extend_from_slice(&0u32.to_le_bytes())?;
    }
    Ok(())
}

/// The words of all segments together, within the limits.
pub fn count_words(segments: &[Vec<u64>], limits: Limits) -> Result<u64, FrameFault>
    ensures words { IfOk result (λ words. words ≡ sum (sizes_of (words_of segments.now))) }
    ensures within { OnOk result (IsWithin limits (words_of segments.now)) }
    ensures refused { IfErr result (IsRefusedFor limits (words_of segments.now)) }
{
    if (limits.segments() as usize) < segments.len() {
        return Err(FrameFault::TooManySegments);
    }
    words_in(segments, limits.frame_words() as u64).ok_or(FrameFault::FrameTooLarge)
}

/// Writes the segment table, packed as one piece. At an `Err` some of it may be written.
pub fn push_packed_table(
    alloc: Global,
    out: &mut Vec<u8>,
    segments: &[Vec<u64>],
) -> Result<(), AllocError>
    requires some { 0 < length segments.now }
    requires few { length segments.now ≤ 512 }
    requires small { sum (sizes_of (words_of segments.now)) < 2 ^ 32 }
    ensures put { OnOk result (PutsTable (words_of segments.now) out.old.items out.new.items) }
    ensures grown { OnErr result (Appends out.old.items out.new.items) }
{
    // Most messages have one segment.
    if segments.len() == 1 {
        return push_packed(out, &[segments[0].len() as u64 * 0x1_0000_0000]);
    }
    let table = table_words(alloc, segments)?;
    push_packed(out, &table)
}

/// Writes the bytes of the segments' frame, as `write_frame` gives them, after what `out` holds.
///
/// Where the limits are passed, `TooManySegments` (F1) is reported, or else `FrameTooLarge` (F2). At an
/// `Err` `out` holds what it held.
pub fn write_after(
    alloc: Global,
    out: &mut Vec<u8>,
    segments: &Segments,
    mode: Mode,
    limits: Limits,
) -> Result<(), FrameFault>
    ensures written { OnOk result (WrittenAfter mode limits segments.now out.old.items out.new.items) }
    ensures refused { IfErr result (IsRefusedFor limits segments.now) }
    ensures same { OnErr result (out.new.items ≡ out.old.items) }
{
    let length = out.len();
    let segments = segments.lists();
    let words = count_words(segments, limits)?;
    let done = match mode {
        Mode::Plain => write_plain(out, segments, words),
        Mode::Packed => write_packed(alloc, out, segments, words),
    };
    if done.is_err() {
        out.truncate(length);
        return Err(FrameFault::OutOfMemory);
    }
    Ok(())
}

/// Writes the bytes of the segments' frame as `write_frame` gives them, over what `out` holds,
/// whose buffer is used again.
///
/// Where the limits are passed, `TooManySegments` (F1) is reported, or else `FrameTooLarge` (F2). At an
/// `Err` `out` is empty.
pub fn write_over(
    alloc: Global,
    out: &mut Vec<u8>,
    segments: &Segments,
    mode: Mode,
    limits: Limits,
) -> Result<(), FrameFault>
    ensures written { OnOk result (Written mode limits segments.now out.new.items) }
    ensures refused { IfErr result (IsRefusedFor limits segments.now) }
    ensures nothing { OnErr result (out.new.items ≡ []) }
{
    out.clear();
    write_after(alloc, out, segments, mode, limits)
}

/// The bytes of the segments' frame (encoding specification, "Serialization Over a Stream" and
/// "Packing"), with padding of zeros. In the packed form the table and each segment are packed as
/// pieces of their own.
///
/// Where the limits are passed, `TooManySegments` (F1) is reported, or else `FrameTooLarge` (F2).
pub fn write_frame(
    alloc: Global,
    segments: &Segments,
    mode: Mode,
    limits: Limits,
) -> Result<Vec<u8>, FrameFault>
    ensures written { IfOk result (λ out. Written mode limits segments.now out.items) }
    ensures refused { IfErr result (IsRefusedFor limits segments.now) }
{
    let mut out = Vec::new(alloc);
    write_over(alloc, &mut out, segments, mode, limits)?;
    Ok(out)
}

/// The words of all segments together, unless they are too many.
fn words_in(segments: &[Vec<u64>], limit: u64) -> Option<u64>
    ensures words { IfSome result (λ words. words ≡ sum (sizes_of (words_of segments.now))) }
    ensures within { IfSome result (λ words. words ≤ limit) }
    ensures past { IfNone result (limit < sum (sizes_of (words_of segments.now))) }
{
    let mut words: u64 = 0;
    for segment in segments {
        let size = segment.len() as u64;
        // A difference, since the sum could overflow.
        if limit - words < size {
            return None;
        }
        words += size;
    }
    Some(words)
}

/// The segment table, as words.
fn table_words(alloc: Global, segments: &[Vec<u64>]) -> Result<Vec<u64>, AllocError>
    requires some { 0 < length segments.now }
    requires few { length segments.now ≤ 512 }
    requires small { sum (sizes_of (words_of segments.now)) < 2 ^ 32 }
    ensures { IfOk result (λ words. padded_table (words_of segments.now) ≡ bytes_of words.items) }
{
    let mut bytes = Vec::new(alloc);
    push_table(&mut bytes, segments)?;
    let mut words = Vec::new(alloc);
    take_in(&mut words, &bytes)?;
    Ok(words)
}

/// Writes the frame of the segments, in the plain form, after what `out` holds. At an `Err` some of it may be written.
fn write_plain(out: &mut Vec<u8>, segments: &[Vec<u64>], words: u64) -> Result<(), AllocError>
    requires some { 0 < length segments.now }
    requires few { length segments.now ≤ 512 }
    requires words { words ≡ sum (sizes_of (words_of segments.now)) }
    requires small { words ≤ 67108864 }
    ensures put { OnOk result (IsWrittenAfter Plain (words_of segments.now) out.old.items out.new.items) }
    ensures grown { OnErr result (Appends out.old.items out.new.items) }
{
    let table = segments.len() / 2 + 1;
    out.reserve(8 * (table + words as usize))?;
    push_table(out, segments)?;
    for segment in segments {
        push_plain(out, segment)?;
    }
    Ok(())
}

/// The same in the packed form: the table and each segment are a piece each.
fn write_packed(
    alloc: Global,
    out: &mut Vec<u8>,
    segments: &[Vec<u64>],
    words: u64,
) -> Result<(), AllocError>
    requires some { 0 < length segments.now }
    requires few { length segments.now ≤ 512 }
    requires words { words ≡ sum (sizes_of (words_of segments.now)) }
    requires small { words ≤ 67108864 }
    ensures put { OnOk result (IsWrittenAfter Packed (words_of segments.now) out.old.items out.new.items) }
    ensures grown { OnErr result (Appends out.old.items out.new.items) }
{
    let table = segments.len() / 2 + 1;
    let most = LONGEST * (table + words as usize);
    out.reserve(most.min(FIRST_CAPACITY))?;
    push_packed_table(alloc, out, segments)?;
    for segment in segments {
        push_packed(out, segment)?;
    }
    Ok(())
}
