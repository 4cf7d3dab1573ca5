//! Writing frames to a writer.

ghost use Rattle.std.specs.Prelude.{◌≡◌, [], ◌+◌, ◌^◌, ◌<◌, ◌≤◌, IfOk, OnOk, OnErr, IfErr, length, sum};
ghost use Rattle.std.specs.List.{flat_map};
ghost use Rattle.std.specs.Io.KnownBytes.{Appends};
ghost use Rattle.cp_frame.specs.Framed.{sizes_of};
ghost use Rattle.cp_packed.specs.Words.{bytes_of};
ghost use Rattle.cp_frame.specs.Frame.{IsRefusedFor, padded_table};
ghost use Rattle.cp_words.specs.Segments.{words_of};
ghost use Rattle.cp_frame.specs.Sending.{PutsTable, Moves, Sends, SendsForm, SendsSpelt};
ghost use Rattle.cp_frame.specs.declared.mode.Mode.TheVariants.{Plain, Packed};

use crate::fault::FrameFault;
use crate::mode::Mode;
use crate::write::{count_words, push_packed_table, push_table};
use byteorder::{ByteOrder, LittleEndian};
use cp_packed::{LONGEST, push_groups};
use cp_words::{Limits, Segments};
use std::alloc::{AllocError, Global};
use std::io::{self, Write};

/// How many bytes are written at once.
/// So no frame is held whole as bytes.
const BUFFER: usize = 65_536;

/// How many words are packed before what the buffer holds is written.
const STEP: usize = 6_144;

/// How many bytes the buffer holds at most: what wasn't much yet, and what this many words are packed
/// as, the last with a whole run after it.
const MOST: usize = BUFFER + LONGEST * (STEP + 255);

/// Writes the bytes of the segments' frame to a writer, as `write_frame` gives them (encoding
/// specification, "Serialization Over a Stream" and "Packing"), in blocks of about 64 KiB that are
/// made in `buffer`, which may be used again.
///
/// Where the limits are passed, `TooManySegments` (F1) is reported, or else `FrameTooLarge` (F2); and
/// `OutOfMemory` (F6) where there is no memory for a block. Then nothing was written. At `Ok(Err(..))`
/// a call of the writer failed, or the buffer couldn't grow, and a beginning of the frame may have
/// been written.
pub fn send_frame<W: Write>(
    alloc: Global,
    to: &mut W,
    buffer: &mut Vec<u8>,
    segments: &Segments,
    mode: Mode,
    limits: Limits,
) -> Result<io::Result<()>, FrameFault>
    ensures sent { IfOk result (λ done. OnOk done (Sends mode limits segments.now (W.contents to.old) (W.contents to.new))) }
    ensures refused { IfErr result (IsRefusedFor limits segments.now) }
    ensures nothing { OnErr result (to.new ≡ to.old) }
{
    let segments = segments.lists();
    let words = count_words(segments, limits)?;
    let done = match mode {
        Mode::Plain => send_plain(alloc, to, buffer, segments)?,
        Mode::Packed => send_packed(alloc, to, buffer, segments, words)?,
    };
    Ok(done)
}

/// Writes the frame of the segments in the plain form. At an `Err` nothing was written.
fn send_plain<W: Write>(
    alloc: Global,
    to: &mut W,
    buffer: &mut Vec<u8>,
    segments: &[Vec<u64>],
) -> Result<io::Result<()>, AllocError>
    requires some { 0 < length segments.now }
    requires few { length segments.now ≤ 512 }
    requires small { sum (sizes_of (words_of segments.now)) < 2 ^ 32 }
    ensures sent { IfOk result (λ done. OnOk done (SendsForm Plain (words_of segments.now) (W.contents to.old) (W.contents to.new))) }
    ensures nothing { OnErr result (to.new ≡ to.old) }
{
    let table = table_bytes(alloc, segments)?;
    // A buffer that is used again isn't cleared again.
    if buffer.len() < BUFFER {
        buffer.resize(BUFFER, 0)?;
    }
    if let Err(error) = to.write_all(&table) {
        return Ok(Err(error));
    }
    Ok(send_segments(to, buffer, segments))
}

/// The segment table.
fn table_bytes(alloc: Global, segments: &[Vec<u64>]) -> Result<Vec<u8>, AllocError>
    requires some { 0 < length segments.now }
    requires few { length segments.now ≤ 512 }
    requires small { sum (sizes_of (words_of segments.now)) < 2 ^ 32 }
    ensures { IfOk result (λ b. b.items ≡ padded_table (words_of segments.now)) }
{
    let mut table = Vec::with_capacity(alloc, 8 * (segments.len() / 2 + 1))?;
    push_table(&mut table, segments)?;
    Ok(table)
}

/// Writes the words of all segments.
fn send_segments<W: Write>(to: &mut W, buffer: &mut [u8], segments: &[Vec<u64>]) -> io::Result<()>
    requires some { 8 ≤ length buffer.old }
    ensures { OnOk result (Appends (W.contents to.old) (W.contents to.new) (flat_map bytes_of (words_of segments.now))) }
{
    for segment in segments {
        send_words(to, buffer, segment)?;
    }
    Ok(())
}

/// Writes words, as many at once as fit the buffer.
fn send_words<W: Write>(to: &mut W, buffer: &mut [u8], words: &[u64]) -> io::Result<()>
    requires some { 8 ≤ length buffer.old }
    ensures { OnOk result (Appends (W.contents to.old) (W.contents to.new) (bytes_of words.now)) }
{
    let most = buffer.len() / 8;
    let mut left = words;
    'sending: while !left.is_empty() {
        let (front, back) = left.split_at(left.len().min(most));
        let block = &mut buffer[..8 * front.len()];
        LittleEndian::write_u64_into(front, block);
        to.write_all(block)?;
        left = back;
    }
    Ok(())
}

/// Writes the frame of the segments in the packed form. At an `Err` nothing was written.
fn send_packed<W: Write>(
    alloc: Global,
    to: &mut W,
    buffer: &mut Vec<u8>,
    segments: &[Vec<u64>],
    words: u64,
) -> Result<io::Result<()>, AllocError>
    requires some { 0 < length segments.now }
    requires few { length segments.now ≤ 512 }
    requires words { words ≡ sum (sizes_of (words_of segments.now)) }
    requires small { words ≤ 67108864 }
    ensures sent { IfOk result (λ done. OnOk done (SendsForm Packed (words_of segments.now) (W.contents to.old) (W.contents to.new))) }
    ensures nothing { OnErr result (to.new ≡ to.old) }
{
    let table = segments.len() / 2 + 1;
    let most = LONGEST * (table + words as usize);
    buffer.clear();
    buffer.reserve(most.min(MOST))?;
    push_packed_table(alloc, buffer, segments)?;
    Ok(send_packed_segments(to, buffer, segments))
}

/// Writes the words of all segments, each packed as one piece, and what the buffer held before.
fn send_packed_segments<W: Write>(
    to: &mut W,
    buffer: &mut Vec<u8>,
    segments: &[Vec<u64>],
) -> io::Result<()>
    requires table { PutsTable (words_of segments.now) [] buffer.old.items }
    ensures { OnOk result (SendsForm Packed (words_of segments.now) (W.contents to.old) (W.contents to.new)) }
{
    for segment in segments {
        send_packed_words(to, buffer, segment)?;
    }
    to.write_all(buffer)
}

/// Writes words, packed as one piece, of which what isn't much yet stays in the buffer.
fn send_packed_words<W: Write>(to: &mut W, buffer: &mut Vec<u8>, words: &[u64]) -> io::Result<()>
    ensures { OnOk result (SendsSpelt (W.contents to.old) (W.contents to.new) buffer.old.items buffer.new.items words.now) }
{
    let mut left = words;
    'packing: while !left.is_empty() {
        left = push_groups(buffer, left, left.len() - left.len().min(STEP))?;
        flush(to, buffer)?;
    }
    Ok(())
}

/// Writes what the buffer holds, where it is much.
fn flush<W: Write>(to: &mut W, buffer: &mut Vec<u8>) -> io::Result<()>
    ensures { OnOk result (Moves (W.contents to.old) (W.contents to.new) buffer.old.items buffer.new.items) }
{
    if BUFFER <= buffer.len() {
        to.write_all(buffer)?;
        buffer.clear();
    }
    Ok(())
}
