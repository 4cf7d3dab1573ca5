//! Writing messages, each as one frame.

ghost use Rattle.std.specs.Prelude.{◌≡◌, ◌⊎◌, ◌≤◌, ◌++◌, [], IfOk, IfErr, OnOk, OnErr, length, take, drop};
ghost use Rattle.std.specs.Int.{to_le_bytes, w32};
ghost use Rattle.cp_frame.specs.declared.mode.Mode.TheVariants.{Plain};
ghost use Rattle.cp_rpc.specs.Viewed.{viewed};
ghost use Rattle.cp_stream.specs.Reader.{IsMemory};
ghost use Rattle.cp_stream.specs.Read.{IsDevice};
ghost use Rattle.cp_stream.specs.Write.{IsLaidOutAs, IsNotLaidOut, IsWrittenAs, IsPut, IsUnwrittenFor, IsSent, IsCutShort, Sends, Breaks};

use crate::device::DeviceError;
use crate::fault::{Refusal, StreamFault, refused};
use crate::tap::Tap;
use cp_frame::{Mode, write_after, write_frame};
use cp_rpc::{Message, MessageView, SchemaFault, draft_of};
use cp_tree::WriteFault;
use cp_words::{Limits, Segments};
use cp_writing::{write_draft_bytes, write_draft_over};
use std::alloc::Global;
use std::io::{ErrorKind, Write};
use std::mem;

/// Writes all of the bytes. They are offered at once, and then what is left of them. An error, and a call
/// that takes no byte, end it.
pub fn write_whole<W: Write>(to: &mut Tap<W>, bytes: &[u8]) -> Result<(), StreamFault>
    ensures sent { OnOk result (Sends W.contents to.old to.new bytes.now) }
    ensures device { IfErr result IsDevice }
    ensures broken { IfErr result (λ _. Breaks W.contents to.old to.new bytes.now) }
{
    let mut left = bytes;
    'writing: while !left.is_empty() {
        match to.write(left) {
            Ok(count) if count > 0 => left = &left[count..],
            Ok(_) => return Err(StreamFault::Device(DeviceError::from(ErrorKind::WriteZero))),
            Err(error) => return Err(StreamFault::from(error)),
        }
    }
    Ok(())
}

/// Writes a message as one frame, in segments of at most this many words as by
/// `cp_writing::write_segments` (encoding specification, "Serialization Over a Stream", "Packing").
///
/// B2 if a list of it has 2^29 elements or words or more; else B1 if it nests deeper than the limit;
/// else B2 if it costs more; else B4 if its segments have more words together than a frame may have;
/// B3 and F6 if memory runs out. All are reported at byte 0, before a byte is written. `Device` says that a
/// call of the device failed, and then a beginning of the frame was written.
pub fn write_message_in<W: Write>(
    alloc: Global,
    to: &mut Tap<W>,
    message: &Message,
    mode: Mode,
    max_words: u32,
    limits: Limits,
) -> Result<(), StreamFault>
    ensures sent { OnOk result (IsSent W.contents mode limits max_words limits.segments message.now to.old to.new) }
    ensures stopped { IfErr result (IsCutShort W.contents mode limits max_words limits.segments message.now to.old to.new) }
{
    match frame_of(alloc, message, mode, max_words, limits) {
        Ok(frame) => write_whole(to, &frame),
        Err(refusal) => Err(refused(0, refusal)),
    }
}

/// Writes a message as one frame of one segment, as by `cp_writing::write_root`. Faults are those of
/// `write_message_in`.
pub fn write_message<W: Write>(
    alloc: Global,
    to: &mut Tap<W>,
    message: &Message,
    mode: Mode,
    limits: Limits,
) -> Result<(), StreamFault>
    ensures sent { OnOk result (IsSent W.contents mode limits limits.frame_words 1 message.now to.old to.new) }
    ensures stopped { IfErr result (IsCutShort W.contents mode limits limits.frame_words 1 message.now to.old to.new) }
{
    write_message_in(alloc, to, message, mode, limits.frame_words(), limits)
}

/// Puts the frame that `write_message` writes of a message after what a block holds. In the plain form a message is laid
/// out straight into a block that holds nothing, and else over what `words` holds, whose memory is used again;
/// afterwards it holds nothing. Faults are those, without a place, and then the block holds what it held.
pub fn put_message(
    alloc: Global,
    block: &mut Vec<u8>,
    words: &mut Vec<u64>,
    message: &Message,
    mode: Mode,
    limits: Limits,
) -> Result<(), Refusal>
    ensures put { OnOk result (IsPut mode limits limits.frame_words 1 message.now block.old.items block.new.items) }
    ensures refused { IfErr result (IsUnwrittenFor limits limits.frame_words 1 message.now) }
    ensures same { OnErr result (block.new.items ≡ block.old.items) }
    ensures emptied { words.new.items ≡ [] }
{
    let put = match mode {
        // Saves a copy of all words. A layout after other bytes would carry these through each step and its
        // proof.
        Mode::Plain if block.is_empty() => put_straight(alloc, block, message, limits),
        _ => put_over(alloc, block, words, message, mode, limits),
    };
    words.clear();
    put
}

/// The bytes of the frame that `write_message` writes the message of a view as. Faults are those, without a place, and S3 if
/// memory runs out for the message.
pub fn frame_of_view(
    alloc: Global,
    view: &MessageView,
    mode: Mode,
    limits: Limits,
) -> Result<Vec<u8>, Refusal>
    ensures written { IfOk result (λ b. IsWrittenAs mode limits limits.frame_words 1 (viewed view.now) b.items) }
    ensures refused { IfErr result (λ r. IsMemory r ⊎ IsUnwrittenFor limits limits.frame_words 1 (viewed view.now) r) }
{
    let Ok(message) = view.message(alloc) else {
        return Err(Refusal::Schema(SchemaFault::OutOfMemory));
    };
    let frame = frame_of(alloc, &message, mode, limits.frame_words(), limits);
    drop(message);
    frame
}

/// Puts a message's frame in the plain form into a block that holds nothing, in which the message is laid out.
fn put_straight(
    alloc: Global,
    block: &mut Vec<u8>,
    message: &Message,
    limits: Limits,
) -> Result<(), Refusal>
    requires empty { block.old.items ≡ [] }
    ensures put { OnOk result (IsWrittenAs Plain limits limits.frame_words 1 message.now block.new.items) }
    ensures refused { IfErr result (IsUnwrittenFor limits limits.frame_words 1 message.now) }
    ensures same { OnErr result (block.new.items ≡ []) }
{
    // At a fault the buffer's memory goes back to the system.
    let buffer = mem::replace(block, Vec::new(alloc));
    *block = frame_over(alloc, buffer, message, limits)?;
    Ok(())
}

/// The frame that a message is written as in the plain form, over what the buffer holds.
fn frame_over(
    alloc: Global,
    buffer: Vec<u8>,
    message: &Message,
    limits: Limits,
) -> Result<Vec<u8>, WriteFault>
    ensures written { IfOk result (λ b. IsWrittenAs Plain limits limits.frame_words 1 message.now b.items) }
    ensures refused { IfErr result (IsNotLaidOut limits limits.frame_words 1 message.now) }
{
    let draft = draft_of(alloc, message)?;
    let written = write_draft_bytes(alloc, buffer, &draft, limits);
    // For the proof: it is dropped at one place, and not under a `?`.
    drop(draft);
    let mut frame = written?;
    // The frame's first word is its segment table.
    let words = frame.len() / 8 - 1;
    put_size(&mut frame, words as u32);
    Ok(frame)
}

/// Writes the size of the one segment of a frame over zero bytes in its segment table.
fn put_size(frame: &mut [u8], words: u32)
    requires { 8 ≤ length frame.old }
    ensures { frame.new ≡ (take 4 frame.old ++ to_le_bytes w32 words) ++ drop 8 frame.old }
{
    frame[4..8].copy_from_slice(&words.to_le_bytes());
}

/// Puts a message's frame after what a block holds. The message is laid out over what `words` holds.
fn put_over(
    alloc: Global,
    block: &mut Vec<u8>,
    words: &mut Vec<u64>,
    message: &Message,
    mode: Mode,
    limits: Limits,
) -> Result<(), Refusal>
    ensures put { OnOk result (IsPut mode limits limits.frame_words 1 message.now block.old.items block.new.items) }
    ensures refused { IfErr result (IsUnwrittenFor limits limits.frame_words 1 message.now) }
    ensures same { OnErr result (block.new.items ≡ block.old.items) }
{
    // The caller keeps the buffer, so that nothing is kept here.
    let buffer = mem::replace(words, Vec::new(alloc));
    let segments = segments_of(alloc, buffer, message, limits.frame_words(), limits)?;
    write_after(alloc, block, &segments, mode, limits)?;
    *words = segments.into_first();
    Ok(())
}

/// The frame that a message is written as.
fn frame_of(
    alloc: Global,
    message: &Message,
    mode: Mode,
    max_words: u32,
    limits: Limits,
) -> Result<Vec<u8>, Refusal>
    ensures written { IfOk result (λ b. IsWrittenAs mode limits max_words limits.segments message.now b.items) }
    ensures refused { IfErr result (IsUnwrittenFor limits max_words limits.segments message.now) }
{
    let segments = segments_of(alloc, Vec::new(alloc), message, max_words, limits)?;
    Ok(write_frame(alloc, &segments, mode, limits)?)
}

/// The segments that a message is laid out in, the first over what the buffer holds.
fn segments_of(
    alloc: Global,
    buffer: Vec<u64>,
    message: &Message,
    max_words: u32,
    limits: Limits,
) -> Result<Segments, WriteFault>
    ensures laid { IfOk result (IsLaidOutAs limits max_words limits.segments message.now) }
    ensures refused { IfErr result (IsNotLaidOut limits max_words limits.segments message.now) }
{
    let draft = draft_of(alloc, message)?;
    let segments = write_draft_over(alloc, buffer, &draft, max_words, limits);
    drop(draft);
    segments
}
