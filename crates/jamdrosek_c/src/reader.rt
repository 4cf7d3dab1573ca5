//! A reader of a stream.

ghost use Rattle.std.specs.Prelude.{◌≡◌, ◌≢◌, None};
ghost use Rattle.c_handles.specs.Limits.{bounds_of};
ghost use Rattle.jamdrosek_c.specs.Reader.{mode_of, IsNew, IsAllowedFor, TakesThrough, EndsThrough, NeedsThrough, MessageThrough, CheckThrough, WriteThrough, RecutThrough, CopyThrough};
ghost use Rattle.jamdrosek_c.specs.Reader.{FormThrough, CheckFormThrough};

use crate::tell::{
    CLOSED, DONE, NO_MEMORY, Step, mode_of, tell, tell_bytes, tell_end, tell_numbers, tell_step,
};
use c_handles::{Bytes, CallFault, LimitNumbers, MessageNumbers, ReaderHandle, ReaderState, Spot};
use std::alloc::Global;

/// Opens a reader of a stream in the plain form or the packed one, within these limits. A reader that was there is let go. At a
/// fault the handle is as it was: 2 where a limit is out of its range, F6 where memory runs out.
#[unsafe(no_mangle)]
pub extern "C" fn jd_reader_open(
    alloc: Global,
    reader: &mut ReaderHandle,
    packed: bool,
    limits: &LimitNumbers,
) -> u32
    ensures opened { result ≡ 0 → IsNew (mode_of packed) (bounds_of limits.now) reader.new.value }
    ensures same { result ≢ 0 → reader.new.value ≡ reader.old.value }
    ensures allowed { IsAllowedFor (bounds_of limits.now) result }
{
    let Some(limits) = limits.limits() else {
        return CallFault::Limits.code();
    };
    match Box::new(alloc, ReaderState::new(alloc, mode_of(packed), limits)) {
        Ok(state) => {
            reader.put(state);
            DONE
        }
        Err(_) => NO_MEMORY,
    }
}

/// Takes bytes of the stream up to the end of the next frame, as `FrameReader::next`, and says how many, and whether a frame is
/// there. The frame that was there, and the bytes that were lent, are let go.
#[unsafe(no_mangle)]
pub extern "C" fn jd_reader_next(
    alloc: Global,
    reader: &mut ReaderHandle,
    piece: &[u8],
    step: &mut Step,
) -> u32
    ensures { TakesThrough reader.old.value piece.now reader.new.value step.new result }
{
    match reader.take(alloc) {
        Some(mut state) => {
            let taken = state.next(piece);
            let has_frame = state.has_frame();
            reader.put(state);
            tell_step(taken, has_frame, step)
        }
        None => {
            *step = Step::NONE;
            CLOSED
        }
    }
}

/// Ends the stream, as `FrameReader::finish`.
#[unsafe(no_mangle)]
pub extern "C" fn jd_reader_end(alloc: Global, reader: &mut ReaderHandle) -> u32
    ensures { EndsThrough reader.old.value reader.new.value result }
{
    match reader.take(alloc) {
        Some(mut state) => {
            let ended = state.end();
            reader.put(state);
            tell_end(ended)
        }
        None => CLOSED,
    }
}

/// How many bytes the open frame, or else the next one, still needs at the least, as `FrameReader::needs`: 0 where a fault was
/// reported or the handle is closed.
#[unsafe(no_mangle)]
pub extern "C" fn jd_reader_needs(alloc: Global, reader: &mut ReaderHandle) -> usize
    ensures same { reader.new.value ≡ reader.old.value }
    ensures needs { NeedsThrough reader.old.value result }
{
    match reader.take(alloc) {
        Some(state) => {
            let needs = state.needs();
            reader.put(state);
            needs
        }
        None => 0,
    }
}

/// The kind and the numbers of the message of rpc.capnp that the frame holds, as `view_in`.
#[unsafe(no_mangle)]
pub extern "C" fn jd_reader_message(
    alloc: Global,
    reader: &mut ReaderHandle,
    message: &mut MessageNumbers,
    spot: &mut Spot,
) -> u32
    ensures same { reader.new.value ≡ reader.old.value }
    ensures told { MessageThrough reader.old.value message.new spot.new result }
{
    match reader.take(alloc) {
        Some(state) => {
            let numbers = state.message();
            reader.put(state);
            tell_numbers(numbers, message, spot)
        }
        None => tell_numbers(Err(CallFault::Closed), message, spot),
    }
}

/// Checks that the frame holds a struct, of any schema, as `View::root`.
#[unsafe(no_mangle)]
pub extern "C" fn jd_reader_check(alloc: Global, reader: &mut ReaderHandle, spot: &mut Spot) -> u32
    ensures same { reader.new.value ≡ reader.old.value }
    ensures told { CheckThrough reader.old.value spot.new result }
{
    match reader.take(alloc) {
        Some(state) => {
            let checked = state.check();
            reader.put(state);
            tell(checked, spot)
        }
        None => tell(Err(CallFault::Closed), spot),
    }
}

/// Lends the frame in the plain form or the packed one, as `write_frame`. Where it is lent in the form of the stream, its words are those
/// that came; how they are packed is ours.
#[unsafe(no_mangle)]
pub extern "C" fn jd_reader_write(
    alloc: Global,
    reader: &mut ReaderHandle,
    packed: bool,
    bytes: &mut Bytes,
) -> u32
    ensures { WriteThrough (mode_of packed) reader.old.value reader.new.value bytes.new result }
{
    match reader.take(alloc) {
        Some(mut state) => {
            let written = state.write(mode_of(packed));
            *bytes = Bytes::of_buffer(&state.lent);
            reader.put(state);
            tell_bytes(written)
        }
        None => {
            *bytes = Bytes::of(&[]);
            CLOSED
        }
    }
}

/// Lends the frame of the same struct, laid anew in segments of at most this many words (0 counts as 1), as `read_root` and
/// `write_segments`.
#[unsafe(no_mangle)]
pub extern "C" fn jd_reader_recut(
    alloc: Global,
    reader: &mut ReaderHandle,
    packed: bool,
    words: u32,
    bytes: &mut Bytes,
    spot: &mut Spot,
) -> u32
    ensures { RecutThrough (mode_of packed) words reader.old.value reader.new.value bytes.new spot.new result }
{
    match reader.take(alloc) {
        Some(mut state) => {
            let cut = state.recut(mode_of(packed), words);
            *bytes = Bytes::of_buffer(&state.lent);
            reader.put(state);
            tell(cut, spot)
        }
        None => {
            *bytes = Bytes::of(&[]);
            tell(Err(CallFault::Closed), spot)
        }
    }
}

/// Lends the canonical form of the frame's message, in a frame of one segment, as `canonical_message`.
#[unsafe(no_mangle)]
pub extern "C" fn jd_reader_canonical(
    alloc: Global,
    reader: &mut ReaderHandle,
    packed: bool,
    bytes: &mut Bytes,
    spot: &mut Spot,
) -> u32
    ensures { FormThrough (mode_of packed) reader.old.value reader.new.value bytes.new spot.new result }
{
    match reader.take(alloc) {
        Some(mut state) => {
            let written = state.canonical(mode_of(packed));
            *bytes = Bytes::of_buffer(&state.lent);
            reader.put(state);
            tell(written, spot)
        }
        None => {
            *bytes = Bytes::of(&[]);
            tell(Err(CallFault::Closed), spot)
        }
    }
}

/// Checks that the frame's message is canonical, as `is_canonical`.
#[unsafe(no_mangle)]
pub extern "C" fn jd_reader_check_canonical(
    alloc: Global,
    reader: &mut ReaderHandle,
    spot: &mut Spot,
) -> u32
    ensures same { reader.new.value ≡ reader.old.value }
    ensures told { CheckFormThrough reader.old.value spot.new result }
{
    match reader.take(alloc) {
        Some(state) => {
            let checked = state.check_canonical();
            reader.put(state);
            tell(checked, spot)
        }
        None => tell(Err(CallFault::Closed), spot),
    }
}

/// Copies what is lent, from this byte on, as much as fits, and says how much: nothing where the handle is closed.
#[unsafe(no_mangle)]
pub extern "C" fn jd_reader_copy(
    alloc: Global,
    reader: &mut ReaderHandle,
    from: usize,
    out: &mut [u8],
) -> usize
    ensures same { reader.new.value ≡ reader.old.value }
    ensures copied { CopyThrough reader.old.value from out.old out.new result }
{
    match reader.take(alloc) {
        Some(state) => {
            let count = state.copy(from, out);
            reader.put(state);
            count
        }
        None => 0,
    }
}

/// Lets go of the reader, if there is one, and leaves the handle closed.
#[unsafe(no_mangle)]
pub extern "C" fn jd_reader_close(alloc: Global, reader: &mut ReaderHandle)
    ensures { reader.new.value ≡ None }
{
    reader.close(alloc);
}
