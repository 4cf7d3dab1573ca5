//! Reading one message of a device, and no byte more.

ghost use Rattle.std.specs.Prelude.{◌≡◌, ◌≢◌, ◌<◌, ◌≤◌, ℕ, List, [], IfOk, IfErr, OnOk, OnErr, Some, None, length, take};
ghost use Rattle.std.specs.Io.KnownBytes.{Consumes, IsAtEnd};
ghost use Rattle.cp_frame.specs.Reader.{StandsFor, IsReading};
ghost use Rattle.cp_frame.specs.declared.fault.FrameFault.TheVariants.{Truncated};
ghost use Rattle.cp_stream.specs.declared.fault.Refusal.TheVariants as refusals;
ghost use Rattle.cp_stream.specs.declared.fault.StreamFault.TheVariants.{Refused};
ghost use Rattle.cp_stream.specs.Tap.{inner_of, failures_of};
ghost use Rattle.cp_stream.specs.Read.{FailedOnce, IsDevice, OfKnown, OnlyFrame, OnlyMessage, ReadsFrame, ReadsMessage, RefusesFrame, RefusesMessage, StopsReading};

use crate::fault::{Refusal, StreamFault, refused};
use crate::tap::Tap;
use crate::view::message_in;
use cp_frame::{FrameReader, Mode};
use cp_rpc::Message;
use cp_words::{Limits, Segments};
use std::alloc::Global;
use std::io::Read;

/// How many bytes are asked for at once.
const PIECE: usize = 4096;

/// More bytes than have come of an open frame, whatever the limits.
const MOST: u64 = 1 << 36;

/// Reads the next frame of a device: exactly its bytes. `None` says that the device ended before any
/// byte (encoding specification, "Serialization Over a Stream").
///
/// `Truncated` (F3) says that it ended inside a frame; F1, F2, F4 and F6 are reported as by `FrameReader`,
/// all at 0. `Device` says that a call of the device failed. What was read is the front of its bytes.
pub fn read_segments<R: Read>(
    alloc: Global,
    from: &mut Tap<R>,
    mode: Mode,
    limits: Limits,
) -> Result<Option<Segments>, StreamFault>
    ensures read { IfOk result (ReadsFrame mode limits (R.remaining (inner_of from.old)) (R.remaining (inner_of from.new))) }
    ensures counted { OnOk result (failures_of from.new ≡ failures_of from.old) }
    ensures stopped { IfErr result (StopsReading R.remaining (RefusesFrame mode limits) from.old from.new) }
    // Bytes that are known leave one answer.
    ensures only { OfKnown R.remaining from.old from.new (λ b old new. OnlyFrame mode limits b old new result) }
{
    take_frame(alloc, from, mode, limits)
}

/// Reads the next message of a device: exactly the bytes of its frame. `None` says that the device
/// ended before any byte. Faults are those of `read_segments` and of `view_in`, and S3, all at 0.
pub fn read_message<R: Read>(
    alloc: Global,
    from: &mut Tap<R>,
    mode: Mode,
    limits: Limits,
) -> Result<Option<Message>, StreamFault>
    ensures read { IfOk result (ReadsMessage mode limits (R.remaining (inner_of from.old)) (R.remaining (inner_of from.new))) }
    ensures counted { OnOk result (failures_of from.new ≡ failures_of from.old) }
    ensures stopped { IfErr result (StopsReading R.remaining (RefusesMessage mode limits) from.old from.new) }
    // Bytes that are known leave one answer.
    ensures only { OfKnown R.remaining from.old from.new (λ b old new. OnlyMessage mode limits b old new result) }
{
    take_message(alloc, from, mode, limits)
}

/// Takes the next frame of a device.
fn take_frame<R: Read>(
    alloc: Global,
    from: &mut Tap<R>,
    mode: Mode,
    limits: Limits,
) -> Result<Option<Segments>, StreamFault>
    ensures read { IfOk result (ReadsFrame mode limits (R.remaining (inner_of from.old)) (R.remaining (inner_of from.new))) }
    ensures counted { OnOk result (failures_of from.new ≡ failures_of from.old) }
    ensures stopped { IfErr result (StopsReading R.remaining (RefusesFrame mode limits) from.old from.new) }
{
    let mut frames = FrameReader::new(alloc, mode, limits);
    let mut buffer = [0u8; PIECE];
    // For the proof: a frame is whole long before.
    'reading: while frames.taken() < MOST {
        // No more than the frame needs, so that what follows it stays in the device.
        let most = frames.needs().min(PIECE);
        let length = read_some(from, &mut buffer, most)?;
        if length == 0 {
            return end_of(&mut frames);
        }
        match frames.feed(&buffer[..length]) {
            Ok(mut given) => {
                if !given.is_empty() {
                    return Ok(Some(given.swap_remove(0).1));
                }
            }
            Err(fault) => return Err(refused(0, Refusal::Frame(fault))),
        }
    }
    unreachable!()
}

/// Reads at most this many bytes into a buffer, and says how many: 0 at the end alone.
fn read_some<R: Read>(
    from: &mut Tap<R>,
    buffer: &mut [u8],
    most: usize,
) -> Result<usize, StreamFault>
    requires some { 0 < most }
    requires capacity { most ≤ length buffer.old }
    ensures length { length buffer.new ≡ length buffer.old }
    ensures bound { IfOk result (λ n. n ≤ most) }
    ensures inside { IfOk result (λ n. n ≤ length buffer.new) }
    ensures bytes { IfOk result (λ n. Consumes (R.remaining (inner_of from.old)) (R.remaining (inner_of from.new)) (take n buffer.new)) }
    ensures end { IfOk result (λ n. n ≡ 0 → IsAtEnd (R.remaining (inner_of from.new))) }
    ensures counted { OnOk result (failures_of from.new ≡ failures_of from.old) }
    ensures device { IfErr result IsDevice }
    ensures failed { OnErr result (FailedOnce (failures_of from.old) (failures_of from.new)) }
    ensures none { OnErr result (Consumes (R.remaining (inner_of from.old)) (R.remaining (inner_of from.new)) []) }
{
    Ok(from.read(&mut buffer[..most])?)
}

/// Ends the reading of a frame, where the device ended.
fn end_of(frames: &mut FrameReader) -> Result<Option<Segments>, StreamFault>
    requires { IsReading frames.old.state }
    ensures none { IfOk result (λ frame. (frame ≡ None) × ((b : List ℕ) → StandsFor frames.old b → b ≡ [])) }
    ensures inside { IfErr result (λ fault. (fault ≡ Refused 0 (refusals.Frame Truncated)) × ((b : List ℕ) → StandsFor frames.old b → b ≢ [])) }
{
    match frames.finish() {
        Ok(()) => Ok(None),
        Err(fault) => Err(refused(0, Refusal::Frame(fault))),
    }
}

/// Takes the next message of a device.
fn take_message<R: Read>(
    alloc: Global,
    from: &mut Tap<R>,
    mode: Mode,
    limits: Limits,
) -> Result<Option<Message>, StreamFault>
    ensures read { IfOk result (ReadsMessage mode limits (R.remaining (inner_of from.old)) (R.remaining (inner_of from.new))) }
    ensures counted { OnOk result (failures_of from.new ≡ failures_of from.old) }
    ensures stopped { IfErr result (StopsReading R.remaining (RefusesMessage mode limits) from.old from.new) }
{
    let Some(segments) = take_frame(alloc, from, mode, limits)? else {
        return Ok(None);
    };
    match message_in(alloc, &segments, limits) {
        Ok(message) => Ok(Some(message)),
        Err(refusal) => Err(refused(0, refusal)),
    }
}
