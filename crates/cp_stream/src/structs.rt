//! Structs of any schema over readers and writers: one tree as one frame.

ghost use Rattle.std.specs.Prelude.{◌≡◌, ◌≤◌, [], ◌∷◌, length, IfOk, IfErr, OnOk};
ghost use Rattle.cp_tree.specs.Node.{Node};
ghost use Rattle.cp_frame.specs.Frame.{Written};
ghost use Rattle.cp_frame.specs.declared.fault.FrameFault.TheVariants as frames;
ghost use Rattle.cp_reading.specs.Denotes.{Root};
ghost use Rattle.cp_reading.specs.FirstFault.{IsFirstFault};
ghost use Rattle.cp_reading.specs.declared.fault.TreeFault.{TreeFault};
ghost use Rattle.cp_stream.specs.Read.{StopsReading};
ghost use Rattle.cp_stream.specs.Tap.{inner_of, failures_of};
ghost use Rattle.cp_stream.specs.declared.fault.Refusal.TheVariants as refusals;
ghost use Rattle.cp_stream.specs.Structs.{IsWrittenAs, IsUnwrittenFor, IsSent, IsCutShort, IsNoRoot, IsRefusedFor, IsThe, ReadsOnly, ReadsTree, RefusesTree};

use crate::fault::{Refusal, StreamFault, refused};
use crate::read::read_segments;
use crate::tap::Tap;
use crate::write::write_whole;
use cp_frame::{FrameFault, Mode, write_frame};
use cp_reading::View;
use cp_tree::{Object, Whole};
use cp_words::{Limits, Segments};
use cp_writing::write_root;
use std::alloc::Global;
use std::io::{Read, Write};

/// Writes a struct as one frame of one segment (encoding specification, "Messages", "Serialization Over a Stream",
/// "Packing").
///
/// B1 if it nests deeper than the limit; else B2 if it costs more; else B4 if its words are more than a frame may
/// have; B3 and F6 if memory runs out. All are reported at byte 0, before a byte is written. `Device` says that a call
/// of the device failed, and then a beginning of the frame was written.
pub fn write_struct<W: Write>(
    alloc: Global,
    to: &mut Tap<W>,
    object: &Object,
    mode: Mode,
    limits: Limits,
) -> Result<(), StreamFault>
    ensures sent { OnOk result (IsSent W.contents mode limits object.now to.old to.new) }
    ensures stopped { IfErr result (IsCutShort W.contents mode limits object.now to.old to.new) }
{
    match frame_of(alloc, object, mode, limits) {
        Ok(frame) => write_whole(to, &frame),
        Err(refusal) => Err(refused(0, refusal)),
    }
}

/// Reads the next frame of a device, exactly its bytes, and gives its root. `None` says that the device ended before any
/// byte. Faults are those of `read_segments`, and those of the root (G1 to G9), all at 0. `Device` says that a
/// call of the device failed. What was read is the front of its bytes.
pub fn read_struct<R: Read>(
    alloc: Global,
    from: &mut Tap<R>,
    mode: Mode,
    limits: Limits,
) -> Result<Option<Whole>, StreamFault>
    ensures read { IfOk result (ReadsTree mode limits (R.remaining (inner_of from.old)) (R.remaining (inner_of from.new))) }
    ensures counted { OnOk result (failures_of from.new ≡ failures_of from.old) }
    ensures stopped { IfErr result (StopsReading R.remaining (RefusesTree mode limits) from.old from.new) }
    // Bytes that are known leave one answer.
    ensures only { ReadsOnly mode limits (R.remaining (inner_of from.old)) (R.remaining (inner_of from.new)) result }
{
    let Some(segments) = read_segments(alloc, from, mode, limits)? else {
        return Ok(None);
    };
    match root_of(alloc, &segments, limits) {
        Ok(root) => Ok(Some(root)),
        Err(refusal) => Err(refused(0, refusal)),
    }
}

/// The frame of a struct.
fn frame_of(alloc: Global, object: &Object, mode: Mode, limits: Limits) -> Result<Vec<u8>, Refusal>
    ensures written { IfOk result (λ b. IsWrittenAs mode limits object.now b.items) }
    ensures refused { IfErr result (IsUnwrittenFor limits object.now) }
{
    let words = write_root(alloc, object, limits)?;
    frame_in(alloc, words, mode, limits)
}

/// The frame of one segment.
fn frame_in(alloc: Global, words: Vec<u64>, mode: Mode, limits: Limits) -> Result<Vec<u8>, Refusal>
    requires { length words.items ≤ limits.frame_words }
    ensures written { IfOk result (λ b. Written mode limits (words.items ∷ []) b.items) }
    ensures refused { IfErr result (λ refusal. refusal ≡ refusals.Frame frames.OutOfMemory) }
{
    let frame = write_frame(alloc, &Segments::one(words), mode, limits)?;
    Ok(frame)
}

/// The root of a frame's segments, owned.
fn root_of(alloc: Global, segments: &Segments, limits: Limits) -> Result<Whole, Refusal>
    ensures found { IfOk result (Root segments.now limits) }
    ensures refused { IfErr result (IsNoRoot limits segments.now) }
    ensures only { (t : Node) → Root segments.now limits t → IsThe t result }
    ensures reported { (fault : TreeFault) → IsFirstFault segments.now limits fault → IsRefusedFor fault result }
{
    let view = View::root(segments, limits)?;
    match view.tree(alloc) {
        Ok(root) => Ok(root),
        Err(_) => Err(Refusal::Frame(FrameFault::OutOfMemory)),
    }
}
