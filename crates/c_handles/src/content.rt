//! Contents of calls and outcomes, as frames.

ghost use Rattle.std.specs.Prelude.{◌≡◌, [], IfOk, IfErr, OnOk, OnErr};
ghost use Rattle.cp_words.specs.Limits.{standard};
ghost use Rattle.cp_reading.specs.Denotes.{Root};
ghost use Rattle.c_handles.specs.Content.{IsOneFrame, IsNotOneFrame, HasNoStruct, HoldsContent, HoldsNoContent, IsLaidOut, HasNoLayout, IsContentFrame, HasNoFrame};

use crate::code::CallFault;
use cp_frame::{FrameFault, FrameReader, Mode, write_over};
use cp_reading::View;
use cp_tree::{Draft, Whole};
use cp_words::{Limits, Segments};
use cp_writing::write_draft;
use std::alloc::Global;

/// The content that a plain frame holds: its struct. No bytes are null. What goes out keeps to the standard limits, so this does.
///
/// # Errors
///
/// F1 to F3, G1 to G9 of the frame; `Argument` where bytes follow it; F6.
pub(crate) fn content_of(alloc: Global, bytes: &[u8]) -> Result<Whole, CallFault>
    ensures held { IfOk result (HoldsContent bytes.now) }
    ensures refused { IfErr result (HoldsNoContent bytes.now) }
{
    match one_frame(alloc, bytes)? {
        Some(segments) => {
            let content = struct_in(alloc, &segments);
            drop(segments);
            Ok(content?)
        }
        None => Ok(Whole::null()),
    }
}

/// Writes a content over `out` as the root of a plain frame of one segment. The root pointer is the content itself, of any kind.
pub(crate) fn put_content(
    alloc: Global,
    out: &mut Vec<u8>,
    content: &Whole,
    limits: Limits,
) -> Result<(), CallFault>
    ensures written { OnOk result (IsContentFrame limits content.now out.new.items) }
    ensures refused { IfErr result (HasNoFrame limits content.now) }
    ensures nothing { OnErr result (out.new.items ≡ []) }
{
    out.clear();
    let segments = lay_out(alloc, content, limits)?;
    let written = write_over(alloc, out, &segments, Mode::Plain, limits);
    drop(segments);
    match written {
        Ok(()) => Ok(()),
        Err(fault) => Err(CallFault::from(fault)),
    }
}

/// The segments of the one plain frame that these bytes are. No bytes are none.
fn one_frame(alloc: Global, bytes: &[u8]) -> Result<Option<Segments>, CallFault>
    ensures one { IfOk result (IsOneFrame bytes.now) }
    ensures refused { IfErr result (IsNotOneFrame bytes.now) }
{
    if bytes.is_empty() {
        return Ok(None);
    }
    let mut reader = FrameReader::plain(alloc, Limits::standard());
    let next = reader.next(bytes);
    drop(reader);
    match next {
        Ok(Some((_, segments, back))) => {
            if back.is_empty() {
                return Ok(Some(segments));
            }
            drop(segments);
            Err(CallFault::Argument)
        }
        Ok(None) => Err(CallFault::from(FrameFault::Truncated)),
        Err(fault) => Err(CallFault::from(fault)),
    }
}

/// The struct that segments hold.
fn struct_in(alloc: Global, segments: &Segments) -> Result<Whole, CallFault>
    ensures held { IfOk result (Root segments.now standard) }
    ensures refused { IfErr result (HasNoStruct segments.now) }
{
    match View::root(segments, Limits::standard()) {
        Ok(root) => Ok(root.tree(alloc)?),
        Err(fault) => Err(CallFault::from(fault)),
    }
}

/// The segments that a content is laid out in: one, since it may be as long as a frame.
fn lay_out(alloc: Global, content: &Whole, limits: Limits) -> Result<Segments, CallFault>
    ensures laid { IfOk result (IsLaidOut limits content.now) }
    ensures refused { IfErr result (HasNoLayout limits content.now) }
{
    let draft = Draft::Lent(content.tree());
    let laid = write_draft(alloc, &draft, limits.frame_words(), limits);
    drop(draft);
    match laid {
        Ok(segments) => Ok(segments),
        Err(fault) => Err(CallFault::from(fault)),
    }
}
