//! Checking a whole stream.

ghost use Rattle.std.specs.Prelude.{◌≡◌, ℕ, Some, IfOk, IfErr, OnOk};
ghost use Rattle.cp_frame.specs.Reader.{GivesNext};
ghost use Rattle.c_handles.specs.Check.{IsOfKind, IsNotOfKind, HoldsMessage, HoldsNoMessage, HoldsStruct, HoldsNoStruct, Finds};
ghost use Rattle.c_handles.specs.Kept.{GivesNoFrame};

use crate::code::CallFault;
use cp_frame::{FrameFault, FrameReader, Mode};
use cp_reading::View;
use cp_stream::check_in;
use cp_words::{Limits, Segments};
use std::alloc::Global;

/// How many frames a stream has before its first fault, how many bytes they take, and that fault.
#[derive(Drop)]
pub struct Verdict {
    pub frames: u64,
    pub bytes: usize,
    pub fault: Option<CallFault>,
}

/// Reads a whole stream. Each frame has to hold what is asked for: at 0 any words, at 1 a message of rpc.capnp, else a struct of any
/// schema. A fault is the first of the stream (F1 to F4), or of what a frame holds (G1 to G9, S1, S2), or F6.
pub fn check_all(alloc: Global, bytes: &[u8], mode: Mode, limits: Limits, kind: u8) -> Verdict
    ensures { Finds limits mode kind bytes.now result.frames result.bytes result.fault }
{
    let mut reader = FrameReader::new(alloc, mode, limits);
    let mut frames: u64 = 0;
    let mut left = bytes;
    'reading: while !left.is_empty() {
        let taken = bytes.len() - left.len();
        let (segments, back) = match next_frame(&mut reader, left) {
            Ok(next) => next,
            Err(fault) => return Verdict::stopped(frames, taken, CallFault::from(fault)),
        };
        if let Err(fault) = gives(&segments, kind, limits) {
            return Verdict::stopped(frames, taken, fault);
        }
        reader.reuse(segments);
        frames += 1;
        left = back;
    }
    Verdict {
        frames,
        bytes: bytes.len(),
        fault: None,
    }
}

impl Verdict {
    /// A fault after these frames.
    fn stopped(frames: u64, bytes: usize, fault: CallFault) -> Verdict
        ensures { result ≡ record { frames = frames; bytes = bytes; fault = Some fault } }
    {
        Verdict {
            frames,
            bytes,
            fault: Some(fault),
        }
    }
}

/// The next frame of bytes that are all that is left of a stream, and what follows it.
fn next_frame<'a>(
    reader: &mut FrameReader,
    left: &'a [u8],
) -> Result<(Segments, &'a [u8]), FrameFault>
    ensures next { IfOk result (λ next. (size : ℕ) × GivesNext reader.old left.now size next.0 reader.new next.1.now) }
    ensures none { IfErr result (GivesNoFrame reader.old left.now reader.new) }
{
    match reader.next(left) {
        Ok(Some((_, segments, back))) => Ok((segments, back)),
        Ok(None) => Err(FrameFault::Truncated),
        Err(fault) => Err(fault),
    }
}

/// Checks that the segments hold what is asked for.
fn gives(segments: &Segments, kind: u8, limits: Limits) -> Result<(), CallFault>
    ensures found { OnOk result (IsOfKind limits kind segments.now) }
    ensures refused { IfErr result (IsNotOfKind limits kind segments.now) }
{
    match kind {
        0 => Ok(()),
        1 => check_message(segments, limits),
        _ => check_struct(segments, limits),
    }
}

/// Checks that the segments hold a message of rpc.capnp.
fn check_message(segments: &Segments, limits: Limits) -> Result<(), CallFault>
    ensures found { OnOk result (HoldsMessage limits segments.now) }
    ensures refused { IfErr result (HoldsNoMessage limits segments.now) }
{
    match check_in(segments, limits) {
        Ok(()) => Ok(()),
        Err(refusal) => Err(CallFault::Refused(refusal)),
    }
}

/// Checks that the segments hold a struct of some schema.
pub(crate) fn check_struct(segments: &Segments, limits: Limits) -> Result<(), CallFault>
    ensures found { OnOk result (HoldsStruct limits segments.now) }
    ensures refused { IfErr result (HoldsNoStruct limits segments.now) }
{
    match View::root(segments, limits) {
        Ok(_) => Ok(()),
        Err(fault) => Err(CallFault::from(fault)),
    }
}
