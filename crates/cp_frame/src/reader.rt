//! Reading the frames of a stream.

ghost use Rattle.cp_frame.specs.declared.mode.Mode.TheVariants.{Plain, Packed};

use crate::fault::FrameFault;
use crate::mode::Mode;
use crate::rest::Rest;
use crate::status::Status;
use crate::stream::OpenStream;
use cp_words::{Limits, Segments};
use std::alloc::Global;
use std::marker::Model;

/// Reads the frames of a stream, in whatever pieces it comes (encoding specification,
/// "Serialization Over a Stream"). Words are stored little-endian.
///
/// The reader keeps what has come of the open frame, as words of the segments to be given, and
/// no piece: of a packed stream at most a part of one group, and a run as a number. A frame's header alone reserves at most 1 MiB.
pub struct FrameReader {
    status: Status,
    stream: OpenStream,
}

// Not derived: a crate that lets one go calls this function, and need not prove the drop of all that it holds.
impl Drop for FrameReader {
    fn drop(self) {
        let FrameReader {
            status: _,
            stream: _,
        } = self;
    }
}

impl Model for FrameReader {
    ghost use Rattle.cp_frame.specs.Reader.{Reader};

    ghost Value = { Reader };

    ghost use Rattle.cp_frame.specs.Kept.{seen, KeepsUp};

    ghost view = { λ r. seen r.stream.mode r.stream.limits r.status r.stream.rest };

    ghost invariant = { λ r. KeepsUp r.stream.mode r.stream.limits r.status r.stream.rest };
}

impl FrameReader {
    ghost use Rattle.std.specs.Prelude.{◌≡◌, ◌<◌, ◌≤◌, ◌^◌, [], OnOk, IfErr, IfNone, IfOk, IfSome};
    ghost use Rattle.cp_frame.specs.Reader.{taken_of, StandsFor, Gives, GivesNext, Reports, EndsWell, ReportsAtEnd, KeepsLittle, Needs, IsAsBefore, most_spare, new_reader, failed};

    /// A reader of a stream in this form (encoding specification, "Serialization Over a Stream" and "Packing"), of which
    /// nothing has come.
    pub fn new(alloc: Global, mode: Mode, limits: Limits) -> FrameReader
        ensures fresh { result ≡ new_reader mode limits }
        ensures stands { StandsFor result [] }
    {
        FrameReader {
            status: Status::Reading,
            stream: OpenStream {
                alloc,
                mode,
                limits,
                rest: Rest::new(alloc),
            },
        }
    }

    /// A reader of a stream in the plain form, of which nothing has come.
    pub fn plain(alloc: Global, limits: Limits) -> FrameReader
        ensures fresh { result ≡ new_reader Plain limits }
        ensures stands { StandsFor result [] }
    {
        FrameReader::new(alloc, Mode::Plain, limits)
    }

    /// A reader of a stream in the packed form (encoding specification, "Packing"), of which nothing
    /// has come.
    pub fn packed(alloc: Global, limits: Limits) -> FrameReader
        ensures fresh { result ≡ new_reader Packed limits }
        ensures stands { StandsFor result [] }
    {
        FrameReader::new(alloc, Mode::Packed, limits)
    }

    /// Reads the next piece of the stream. Gives each frame whose last byte it brings, in order,
    /// with the number of the frame's bytes.
    ///
    /// `TooManySegments` (F1) comes with the byte that makes the number of segments known,
    /// `FrameTooLarge` (F2) with the byte that completes a size, and `RunPastFrame` (F4) with the
    /// count, or the last byte of the frame, after which words of a packed run are left. After
    /// frames of the same piece each is kept, and reported by the next call. `OutOfMemory` (F6) is reported at once, and then the
    /// frames of the piece are dropped. After a reported fault each call answers `Failed` (F5).
    pub fn feed(&mut self, piece: &[u8]) -> Result<Vec<(u64, Segments)>, FrameFault>
        ensures given { IfOk result (λ frames. Gives self.old piece.now self.new frames.items) }
        ensures reported { IfErr result (Reports self.old piece.now self.new) }
    {
        self.status.go_on()?;
        let mut frames = Vec::new(self.stream.alloc);
        match self.stream.read(&mut frames, piece) {
            Ok(()) => Ok(frames),
            Err(fault) => {
                self.stream.clear();
                if fault == FrameFault::OutOfMemory || frames.is_empty() {
                    self.status = Status::Failed;
                    return Err(fault);
                }
                // The frames come first: the next call reports the fault.
                self.status = Status::Refusing(fault);
                Ok(frames)
            }
        }
    }

    /// Reads the next piece of the stream up to the end of a frame. Gives the frame whose last byte it brings, with the
    /// number of the frame's bytes and what of the piece follows it, which comes next. `None` says that
    /// the piece was read to its end.
    ///
    /// Faults come as `feed` reports them, but each frame is given before a fault after it is met; so none is kept.
    /// One frame a call, so that it can be used and given back (`reuse`) before the next one takes its
    /// buffer.
    pub fn next<'a>(
        &mut self,
        piece: &'a [u8],
    ) -> Result<Option<(u64, Segments, &'a [u8])>, FrameFault>
        ensures given { IfOk result (λ next. IfSome next (λ t. GivesNext self.old piece.now t.0 t.1 self.new t.2.now)) }
        ensures none { IfOk result (λ next. IfNone next (Gives self.old piece.now self.new [])) }
        ensures reported { IfErr result (Reports self.old piece.now self.new) }
    {
        self.status.go_on()?;
        match self.stream.next(piece) {
            Ok(next) => Ok(next),
            Err(fault) => {
                self.stream.clear();
                self.status = Status::Failed;
                Err(fault)
            }
        }
    }

    /// Takes back a message that isn't needed any more, for the buffer of its first segment, in which the reader
    /// may make a later frame. It keeps one such buffer, the largest of those of at most 2 MiB, and none of its
    /// words. What has come of the stream stays as it is.
    pub fn reuse(&mut self, segments: Segments)
        ensures stays { IsAsBefore self.old self.new }
        ensures little { self.new.spare ≤ most_spare }
    {
        self.stream.rest.frame.spare.keep(segments.into_first());
    }

    /// Ends the stream. `Ok` says that it ended after a frame, and then it may still go on.
    ///
    /// `Truncated` (F3) says that it ended inside one. A kept fault is reported instead, and after a
    /// reported fault `Failed` (F5).
    pub fn finish(&mut self) -> Result<(), FrameFault>
        ensures ok { OnOk result (EndsWell self.old self.new) }
        ensures reported { IfErr result (ReportsAtEnd self.old self.new) }
    {
        self.status.go_on()?;
        if self.stream.rest.is_blank(self.stream.mode) {
            return Ok(());
        }
        self.stream.clear();
        self.status = Status::Failed;
        Err(FrameFault::Truncated)
    }

    /// How many bytes the open frame, or else the next, still needs at the least, however the stream
    /// goes on: in the plain form all that are left, once the segment table has come. A caller that
    /// takes no more than this from its source never takes bytes after the frame. It is 0 exactly
    /// where a fault was reported or is reported next.
    pub fn needs(&self) -> usize
        ensures { Needs self.now self.now.state result }
    {
        match (self.status, self.stream.mode) {
            (Status::Reading, Mode::Plain) => self.stream.rest.frame.needs(),
            // Of a packed frame only the open group is sure to come.
            (Status::Reading, Mode::Packed) => self.stream.rest.group.needs(),
            _ => 0,
        }
    }

    /// How many bytes of the open frame have come: fewer than 2^36, whatever the limits.
    pub fn taken(&self) -> u64
        ensures taken { result ≡ taken_of self.now.state }
        ensures bound { result < 2 ^ 36 }
    {
        match self.status {
            Status::Reading => self.stream.rest.taken(self.stream.mode, self.stream.limits),
            _ => 0,
        }
    }

    /// How many bytes that aren't whole words, and how many words of the open frame, its segment
    /// table included, the reader keeps: at most 9 bytes, and no more words than have come whole. That is all that it
    /// keeps of the stream. Beside it there is the buffer for later frames (`spare`), of at most 2 MiB, without words.
    pub fn held(&self) -> (usize, usize)
        ensures bytes { result.0 ≡ self.now.bytes }
        ensures words { result.1 ≡ self.now.words }
        ensures little { KeepsLittle self.now }
        ensures reported { self.now.state ≡ failed → (result.0 ≡ 0) × (result.1 ≡ 0) }
    {
        (
            self.stream.rest.frame.part.len() + self.stream.rest.group.part.len(),
            self.stream.rest.frame.kept_words(),
        )
    }

    /// How many words the buffer has room for that the reader keeps for later frames: at most 262,144, which take
    /// 2 MiB, however large the frames were that were given back.
    pub fn spare(&self) -> usize
        ensures spare { result ≡ self.now.spare }
        ensures little { result ≤ most_spare }
    {
        self.stream.rest.frame.spare.capacity()
    }
}
