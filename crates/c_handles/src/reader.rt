//! A stream that C reads, and the frame of it that came last.

ghost use Rattle.std.specs.Prelude.{◌≡◌, [], None, Some, OnOk, OnErr, IfOk, IfErr, is_some};
ghost use Rattle.cp_frame.specs.Reader.{IsAsBefore, EndsWell, ReportsAtEnd, Needs, new_reader};
ghost use Rattle.c_handles.specs.Given.{Copies};
ghost use Rattle.c_handles.specs.Reader.{Keeps, Takes, IsMessage, IsNoMessage, IsStruct, IsNoStruct, Writes, IsUnwritten, Recuts, IsUncut, IsCutOf, HasNoCut};
ghost use Rattle.c_handles.specs.Reader.{IsForm, IsFormless, IsCanonicalFrame, IsNoCanonicalFrame, WritesForm, IsFormUnwritten};

use crate::buffer::fill;
use crate::check::check_struct;
use crate::code::CallFault;
use crate::message::{MessageNumbers, message_numbers};
use cp_canonical::{canonical_message, is_canonical};
use cp_frame::{FrameFault, FrameReader, Mode, write_over};
use cp_reading::read_root;
use cp_words::{Limits, Segments};
use cp_writing::write_segments;
use std::alloc::Global;
use std::mem;

/// The most capacity for lent bytes that is left for later ones.
const SPARE: usize = 65_536;

/// A stream that is read in pieces, the frame of it that came last, and the bytes that were lent.
pub struct ReaderState {
    pub alloc: Global,
    pub limits: Limits,
    pub frames: FrameReader,
    pub came: Option<Segments>,
    pub lent: Vec<u8>,
}

// Not derived: a crate that lets one go calls this function, and need not prove how all that it holds goes.
impl Drop for ReaderState {
    fn drop(self) {
        let ReaderState {
            alloc: _,
            limits: _,
            frames: _,
            came: _,
            lent: _,
        } = self;
    }
}

impl ReaderState {
    /// A reader of a stream of which nothing has come.
    pub fn new(alloc: Global, mode: Mode, limits: Limits) -> ReaderState
        ensures frames { result.frames ≡ new_reader mode limits }
        ensures limits { result.limits ≡ limits }
        ensures none { result.came ≡ None }
        ensures nothing { result.lent.items ≡ [] }
    {
        ReaderState {
            alloc,
            limits,
            frames: FrameReader::new(alloc, mode, limits),
            came: None,
            lent: Vec::new(alloc),
        }
    }

    /// Takes bytes of the stream up to the end of the next frame, and says how many: all, where no frame ends in them. What came
    /// before and what was lent is let go.
    ///
    /// # Errors
    ///
    /// Those of `FrameReader::next`. Then no frame is there.
    pub fn next(&mut self, piece: &[u8]) -> Result<usize, FrameFault>
        ensures { Takes self.old piece.now self.new result }
    {
        self.forget();
        let Some((_, segments, back)) = self.frames.next(piece)? else {
            return Ok(piece.len());
        };
        self.keep(segments);
        Ok(piece.len() - back.len())
    }

    /// Ends the stream, after a frame.
    ///
    /// # Errors
    ///
    /// Those of `FrameReader::finish`.
    pub fn end(&mut self) -> Result<(), FrameFault>
        ensures ok { OnOk result (EndsWell self.old.frames self.new.frames) }
        ensures reported { IfErr result (ReportsAtEnd self.old.frames self.new.frames) }
        ensures limits { self.new.limits ≡ self.old.limits }
        ensures came { self.new.came ≡ self.old.came }
        ensures lent { self.new.lent.items ≡ self.old.lent.items }
    {
        self.frames.finish()
    }

    /// How many bytes the open frame, or else the next one, still needs at the least, as `FrameReader::needs` has it.
    pub fn needs(&self) -> usize
        ensures { Needs self.now.frames self.now.frames.state result }
    {
        self.frames.needs()
    }

    /// Whether a frame is there.
    pub fn has_frame(&self) -> bool
        ensures { result ≡ is_some self.now.came }
    {
        self.came.is_some()
    }

    /// The kind and the numbers of the message of rpc.capnp that the frame holds.
    ///
    /// # Errors
    ///
    /// `NoFrame`, or those of `view_in`.
    pub fn message(&self) -> Result<MessageNumbers, CallFault>
        ensures found { IfOk result (IsMessage self.now.limits self.now.came) }
        ensures refused { IfErr result (IsNoMessage self.now.limits self.now.came) }
    {
        match &self.came {
            Some(segments) => message_numbers(segments, self.limits),
            None => Err(CallFault::NoFrame),
        }
    }

    /// Checks that the frame holds a struct, of any schema, all of it within the limits.
    ///
    /// # Errors
    ///
    /// `NoFrame`, or those of `View::root`.
    pub fn check(&self) -> Result<(), CallFault>
        ensures found { OnOk result (IsStruct self.now.limits self.now.came) }
        ensures refused { IfErr result (IsNoStruct self.now.limits self.now.came) }
    {
        match &self.came {
            Some(segments) => check_struct(segments, self.limits),
            None => Err(CallFault::NoFrame),
        }
    }

    /// Lends the frame in this form, as `write_frame` has it.
    ///
    /// # Errors
    ///
    /// `NoFrame`, or F6. Then nothing is lent.
    pub fn write(&mut self, mode: Mode) -> Result<(), CallFault>
        ensures written { OnOk result (Writes mode self.old.limits self.old.came self.new.lent.items) }
        ensures refused { IfErr result (IsUnwritten self.old.limits self.old.came) }
        ensures nothing { OnErr result (self.new.lent.items ≡ []) }
        ensures keeps { Keeps self.old self.new }
    {
        self.lent.clear();
        let Some(segments) = &self.came else {
            return Err(CallFault::NoFrame);
        };
        write_over(self.alloc, &mut self.lent, segments, mode, self.limits)?;
        Ok(())
    }

    /// Lends the frame of the same struct, laid anew in segments of at most this many words, in this form.
    ///
    /// # Errors
    ///
    /// `NoFrame`, or those of `read_root` and `write_segments`. Then nothing is lent.
    pub fn recut(&mut self, mode: Mode, words: u32) -> Result<(), CallFault>
        ensures cut { OnOk result (Recuts mode words self.old.limits self.old.came self.new.lent.items) }
        ensures refused { IfErr result (IsUncut words self.old.limits self.old.came) }
        ensures nothing { OnErr result (self.new.lent.items ≡ []) }
        ensures keeps { Keeps self.old self.new }
    {
        self.lent.clear();
        let Some(segments) = &self.came else {
            return Err(CallFault::NoFrame);
        };
        let laid = cut_of(self.alloc, segments, words, self.limits)?;
        write_over(self.alloc, &mut self.lent, &laid, mode, self.limits)?;
        Ok(())
    }

    /// Lends the canonical form of the frame's message: a frame of one segment, in this form.
    ///
    /// # Errors
    ///
    /// `NoFrame`, or those of `canonical_message`, or F6. Then nothing is lent.
    pub fn canonical(&mut self, mode: Mode) -> Result<(), CallFault>
        ensures written { OnOk result (WritesForm mode self.old.limits self.old.came self.new.lent.items) }
        ensures refused { IfErr result (IsFormUnwritten self.old.limits self.old.came) }
        ensures nothing { OnErr result (self.new.lent.items ≡ []) }
        ensures keeps { Keeps self.old self.new }
    {
        self.lent.clear();
        let Some(segments) = &self.came else {
            return Err(CallFault::NoFrame);
        };
        let form = form_of(self.alloc, segments, self.limits)?;
        write_over(self.alloc, &mut self.lent, &form, mode, self.limits)?;
        Ok(())
    }

    /// Checks that the frame's message is canonical.
    ///
    /// # Errors
    ///
    /// `NoFrame`, or those of `is_canonical`.
    pub fn check_canonical(&self) -> Result<(), CallFault>
        ensures canonical { OnOk result (IsCanonicalFrame self.now.limits self.now.came) }
        ensures refused { IfErr result (IsNoCanonicalFrame self.now.limits self.now.came) }
    {
        match &self.came {
            Some(segments) => Ok(is_canonical(self.alloc, segments, self.limits)?),
            None => Err(CallFault::NoFrame),
        }
    }

    /// Copies what is lent, from this byte on, as much as fits, and says how much.
    pub fn copy(&self, from: usize, out: &mut [u8]) -> usize
        ensures { Copies self.now.lent.items from out.old out.new result }
    {
        if self.lent.len() < from {
            return 0;
        }
        fill(out, &self.lent[from..])
    }

    /// Keeps the frame that came.
    fn keep(&mut self, segments: Segments)
        ensures came { self.new.came ≡ Some segments }
        ensures frames { self.new.frames ≡ self.old.frames }
        ensures limits { self.new.limits ≡ self.old.limits }
        ensures nothing { self.new.lent.items ≡ self.old.lent.items }
    {
        drop(mem::replace(&mut self.came, Some(segments)));
    }

    /// Lets go of the frame, for the memory of a later one, and of what was lent.
    fn forget(&mut self)
        ensures none { self.new.came ≡ None }
        ensures nothing { self.new.lent.items ≡ [] }
        ensures stays { IsAsBefore self.old.frames self.new.frames }
        ensures limits { self.new.limits ≡ self.old.limits }
    {
        if SPARE < self.lent.capacity() {
            drop(mem::replace(&mut self.lent, Vec::new(self.alloc)));
        }
        self.lent.clear();
        if let Some(segments) = mem::replace(&mut self.came, None) {
            self.frames.reuse(segments);
        }
    }
}

/// The segments of a frame's struct, laid anew.
fn cut_of(
    alloc: Global,
    segments: &Segments,
    words: u32,
    limits: Limits,
) -> Result<Segments, CallFault>
    ensures cut { IfOk result (IsCutOf limits segments.now words) }
    ensures refused { IfErr result (HasNoCut limits segments.now words) }
{
    let tree = read_root(alloc, segments, limits)?;
    let laid = write_segments(alloc, &tree, words, limits);
    drop(tree);
    Ok(laid?)
}

/// The one segment of the canonical form of a frame's message.
fn form_of(alloc: Global, segments: &Segments, limits: Limits) -> Result<Segments, CallFault>
    ensures form { IfOk result (IsForm limits segments.now) }
    ensures refused { IfErr result (IsFormless limits segments.now) }
{
    let words = canonical_message(alloc, segments, limits)?;
    Ok(Segments::one(words))
}
