//! The stream that is read, up to its first fault.

ghost use Rattle.std.specs.Prelude.{◌≡◌, ◌⊎◌, ◌<◌, [], OnOk, IfErr, IfNone, IfOk, IfSome, length};
ghost use Rattle.cp_frame.specs.Kept.{IsSameStream};
ghost use Rattle.cp_frame.specs.Rest.{InPacked, IsBlank, IsRest, IsSound, Reads, Refuses};
ghost use Rattle.cp_frame.specs.Bulk.{GivesWhole, TakesFront};
ghost use Rattle.cp_frame.specs.Single.{IsStillOpen};
ghost use Rattle.cp_frame.specs.Following.{GoesThrough, HasThere, StopsAt};
ghost use Rattle.cp_frame.specs.declared.fault.FrameFault.TheVariants.{OutOfMemory};
ghost use Rattle.cp_frame.specs.declared.mode.Mode.TheVariants.{Plain, Packed};

use crate::fault::FrameFault;
use crate::mode::Mode;
use crate::rest::Rest;
use crate::single::take_whole;
use cp_words::{Limits, Segments};
use std::alloc::{AllocError, Global};

/// A stream of which a part has come, with no fault so far.
#[derive(Drop)]
pub struct OpenStream {
    pub alloc: Global,
    pub mode: Mode,
    pub limits: Limits,
    /// What has come after the frames that were given.
    pub rest: Rest,
}

impl OpenStream {
    /// Reads the frames of a piece that follows what has come. At an `Err` those before the fault were
    /// read.
    pub fn read(
        &mut self,
        frames: &mut Vec<(u64, Segments)>,
        piece: &[u8],
    ) -> Result<(), FrameFault>
        requires begun { IsRest self.old.mode self.old.limits self.old.rest }
        requires none { frames.old.items ≡ [] }
        ensures same { IsSameStream self.old self.new }
        ensures reads { OnOk result (Reads self.old.mode self.old.limits self.old.rest piece.now frames.new.items self.new.rest) }
        ensures begun { OnOk result (IsRest self.old.mode self.old.limits self.new.rest) }
        ensures fault { IfErr result (λ fault. (fault ≡ OutOfMemory) ⊎ Refuses self.old.mode self.old.limits self.old.rest piece.now frames.new.items fault) }
    {
        let mut left = piece;
        'reading: while !left.is_empty() {
            let Some((taken, segments, back)) = self.next(left)? else {
                return Ok(());
            };
            frames.push((taken, segments))?;
            left = back;
        }
        Ok(())
    }

    /// Reads a piece up to the end of a frame, and gives the frame with what follows it.
    pub fn next<'a>(
        &mut self,
        piece: &'a [u8],
    ) -> Result<Option<(u64, Segments, &'a [u8])>, FrameFault>
        requires { IsRest self.old.mode self.old.limits self.old.rest }
        ensures same { IsSameStream self.old self.new }
        ensures given { IfOk result (λ next. IfSome next (λ t. StopsAt self.old.mode self.old.limits self.old.rest piece.now t.0 t.1 self.new.rest t.2.now)) }
        ensures none { IfOk result (λ next. IfNone next (GoesThrough self.old.mode self.old.limits self.old.rest piece.now self.new.rest)) }
        ensures fault { IfErr result (λ fault. (fault ≡ OutOfMemory) ⊎ HasThere self.old.mode self.old.limits self.old.rest piece.now fault) }
    {
        match self.mode {
            Mode::Plain => self.next_plain(piece),
            Mode::Packed => self.next_packed(piece),
        }
    }

    /// Forgets what has come.
    pub fn clear(&mut self)
        ensures same { IsSameStream self.old self.new }
        ensures blank { IsBlank self.new.rest }
    {
        self.rest.clear(self.alloc);
    }

    /// Reads a plain piece up to the end of a frame, and gives the frame with what follows it.
    fn next_plain<'a>(
        &mut self,
        piece: &'a [u8],
    ) -> Result<Option<(u64, Segments, &'a [u8])>, FrameFault>
        requires { IsRest Plain self.old.limits self.old.rest }
        ensures same { IsSameStream self.old self.new }
        ensures given { IfOk result (λ next. IfSome next (λ t. StopsAt Plain self.old.limits self.old.rest piece.now t.0 t.1 self.new.rest t.2.now)) }
        ensures none { IfOk result (λ next. IfNone next (GoesThrough Plain self.old.limits self.old.rest piece.now self.new.rest)) }
        ensures fault { IfErr result (λ fault. (fault ≡ OutOfMemory) ⊎ HasThere Plain self.old.limits self.old.rest piece.now fault) }
    {
        let frame = &mut self.rest.frame;
        // Most frames come whole in one piece.
        if frame.is_empty() {
            if let Some(whole) = take_whole(self.alloc, self.limits, &mut frame.spare, piece)? {
                return Ok(Some(whole));
            }
        }
        let mut left = piece;
        'reading: while !left.is_empty() {
            left = frame.take(self.alloc, self.limits, left)?;
            if frame.is_complete() {
                let (taken, segments) = frame.finish(self.alloc);
                return Ok(Some((taken, segments, left)));
            }
        }
        Ok(None)
    }

    /// Reads a packed piece up to the end of a frame, and gives the frame with what follows it.
    fn next_packed<'a>(
        &mut self,
        piece: &'a [u8],
    ) -> Result<Option<(u64, Segments, &'a [u8])>, FrameFault>
        requires { InPacked self.old.limits self.old.rest }
        ensures same { IsSameStream self.old self.new }
        ensures given { IfOk result (λ next. IfSome next (λ t. StopsAt Packed self.old.limits self.old.rest piece.now t.0 t.1 self.new.rest t.2.now)) }
        ensures none { IfOk result (λ next. IfNone next (GoesThrough Packed self.old.limits self.old.rest piece.now self.new.rest)) }
        ensures fault { IfErr result (λ fault. (fault ≡ OutOfMemory) ⊎ HasThere Packed self.old.limits self.old.rest piece.now fault) }
    {
        let mut left = piece;
        'reading: while !left.is_empty() {
            left = self.take_some(left)?;
            if let Some((taken, segments)) = self.give() {
                return Ok(Some((taken, segments, left)));
            }
        }
        Ok(None)
    }

    /// Takes groups at once, or a byte where they end, or where the segment table or what goes past the
    /// frame may show.
    fn take_some<'a>(&mut self, left: &'a [u8]) -> Result<&'a [u8], FrameFault>
        requires begun { InPacked self.old.limits self.old.rest }
        requires some { 0 < length left.now }
        ensures same { IsSameStream self.old self.new }
        ensures takes { IfOk result (λ back. TakesFront self.old.limits self.old.rest left.now self.new.rest back.now) }
        ensures sound { OnOk result (IsSound self.old.limits self.new.rest) }
        ensures shorter { IfOk result (λ back. length back.now < length left.now) }
        ensures fault { IfErr result (λ fault. (fault ≡ OutOfMemory) ⊎ HasThere Packed self.old.limits self.old.rest left.now fault) }
    {
        // Only groups that can show no fault go at once: a fault comes with its byte, however the stream is
        // cut.
        let back = self.take_front(left)?;
        if back.len() < left.len() {
            return Ok(back);
        }
        self.take_byte(back)
    }

    /// Takes the group of a segment table and whole groups, as far as they have come. What is left comes
    /// back.
    fn take_front<'a>(&mut self, left: &'a [u8]) -> Result<&'a [u8], AllocError>
        requires { InPacked self.old.limits self.old.rest }
        ensures same { IsSameStream self.old self.new }
        ensures takes { IfOk result (λ back. TakesFront self.old.limits self.old.rest left.now self.new.rest back.now) }
        ensures sound { OnOk result (IsSound self.old.limits self.new.rest) }
    {
        let begun = self.rest.take_table(self.alloc, self.limits, left)?;
        self.rest
            .take_segment_groups(self.alloc, self.limits, begun)
    }

    /// Takes a byte. What is after it comes back.
    fn take_byte<'a>(&mut self, left: &'a [u8]) -> Result<&'a [u8], FrameFault>
        requires begun { InPacked self.old.limits self.old.rest }
        requires some { 0 < length left.now }
        ensures same { IsSameStream self.old self.new }
        ensures takes { IfOk result (λ back. TakesFront self.old.limits self.old.rest left.now self.new.rest back.now) }
        ensures sound { OnOk result (IsSound self.old.limits self.new.rest) }
        ensures shorter { IfOk result (λ back. length back.now < length left.now) }
        ensures fault { IfErr result (λ fault. (fault ≡ OutOfMemory) ⊎ HasThere Packed self.old.limits self.old.rest left.now fault) }
    {
        self.rest.take_byte(self.alloc, self.limits, left[0])?;
        Ok(left.split_at(1).1)
    }

    /// Gives the packed frame with the number of its bytes, if it is whole.
    fn give(&mut self) -> Option<(u64, Segments)>
        requires { IsSound self.old.limits self.old.rest }
        ensures same { IsSameStream self.old self.new }
        ensures given { IfSome result (λ frame. GivesWhole self.old.limits self.old.rest frame.0 frame.1 self.new.rest) }
        ensures none { IfNone result (IsStillOpen self.old.limits self.old.rest × (self.new.rest ≡ self.old.rest)) }
    {
        if self.rest.frame.is_complete() {
            Some(self.rest.finish(self.alloc))
        } else {
            None
        }
    }
}
