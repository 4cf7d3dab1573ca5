//! The rest of a stream: what has come of the frame after those that were given.

ghost use Rattle.std.specs.Prelude.{vec_capacity, ◌≡◌, ◌⊎◌, ◌+◌, ◌<◌, ◌^◌, ◌++◌, ◌∷◌, ◌↔◌, [], IfOk, IsTrue, OnOk, IfErr, length, sum};
ghost use Rattle.cp_frame.specs.Framed.{sizes_of};
ghost use Rattle.cp_packed.specs.Words.{bytes_of};
ghost use Rattle.cp_frame.specs.Stream.{HasFault};
ghost use Rattle.cp_frame.specs.Parts.{IsBegun, rest_of, kept_words};
ghost use Rattle.cp_words.specs.Segments.{words_of};
ghost use Rattle.cp_packed.specs.Unpacking.{IsPending, nothing, brought, laid, pending_of};
ghost use Rattle.cp_frame.specs.Rest.{InPacked, IsBlank, IsRest, bytes_for, count_for, TakesByte, IsSound, IsFaultOfWords, ShowsFault};
ghost use Rattle.cp_frame.specs.Bulk.{TakesFront};
ghost use Rattle.cp_frame.specs.Single.{IsStillOpen};
ghost use Rattle.cp_frame.specs.declared.mode.Mode.TheVariants.{Packed};
ghost use Rattle.cp_frame.specs.declared.fault.FrameFault.TheVariants.{OutOfMemory, RunPastFrame};

use crate::fault::FrameFault;
use crate::frame::OpenFrame;
use crate::mode::Mode;
use crate::table;
use cp_packed::OpenGroup;
use cp_words::{Limits, Segments};
use std::alloc::{AllocError, Global};

/// What is kept of a rest.
#[derive(Drop)]
pub struct Rest {
    pub frame: OpenFrame,
    /// The group of which a part has come, where the stream is packed.
    pub group: OpenGroup,
    /// How many bytes have come, where the stream is packed.
    pub taken: u64,
}

impl Rest {
    /// Nothing.
    pub fn new(alloc: Global) -> Rest
        ensures blank { IsBlank result }
        ensures no_spare { vec_capacity result.frame.spare.words ≡ 0 }
    {
        Rest {
            frame: OpenFrame::new(alloc),
            group: OpenGroup::new(alloc),
            taken: 0,
        }
    }

    /// Takes one byte of the packed form.
    fn push_byte(&mut self, alloc: Global, limits: Limits, byte: u8) -> Result<(), FrameFault>
        requires { InPacked limits self.old }
        ensures takes { OnOk result (TakesByte limits self.old byte self.new) }
        ensures fault { IfErr result (IsFaultOfWords limits (rest_of self.old.frame ++ bytes_of (brought (pending_of self.old.group) byte))) }
    {
        let run = self.group.take(byte)?;
        self.taken += 1;
        self.frame.push_run(alloc, limits, run)
    }

    /// Reports the fault that shows after the words of a byte.
    fn check(&self, limits: Limits) -> Result<(), FrameFault>
        requires begun { IsBegun limits self.now.frame }
        requires no_part { self.now.frame.part.items ≡ [] }
        requires pending { IsPending (pending_of self.now.group) }
        ensures sound { OnOk result (IsSound limits self.now) }
        ensures fault { IfErr result (ShowsFault limits self.now) }
    {
        if self.frame.is_complete() {
            if self.group.is_empty() {
                return Ok(());
            }
            // Words of a run are left after the frame's last one: F4.
            return Err(FrameFault::RunPastFrame);
        }
        if table::is_whole(&self.frame.table) {
            return Ok(());
        }
        // Bytes of an open group count as soon as they are certain, so that F1 and F2 come with their byte.
        let (bytes, known) = self.group.laid();
        table::check_laid(&self.frame.table, self.frame.total, limits, &bytes[..known])
    }

    /// Takes one byte of the packed form, with the words that it brings.
    pub fn take_byte(&mut self, alloc: Global, limits: Limits, byte: u8) -> Result<(), FrameFault>
        requires { InPacked limits self.old }
        ensures takes { OnOk result (TakesByte limits self.old byte self.new) }
        ensures sound { OnOk result (IsSound limits self.new) }
        ensures fault { IfErr result (λ fault. (fault ≡ OutOfMemory) ⊎ HasFault Packed limits (bytes_for Packed self.old ++ byte ∷ []) fault) }
    {
        self.push_byte(alloc, limits, byte)?;
        self.check(limits)
    }

    /// Takes the group of a segment table that names one segment, and no fault, if it has come and
    /// nothing has come of the frame.
    pub fn take_table<'a>(
        &mut self,
        alloc: Global,
        limits: Limits,
        left: &'a [u8],
    ) -> Result<&'a [u8], AllocError>
        requires { InPacked limits self.old }
        ensures takes { IfOk result (λ back. TakesFront limits self.old left.now self.new back.now) }
        ensures begun { OnOk result (IsStillOpen limits self.new) }
    {
        if !self.frame.is_empty() || !self.group.is_empty() {
            return Ok(left);
        }
        let after = self.frame.take_table_group(alloc, limits, left)?;
        self.taken += (left.len() - after.len()) as u64;
        Ok(after)
    }

    /// Takes what of these bytes are words of a raw run and whole groups, where the segment table has
    /// come, up to the end of the open segment.
    pub fn take_segment_groups<'a>(
        &mut self,
        alloc: Global,
        limits: Limits,
        left: &'a [u8],
    ) -> Result<&'a [u8], AllocError>
        requires { InPacked limits self.old }
        ensures takes { IfOk result (λ back. TakesFront limits self.old left.now self.new back.now) }
        ensures sound { OnOk result (IsSound limits self.new) }
    {
        if !self.group.part.is_empty() || !table::is_whole(&self.frame.table) {
            return Ok(left);
        }
        let back = self
            .frame
            .take_segment_groups(alloc, limits, &mut self.group.run, left)?;
        self.taken += (left.len() - back.len()) as u64;
        Ok(back)
    }

    /// The packed frame, with the number of its bytes. Nothing is left of it.
    pub fn finish(&mut self, alloc: Global) -> (u64, Segments)
        requires some { 0 < length self.old.frame.segments.items }
        requires total { self.old.frame.total ≡ sum (sizes_of (words_of self.old.frame.segments.items)) }
        requires small { length self.old.frame.table.items + self.old.frame.total < 2 ^ 40 }
        requires no_words { self.old.frame.words.items ≡ [] }
        requires no_part { self.old.frame.part.items ≡ [] }
        requires no_group { pending_of self.old.group ≡ nothing }
        ensures taken { result.0 ≡ self.old.taken }
        ensures segments { result.1 ≡ words_of self.old.frame.segments.items }
        ensures blank { IsBlank self.new }
    {
        let taken = self.taken;
        let (_, segments) = self.frame.finish(alloc);
        self.taken = 0;
        (taken, segments)
    }

    /// Nothing has come.
    pub fn is_blank(&self, mode: Mode) -> bool
        requires { length self.now.frame.table.items ≡ 0 → kept_words self.now.frame ≡ 0 }
        ensures { IsTrue result ↔ (count_for mode self.now ≡ 0) }
    {
        match mode {
            Mode::Plain => self.frame.is_empty(),
            Mode::Packed => self.taken == 0,
        }
    }

    /// Forgets what has come.
    pub fn clear(&mut self, alloc: Global)
        ensures { IsBlank self.new }
    {
        *self = Rest::new(alloc);
    }

    /// How many bytes have come.
    pub fn taken(&self, mode: Mode, limits: Limits) -> u64
        requires { IsRest mode limits self.now }
        ensures taken { result ≡ count_for mode self.now }
        ensures bound { result < 2 ^ 36 }
    {
        match mode {
            Mode::Plain => 8 * self.frame.kept_words() as u64 + self.frame.part.len() as u64,
            Mode::Packed => self.taken,
        }
    }
}
