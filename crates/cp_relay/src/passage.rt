//! What a relay lets through, up to its first fault.

ghost use Rattle.std.specs.Prelude.{◌≡◌, ◌++◌, [], IfOk, IfErr, IfNone, IfSome, OnOk, None};
ghost use Rattle.cp_rpc.specs.Viewed.{viewed};
ghost use Rattle.cp_relay.specs.Passage.{seen, kept_with, IsOpen, IsSmall, IsMemoryFor, OnlyKeeps, Refuses, PassesNext, PassesNone, PutsFrame, StopsAtFrame, Makes, IsUnmade};

use crate::fault::{RelayCause, RelayFault};
use crate::output::Output;
use crate::visitor::Visitor;
use cp_frame::FrameReader;
use cp_rpc::MessageView;
use cp_stream::{Refusal, frame_of_view, view_in};
use cp_words::{Limits, Segments};
use std::alloc::{AllocError, Global};
use std::mem;

/// The most capacity that is left for the bytes of later frames. A frame of more bytes is a long one.
const SPARE: usize = 65_536;

/// The bytes of a frame for which capacity is made before they come, where no more have come.
const AHEAD: usize = 1_048_576;

/// A stream of which a part has come, with no fault so far.
#[derive(Drop)]
pub struct Passage {
    pub alloc: Global,
    pub limits: Limits,
    pub output: Output,
    pub frames: FrameReader,
    /// What goes out next: the bytes of the open frame, where they go out as they were read.
    /// They are kept as bytes: words can be packed in several ways, and padding may have any value. An open frame is held twice
    /// then.
    pub kept: Vec<u8>,
    /// How many bytes the frames took that were let through.
    pub at: u64,
}

impl Passage {
    /// Takes the next piece of the stream up to the end of a frame, puts what goes out for it after `out`, and
    /// gives what follows it.
    pub fn next<'a, V: Visitor>(
        &mut self,
        visitor: &mut V,
        piece: &'a [u8],
        out: &mut Vec<u8>,
    ) -> Result<Option<&'a [u8]>, RelayCause>
        requires open { IsOpen self.old }
        requires small { IsSmall self.old.kept }
        ensures open { OnOk result (IsOpen self.new) }
        ensures small { OnOk result (IsSmall self.new.kept) }
        ensures given { IfOk result (λ next. IfSome next (λ back. PassesNext V.says self.old piece.now self.new visitor.old visitor.new out.old.items out.new.items back.now)) }
        ensures none { IfOk result (λ next. IfNone next (PassesNone V.says self.old piece.now self.new visitor.old visitor.new out.old.items out.new.items)) }
        ensures refused { IfErr result (Refuses V.says (seen self.old None) piece.now visitor.old visitor.new) }
        ensures nothing { IfErr result (λ why. out.new.items ≡ out.old.items) }
        ensures counts { IfErr result (λ why. self.new.at ≡ self.old.at) }
    {
        let Some((taken, segments, back)) = self.frames.next(piece)? else {
            self.keep(piece, out)?;
            return Ok(None);
        };
        let front = &piece[..piece.len() - back.len()];
        self.put(visitor, &segments, front, out)?;
        self.frames.reuse(segments);
        self.at = self.at.saturating_add(taken);
        Ok(Some(back))
    }

    /// Forgets what has come, and says why nothing more goes through.
    pub fn stop(&mut self, why: RelayCause) -> RelayFault
        ensures place { result.at ≡ self.new.at }
        ensures why { result.why ≡ why }
        ensures none { self.new.kept.items ≡ [] }
        ensures small { IsSmall self.new.kept }
        ensures counts { self.new.at ≡ self.old.at }
    {
        self.kept = Vec::new(self.alloc);
        RelayFault { at: self.at, why }
    }

    /// Keeps a piece in which no frame ends, where it is to go out as it was read.
    fn keep(&mut self, piece: &[u8], out: &mut Vec<u8>) -> Result<(), RelayCause>
        requires { IsSmall self.old.kept }
        ensures kept { OnOk result (OnlyKeeps self.old (kept_with self.old.output self.old.kept.items piece.now) self.new) }
        ensures small { OnOk result (IsSmall self.new.kept) }
        ensures memory { IfErr result IsMemoryFor }
        ensures nothing { out.new.items ≡ out.old.items }
        ensures counts { self.new.at ≡ self.old.at }
    {
        if self.output == Output::AsRead && !piece.is_empty() {
            make_capacity(&mut self.kept, out, piece.len(), self.frames.needs())?;
            self.kept.extend_from_slice(piece)?;
        }
        Ok(())
    }

    /// Puts what goes out for a frame after `out`, if its message may go. The bytes of the frame are those that are kept
    /// and `front`.
    fn put<V: Visitor>(
        &mut self,
        visitor: &mut V,
        segments: &Segments,
        front: &[u8],
        out: &mut Vec<u8>,
    ) -> Result<(), RelayCause>
        ensures put { OnOk result (PutsFrame V.says self.old segments.now front.now self.new visitor.old visitor.new out.old.items out.new.items) }
        ensures small { OnOk result (IsSmall self.new.kept) }
        ensures refused { IfErr result (StopsAtFrame V.says self.old segments.now visitor.old visitor.new) }
        ensures nothing { IfErr result (λ why. out.new.items ≡ out.old.items) }
        ensures counts { self.new.at ≡ self.old.at }
    {
        let view = view_in(segments, self.limits)?;
        // Before the visitor is asked, so that it allows only what can go.
        self.make(&view, front)?;
        if !visitor.visit(&view)? {
            return Err(RelayCause::Forbidden);
        }
        // At once and whole: an allocation failure leaves `out` as it was.
        self.give(out)?;
        Ok(())
    }

    /// Puts what was made after `out`. A long frame goes out in its own buffer, where `out` holds no bytes.
    fn give(&mut self, out: &mut Vec<u8>) -> Result<(), AllocError>
        ensures gives { OnOk result (out.new.items ≡ out.old.items ++ self.old.kept.items) }
        ensures forgets { OnOk result (OnlyKeeps self.old [] self.new) }
        ensures small { OnOk result (IsSmall self.new.kept) }
        ensures nothing { IfErr result (λ _. out.new.items ≡ out.old.items) }
        ensures counts { self.new.at ≡ self.old.at }
    {
        if out.is_empty() && SPARE < self.kept.len() {
            mem::swap(out, &mut self.kept);
        } else {
            out.extend_from_slice(&self.kept)?;
        }
        self.forget();
        Ok(())
    }

    /// Makes what goes out for a frame.
    fn make(&mut self, view: &MessageView, front: &[u8]) -> Result<(), Refusal>
        ensures made { OnOk result (Makes self.old (viewed view.now) front.now self.new) }
        ensures refused { IfErr result (IsUnmade self.old (viewed view.now)) }
        ensures counts { self.new.at ≡ self.old.at }
    {
        match self.output {
            Output::AsRead => self.kept.extend_from_slice(front)?,
            Output::Anew(mode) => self.kept = frame_of_view(self.alloc, view, mode, self.limits)?,
        }
        Ok(())
    }

    /// Forgets what went out. A small buffer stays for later frames.
    fn forget(&mut self)
        ensures forgets { OnlyKeeps self.old [] self.new }
        ensures small { IsSmall self.new.kept }
    {
        if self.kept.capacity() > SPARE {
            self.kept = Vec::new(self.alloc);
        }
        self.kept.clear();
    }
}

/// Makes capacity for a piece, and with it for what the frame still needs at the least. The bytes of a long frame move to the
/// buffer of `out`, where that is larger and holds none; while it holds some, no more is made than the piece takes.
fn make_capacity(
    kept: &mut Vec<u8>,
    out: &mut Vec<u8>,
    piece: usize,
    needs: usize,
) -> Result<(), AllocError>
    ensures kept { OnOk result (kept.new.items ≡ kept.old.items) }
    ensures out { out.new.items ≡ out.old.items }
{
    if piece <= kept.capacity() - kept.len() {
        return Ok(());
    }
    if !out.is_empty() {
        return kept.reserve(piece);
    }
    if SPARE < needs && kept.capacity() < out.capacity() {
        move_over(kept, out)?;
    }
    let ahead = needs.min(kept.len().max(AHEAD));
    kept.reserve(piece.saturating_add(ahead))
}

/// Moves the bytes of the first buffer to the second one, which holds none, and then they change places.
fn move_over(kept: &mut Vec<u8>, out: &mut Vec<u8>) -> Result<(), AllocError>
    requires { out.old.items ≡ [] }
    ensures kept { kept.new.items ≡ kept.old.items }
    ensures out { out.new.items ≡ [] }
{
    out.extend_from_slice(kept)?;
    mem::swap(kept, out);
    out.clear();
    Ok(())
}
