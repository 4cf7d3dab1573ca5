//! One direction of a connection, and what is let through of it.

use crate::fault::{RelayCause, RelayFault};
use crate::output::Output;
use crate::passage::Passage;
use crate::visitor::Visitor;
use cp_frame::{FrameReader, Mode};
use cp_words::Limits;
use std::alloc::Global;
use std::marker::Model;

/// One direction of a connection. It is fed the bytes of a stream, in any pieces, and gives out the frames of the
/// messages that it accepts, in order, each once and whole. At the first fault it stops: of the message at
/// fault nothing goes out, and each later call reports that fault again.
///
/// It keeps what has come of the open frame, and no piece.
pub struct Relay {
    passage: Passage,
    /// Why nothing more goes through.
    fault: Option<RelayFault>,
}

// Not derived: a crate that lets one go calls this function, and need not prove how all that it holds goes.
impl Drop for Relay {
    fn drop(self) {
        let Relay {
            passage: _,
            fault: _,
        } = self;
    }
}

impl Model for Relay {
    ghost use Rattle.cp_relay.specs.Relay.{Relay as Seen};
    ghost use Rattle.cp_relay.specs.Passage.{seen, IsSmall, KeepsUp};

    ghost Value = { Seen };

    ghost view = { λ r. seen r.passage r.fault };

    ghost invariant = { λ r. KeepsUp r.passage r.fault × IsSmall r.passage.kept };
}

impl Relay {
    ghost use Rattle.std.specs.Prelude.{◌≡◌, ◌⊎◌, ◌+◌, [], IfOk, IfErr, IfNone, IfSome, OnOk, Some, None, length};
    ghost use Rattle.cp_relay.specs.Relay.{StandsFor, GivesNext, GivesNone, Gives, StopsAt, StopsNextAt, EndsWell, EndsInside, HoldsLittle, new_relay};

    /// A relay of a stream in this form, to which nothing has come.
    pub fn new(alloc: Global, mode: Mode, output: Output, limits: Limits) -> Relay
        ensures fresh { result ≡ new_relay mode output limits }
        ensures stands { StandsFor result [] }
    {
        Relay {
            passage: Passage {
                alloc,
                limits,
                output,
                frames: FrameReader::new(alloc, mode, limits),
                kept: Vec::new(alloc),
                at: 0,
            },
            fault: None,
        }
    }

    /// Takes the next piece of the stream, and puts what goes out of it after what `out` holds.
    ///
    /// # Errors
    ///
    /// A fault of framing (F1, F2, F4), of a tree (G1 to G9) or of a message (S1, S2); or one of writing it anew
    /// (B1, B2, B4); or the visitor's no; or an allocation failure (F6, S3, B3). What comes before it went out.
    pub fn feed<V: Visitor>(
        &mut self,
        visitor: &mut V,
        piece: &[u8],
        out: &mut Vec<u8>,
    ) -> Result<(), RelayFault>
        ensures given { OnOk result (Gives V.says self.old piece.now self.new visitor.old visitor.new out.old.items out.new.items) }
        ensures stopped { IfErr result (StopsAt V.says self.old piece.now self.new visitor.old visitor.new out.old.items out.new.items) }
    {
        self.go_on()?;
        let mut left = piece;
        'feeding: while !left.is_empty() {
            let Some(back) = self.next(visitor, left, out)? else {
                return Ok(());
            };
            left = back;
        }
        Ok(())
    }

    /// Takes the next piece of the stream up to the end of a frame, and gives what follows it, which comes next.
    /// What goes out for the frame is put after what `out` holds. `None` says that the piece was
    /// read to its end.
    ///
    /// # Errors
    ///
    /// Those of `feed`, and nothing goes out.
    pub fn next<'a, V: Visitor>(
        &mut self,
        visitor: &mut V,
        piece: &'a [u8],
        out: &mut Vec<u8>,
    ) -> Result<Option<&'a [u8]>, RelayFault>
        ensures given { IfOk result (λ next. IfSome next (λ back. GivesNext V.says self.old piece.now self.new visitor.old visitor.new out.old.items out.new.items back.now)) }
        ensures none { IfOk result (λ next. IfNone next (GivesNone V.says self.old piece.now self.new visitor.old visitor.new out.old.items out.new.items)) }
        ensures stopped { IfErr result (StopsNextAt V.says self.old piece.now self.new visitor.old visitor.new) }
        ensures nothing { IfErr result (λ fault. out.new.items ≡ out.old.items) }
    {
        self.go_on()?;
        match self.passage.next(visitor, piece, out) {
            Ok(next) => Ok(next),
            Err(why) => {
                let fault = self.passage.stop(why);
                self.fault = Some(fault);
                Err(fault)
            }
        }
    }

    /// Ends the stream. `Ok` says that it ended after a message, and then it may still go on.
    ///
    /// # Errors
    ///
    /// `Truncated` (F3) where it ended inside a frame, or the fault that stopped the relay.
    pub fn finish(&mut self) -> Result<(), RelayFault>
        ensures ok { OnOk result (EndsWell self.old self.new) }
        ensures stopped { IfErr result (λ fault. EndsInside self.old self.new fault ⊎ ((self.old.fault ≡ Some fault) × (self.new ≡ self.old))) }
    {
        self.go_on()?;
        match self.passage.frames.finish() {
            Ok(()) => Ok(()),
            Err(fault) => {
                let fault = self.passage.stop(RelayCause::from(fault));
                self.fault = Some(fault);
                Err(fault)
            }
        }
    }

    /// How many bytes and how many words it keeps: of the open frame no more than have come, but for 9 bytes. Where it
    /// keeps no bytes to go out, their buffer has room for at most 64 KiB.
    pub fn held(&self) -> (usize, usize)
        ensures bytes { result.0 ≡ self.now.frames.bytes + length self.now.kept }
        ensures words { result.1 ≡ self.now.frames.words }
        ensures little { HoldsLittle self.now }
    {
        let (bytes, words) = self.passage.frames.held();
        (bytes + self.passage.kept.len(), words)
    }

    /// Goes on, unless the relay has stopped.
    fn go_on(&self) -> Result<(), RelayFault>
        ensures ok { OnOk result (self.now.fault ≡ None) }
        ensures stopped { IfErr result (λ fault. self.now.fault ≡ Some fault) }
    {
        match self.fault {
            None => Ok(()),
            // The same fault again, and not F5 as a reader of messages has it: a relay's caller has one thing to report.
            Some(fault) => Err(fault),
        }
    }
}
