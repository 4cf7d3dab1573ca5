//! Reading the messages of a stream.

ghost use Rattle.std.specs.Prelude.{◌≡◌, ◌⊎◌, [], OnOk, IfErr, IfOk};
ghost use Rattle.cp_frame.specs.Reader.{IsAsBefore};
ghost use Rattle.cp_stream.specs.Stream.{HasFault};
ghost use Rattle.cp_stream.specs.Reader.{IsMemory, Gives, Reports};
ghost use Rattle.cp_stream.specs.Kept.{seen, KeepsUp, ReadsOf, RefusesOf, ReadsPiece, RefusesPiece};

use crate::fault::{Refusal, StreamFault, refused};
use crate::status::ReaderStatus;
use crate::view::message_in;
use cp_frame::{FrameFault, FrameReader};
use cp_rpc::Message;
use cp_words::{Limits, Segments};
use std::alloc::Global;
use std::marker::Model;

/// Reads the messages of a stream, in whatever pieces it comes. Each frame is one message of
/// rpc.capnp.
pub struct MessageReader {
    alloc: Global,
    limits: Limits,
    frames: FrameReader,
    status: ReaderStatus,
    at: u64,
}

// Not derived: a crate that lets one go calls this function, and need not prove the drop of all that it holds.
impl Drop for MessageReader {
    fn drop(self) {
        let MessageReader {
            alloc: _,
            limits: _,
            frames: _,
            status: _,
            at: _,
        } = self;
    }
}

impl Model for MessageReader {
    ghost use Rattle.std.specs.Prelude.{◌≡◌};
    ghost use Rattle.cp_stream.specs.Reader.{Reader};
    ghost use Rattle.cp_stream.specs.Kept.{seen, KeepsUp};

    ghost Value = { Reader };

    ghost view = { λ r. seen r.status r.frames r.at };

    ghost invariant = { λ r. KeepsUp r.limits r.status r.frames };
}

impl MessageReader {
    ghost use Rattle.std.specs.Prelude.{◌≡◌, OnOk, IfOk, IfErr, []};
    ghost use Rattle.cp_frame.specs.declared.mode.Mode.TheVariants.{Plain, Packed};
    ghost use Rattle.cp_stream.specs.declared.status.ReaderStatus.TheVariants.{Reading};
    ghost use Rattle.cp_stream.specs.Kept.{seen};
    ghost use Rattle.cp_stream.specs.Reader.{StandsFor, Gives, Reports, EndsWell, ReportsAtEnd, new_reader};

    /// A reader over one of frames.
    fn over(alloc: Global, limits: Limits, frames: FrameReader) -> MessageReader
        requires { frames.limits ≡ limits }
        ensures { result ≡ seen Reading frames 0 }
    {
        MessageReader {
            alloc,
            limits,
            frames,
            status: ReaderStatus::Reading,
            at: 0,
        }
    }

    /// A reader of a stream in the plain form, of which nothing has come.
    pub fn plain(alloc: Global, limits: Limits) -> MessageReader
        ensures fresh { result ≡ new_reader Plain limits }
        ensures stands { StandsFor result [] }
    {
        MessageReader::over(alloc, limits, FrameReader::plain(alloc, limits))
    }

    /// A reader of a stream in the packed form (encoding specification, "Packing"), of which nothing
    /// has come.
    pub fn packed(alloc: Global, limits: Limits) -> MessageReader
        ensures fresh { result ≡ new_reader Packed limits }
        ensures stands { StandsFor result [] }
    {
        MessageReader::over(alloc, limits, FrameReader::packed(alloc, limits))
    }

    /// Reads the next piece of the stream. Gives each message whose frame's last byte it brings, in
    /// order. After a fault each call answers `Failed` (F5).
    ///
    /// A fault of framing (F1, F2, F4), of a tree (G1 to G9) or of a message (S1, S2) that comes
    /// after messages of the same piece is kept, and reported by the next call. An allocation failure (F6, S3)
    /// is reported at once, and then the messages of the piece are dropped.
    pub fn feed(&mut self, piece: &[u8]) -> Result<Vec<Message>, StreamFault>
        ensures given { IfOk result (λ ms. Gives self.old piece.now self.new ms.items) }
        ensures reported { IfErr result (Reports self.old piece.now self.new) }
    {
        read_piece(
            self.alloc,
            self.limits,
            &mut self.frames,
            &mut self.status,
            &mut self.at,
            piece,
        )
    }

    /// Ends the stream. `Ok` says that it ended after a message, and then it may still go on.
    ///
    /// `Truncated` (F3) says that it ended inside a frame. A kept fault is reported instead, and after a
    /// reported fault `Failed` (F5).
    pub fn finish(&mut self) -> Result<(), StreamFault>
        ensures ok { OnOk result (EndsWell self.old self.new) }
        ensures reported { IfErr result (ReportsAtEnd self.old self.new) }
    {
        match self.status {
            ReaderStatus::Failed => Err(refused(self.at, Refusal::Frame(FrameFault::Failed))),
            ReaderStatus::Refusing(refusal) => {
                self.status = ReaderStatus::Failed;
                Err(refused(self.at, refusal))
            }
            ReaderStatus::Reading => match self.frames.finish() {
                Ok(()) => Ok(()),
                Err(fault) => {
                    self.status = ReaderStatus::Failed;
                    Err(refused(self.at, Refusal::Frame(fault)))
                }
            },
        }
    }
}

/// Reads a piece.
fn read_piece(
    alloc: Global,
    limits: Limits,
    frames: &mut FrameReader,
    status: &mut ReaderStatus,
    at: &mut u64,
    piece: &[u8],
) -> Result<Vec<Message>, StreamFault>
    requires { KeepsUp limits status.old frames.old }
    ensures keeps { KeepsUp limits status.new frames.new }
    ensures given { IfOk result (λ ms. Gives (seen status.old frames.old at.old) piece.now (seen status.new frames.new at.new) ms.items) }
    ensures reported { IfErr result (Reports (seen status.old frames.old at.old) piece.now (seen status.new frames.new at.new)) }
{
    match *status {
        ReaderStatus::Failed => return Err(refused(*at, Refusal::Frame(FrameFault::Failed))),
        ReaderStatus::Refusing(refusal) => {
            *status = ReaderStatus::Failed;
            return Err(refused(*at, refusal));
        }
        ReaderStatus::Reading => {}
    }
    let mut messages = Vec::new(alloc);
    let mut reached = *at;
    match read_frames(alloc, limits, frames, piece, &mut reached, &mut messages) {
        Ok(()) => {
            *at = reached;
            Ok(messages)
        }
        Err(refusal) => {
            // An allocation failure lost messages of the piece, so it isn't kept for later.
            if refusal.is_memory() || messages.is_empty() {
                drop(messages);
                *status = ReaderStatus::Failed;
                return Err(refused(*at, refusal));
            }
            *status = ReaderStatus::Refusing(refusal);
            *at = reached;
            Ok(messages)
        }
    }
}

/// Reads the messages of a piece. At an `Err` those before the fault were read.
fn read_frames(
    alloc: Global,
    limits: Limits,
    frames: &mut FrameReader,
    piece: &[u8],
    at: &mut u64,
    messages: &mut Vec<Message>,
) -> Result<(), Refusal>
    requires none { messages.old.items ≡ [] }
    ensures given { OnOk result (ReadsPiece limits frames.old piece.now frames.new messages.new.items at.old at.new) }
    ensures refused { IfErr result (RefusesPiece limits frames.old piece.now frames.new messages.new.items at.old at.new) }
{
    let given = frames.feed(piece)?;
    messages.reserve_exact(given.len())?;
    let read = read_messages(alloc, limits, &given, at, messages);
    give_back(frames, given);
    read
}

/// Reads the messages of frames that follow what was counted. At an `Err` those before it were read.
fn read_messages(
    alloc: Global,
    limits: Limits,
    frames: &[(u64, Segments)],
    at: &mut u64,
    messages: &mut Vec<Message>,
) -> Result<(), Refusal>
    requires none { messages.old.items ≡ [] }
    ensures given { OnOk result (ReadsOf limits frames.now messages.new.items at.old at.new) }
    ensures refused { IfErr result (λ r. IsMemory r ⊎ RefusesOf limits frames.now messages.new.items at.old at.new r) }
{
    let mut reached = *at;
    for frame in frames {
        messages.push(message_in(alloc, &frame.1, limits)?)?;
        reached = reached.saturating_add(frame.0);
        *at = reached;
    }
    Ok(())
}

/// Gives the last of the frames back to their reader, for its buffer.
fn give_back(frames: &mut FrameReader, mut given: Vec<(u64, Segments)>)
    ensures { IsAsBefore frames.old frames.new }
{
    // The reader keeps one buffer.
    if let Some((_, segments)) = given.pop() {
        frames.reuse(segments);
    }
}
