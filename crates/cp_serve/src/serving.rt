//! Serving a connection.

ghost use Rattle.std.specs.Prelude.{◌≡◌, ◌<◌, ◌↔◌, ◌∷◌, [], None, false, IfOk, IfErr, OnOk, OnErr, IsSome, IsTrue, length, drop};
ghost use Rattle.cp_stream.specs.Read.{IsDevice};
ghost use Rattle.cp_stream.specs.Tap.{failures_of};
ghost use Rattle.cp_stream.specs.Write.{Sends};
ghost use Rattle.cp_dispatch.specs.Work.{Lives};
ghost use Rattle.cp_serve.specs.Matching.{reason_in};
ghost use Rattle.cp_serve.specs.Output.{IsServedAt, IsStoppedAt, ReadsUpTo, ends};
ghost use Rattle.cp_serve.specs.Reached.{BreaksOff, EndingStops, EndsAll, FollowsIf, FrontStops, IsNew, PieceStops, Rounded, RunStops, Runs, RunsTo, RunsUnread, TakesFront, TakesPiece, TakesToEnd, TakesUnread, TakingStops, out, owed, ready_of, report_of};

use crate::fault::ServeFault;
use crate::report::Report;
use cp_connection::Connection;
use cp_dispatch::{Dispatcher, SessionEvent};
use cp_frame::Mode;
use cp_servants::Servant;
use cp_stream::{StreamFault, Tap, write_whole};
use cp_vat_machine::Reason;
use cp_words::Limits;
use std::alloc::{AllocError, Global};
use std::io::{Read, Write};

/// The bytes that are asked for at once, and from which on a block goes out.
const PIECE: usize = 65_536;

/// Objects of all kinds are served in one list.
type Boxed = Box<dyn Servant>;

/// Serves objects to the peer whose messages are read, of which object 0 is the bootstrap object.
/// `Ok` says that the messages ended, that the vat closed, or that 2^64 - 1 pieces were read.
///
/// Each message is received, and each call that it leads to goes to its object; then each object is
/// polled once, in order. Where the messages end, rounds of polls go on until one gives nothing that
/// is awaited. No byte is read before all that came whole was answered and written, nor once the vat closed.
///
/// # Errors
///
/// Where the bytes after the messages that were taken have a fault, that fault, at the number of their
/// frames' bytes: what the messages lead to was written, and no round follows. Else a call of a device
/// failed, or memory ran out: a beginning of what would have been written was.
pub fn serve<R: Read, W: Write>(
    alloc: Global,
    from: &mut Tap<R>,
    to: &mut Tap<W>,
    objects: &mut Vec<Box<dyn Servant>>,
    mode: Mode,
) -> Result<Report, ServeFault>
    // What is served to its end is an output of the bytes that were read, and is reported.
    ensures served { IfOk result (IsServedAt ⟦<Boxed as Servant>⟧.kind mode (ends objects.old objects.new R.remaining from.old from.new W.contents to.old to.new)) }
    // No call of the reader failed.
    ensures read { OnOk result (failures_of from.new ≡ failures_of from.old) }
    // Or one did: before it all that came whole was answered, and the vat was open. Any call may fail, so this holds of each.
    ensures unread { IfErr result (ReadsUpTo ⟦<Boxed as Servant>⟧.kind mode (ends objects.old objects.new R.remaining from.old from.new W.contents to.old to.new)) }
    // A fault says why it was cut off, and what was written is a beginning of one.
    ensures stopped { IfErr result (IsStoppedAt ⟦<Boxed as Servant>⟧.kind mode (ends objects.old objects.new R.remaining from.old from.new W.contents to.old to.new)) }
{
    serve_each(alloc, from, to, objects, mode)
}

/// Serves objects of one type, an enum for example, as `serve` does boxed ones.
/// A definition can't name the kind of boxes that a function makes for itself, so whoever states more serves an enum.
pub fn serve_each<O: Servant, R: Read, W: Write>(
    alloc: Global,
    from: &mut Tap<R>,
    to: &mut Tap<W>,
    objects: &mut Vec<O>,
    mode: Mode,
) -> Result<Report, ServeFault>
    ensures served { IfOk result (IsServedAt O.kind mode (ends objects.old objects.new R.remaining from.old from.new W.contents to.old to.new)) }
    ensures read { OnOk result (failures_of from.new ≡ failures_of from.old) }
    ensures unread { IfErr result (ReadsUpTo O.kind mode (ends objects.old objects.new R.remaining from.old from.new W.contents to.old to.new)) }
    ensures stopped { IfErr result (IsStoppedAt O.kind mode (ends objects.old objects.new R.remaining from.old from.new W.contents to.old to.new)) }
{
    Server::new(alloc, mode).serve(from, to, objects)
}

/// One end of a connection, with what its objects owe.
/// Its promise is said of a vat with one queue of effects; a lemma says that this does the same.
#[derive(Drop)]
struct Server {
    alloc: Global,
    connection: Connection,
    objects: Dispatcher,
    /// How many of the bytes that go out are of messages that were taken to their end.
    ready: usize,
}

impl Server {
    /// A server to which nothing has come.
    fn new(alloc: Global, mode: Mode) -> Server
        ensures { IsNew mode result }
    {
        Server {
            alloc,
            connection: Connection::new(alloc, mode, Limits::standard(), Some(0)),
            objects: Dispatcher::new(alloc),
            ready: 0,
        }
    }

    /// Takes the messages and ends them, and says what was done.
    fn serve<O: Servant, R: Read, W: Write>(
        mut self,
        from: &mut Tap<R>,
        to: &mut Tap<W>,
        objects: &mut Vec<O>,
    ) -> Result<Report, ServeFault>
        ensures served { IfOk result (Runs O.kind self (ends objects.old objects.new R.remaining from.old from.new W.contents to.old to.new)) }
        ensures read { OnOk result (failures_of from.new ≡ failures_of from.old) }
        ensures unread { IfErr result (RunsUnread O.kind self (ends objects.old objects.new R.remaining from.old from.new W.contents to.old to.new)) }
        ensures stopped { IfErr result (RunStops O.kind self (ends objects.old objects.new R.remaining from.old from.new W.contents to.old to.new)) }
    {
        // The server goes before the answer is looked at, so that it is dropped in one place.
        let ended = self.run(from, to, objects);
        let report = self.report();
        ended?;
        Ok(report)
    }

    /// Takes the messages and ends them.
    fn run<O: Servant, R: Read, W: Write>(
        &mut self,
        from: &mut Tap<R>,
        to: &mut Tap<W>,
        objects: &mut Vec<O>,
    ) -> Result<(), ServeFault>
        ensures served { IfOk result (λ _. RunsTo O.kind self.old (ends objects.old objects.new R.remaining from.old from.new W.contents to.old to.new) self.new) }
        ensures read { OnOk result (failures_of from.new ≡ failures_of from.old) }
        ensures unread { IfErr result (RunsUnread O.kind self.old (ends objects.old objects.new R.remaining from.old from.new W.contents to.old to.new)) }
        ensures stopped { IfErr result (RunStops O.kind self.old (ends objects.old objects.new R.remaining from.old from.new W.contents to.old to.new)) }
    {
        self.take_all(from, to, objects)?;
        self.end_all(to, objects)?;
        Ok(())
    }

    /// What was done.
    fn report(mut self) -> Report
        ensures { result ≡ report_of self }
    {
        let stats = self.connection.stats();
        Report {
            messages: stats.messages,
            sent: stats.sent,
            closed: self.reason(),
        }
    }

    /// Why the vat closed, if it did. A server asks nothing, so it is told nothing else.
    fn reason(&mut self) -> Option<Reason>
        ensures { result ≡ reason_in (owed self.old).notices }
    {
        'noting: while let Some(notice) = self.objects.next() {
            if let Some(reason) = reason_of(notice) {
                return Some(reason);
            }
        }
        None
    }

    /// Takes the messages, until they end or the vat closed.
    fn take_all<O: Servant, R: Read, W: Write>(
        &mut self,
        from: &mut Tap<R>,
        to: &mut Tap<W>,
        objects: &mut Vec<O>,
    ) -> Result<(), ServeFault>
        ensures taken { OnOk result (TakesToEnd O.kind self.old (ends objects.old objects.new R.remaining from.old from.new W.contents to.old to.new) self.new) }
        ensures read { OnOk result (failures_of from.new ≡ failures_of from.old) }
        ensures unread { IfErr result (TakesUnread O.kind self.old (ends objects.old objects.new R.remaining from.old from.new W.contents to.old to.new)) }
        ensures stopped { IfErr result (TakingStops O.kind self.old (ends objects.old objects.new R.remaining from.old from.new W.contents to.old to.new)) }
    {
        let mut storage = vec![in self.alloc; 0u8; PIECE]?;
        let buffer = storage.as_mut_slice();
        // Bounded, since every function has to return.
        for pieces in 0..u64::MAX {
            let length = from.read(buffer)?;
            if length == 0 {
                self.connection.end()?;
                return Ok(());
            }
            self.take_piece(&buffer[..length], to, objects)?;
            if self.has_ended() {
                return Ok(());
            }
        }
        Ok(())
    }

    /// Takes the messages whose frames end in a piece, until the vat closed. What they send is written
    /// block by block, before more is read.
    fn take_piece<O: Servant, W: Write>(
        &mut self,
        piece: &[u8],
        to: &mut Tap<W>,
        objects: &mut Vec<O>,
    ) -> Result<(), ServeFault>
        ensures taken { OnOk result (TakesPiece O.kind self.old piece.now (out objects.old objects.new W.contents to.old to.new) self.new) }
        ensures stopped { IfErr result (PieceStops O.kind self.old piece.now (out objects.old objects.new W.contents to.old to.new)) }
    {
        let mut left = piece;
        'taking: while !left.is_empty() {
            let filled = self.fill_block(left, objects);
            // What is ready goes out also at a fault, which is reported then.
            self.write(to)?;
            left = filled?;
            if self.has_ended() {
                return Ok(());
            }
        }
        Ok(())
    }

    /// Takes messages whose frames end in a piece, until a block of bytes is to go out or the vat closed.
    /// Gives what is left of the piece.
    fn fill_block<'a, O: Servant>(
        &mut self,
        piece: &'a [u8],
        objects: &mut Vec<O>,
    ) -> Result<&'a [u8], ServeFault>
        requires { 0 < length piece.now }
        ensures shorter { IfOk result (λ left. length left.now < length piece.now) }
        ensures taken { IfOk result (λ left. TakesFront O.kind self.old piece.now left.now self.new objects.old.items objects.new.items) }
        ensures stopped { IfErr result (λ fault. FrontStops O.kind self.old piece.now self.new fault objects.old.items objects.new.items) }
    {
        let mut left = piece;
        'filling: while !left.is_empty() {
            left = self.take_next(left, objects)?;
            if self.ends_block() {
                return Ok(left);
            }
        }
        Ok(left)
    }

    /// Whether a block goes out: the connection ended, or the block is full.
    fn ends_block(&self) -> bool
        ensures { result ≡ false → self.now.connection.fault ≡ None }
    {
        if self.has_ended() {
            return true;
        }
        self.ready >= PIECE
    }

    /// Takes a piece up to the end of a frame, with what its message leads to, and gives what follows it.
    fn take_next<'a, O: Servant>(
        &mut self,
        piece: &'a [u8],
        objects: &mut Vec<O>,
    ) -> Result<&'a [u8], ServeFault>
        requires { 0 < length piece.now }
        ensures shorter { IfOk result (λ left. length left.now < length piece.now) }
        ensures taken { IfOk result (λ left. TakesFront O.kind self.old piece.now left.now self.new objects.old.items objects.new.items) }
        ensures stopped { IfErr result (λ fault. FrontStops O.kind self.old piece.now self.new fault objects.old.items objects.new.items) }
    {
        let (count, has_ended) = self.objects.receive(&mut self.connection, objects, piece)?;
        self.follow(objects, has_ended)?;
        Ok(&piece[count..])
    }

    /// Where a message ended, a round follows.
    fn follow<O: Servant>(
        &mut self,
        objects: &mut Vec<O>,
        has_ended: bool,
    ) -> Result<(), AllocError>
        ensures done { OnOk result (FollowsIf O.kind has_ended self.old self.new objects.old objects.new) }
        ensures kept { OnErr result (self.new.ready ≡ self.old.ready) }
        ensures lives { Lives self.old.connection self.new.connection }
    {
        if !has_ended {
            return Ok(());
        }
        let _ = self.round(objects)?;
        Ok(())
    }

    /// A round of polls. Says whether an outcome was given that was awaited.
    fn round<O: Servant>(&mut self, objects: &mut Vec<O>) -> Result<bool, AllocError>
        ensures done { IfOk result (λ gave. Rounded O.kind self.old gave self.new objects.old objects.new) }
        ensures ready { OnOk result (self.new.ready ≡ length self.new.connection.unwritten) }
        ensures kept { OnErr result (self.new.ready ≡ self.old.ready) }
        ensures lives { Lives self.old.connection self.new.connection }
    {
        let gave = self.objects.round(&mut self.connection, objects)?;
        // What an object answered before memory ran out for another is no beginning of what the messages lead to, and stays.
        self.ready = self.connection.outgoing().len();
        Ok(gave)
    }

    /// Polls the objects until they give nothing that is awaited, or the vat closed.
    fn end_all<O: Servant, W: Write>(
        &mut self,
        to: &mut Tap<W>,
        objects: &mut Vec<O>,
    ) -> Result<(), ServeFault>
        ensures ends { OnOk result (EndsAll O.kind self.old (out objects.old objects.new W.contents to.old to.new) self.new) }
        ensures stopped { IfErr result (EndingStops O.kind self.old (out objects.old objects.new W.contents to.old to.new)) }
    {
        for _ in 0..u64::MAX {
            if self.has_ended() {
                return Ok(());
            }
            let gave = self.round(objects)?;
            self.write(to)?;
            if !gave {
                return Ok(());
            }
        }
        Err(ServeFault::OutOfMemory)
    }

    /// Writes what is ready to go out.
    fn write<W: Write>(&mut self, to: &mut Tap<W>) -> Result<(), StreamFault>
        ensures sent { OnOk result (Sends W.contents to.old to.new (ready_of self.old)) }
        ensures device { IfErr result IsDevice }
        ensures broken { IfErr result (λ _. BreaksOff W.contents to.old to.new (ready_of self.old)) }
        ensures written { OnOk result (self.new.connection ≡ record self.old.connection { unwritten = drop self.old.ready self.old.connection.unwritten }) }
        ensures same { OnOk result (self.new ≡ record self.old { connection = self.new.connection; ready = 0 }) }
    {
        let outgoing = self.connection.outgoing();
        write_out(to, &outgoing[..self.ready.min(outgoing.len())])?;
        self.connection.wrote(self.ready);
        self.ready = 0;
        Ok(())
    }

    /// Whether the connection ended.
    fn has_ended(&self) -> bool
        ensures { IsTrue result ↔ IsSome self.now.connection.fault }
    {
        self.connection.fault().is_some()
    }
}

/// Why the vat closed, if an event says so.
fn reason_of(notice: SessionEvent) -> Option<Reason>
    ensures { result ≡ reason_in (notice ∷ []) }
{
    match notice {
        SessionEvent::Closed(reason) => Some(reason),
        SessionEvent::Outcome { .. }
        | SessionEvent::Restless
        | SessionEvent::Fault(_)
        | SessionEvent::Limit(_)
        | SessionEvent::Ended => None,
    }
}

/// Writes all of the bytes, and has a writer that keeps bytes let them go out.
fn write_out<W: Write>(to: &mut Tap<W>, bytes: &[u8]) -> Result<(), StreamFault>
    ensures sent { OnOk result (Sends W.contents to.old to.new bytes.now) }
    ensures device { IfErr result IsDevice }
    ensures broken { IfErr result (λ _. BreaksOff W.contents to.old to.new bytes.now) }
{
    write_whole(to, bytes)?;
    // No flush without bytes: it would be one more call that can fail.
    if bytes.is_empty() {
        return Ok(());
    }
    to.flush()?;
    Ok(())
}
