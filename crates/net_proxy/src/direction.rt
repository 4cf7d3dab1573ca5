//! One direction of a connection: what was read, and what is still to be written.

use crate::gate::{Gate, GateFault, PairGuard};
use crate::read_buffer::{PIECE, ReadBuffer};
use crate::tape::Tape;
use crate::watch::Watch;
use cp_relay::{Breach, RelayFault};
use cp_stream::Refusal;
use net_sockets::{Got, NonblockingStream};
use std::alloc::{AllocError, Global};
use std::io::{self, ErrorKind, Write};
use std::mem;

/// The most pieces of a long frame that one turn takes, so that other connections have theirs.
const PIECES: usize = 32;

/// The most capacity that is kept for what goes out.
const SPARE: usize = 65_536;

/// How a direction ended.
#[derive(Clone, Copy)]
pub(crate) enum DirectionEnd {
    /// The source ended after a message.
    Well,
    /// The source was reset after a message: its peer closed before it had read all. Nothing can be written to it any more.
    Reset,
    /// A message was refused, or the source ended inside one. What was accepted went out.
    Refused(RelayFault),
    /// The guard closes the connection, after this many bytes.
    Closed(u64, Breach),
    /// An answer of the guard, or a message that it changed, can't be written.
    Unanswered(Refusal),
    /// The other direction was refused, closed or unanswered, so the guard lets nothing more through.
    Over,
    /// The source failed. What was accepted went out.
    Unread(io::Error),
    /// The target failed.
    Unwritten(io::Error),
}

/// One direction. It reads only once all that goes out was written: what waits is the rest of a piece, what goes
/// out of it, and the open frame.
pub(crate) struct Direction {
    alloc: Global,
    gate: Gate,
    /// Whether its source is the caller that is guarded.
    is_callers: bool,
    piece: ReadBuffer,
    out: Vec<u8>,
    /// How many bytes of `out` were written.
    sent: usize,
    /// Why nothing more is read.
    ended: Option<DirectionEnd>,
    /// How many bytes were read of the source.
    pub taken: u64,
}

// Not derived: who lets one go calls this function, and need not prove the drop of what it holds.
impl Drop for Direction {
    fn drop(self) {
        let Direction {
            alloc: _,
            gate: _,
            is_callers: _,
            piece: _,
            out: _,
            sent: _,
            ended: _,
            taken: _,
        } = self;
    }
}

impl Direction {
    /// A direction of which nothing was read.
    pub(crate) fn new(
        alloc: Global,
        gate: Gate,
        is_callers: bool,
    ) -> Result<Direction, AllocError> {
        Ok(Direction {
            alloc,
            gate,
            is_callers,
            piece: ReadBuffer::new(alloc)?,
            out: Vec::new(alloc),
            sent: 0,
            ended: None,
            taken: 0,
        })
    }

    /// How it ended, once nothing more goes out.
    pub(crate) fn end(&self) -> Option<DirectionEnd> {
        if self.is_written() { self.ended } else { None }
    }

    /// Whether something can be done before the next event of these streams.
    pub(crate) fn goes_on(
        &self,
        from: &NonblockingStream,
        to: &NonblockingStream,
        guard: &Option<PairGuard>,
    ) -> bool {
        if !self.is_written() {
            return to.is_writable();
        }
        if self.ended.is_some() || self.waits_for_answers(guard) {
            return false;
        }
        !self.piece.is_taken() || (from.is_readable() && self.allowance(guard) > 0)
    }

    /// Takes pieces of the source until something goes out, lets through what is accepted of them, and writes as much as
    /// the target takes. A long frame may take the spare buffer, which comes back once the frame was written.
    pub(crate) fn turn<W: Write + Drop>(
        &mut self,
        from: &mut NonblockingStream,
        to: &mut NonblockingStream,
        guard: &mut Option<PairGuard>,
        watch: &mut Watch<W>,
        spare: &mut Vec<u8>,
    ) {
        self.send(to, spare);
        for _ in 0..PIECES {
            // Only once all was written, so that a slow reader stops its writer.
            if !self.is_written() || !self.goes_on(from, to, guard) {
                break;
            }
            if self.piece.is_taken() {
                self.read(from, guard);
            }
            self.pass(guard, watch, spare);
        }
        self.send(to, spare);
    }

    /// Takes the guard's answers, which go out between two messages, once all was written. Where this direction has
    /// ended, nobody reads them.
    pub(crate) fn take_answers(&mut self, guard: &mut PairGuard, tape: &mut Tape) {
        if self.ended.is_some() {
            guard.answers.clear();
        } else if self.is_written() {
            mem::swap(&mut self.out, &mut guard.answers);
            guard.answers.clear();
            self.record(tape);
        }
    }

    /// Whether all that goes out was written.
    fn is_written(&self) -> bool {
        self.sent >= self.out.len()
    }

    /// Whether answers of the guard have to go back first.
    fn waits_for_answers(&self, guard: &Option<PairGuard>) -> bool {
        match guard {
            Some(guard) => self.is_callers && !guard.answers.is_empty(),
            None => false,
        }
    }

    /// How many bytes may be read of the source.
    fn allowance(&self, guard: &Option<PairGuard>) -> usize {
        match guard {
            Some(guard) if self.is_callers => guard.allowance().min(PIECE),
            _ => PIECE,
        }
    }

    /// Reads a piece, if there may be one.
    fn read(&mut self, from: &mut NonblockingStream, guard: &mut Option<PairGuard>) {
        if !from.is_readable() {
            return;
        }
        let most = self.allowance(guard);
        match self.piece.read(from, most) {
            Ok(Got::Bytes(count)) => self.charge(guard, count),
            Ok(Got::Nothing) => (),
            Ok(Got::End) => self.finish(),
            Err(error) => self.break_off(error),
        }
    }

    /// Counts the bytes that were read, and charges the caller for its own.
    fn charge(&mut self, guard: &mut Option<PairGuard>, count: usize) {
        self.taken = self.taken.saturating_add(count as u64);
        if let Some(guard) = guard {
            if self.is_callers {
                guard.charge(count);
            }
        }
    }

    /// The source has ended.
    fn finish(&mut self) {
        self.ended = Some(match self.gate.finish() {
            Ok(()) => DirectionEnd::Well,
            Err(fault) => DirectionEnd::Refused(fault),
        });
    }

    /// The source has failed. A reset after its last whole message is its end.
    fn break_off(&mut self, error: io::Error) {
        let is_end = is_reset(&error) && self.gate.finish().is_ok();
        self.ended = Some(if is_end {
            DirectionEnd::Reset
        } else {
            DirectionEnd::Unread(error)
        });
    }

    /// Gives the piece to the gate.
    fn pass<W: Write + Drop>(
        &mut self,
        guard: &mut Option<PairGuard>,
        watch: &mut Watch<W>,
        spare: &mut Vec<u8>,
    ) {
        // A long frame gets the larger buffer.
        put_larger_first(&mut self.out, spare);
        let piece = self.piece.rest();
        match self.gate.let_through(guard, watch, piece, &mut self.out) {
            Ok(left) => self.piece.leave(left),
            Err(fault) => self.ended = Some(DirectionEnd::from(fault)),
        }
        self.record(&mut watch.tape);
        if self.out.is_empty() {
            put_larger_first(spare, &mut self.out);
        }
    }

    /// Records what goes out, none of which was there before.
    fn record(&self, tape: &mut Tape) {
        if !self.out.is_empty() {
            tape.record(!self.is_callers, &self.out);
        }
    }

    /// Writes, and gives up the buffer of what was written.
    fn send(&mut self, to: &mut NonblockingStream, spare: &mut Vec<u8>) {
        self.write(to);
        if self.is_written() {
            self.sent = 0;
            self.out.clear();
            put_larger_first(spare, &mut self.out);
            // The spare buffer is larger, so this one goes back to the system.
            if self.out.capacity() > SPARE {
                self.out = Vec::new(self.alloc);
            }
        }
    }

    /// Writes until the target takes no more, or all was written.
    fn write(&mut self, to: &mut NonblockingStream) {
        for _ in 0..u64::MAX {
            if self.sent >= self.out.len() || !to.is_writable() {
                break;
            }
            match to.write(&self.out[self.sent..]) {
                Ok(count) => self.sent += count,
                Err(error) => self.fail(error),
            }
        }
    }

    /// The target has failed: nothing more goes out.
    fn fail(&mut self, error: io::Error) {
        self.ended = Some(DirectionEnd::Unwritten(error));
        // Counted as written, so that the end is reported.
        self.sent = self.out.len();
    }
}

/// Puts the larger one of two buffers without bytes in the first place.
fn put_larger_first(first: &mut Vec<u8>, second: &mut Vec<u8>) {
    if first.capacity() < second.capacity() {
        mem::swap(first, second);
    }
}

/// Whether a stream failed since its peer has closed.
pub(crate) fn is_reset(error: &io::Error) -> bool {
    match error.kind() {
        ErrorKind::ConnectionReset | ErrorKind::BrokenPipe => true,
        _ => false,
    }
}

impl From<GateFault> for DirectionEnd {
    fn from(fault: GateFault) -> DirectionEnd {
        match fault {
            GateFault::Refused(fault) => DirectionEnd::Refused(fault),
            GateFault::Closed(at, breach) => DirectionEnd::Closed(at, breach),
            GateFault::Unwritten(refusal) => DirectionEnd::Unanswered(refusal),
            GateFault::Over => DirectionEnd::Over,
        }
    }
}
