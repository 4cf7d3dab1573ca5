//! What the commands do, over a reader and two writers.

use crate::asked::Occurrences;
use crate::batch::Batch;
use crate::fault::Stop;
use crate::foreign::is_other_form;
use crate::names::Names;
use crate::status::ACCEPTED;
use crate::stop::{Ended, stopped};
use cp_canonical::{canonical_message, is_canonical};
use cp_frame::{FrameReader, Mode};
use cp_lines::push_line;
use cp_reading::{View, read_root};
use cp_rpc::{MessageView, SchemaFault};
use cp_schema::{Decoder, push_message};
use cp_stream::{Refusal, check_in, view_in};
use cp_words::{Limits, Segments};
use cp_writing::write_segments;
use std::alloc::Global;
use std::io::{self, ErrorKind, Read, Write};
use std::mem;

/// A command, apart from the file that it reads.
#[derive(Clone, Copy)]
pub enum Plan<'s> {
    /// Each message as a line.
    Show {
        mode: Mode,
        limits: Limits,
    },
    /// Each message as a line, by a struct of a schema.
    Decode {
        mode: Mode,
        limits: Limits,
        decoder: Decoder<'s>,
    },
    /// Each message as a line, calls and what they return by the names of a schema.
    Name {
        mode: Mode,
        limits: Limits,
        names: &'s Names,
    },
    /// The number of messages.
    Check {
        mode: Mode,
        limits: Limits,
    },
    /// The number of messages, if all are canonical.
    CheckCanonical {
        mode: Mode,
        limits: Limits,
    },
    /// Each message in its canonical form: in a frame, or without a segment table.
    Canonical {
        mode: Mode,
        limits: Limits,
        is_flat: bool,
    },
    /// Plain frames in the packed form. Segments stay as they are, and no root is read.
    Pack,
    /// Packed frames in the plain form, likewise.
    Unpack,
    /// Each frame's tree in segments of at most this many words, in the same form.
    Recut {
        mode: Mode,
        words: u32,
    },
}

/// How many bytes are asked for at once: at first and after a frame, and after a piece that ended no
/// frame half as many more.
/// Larger pieces throughout make the C library give pages back after each; within a large frame they save calls.
const PIECE: usize = 16_384;

/// The most bytes that are asked for at once.
const LARGEST_PIECE: usize = 65_536;

/// How far a command has come: how many frames it accepted, and how many bytes they took.
#[derive(Drop)]
struct Progress {
    frames: u64,
    bytes: u64,
}

/// What is kept from message to message: where memory comes from, the last line, which the next is written
/// over, and the frames that aren't written yet.
#[derive(Drop)]
struct Last {
    alloc: Global,
    line: String,
    batch: Batch,
    /// The Returns that came.
    returns: Occurrences,
}

impl Plan<'_> {
    /// The form and the limits of the frames that the command takes.
    fn form(&self) -> (Mode, Limits) {
        match self {
            Plan::Show { mode, limits }
            | Plan::Check { mode, limits }
            | Plan::CheckCanonical { mode, limits }
            | Plan::Canonical { mode, limits, .. }
            | Plan::Decode { mode, limits, .. }
            | Plan::Name { mode, limits, .. } => (*mode, *limits),
            Plan::Pack => (Mode::Plain, Limits::standard()),
            Plan::Unpack => (Mode::Packed, Limits::standard()),
            Plan::Recut { mode, .. } => (*mode, Limits::standard()),
        }
    }

    /// What stopped the command at a piece: for the first frame, that the stream seems to have the other form.
    fn stop_at(&self, stop: Stop, piece: &[u8], progress: &Progress) -> Stop {
        let (mode, _) = self.form();
        match stop {
            Stop::Refused(fault) if progress.bytes == 0 && is_other_form(mode, piece) => {
                Stop::OtherForm(fault, mode)
            }
            stop => stop,
        }
    }

    /// What may be wrong with what was refused. These three have no option for a limit.
    fn hint(&self, stop: &Stop) -> Option<&'static str> {
        match (self, stop) {
            (Plan::Pack | Plan::Unpack | Plan::Recut { .. }, Stop::Refused(_)) => None,
            (_, stop) => stop.hint(),
        }
    }

    /// Does the command on a frame.
    fn do_frame<W: Write>(
        &self,
        segments: &Segments,
        last: &mut Last,
        out: &mut W,
    ) -> Result<(), Stop> {
        let alloc = last.alloc;
        match self {
            Plan::Show { limits, .. } => show(alloc, segments, *limits, &mut last.line, out),
            Plan::Decode {
                limits,
                decoder,
                ..
            } => decode(segments, *limits, decoder, last, out),
            Plan::Name { limits, names, .. } => name(segments, *limits, names, last, out),
            Plan::Check { limits, .. } => Ok(check_in(segments, *limits)?),
            Plan::CheckCanonical { limits, .. } => Ok(is_canonical(alloc, segments, *limits)?),
            Plan::Canonical {
                mode,
                limits,
                is_flat,
            } => {
                let words = canonical_message(alloc, segments, *limits)?;
                put_canonical(words, *mode, *is_flat, &mut last.batch, out)
            }
            Plan::Pack => last.batch.put(segments, Mode::Packed, out),
            Plan::Unpack => last.batch.put(segments, Mode::Plain, out),
            Plan::Recut { mode, words } => {
                recut(alloc, segments, *mode, *words, &mut last.batch, out)
            }
        }
    }

    /// Does the command on each frame that ends in the piece. Says whether one does.
    fn do_piece<W: Write>(
        &self,
        reader: &mut FrameReader,
        piece: &[u8],
        last: &mut Last,
        out: &mut W,
        progress: &mut Progress,
    ) -> Result<bool, Stop> {
        let mut left = piece;
        'taking: while !left.is_empty() {
            let Some((taken, segments, back)) = reader.next(left)? else {
                break;
            };
            self.do_frame(&segments, last, out)?;
            reader.reuse(segments);
            progress.frames = progress.frames.saturating_add(1);
            progress.bytes = progress.bytes.saturating_add(taken);
            left = back;
        }
        Ok(left.len() < piece.len())
    }

    /// Does the command on each frame, up to the end or to what stops it.
    fn run<R: Read, W: Write>(
        &self,
        alloc: Global,
        from: &mut R,
        out: &mut W,
        progress: &mut Progress,
    ) -> Result<(), Stop> {
        let mut last = Last {
            alloc,
            line: String::new(alloc),
            batch: Batch::new(alloc),
            returns: Occurrences::new(alloc),
        };
        let done = self.do_pieces(from, &mut last, out, progress);
        // Also after a fault: what was accepted before it goes out.
        let flushed = last.batch.flush(out);
        drop(last);
        flushed?;
        done
    }

    /// Does the command on each frame, of which some may not be written yet.
    fn do_pieces<R: Read, W: Write>(
        &self,
        from: &mut R,
        last: &mut Last,
        out: &mut W,
        progress: &mut Progress,
    ) -> Result<(), Stop> {
        let alloc = last.alloc;
        let (mode, limits) = self.form();
        let mut reader = FrameReader::new(alloc, mode, limits);
        let mut piece = vec![in alloc; 0u8; LARGEST_PIECE]?;
        let mut most = PIECE;
        // A reader could go on for ever; no device gives this many pieces.
        for _ in 0..u64::MAX {
            let asked = most.min(piece.len());
            let length = match from.read(&mut piece[..asked]) {
                Ok(0) => return Ok(reader.finish()?),
                Ok(length) => length,
                Err(error) if error.kind() == ErrorKind::Interrupted => continue,
                Err(error) => return Err(Stop::Reading(error)),
            };
            let ended = match self.do_piece(&mut reader, &piece[..length], last, out, progress) {
                Ok(ended) => ended,
                Err(stop) => return Err(self.stop_at(stop, &piece[..length], progress)),
            };
            most = if ended { PIECE } else { asked + PIECE / 2 };
        }
        Err(Stop::Reading(io::Error::from(ErrorKind::Other)))
    }

    /// Ends a command that accepted all frames.
    fn end<W: Write>(&self, out: &mut W, progress: &Progress) -> Result<(), Stop> {
        if let Plan::Check { .. } | Plan::CheckCanonical { .. } = self {
            writeln!(out, "messages {}", progress.frames)?;
        }
        Ok(out.flush()?)
    }
}

/// Does a command over its file's bytes. What it gives goes to `out`, also that of the frames before
/// a refused one, and a line that says why it stopped to `err`. The status is 0 where all was
/// accepted, 1 where something was refused, and 2 where a device failed.
pub fn act<R: Read, W: Write, E: Write>(
    alloc: Global,
    plan: &Plan<'_>,
    from: &mut R,
    out: &mut W,
    err: &mut E,
) -> u8 {
    act_to_end(alloc, plan, from, out, err).status
}

/// Does what `act` does, and gives a hint where it has one.
pub fn act_to_end<R: Read, W: Write, E: Write>(
    alloc: Global,
    plan: &Plan<'_>,
    from: &mut R,
    out: &mut W,
    err: &mut E,
) -> Ended {
    let mut progress = Progress {
        frames: 0,
        bytes: 0,
    };
    let mut done = plan.run(alloc, from, out, &mut progress);
    if done.is_ok() {
        done = plan.end(out, &progress);
    } else if let Err(error) = out.flush() {
        done = Err(Stop::Writing(error));
    }
    match done {
        Ok(()) => Ended {
            status: ACCEPTED,
            hint: None,
        },
        Err(stop) => Ended {
            status: stopped(stop, progress.bytes, err),
            hint: plan.hint(&stop),
        },
    }
}

/// Writes the message's line. `line` is the last one.
fn show<W: Write>(
    alloc: Global,
    segments: &Segments,
    limits: Limits,
    line: &mut String,
    out: &mut W,
) -> Result<(), Stop> {
    let view = shown_in(segments, limits)?;
    line.clear();
    let pushed = push_line(alloc, line, &view);
    drop(view);
    pushed?;
    Ok(out.write_all(line.as_bytes())?)
}

/// Writes the message's line, with the names of a schema where it has them.
fn name<W: Write>(
    segments: &Segments,
    limits: Limits,
    names: &Names,
    last: &mut Last,
    out: &mut W,
) -> Result<(), Stop> {
    let view = shown_in(segments, limits)?;
    let named = put_line(names, last, &view);
    drop(view);
    named?;
    Ok(out.write_all(last.line.as_bytes())?)
}

/// Puts a message's line over the last one.
fn put_line(names: &Names, last: &mut Last, view: &MessageView<'_>) -> Result<(), Stop> {
    last.line.clear();
    push_line(last.alloc, &mut last.line, view)?;
    let named = names.line(last.alloc, &mut last.returns, last.line.as_str(), view)?;
    if let Some(line) = named {
        drop(mem::replace(&mut last.line, line));
    }
    Ok(())
}

/// The message that segments hold, for one who may have meant another struct.
fn shown_in<'a>(segments: &'a Segments, limits: Limits) -> Result<MessageView<'a>, Stop> {
    match view_in(segments, limits) {
        Ok(view) => Ok(view),
        Err(Refusal::Schema(fault)) if fault != SchemaFault::OutOfMemory => {
            Err(Stop::OtherStruct(fault))
        }
        Err(refusal) => Err(Stop::Refused(refusal)),
    }
}

/// Writes the message's line by a struct of a schema.
fn decode<W: Write>(
    segments: &Segments,
    limits: Limits,
    decoder: &Decoder<'_>,
    last: &mut Last,
    out: &mut W,
) -> Result<(), Stop> {
    let view = View::root(segments, limits)?;
    last.line.clear();
    push_message(last.alloc, &mut last.line, decoder, view)?;
    Ok(out.write_all(last.line.as_bytes())?)
}

/// Writes the words of a canonical form: in a frame of one segment, or as they are.
fn put_canonical<W: Write>(
    words: Vec<u64>,
    mode: Mode,
    is_flat: bool,
    batch: &mut Batch,
    out: &mut W,
) -> Result<(), Stop> {
    if is_flat {
        let put = batch.put_words(&words, out);
        drop(words);
        return put;
    }
    let segments = Segments::one(words);
    let put = batch.put(&segments, mode, out);
    drop(segments);
    put
}

/// Writes the frame's tree again, in segments of at most this many words.
fn recut<W: Write>(
    alloc: Global,
    segments: &Segments,
    mode: Mode,
    words: u32,
    batch: &mut Batch,
    out: &mut W,
) -> Result<(), Stop> {
    let limits = Limits::standard();
    let root = read_root(alloc, segments, limits)?;
    let cut = write_segments(alloc, &root, words, limits);
    drop(root);
    let cut = cut?;
    let put = batch.put(&cut, mode, out);
    drop(cut);
    put
}
