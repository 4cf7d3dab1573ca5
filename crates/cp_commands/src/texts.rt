//! Texts to frames.

use crate::batch::Batch;
use crate::fault::Stop;
use crate::status::{ACCEPTED, BROKEN, REFUSED};
use crate::stop::stopped;
use cp_encoder::{EncodeFault, Encoder, NotationFault, Splitter};
use cp_frame::Mode;
use cp_tree::Object;
use cp_words::{Limits, Segments};
use cp_writing::write_root;
use std::alloc::{AllocError, Global};
use std::fmt::Display;
use std::io::{self, ErrorKind, Read, Write};

/// How many bytes are asked for at once.
const PIECE: usize = 65_536;

/// By what texts are made frames of.
#[derive(Clone, Copy)]
pub struct Encoding<'s> {
    pub encoder: Encoder<'s>,
    pub mode: Mode,
}

/// Why not all texts are made frames of.
#[derive(Drop)]
enum Halt {
    /// A text isn't as it should be.
    Text(NotationFault),
    Stop(Stop),
}

impl From<Stop> for Halt {
    fn from(stop: Stop) -> Halt {
        Halt::Stop(stop)
    }
}

impl From<AllocError> for Halt {
    fn from(error: AllocError) -> Halt {
        Halt::Stop(Stop::from(error))
    }
}

impl From<io::Error> for Halt {
    fn from(error: io::Error) -> Halt {
        Halt::Stop(Stop::Writing(error))
    }
}

/// The text that is read, and the frames that aren't written yet.
#[derive(Drop)]
struct Texts {
    alloc: Global,
    splitter: Splitter,
    text: Vec<u8>,
    /// Where the text begins.
    line: usize,
    column: usize,
    batch: Batch,
}

impl Texts {
    /// Nothing read yet of texts, or of objects of JSON.
    fn new(alloc: Global, is_json: bool) -> Texts {
        Texts {
            alloc,
            splitter: Splitter::new(is_json),
            text: Vec::new(alloc),
            line: 1,
            column: 1,
            batch: Batch::new(alloc),
        }
    }

    /// Makes a frame of each text that the reader gives.
    fn read_all<R: Read, W: Write>(
        &mut self,
        by: &Encoding<'_>,
        from: &mut R,
        out: &mut W,
    ) -> Result<(), Halt> {
        let mut piece = vec![in self.alloc; 0u8; PIECE]?;
        // A reader could go on for ever; no device gives this many pieces.
        for _ in 0..u64::MAX {
            let length = match from.read(&mut piece) {
                Ok(0) => return self.end(by, out),
                Ok(length) => length,
                Err(error) if error.kind() == ErrorKind::Interrupted => continue,
                Err(error) => return Err(Halt::Stop(Stop::Reading(error))),
            };
            self.take(by, &piece[..length], out)?;
            self.flush(out)?;
        }
        Err(Halt::Stop(Stop::Reading(io::Error::from(ErrorKind::Other))))
    }

    /// Makes a frame of each text that ends in a piece.
    fn take<W: Write>(&mut self, by: &Encoding<'_>, piece: &[u8], out: &mut W) -> Result<(), Halt> {
        let mut left = piece;
        for _ in 0..piece.len() {
            if left.is_empty() {
                break;
            }
            let cut = self.splitter.cut(left);
            self.text.extend_from_slice(cut.text)?;
            left = cut.rest;
            if cut.is_whole {
                self.put(by, out)?;
            }
        }
        Ok(())
    }

    /// Ends the texts: what is left is none, or refused.
    fn end<W: Write>(&mut self, by: &Encoding<'_>, out: &mut W) -> Result<(), Halt> {
        if self.splitter.is_begun() {
            self.put(by, out)?;
        }
        Ok(())
    }

    /// Makes a frame of the text, and begins another one.
    fn put<W: Write>(&mut self, by: &Encoding<'_>, out: &mut W) -> Result<(), Halt> {
        match by.encoder.object(self.alloc, &self.text) {
            Ok(object) => {
                let put = self.put_object(&object, by.mode, out);
                drop(object);
                put?;
                self.begin();
                Ok(())
            }
            Err(EncodeFault::Text(fault)) => Err(Halt::Text(self.placed(fault))),
            Err(fault) => Err(self.refused(&fault)),
        }
    }

    /// Makes a frame of a struct.
    fn put_object<W: Write>(
        &mut self,
        object: &Object,
        mode: Mode,
        out: &mut W,
    ) -> Result<(), Halt> {
        match write_root(self.alloc, object, Limits::standard()) {
            Ok(words) => {
                let segments = Segments::one(words);
                let put = self.batch.put(&segments, mode, out);
                drop(segments);
                Ok(put?)
            }
            Err(fault) => Err(self.refused(&fault)),
        }
    }

    /// Writes all that is made.
    fn flush<W: Write>(&mut self, out: &mut W) -> io::Result<()> {
        match self.batch.flush(out) {
            Ok(()) => out.flush(),
            Err(error) => Err(error),
        }
    }

    /// Begins another text after this one.
    fn begin(&mut self) {
        for byte in &self.text {
            if *byte == b'\n' {
                self.line = self.line.saturating_add(1);
                self.column = 1;
            } else {
                self.column = self.column.saturating_add(1);
            }
        }
        self.text.clear();
    }

    /// A fault of the text by its place in all texts.
    fn placed(&self, fault: NotationFault) -> NotationFault {
        let NotationFault {
            line,
            column,
            message,
        } = fault;
        let before = if line == 1 { self.column } else { 1 };
        NotationFault {
            line: line.saturating_add(self.line).saturating_sub(1),
            column: column.saturating_add(before).saturating_sub(1),
            message,
        }
    }

    /// A fault of the text as a whole.
    fn refused<F: Display>(&self, fault: &F) -> Halt {
        let mut message = String::new(self.alloc);
        match write!(message, "{fault}") {
            Ok(()) => Halt::Text(NotationFault {
                line: self.line,
                column: self.column,
                message,
            }),
            Err(error) => Halt::from(error),
        }
    }
}

/// Makes a frame of each text that a reader gives. What is made before a fault is written. The status is 0 where all texts
/// were right, 1 where one is refused, which a line to `err` says, and 2 where that one is JSON, or a device failed.
pub fn encode<R: Read, W: Write, E: Write>(
    alloc: Global,
    by: &Encoding<'_>,
    from: &mut R,
    out: &mut W,
    err: &mut E,
) -> u8 {
    let mut texts = Texts::new(alloc, by.encoder.is_json());
    let done = texts.read_all(by, from, out);
    let flushed = texts.flush(out);
    drop(texts);
    match flushed {
        Ok(()) => ended(done, by.encoder.is_json(), err),
        Err(error) => {
            drop(done);
            stopped(Stop::Writing(error), 0, err)
        }
    }
}

/// Says why texts ended, if not at their end, and answers the status.
fn ended<E: Write>(done: Result<(), Halt>, is_json: bool, err: &mut E) -> u8 {
    match done {
        Ok(()) => ACCEPTED,
        Err(Halt::Text(fault)) => {
            let _ = writeln!(err, "refused at {fault}");
            drop(fault);
            if is_json { BROKEN } else { REFUSED }
        }
        Err(Halt::Stop(stop)) => stopped(stop, 0, err),
    }
}
