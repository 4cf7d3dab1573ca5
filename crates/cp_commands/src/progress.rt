//! How far a command has come with a long file, for whoever waits at a terminal.

use std::io::{self, Read, Stderr, Write};

/// The length from which on a file is long.
const LONG: u64 = 64_000_000;

/// The bytes from one line to the next.
const STEP: u64 = 16_777_216;

/// The bytes of a megabyte.
const MEGABYTE: u64 = 1_000_000;

/// What a line is written over with: it has no more than so many characters.
const BLANKS: &str = "\r                                \r";

/// A reader that says on standard error how many bytes were read. The line has no end, so the next one is written over it, as is what the
/// command says.
#[derive(Drop)]
pub(crate) struct ProgressReader<R> {
    inner: R,
    err: Stderr,
    read: u64,
    /// The bytes that there are.
    length: u64,
    /// How many bytes are read at the next line. Who says nothing never comes to it.
    next: u64,
    /// Whether a line stands there.
    stands: bool,
}

impl<R: Read> ProgressReader<R> {
    /// A reader of so many bytes that says how far it has come, if there are many and it is asked for.
    pub(crate) fn new(inner: R, err: Stderr, length: u64, is_asked: bool) -> ProgressReader<R> {
        let is_told = is_asked && length > LONG;
        ProgressReader {
            inner,
            err,
            read: 0,
            length,
            next: if is_told { 0 } else { u64::MAX },
            stands: false,
        }
    }

    /// Notes that so many bytes were read. None are read at the end.
    fn note(&mut self, count: usize) {
        self.read = self.read.saturating_add(count as u64);
        if count == 0 {
            self.clear();
        } else if self.read >= self.next {
            self.tell();
        }
    }

    /// Writes the line.
    fn tell(&mut self) {
        let (read, length) = (self.read / MEGABYTE, self.length / MEGABYTE);
        let _ = write!(self.err, "{read} of {length} MB\r");
        self.next = self.read.saturating_add(STEP);
        self.stands = true;
    }

    /// Takes the line away.
    pub(crate) fn clear(&mut self) {
        if self.stands {
            let _ = self.err.write_all(BLANKS.as_bytes());
            self.stands = false;
        }
    }
}

impl<R: Read> Read for ProgressReader<R> {
    fn read(&mut self, buf: &mut [u8]) -> io::Result<usize> {
        let count = self.inner.read(buf)?;
        self.note(count);
        Ok(count)
    }
}
