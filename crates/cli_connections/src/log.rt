//! The messages of a connection, as lines.

use cp_commands::CallPlan;
use cp_frame::FrameReader;
use cp_lines::push_line;
use cp_stream::view_in;
use cp_words::{Limits, Segments};
use std::alloc::Global;
use std::io::{self, Write};

/// How many of the first bytes are kept.
const FIRST: usize = 8;

/// The messages that went over a connection, as lines that weren't printed. A message that can't be read, or for whose line
/// there is no memory, is left out.
#[derive(Drop)]
pub(crate) struct Log {
    alloc: Global,
    limits: Limits,
    /// Whether messages are noted.
    notes: bool,
    sent: FrameReader,
    received: FrameReader,
    lines: String,
    /// The first bytes that came.
    pub(crate) first: Vec<u8>,
}

/// Which way messages go.
#[derive(Clone, Copy)]
pub(crate) enum MessageDirection {
    Sent,
    Received,
}

impl Log {
    /// Nothing went.
    pub(crate) fn new(alloc: Global, plan: &CallPlan) -> Log {
        Log {
            alloc,
            limits: plan.limits,
            notes: plan.shows_messages,
            // What goes out keeps to the standard limits.
            sent: FrameReader::new(alloc, plan.mode, Limits::standard()),
            received: FrameReader::new(alloc, plan.mode, plan.limits),
            lines: String::new(alloc),
            first: Vec::new(alloc),
        }
    }

    /// Prints the lines that weren't.
    pub(crate) fn print<O: Write>(&mut self, out: &mut O) -> io::Result<()> {
        out.write_all(self.lines.as_bytes())?;
        self.lines.clear();
        Ok(())
    }

    /// Notes bytes that went this way.
    pub(crate) fn note(&mut self, direction: MessageDirection, bytes: &[u8]) -> io::Result<()> {
        let is_first = matches!(direction, MessageDirection::Received) && self.first.is_empty();
        if is_first {
            self.first
                .extend_from_slice(&bytes[..bytes.len().min(FIRST)])?;
        }
        self.note_messages(direction, bytes);
        Ok(())
    }

    /// Notes the messages among bytes that went this way.
    fn note_messages(&mut self, direction: MessageDirection, bytes: &[u8]) {
        if !self.notes {
            return;
        }
        let mut left = bytes;
        // Each message takes a byte at least.
        for _ in 0..bytes.len() {
            match self.next(direction, left) {
                Some(rest) => left = rest,
                None => return,
            }
        }
    }

    /// Notes the next message of these bytes, and gives what follows it.
    fn next<'a>(&mut self, direction: MessageDirection, bytes: &'a [u8]) -> Option<&'a [u8]> {
        let frame = match direction {
            MessageDirection::Sent => next_frame(&mut self.sent, bytes),
            MessageDirection::Received => next_frame(&mut self.received, bytes),
        };
        let (segments, rest) = frame?;
        let Ok(view) = view_in(&segments, self.limits) else {
            return None;
        };
        self.lines.push_str(mark_of(direction)).ok()?;
        push_line(self.alloc, &mut self.lines, &view).ok()?;
        Some(rest)
    }
}

/// The next frame of these bytes, and what follows it.
fn next_frame<'a>(reader: &mut FrameReader, bytes: &'a [u8]) -> Option<(Segments, &'a [u8])> {
    match reader.next(bytes) {
        Ok(Some((_, segments, rest))) => Some((segments, rest)),
        _ => None,
    }
}

/// What comes before the line of a message that went this way.
fn mark_of(direction: MessageDirection) -> &'static str {
    match direction {
        MessageDirection::Sent => "> ",
        MessageDirection::Received => "< ",
    }
}
