//! Frames that are written together.

use crate::fault::Stop;
use cp_frame::{Mode, send_frame, write_after};
use cp_packed::push_plain;
use cp_words::{Limits, Segments};
use std::alloc::Global;
use std::io::{self, Write};

/// How many bytes of frames are written at once.
const MOST: usize = 65_536;

/// How many words a frame has at the most that waits for others.
const SHORT: usize = 4_096;

/// The frames that aren't written yet.
#[derive(Drop)]
pub(crate) struct Batch {
    alloc: Global,
    frames: Vec<u8>,
    /// The buffer in which large frames are made.
    block: Vec<u8>,
}

impl Batch {
    /// No frames.
    pub(crate) fn new(alloc: Global) -> Batch {
        Batch {
            alloc,
            frames: Vec::new(alloc),
            block: Vec::new(alloc),
        }
    }

    /// Adds the frame of the segments, and writes all where that is much. A large frame is written at once.
    pub(crate) fn put<W: Write>(
        &mut self,
        segments: &Segments,
        mode: Mode,
        out: &mut W,
    ) -> Result<(), Stop> {
        let limits = Limits::standard();
        if !is_short(segments) {
            self.flush(out)?;
            return Ok(send_frame(self.alloc, out, &mut self.block, segments, mode, limits)??);
        }
        write_after(self.alloc, &mut self.frames, segments, mode, limits)?;
        if MOST <= self.frames.len() {
            self.flush(out)?;
        }
        Ok(())
    }

    /// Adds words as they are, without a frame.
    pub(crate) fn put_words<W: Write>(&mut self, words: &[u64], out: &mut W) -> Result<(), Stop> {
        push_plain(&mut self.frames, words)?;
        if MOST <= self.frames.len() {
            self.flush(out)?;
        }
        Ok(())
    }

    /// Writes all frames. None is left, even if that failed.
    pub(crate) fn flush<W: Write>(&mut self, out: &mut W) -> io::Result<()> {
        let done = out.write_all(&self.frames);
        self.frames.clear();
        done
    }
}

/// Whether a frame of these segments may wait for others.
fn is_short(segments: &Segments) -> bool {
    let mut room = SHORT;
    for segment in segments.lists() {
        if room < segment.len() {
            return false;
        }
        room -= segment.len();
    }
    true
}
