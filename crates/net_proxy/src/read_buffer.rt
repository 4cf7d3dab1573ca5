//! A piece of a stream that was read.

ghost use Rattle.std.specs.Prelude.{◌≤◌, vec_len};

use net_sockets::{Got, NonblockingStream};
use std::alloc::{AllocError, Global};
use std::io;

/// The bytes that are read at once.
pub(crate) const PIECE: usize = 16_384;

/// A piece, and how much of it is still to be taken.
#[derive(Drop)]
pub(crate) struct ReadBuffer {
    bytes: Vec<u8>,
    start: usize,
    end: usize,
    ghost in_bytes: { end ≤ vec_len bytes },
    ghost in_order: { start ≤ end },
}

impl ReadBuffer {
    /// A piece of which nothing is left.
    pub(crate) fn new(alloc: Global) -> Result<ReadBuffer, AllocError> {
        Ok(ReadBuffer {
            bytes: vec![in alloc; 0u8; PIECE]?,
            start: 0,
            end: 0,
        })
    }

    /// Whether nothing is left of it.
    pub(crate) fn is_taken(&self) -> bool {
        self.start == self.end
    }

    /// What is left of it.
    pub(crate) fn rest(&self) -> &[u8] {
        &self.bytes[self.start..self.end]
    }

    /// Only this many bytes are left of it.
    pub(crate) fn leave(&mut self, left: usize) {
        self.start = self.end.saturating_sub(left);
    }

    /// Reads the next piece, of at most so many bytes, once nothing is left of this one.
    pub(crate) fn read(&mut self, from: &mut NonblockingStream, most: usize) -> io::Result<Got> {
        self.start = 0;
        self.end = 0;
        let most = most.min(self.bytes.len());
        let got = from.read(&mut self.bytes[..most])?;
        if let Got::Bytes(count) = got {
            self.end = count.min(self.bytes.len());
        }
        Ok(got)
    }
}
