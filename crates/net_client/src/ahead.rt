//! Bytes that came before they were asked for.

ghost use Rattle.std.specs.Prelude.{◌≡◌, ◌≤◌, ◌++◌, [], IfOk, OnErr, length, take};
ghost use Rattle.net_client.specs.Passing.{Fills};

use net_sockets::{Got, NonblockingStream, Socket};
use std::alloc::{AllocError, Global};
use std::io;
use std::marker::Model;

/// The bytes that are taken in at once.
const PIECE: usize = 65_536;

/// Bytes that came before they were asked for. Contracts see them as a list.
#[derive(Drop)]
pub(crate) struct Ahead {
    alloc: Global,
    bytes: Vec<u8>,
    /// How many of them were given out.
    given: usize,
    /// Where they are read to. It has no length until some are.
    piece: Vec<u8>,
}

impl Model for Ahead {
    ghost use Rattle.std.specs.Prelude.{List, ℕ, ◌≡◌, ◌≤◌, drop, length};

    ghost Value = { List ℕ };

    ghost view = { λ a. drop a.given a.bytes.items };

    ghost invariant = { λ a. (a.given ≤ length a.bytes.items) × (length a.piece.items ≤ 65536) };
}

impl Ahead {
    /// No bytes.
    pub(crate) fn new(alloc: Global) -> Ahead
        ensures { result ≡ [] }
    {
        Ahead {
            alloc,
            bytes: Vec::new(alloc),
            given: 0,
            piece: Vec::new(alloc),
        }
    }

    /// How many there are.
    pub(crate) fn len(&self) -> usize
        ensures { result ≡ length self.now }
    {
        self.bytes.len() - self.given
    }

    /// Gives out the first of them, as many as there is room for, and says how many.
    pub(crate) fn give(&mut self, buf: &mut [u8]) -> usize
        ensures few { result ≤ length buf.new }
        ensures gives { self.old ≡ take result buf.new ++ self.new }
    {
        let left = self.left();
        let count = left.len().min(buf.len());
        buf[..count].copy_from_slice(&left[..count]);
        self.given += count;
        if self.given == self.bytes.len() {
            // A new vector, so that the memory goes back.
            self.bytes = Vec::new(self.alloc);
            self.given = 0;
        }
        count
    }

    /// All of them.
    fn left(&self) -> &[u8]
        ensures { result.now ≡ self.now }
    {
        &self.bytes[self.given..]
    }

    /// Reads a piece of a stream behind them. At an `Err` memory ran out, and nothing was read.
    pub(crate) fn fill<D: Socket>(
        &mut self,
        stream: &mut NonblockingStream<D>,
    ) -> Result<io::Result<Got>, AllocError>
        ensures fills { IfOk result (λ got. Fills D.flow self.old stream.old got self.new stream.new) }
        ensures same { OnErr result (self.new ≡ self.old) }
        ensures unread { OnErr result (stream.new ≡ stream.old) }
    {
        if self.piece.is_empty() {
            self.piece = vec![in self.alloc; 0u8; PIECE]?;
        }
        // Before it is read, so that no byte is lost.
        self.bytes.reserve(PIECE)?;
        match stream.read(&mut self.piece) {
            Ok(Got::Bytes(count)) => {
                let _ = self.bytes.extend_from_slice(&self.piece[..count]);
                Ok(Ok(Got::Bytes(count)))
            }
            Ok(Got::Nothing) => Ok(Ok(Got::Nothing)),
            Ok(Got::End) => Ok(Ok(Got::End)),
            Err(error) => Ok(Err(error)),
        }
    }
}
