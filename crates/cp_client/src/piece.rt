//! The bytes that were read and weren't taken.

ghost use Rattle.std.specs.Prelude.{◌≡◌, ◌↔◌, ◌<◌, [], true, false, IsTrue, IfOk, IfErr, OnOk, drop, length};
ghost use Rattle.std.specs.Io.KnownBytes.{Consumes, IsAtEnd};
ghost use Rattle.cp_stream.specs.Tap.{inner_of, failures_of};
ghost use Rattle.cp_client.specs.Devices.{device};
ghost use Rattle.cp_client.specs.Devices.{IsUnread};

use crate::fault::ClientFault;
use cp_stream::Tap;
use std::alloc::Global;
use std::io::Read;
use std::marker::Model;

/// The bytes that are asked for at once.
const PIECE: usize = 65_536;

/// The bytes that were read and weren't taken. Contracts see them as a list.
#[derive(Drop)]
pub(crate) struct Piece {
    alloc: Global,
    /// Where bytes are read to. It has none until some are asked for, and never more than are asked for at once.
    buffer: Vec<u8>,
    start: usize,
    end: usize,
}

impl Model for Piece {
    ghost use Rattle.std.specs.Prelude.{List, ℕ, ◌≤◌, drop, take, length};
    ghost use Rattle.cp_client.specs.Devices.{most_kept};

    ghost Value = { List ℕ };

    ghost view = { λ p. drop p.start (take p.end p.buffer.items) };

    ghost invariant = { λ p. (p.start ≤ p.end) × (p.end ≤ length p.buffer.items) × (length p.buffer.items ≤ most_kept) };
}

impl Piece {
    /// No bytes.
    pub(crate) fn new(alloc: Global) -> Piece
        ensures { result ≡ [] }
    {
        Piece {
            alloc,
            buffer: Vec::new(alloc),
            start: 0,
            end: 0,
        }
    }

    /// The bytes, in order.
    pub(crate) fn bytes(&self) -> &[u8]
        ensures { result.now ≡ self.now }
    {
        let read = &self.buffer[..self.end];
        &read[self.start..]
    }

    /// Whether there is none.
    pub(crate) fn is_empty(&self) -> bool
        ensures { IsTrue result ↔ (length self.now ≡ 0) }
    {
        self.start == self.end
    }

    /// Notes that the first of them were taken.
    pub(crate) fn took(&mut self, count: usize)
        ensures { self.new ≡ drop count self.old }
    {
        if count < self.end - self.start {
            self.start += count;
        } else {
            self.start = self.end;
        }
    }

    /// Reads bytes, where none is left. Says whether there are any; else the reader's bytes ended.
    pub(crate) fn fill<R: Read>(&mut self, from: &mut Tap<R>) -> Result<bool, ClientFault>
        requires { self.old ≡ [] }
        ensures read { OnOk result (Consumes (R.remaining (inner_of from.old)) (R.remaining (inner_of from.new)) self.new) }
        ensures some { IfOk result (λ some. some ≡ true → 0 < length self.new) }
        ensures ended { IfOk result (λ some. some ≡ false → (self.new ≡ []) × IsAtEnd (R.remaining (inner_of from.new))) }
        ensures none_failed { OnOk result (failures_of from.new ≡ failures_of from.old) }
        ensures unread { IfErr result (λ fault. (self.new ≡ []) × IsUnread fault (device R.remaining from.old) (device R.remaining from.new)) }
    {
        if self.buffer.is_empty() {
            self.buffer = vec![in self.alloc; 0u8; PIECE]?;
        }
        self.start = 0;
        self.end = 0;
        let count = from.read(&mut self.buffer)?;
        self.end = count;
        Ok(count > 0)
    }
}
