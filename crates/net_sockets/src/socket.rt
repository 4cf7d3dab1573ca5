//! What a `NonblockingStream` reads and writes.

ghost use Rattle.std.specs.Prelude.{◌≡◌, [], IfOk, OnErr, take};
ghost use Rattle.std.specs.Io.{ReadsAtMost, WritesAtMost};
ghost use Rattle.net_sockets.specs.Flow.{Flow, Moves, Rests, ends_of};

use mio::{Registry, Token};
use std::io;

/// A socket whose reads and writes answer `WouldBlock` where they would wait.
///
/// It is a trait so that what is done with a stream is proved over any socket, also one of which it is known which bytes come of it
/// and which it took. Of the system's sockets that isn't known.
pub trait Socket: Drop {
    /// What goes through it.
    ghost flow: { Self → Flow };

    /// Has its readiness reported under a token.
    fn register(&mut self, registry: &Registry, token: Token) -> io::Result<()>
        ensures { self.new ≡ self.old };

    /// Reads the bytes that come next into a piece, and says how many: none once the peer sends no more, or where the piece is empty.
    fn read(&mut self, piece: &mut [u8]) -> io::Result<usize>
        ensures bound { ReadsAtMost result piece.new }
        ensures gives { IfOk result (λ count. Moves (flow self.old) (take count piece.new) (ends_of count) [] (flow self.new)) }
        ensures gives_none { OnErr result (Rests (flow self.old) (flow self.new)) };

    /// Writes the first of these bytes, and says how many.
    fn write(&mut self, bytes: &[u8]) -> io::Result<usize>
        ensures bound { WritesAtMost result bytes.now }
        ensures takes { IfOk result (λ count. Moves (flow self.old) [] 0 (take count bytes.now) (flow self.new)) }
        ensures takes_none { OnErr result (Rests (flow self.old) (flow self.new)) };

    /// Tells the peer that nothing more comes.
    fn shut(&self) -> io::Result<()>;
}
