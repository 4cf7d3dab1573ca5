//! What is too much of a peer.

ghost use Rattle.std.specs.Prelude.{◌≡◌, IfOk};
ghost use Rattle.cp_connection.specs.Excess.{abort_of};

use cp_refs::failed;
use cp_rpc::{ExceptionKind, Message};
use std::alloc::{AllocError, Global};

/// What a peer sends, or has kept for it, past a limit of this end. An Abort says which.
#[derive(Clone, Copy, PartialEq, Eq, Debug)]
pub enum Excess {
    /// F1: a frame has more segments than the limits allow.
    Segments,
    /// F2: the segments of a frame have together more words than the limits allow.
    Words,
    /// More is kept for the peer than it is allowed.
    Kept,
}

impl Excess {
    ghost use Rattle.cp_connection.specs.Excess.{kind_of, text_of};

    /// The reason of the Abort.
    pub fn text(self) -> &'static str
        ensures { result.now ≡ text_of self }
    {
        match self {
            Excess::Segments => "F1 too many segments",
            Excess::Words => "F2 frame too large",
            Excess::Kept => "too much is kept",
        }
    }

    /// The type of the Abort: what is kept may be less later, and a frame is always too large.
    pub fn kind(self) -> ExceptionKind
        ensures { result ≡ kind_of self }
    {
        match self {
            Excess::Segments | Excess::Words => ExceptionKind::Failed,
            Excess::Kept => ExceptionKind::Overloaded,
        }
    }

    /// The Abort.
    pub(crate) fn abort(self, alloc: Global) -> Result<Message, AllocError>
        ensures { IfOk result (λ message. message ≡ abort_of self) }
    {
        let mut exception = failed(alloc, self.text())?;
        exception.kind = self.kind();
        Ok(Message::Abort(exception))
    }
}
