//! What goes out for a message.

use cp_frame::Mode;

/// What goes out for a message that is accepted.
#[derive(Clone, Copy, PartialEq, Eq, Debug)]
pub enum Output {
    /// The bytes of its frame, as they were read.
    AsRead,
    /// The frame of the same message in one segment, in this form. What no pointer leads to, and fields that
    /// rpc.capnp doesn't have, stay behind.
    /// A null pointer to a struct of rpc.capnp is written as a struct of defaults, so a message may become too deep or too costly.
    Anew(Mode),
}
