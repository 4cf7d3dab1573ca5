//! How a session goes.

use crate::limits::SessionLimits;
use cp_frame::Mode;
use cp_words::Limits;

/// How a session goes.
#[derive(Clone, Copy)]
pub struct SessionOptions {
    /// The form of the frames, both ways.
    pub mode: Mode,
    /// The limits within which messages are read.
    pub messages: Limits,
    /// The object that the peer's Bootstrap gets.
    pub bootstrap: Option<u32>,
    /// Whether the objects may call what they were given.
    pub may_call: bool,
    /// Whether imports and promises go that neither an object nor the vat has, nor an import the program by an outcome. Not where the
    /// program makes promises: those aren't counted.
    pub releases_idle: bool,
    pub limits: SessionLimits,
}
