//! The notations of messages as text.

/// How a message is written as text.
#[derive(Clone, Copy)]
pub enum Notation {
    /// As `capnp decode --short` prints it.
    Text,
    /// As JSON, as the reference's `JsonCodec` has it: in one line, or in a line for each member and element.
    Json { is_pretty: bool },
}

impl Notation {
    /// Whether it is JSON.
    pub fn is_json(self) -> bool {
        match self {
            Notation::Text => false,
            Notation::Json { .. } => true,
        }
    }

    /// Whether each member and element has a line of its own.
    pub(crate) fn is_pretty(self) -> bool {
        match self {
            Notation::Text => false,
            Notation::Json { is_pretty } => is_pretty,
        }
    }
}
