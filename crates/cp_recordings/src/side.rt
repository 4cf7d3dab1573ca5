//! The ends of a connection.

/// An end of a connection.
#[derive(Clone, Copy, PartialEq, Eq)]
pub enum Side {
    /// The one that connected.
    Client,
    Server,
}

impl Side {
    /// The end that it talks with.
    pub fn other(self) -> Side {
        match self {
            Side::Client => Side::Server,
            Side::Server => Side::Client,
        }
    }

    /// The mark of what it sends.
    pub fn arrow(self) -> &'static str {
        match self {
            Side::Client => ">",
            Side::Server => "<",
        }
    }
}
