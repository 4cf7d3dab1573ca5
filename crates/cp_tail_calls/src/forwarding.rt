//! What tail calls pass on by themselves.

use cp_messages::Message;

/// What led to a message of a vat's.
#[derive(Clone, Copy)]
pub enum Trigger {
    /// A message that the vat got.
    Message,
    /// A call of the application.
    Application,
}

/// What is to be passed on.
#[derive(Drop)]
pub enum ForwardedMessage {
    /// This message, to the peer.
    ToPeer(Message),
    /// This message, to the vat, as if it came of the peer.
    ToVat(Message),
}
