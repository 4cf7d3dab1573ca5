//! What happened on a connection.

ghost use Rattle.std.specs.Prelude.{◌≡◌};
ghost use Rattle.cp_refs.specs.Memory.{counted};
ghost use Rattle.cp_connection.specs.Contents.{event_memory, happening_memory};

use cp_refs::{Origin, Outcome, Request};
use cp_vat_machine::Reason;
use std::collections::VecDeque;

/// What the user of a connection is told, in the order in which it happened.
#[derive(Drop)]
pub enum ConnectionEvent {
    /// The peer calls this object: answer it by its origin, once, now or later. The imports in its table stay
    /// until they are released.
    Delivered {
        object: u32,
        origin: Origin,
        /// Its place in the order in which calls came, from 0.
        ticket: u64,
        call: Request,
    },
    /// A question came to this outcome. `finish` it when none of its paths is needed any more.
    Settled {
        question: u32,
        outcome: Outcome,
    },
    /// The vat closed, for this reason. It is the last that happens. Write what is left of `outgoing`, an Abort
    /// among it where the peer was at fault, and close.
    Closed(Reason),
}

/// What a connection took and sent, each number at most `u64::MAX`, where it stays.
#[derive(Clone, Copy, Debug)]
pub struct ConnectionStats {
    /// The bytes of the frames whose messages were taken.
    pub bytes: u64,
    /// The messages that were taken.
    pub messages: u64,
    /// The messages that were sent, written or not.
    pub sent: u64,
}

/// What a connection holds.
#[derive(Clone, Copy, Debug)]
pub struct Held {
    /// The bytes of the open frame that came.
    pub came: u64,
    /// The bytes that weren't written.
    pub unwritten: usize,
    /// The events that weren't taken.
    pub events: usize,
    /// The questions, answers and imports of its vat.
    pub entries: usize,
    /// The imports of its vat, which `entries` counts too.
    pub imports: usize,
    /// The promises of its vat.
    pub promises: usize,
    /// The bytes of memory that contents take which its vat keeps, as `Vat::contents` says, and results of tail calls.
    pub contents: u64,
}

/// The bytes of memory that the contents of what happened take.
pub(crate) fn event_memory(happened: &VecDeque<ConnectionEvent>) -> u64
    ensures { result ≡ counted (event_memory happened.now.items) }
{
    let mut bytes: u64 = 0;
    for place in 0..happened.len() {
        bytes = bytes.saturating_add(happening_memory(&happened[place]));
    }
    bytes
}

/// The bytes of memory that the content of one event takes.
fn happening_memory(happening: &ConnectionEvent) -> u64
    ensures { result ≡ counted (happening_memory happening.now) }
{
    match happening {
        ConnectionEvent::Delivered { call, .. } => call.memory(),
        ConnectionEvent::Settled { outcome, .. } => outcome.memory(),
        ConnectionEvent::Closed(_) => 0,
    }
}
