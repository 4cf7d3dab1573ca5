//! What the program of a connection is told.

ghost use Rattle.std.specs.Prelude.{◌≡◌, ◌<◌, true, HoldsAt, IfNone, IfSome, length};
ghost use Rattle.cp_refs.specs.Memory.{counted};
ghost use Rattle.cp_dispatch.specs.Finishing.{NoneAmong, TakesOut};
ghost use Rattle.cp_dispatch.specs.Noticed.{event_memory, is_last, is_outcome_of, notice_memory, outcome_in};

use cp_connection::ConnectionFault;
use cp_refs::Outcome;
use cp_vat_machine::Reason;
use std::collections::VecDeque;

/// What the program of a connection is told beside its objects, in the order in which it happened. It is kept, and not given to a function of
/// the driver's: one loop serves all drivers, and nothing comes between two polls. A `Dispatcher` tells outcomes and that the vat closed;
/// a session tells each of these. All but `Outcome` and `Restless` say that nothing more is taken, and why. One of these comes, and it is the
/// last event.
#[derive(Drop)]
pub enum SessionEvent {
    /// A question of the program's came to this outcome. `finish` it when none of its paths is needed any more.
    Outcome { question: u32, outcome: Outcome },
    /// An object said for 1,000 polls that it had more, and gave nothing. It is polled again when something comes. Told once.
    Restless,
    /// The vat closed: by an Abort of the peer's, or by one that the peer gets for its fault.
    Closed(Reason),
    /// The peer's bytes can't be read on, or memory ran out.
    Fault(ConnectionFault),
    /// The session met this limit.
    Limit(Limit),
    /// The peer's bytes ended after a message, the objects gave all that they had, and it was written.
    Ended,
}

/// A limit that a session met.
#[derive(Clone, Copy, PartialEq, Eq)]
pub enum Limit {
    /// A message didn't come whole in time.
    Message,
    /// No byte moved in time.
    Idle,
    /// The peer didn't close in time.
    Closing,
    /// Too many bytes are kept.
    Kept,
}

impl SessionEvent {
    /// Whether it says that nothing more is taken, and why.
    pub fn is_last(&self) -> bool
        ensures { result ≡ is_last self.now }
    {
        match self {
            SessionEvent::Outcome { .. } | SessionEvent::Restless => false,
            _ => true,
        }
    }

    /// Whether it is an outcome of this question.
    fn is_outcome_of(&self, question: u32) -> bool
        ensures { result ≡ is_outcome_of question self.now }
    {
        match self {
            SessionEvent::Outcome {
                question: settled,
                ..
            } => *settled == question,
            _ => false,
        }
    }

    /// The outcome, if it is one.
    fn outcome(self) -> Option<Outcome>
        ensures { result ≡ outcome_in self }
    {
        match self {
            SessionEvent::Outcome { outcome, .. } => Some(outcome),
            other => {
                drop(other);
                None
            }
        }
    }
}

/// Takes the first outcome of a question out of events, if there is one.
pub(crate) fn take_outcome(notices: &mut VecDeque<SessionEvent>, question: u32) -> Option<Outcome>
    ensures { TakesOut question notices.old.items result notices.new.items }
{
    let place = place_of(notices, question)?;
    notices.remove(place)?.outcome()
}

/// The place of the first outcome of a question among events.
fn place_of(notices: &VecDeque<SessionEvent>, question: u32) -> Option<usize>
    ensures inside { IfSome result (λ place. place < length notices.now.items) }
    ensures first { IfSome result (λ place. NoneAmong question place notices.now.items) }
    ensures found { IfSome result (λ place. HoldsAt (λ event. is_outcome_of question event ≡ true) notices.now.items place) }
    ensures none { IfNone result (NoneAmong question (length notices.now.items) notices.now.items) }
{
    for place in 0..notices.len() {
        if notices[place].is_outcome_of(question) {
            return Some(place);
        }
    }
    None
}

/// The bytes of memory that the contents of events take.
pub(crate) fn event_memory(notices: &VecDeque<SessionEvent>) -> u64
    ensures { result ≡ counted (event_memory notices.now.items) }
{
    let mut bytes: u64 = 0;
    for place in 0..notices.len() {
        bytes = bytes.saturating_add(notice_memory(&notices[place]));
    }
    bytes
}

/// The bytes of memory that the content of one event takes.
fn notice_memory(notice: &SessionEvent) -> u64
    ensures { result ≡ counted (notice_memory notice.now) }
{
    match notice {
        SessionEvent::Outcome { outcome, .. } => outcome.memory(),
        _ => 0,
    }
}
