//! What happened on a connection, as numbers.

ghost use Rattle.std.specs.Prelude.{◌≡◌};
ghost use Rattle.cp_messages.specs.Written.{kind_number};
ghost use Rattle.c_handles.specs.Event.{origin_numbers, origin_of, numbers_of, outcome_numbers, closing_numbers, fault_number};

use cp_connection::ConnectionEvent;
use cp_refs::{Origin, Outcome};
use cp_rpc::ExceptionKind;
use cp_vat_machine::{PeerFault, Reason};

/// Whom a call's answer is for.
#[repr(C)]
#[derive(Clone, Copy, PartialEq, Eq)]
pub struct OriginNumbers {
    /// Whether this end made the call itself, under the number of a question; else the peer did, under the number of an answer.
    pub is_own: bool,
    pub number: u32,
}

/// An event. What its kind hasn't is 0.
#[repr(C)]
#[derive(Clone, Copy, PartialEq, Eq)]
pub struct EventNumbers {
    /// 0 nothing happened, 1 delivered, 2 settled, 3 closing.
    pub kind: u32,
    /// Delivered: the object that is called.
    pub object: u32,
    /// Delivered.
    pub origin: OriginNumbers,
    /// Delivered: the call's place in the order of calls.
    pub ticket: u64,
    /// Delivered.
    pub interface: u64,
    /// Delivered.
    pub method: u16,
    /// Settled.
    pub question: u32,
    /// Settled: 0 results, 1 an exception, 2 canceled. Closing: 0 the peer aborted, else n of its fault Pn.
    pub outcome: u32,
    /// Settled as an exception, or closing by the peer's: its type.
    pub exception: u32,
    /// Delivered, or settled as results: how many capabilities its table has.
    pub caps: usize,
}

impl OriginNumbers {
    /// The numbers of an origin.
    pub fn of(origin: Origin) -> OriginNumbers
        ensures { result ≡ origin_numbers origin }
    {
        match origin {
            Origin::Answer(number) => OriginNumbers {
                is_own: false,
                number,
            },
            Origin::Own(number) => OriginNumbers {
                is_own: true,
                number,
            },
        }
    }

    /// The origin.
    pub fn origin(self) -> Origin
        ensures { result ≡ origin_of self }
    {
        if self.is_own {
            Origin::Own(self.number)
        } else {
            Origin::Answer(self.number)
        }
    }
}

impl EventNumbers {
    /// Nothing happened.
    pub const NOTHING: EventNumbers = EventNumbers {
        kind: 0,
        object: 0,
        origin: OriginNumbers {
            is_own: false,
            number: 0,
        },
        ticket: 0,
        interface: 0,
        method: 0,
        question: 0,
        outcome: 0,
        exception: 0,
        caps: 0,
    };

    /// The numbers of an event.
    pub fn of(event: &Option<ConnectionEvent>) -> EventNumbers
        ensures { result ≡ numbers_of event.now }
    {
        match event {
            None => EventNumbers::NOTHING,
            Some(
                ConnectionEvent::Delivered {
                    object,
                    origin,
                    ticket,
                    call,
                },
            ) => EventNumbers {
                kind: 1,
                object: *object,
                origin: OriginNumbers::of(*origin),
                ticket: *ticket,
                interface: call.interface,
                method: call.method,
                caps: call.caps.caps().len(),
                ..EventNumbers::NOTHING
            },
            Some(ConnectionEvent::Settled { question, outcome }) => EventNumbers {
                kind: 2,
                question: *question,
                ..outcome_numbers(outcome)
            },
            Some(ConnectionEvent::Closed(reason)) => closing_numbers(reason),
        }
    }
}

/// What a question came to.
fn outcome_numbers(outcome: &Outcome) -> EventNumbers
    ensures { result ≡ outcome_numbers outcome.now }
{
    match outcome {
        Outcome::Results { content: _, caps } => EventNumbers {
            caps: caps.caps().len(),
            ..EventNumbers::NOTHING
        },
        Outcome::Failed(exception) => EventNumbers {
            outcome: 1,
            exception: kind_number(exception.kind),
            ..EventNumbers::NOTHING
        },
        Outcome::Canceled => EventNumbers {
            outcome: 2,
            ..EventNumbers::NOTHING
        },
    }
}

/// Why a connection is closing.
fn closing_numbers(reason: &Reason) -> EventNumbers
    ensures { result ≡ closing_numbers reason.now }
{
    match reason {
        Reason::Peer(exception) => EventNumbers {
            kind: 3,
            exception: kind_number(exception.kind),
            ..EventNumbers::NOTHING
        },
        Reason::Fault(fault) => EventNumbers {
            kind: 3,
            outcome: fault_number(*fault),
            ..EventNumbers::NOTHING
        },
    }
}

/// The number of an exception's type (rpc.capnp, "Exception").
fn kind_number(kind: ExceptionKind) -> u32
    ensures { result ≡ kind_number kind }
{
    match kind {
        ExceptionKind::Failed => 0,
        ExceptionKind::Overloaded => 1,
        ExceptionKind::Disconnected => 2,
        ExceptionKind::Unimplemented => 3,
        ExceptionKind::Unknown(past) => past.number() as u32,
    }
}

/// n of the peer's fault Pn.
fn fault_number(fault: PeerFault) -> u32
    ensures { result ≡ fault_number fault }
{
    match fault {
        PeerFault::QuestionInUse => 1,
        PeerFault::UnknownQuestion => 2,
        PeerFault::UnknownAnswer => 3,
        PeerFault::UnknownExport => 4,
        PeerFault::ReleaseTooLarge => 5,
        PeerFault::NotAnOpenPromise => 6,
        PeerFault::DisembargoTarget => 7,
        PeerFault::UnknownEmbargo => 8,
        PeerFault::PayloadTooLarge => 9,
        PeerFault::TableFull => 10,
        PeerFault::EchoTooLarge => 11,
        PeerFault::PeerLacksLevelOne => 12,
    }
}
