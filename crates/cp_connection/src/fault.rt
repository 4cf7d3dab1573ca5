//! Why a call of a connection gives nothing.

ghost use Rattle.std.specs.Prelude.{◌≡◌};
ghost use Rattle.cp_connection.specs.declared.fault.ConnectionFault.TheVariants.{OutOfMemory};
ghost use Rattle.cp_connection.specs.Excess.{excess_of, frame_excess, refused_excess};
ghost use Rattle.cp_connection.specs.Refusing.{refusal_of};

use crate::excess::Excess;
use cp_frame::FrameFault;
use cp_rpc::ExceptionKind;
use cp_stream::Refusal;
use cp_vat_machine::VatFault;
use std::alloc::AllocError;
use std::error::Error;
use std::fmt;

/// Why a call of a connection gives nothing. All but `Refused` end the connection.
#[derive(Clone, Copy, PartialEq, Eq, Debug)]
pub enum ConnectionFault {
    /// The peer's bytes can't be read on: what is wrong with them, and how many bytes the frames of the
    /// messages before them took, at most `u64::MAX`.
    Unreadable { at: u64, refusal: Refusal },
    /// The vat closed: as `ConnectionEvent::Closed` says, or by `Connection::abort`.
    Closed,
    /// V10: memory ran out.
    OutOfMemory,
    /// V1 to V9, V11: the vat refuses this call, which changes nothing.
    Refused(VatFault),
}

impl ConnectionFault {
    ghost use Rattle.cp_connection.specs.Kinds.{kind_of};

    /// What its caller may do: connect anew where the connection ended, try again later where there is no room.
    /// (rpc.capnp: "Exception".)
    pub fn kind(self) -> ExceptionKind
        ensures { result ≡ kind_of self }
    {
        match self {
            ConnectionFault::Unreadable { .. } | ConnectionFault::Closed => {
                ExceptionKind::Disconnected
            }
            ConnectionFault::OutOfMemory => ExceptionKind::Overloaded,
            ConnectionFault::Refused(fault) => fault.kind(),
        }
    }

    /// What is too much of the bytes that can't be read on, if something is: for that `Connection::abort` tells the peer why.
    pub fn excess(self) -> Option<Excess>
        ensures { result ≡ excess_of self }
    {
        match self {
            ConnectionFault::Unreadable { refusal, .. } => refused_excess(refusal),
            ConnectionFault::Closed | ConnectionFault::OutOfMemory | ConnectionFault::Refused(_) =>
                None,
        }
    }
}

/// What is too much of what is refused.
fn refused_excess(refusal: Refusal) -> Option<Excess>
    ensures { result ≡ refused_excess refusal }
{
    match refusal {
        Refusal::Frame(fault) => frame_excess(fault),
        Refusal::Tree(_) | Refusal::Write(_) | Refusal::Schema(_) => None,
    }
}

/// What is too much of a frame.
fn frame_excess(fault: FrameFault) -> Option<Excess>
    ensures { result ≡ frame_excess fault }
{
    match fault {
        FrameFault::TooManySegments => Some(Excess::Segments),
        FrameFault::FrameTooLarge => Some(Excess::Words),
        FrameFault::Truncated
        | FrameFault::RunPastFrame
        | FrameFault::Failed
        | FrameFault::OutOfMemory => None,
    }
}

impl fmt::Display for ConnectionFault {
    fn fmt<W: fmt::Write>(&self, f: &mut fmt::Formatter<W>) -> fmt::Result {
        match self {
            ConnectionFault::Unreadable { at, refusal } => {
                write!(f, "refused at byte {at}: ")?;
                refusal.fmt(f)
            }
            ConnectionFault::Closed => f.write_str("the connection is closed"),
            ConnectionFault::OutOfMemory => VatFault::OutOfMemory.fmt(f),
            ConnectionFault::Refused(fault) => fault.fmt(f),
        }
    }
}

impl Error for ConnectionFault {}

impl From<VatFault> for ConnectionFault {
    ghost from_gives = { λ fault r. r ≡ refusal_of fault };

    fn from(fault: VatFault) -> ConnectionFault {
        match fault {
            VatFault::OutOfMemory => ConnectionFault::OutOfMemory,
            other => ConnectionFault::Refused(other),
        }
    }
}

impl From<AllocError> for ConnectionFault {
    ghost from_gives = { λ _ r. r ≡ OutOfMemory };

    fn from(_: AllocError) -> ConnectionFault {
        ConnectionFault::OutOfMemory
    }
}
