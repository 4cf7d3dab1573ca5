//! Why a server stops.

ghost use Rattle.std.specs.Prelude.{◌≡◌};
ghost use Rattle.cp_serve.specs.Faults.{fault_of};
ghost use Rattle.cp_serve.specs.declared.fault.ServeFault.TheVariants.{Stream, OutOfMemory};
ghost use Rattle.cp_stream.specs.Device.{of_error};
ghost use Rattle.cp_stream.specs.declared.fault.StreamFault.TheVariants.{Device};

use cp_connection::ConnectionFault;
use cp_messages::ExceptionKind;
use cp_stream::StreamFault;
use std::alloc::{AllocError, AllocFailed};
use std::error::Error;
use std::{fmt, io};

/// Why a server stopped before its run ended. Nothing is written after it.
#[derive(Clone, Copy, PartialEq, Eq, Debug)]
pub enum ServeFault {
    /// The messages can't be read on, or a call of a device failed. A refusal names the bytes of the
    /// frames whose messages were taken.
    Stream(StreamFault),
    /// V10: memory ran out, for a message, for the vat or for an object; or 2^64 - 1 rounds or effects
    /// followed one another.
    OutOfMemory,
}

impl ServeFault {
    ghost use Rattle.cp_serve.specs.Kinds.{kind_of};

    /// What its caller may do: as the stream says, or try again later where memory ran out. (rpc.capnp: "Exception".)
    pub fn kind(self) -> ExceptionKind
        ensures { result ≡ kind_of self }
    {
        match self {
            ServeFault::Stream(fault) => fault.kind(),
            ServeFault::OutOfMemory => ExceptionKind::Overloaded,
        }
    }
}

impl fmt::Display for ServeFault {
    fn fmt<W: fmt::Write>(&self, f: &mut fmt::Formatter<W>) -> fmt::Result {
        match self {
            ServeFault::Stream(fault) => fault.fmt(f),
            ServeFault::OutOfMemory => f.write_str("refused: V10 OutOfMemory"),
        }
    }
}

impl Error for ServeFault {}

impl From<StreamFault> for ServeFault {
    ghost from_gives = { λ fault r. r ≡ Stream fault };

    fn from(fault: StreamFault) -> ServeFault {
        ServeFault::Stream(fault)
    }
}

impl From<io::Error> for ServeFault {
    ghost from_gives = { λ error r. r ≡ Stream (Device (of_error error)) };

    fn from(error: io::Error) -> ServeFault {
        ServeFault::Stream(StreamFault::from(error))
    }
}

impl From<ConnectionFault> for ServeFault {
    ghost from_gives = { λ fault r. r ≡ fault_of fault };

    fn from(fault: ConnectionFault) -> ServeFault {
        match fault {
            ConnectionFault::Unreadable { at, refusal } => {
                ServeFault::Stream(StreamFault::Refused { at, refusal })
            }
            // Wherever memory ran out: a frame's place would say nothing of why.
            _ => ServeFault::OutOfMemory,
        }
    }
}

impl From<AllocError> for ServeFault {
    ghost from_gives = { λ _ r. r ≡ OutOfMemory };

    fn from(_: AllocError) -> ServeFault {
        ServeFault::OutOfMemory
    }
}

impl<T: Drop> From<AllocFailed<T>> for ServeFault {
    ghost from_gives = { λ _ r. r ≡ OutOfMemory };

    fn from(_: AllocFailed<T>) -> ServeFault {
        ServeFault::OutOfMemory
    }
}
