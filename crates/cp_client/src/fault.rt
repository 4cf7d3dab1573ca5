//! Why a call of a client, or of a stream, gives nothing.

ghost use Rattle.std.specs.Prelude.{◌≡◌};
ghost use Rattle.cp_client.specs.declared.fault.ClientFault.TheVariants.{Connection, Device};
ghost use Rattle.cp_connection.specs.declared.fault.ConnectionFault.TheVariants.{OutOfMemory};
ghost use Rattle.cp_stream.specs.Device.{of_error};
ghost use Rattle.cp_client.specs.Faults.{of_draft, of_naming};

use cp_builder::BuildError;
use cp_connection::ConnectionFault;
use cp_interfaces::{NamingError, NoResults};
use cp_messages::ExceptionKind;
use cp_stream::DeviceError;
use cp_vat_machine::VatFault;
use std::alloc::{AllocError, AllocFailed};
use std::error::Error;
use std::{fmt, io};

/// Why a call of a client gives nothing.
#[derive(Clone, Copy, PartialEq, Eq, Debug)]
pub enum ClientFault {
    /// A call of the reader or of the writer failed, with this error. Nothing is lost by it: what wasn't written stays to be
    /// written, and the next call goes on from there. A write that took no byte has the kind `WriteZero`.
    Device(DeviceError),
    /// The peer's messages ended, and the outcome hadn't come.
    Ended,
    /// V1: the question wasn't asked, or it was finished, or its outcome was given out.
    /// It isn't the vat's own V1: the vat still knows a question whose outcome was given out.
    NotAsked,
    /// A struct, a list, a text or data of a call, or its table of capabilities, is longer than a message's can be.
    TooLong,
    /// A capability of another session is called, or named in params.
    OtherSession,
    /// The connection ended, or memory ran out, or the vat refuses the call.
    Connection(ConnectionFault),
}

impl ClientFault {
    ghost use Rattle.cp_client.specs.Kinds.{kind_of};

    /// What its caller may do: connect anew where the connection ended, try again later where there is no room.
    /// (rpc.capnp: "Exception".)
    pub fn kind(self) -> ExceptionKind
        ensures { result ≡ kind_of self }
    {
        match self {
            ClientFault::Device(_) | ClientFault::Ended => ExceptionKind::Disconnected,
            ClientFault::NotAsked | ClientFault::TooLong | ClientFault::OtherSession => {
                ExceptionKind::Failed
            }
            ClientFault::Connection(fault) => fault.kind(),
        }
    }
}

impl fmt::Display for ClientFault {
    /// In the alternate form, `{:#}`, also what the vat's fault means, and what to do about it.
    fn fmt<W: fmt::Write>(&self, f: &mut fmt::Formatter<W>) -> fmt::Result {
        match self {
            ClientFault::Connection(ConnectionFault::Refused(VatFault::Full)) if f.alternate() => {
                VatFault::Full.fmt(f)?;
                f.write_str(
                    "; finish the questions, and release the imports, that you no longer need",
                )
            }
            ClientFault::Device(error) => write!(f, "a call of a device failed: {error}"),
            ClientFault::Ended => f.write_str("the peer's messages ended"),
            ClientFault::NotAsked => f.write_str("V1 UnknownQuestion"),
            ClientFault::TooLong => BuildError::TooLong.fmt(f),
            ClientFault::OtherSession => NamingError::OtherSession.fmt(f),
            ClientFault::Connection(fault) => fault.fmt(f),
        }
    }
}

impl Error for ClientFault {}

impl From<io::Error> for ClientFault {
    ghost from_gives = { λ error r. r ≡ Device (of_error error) };

    fn from(error: io::Error) -> ClientFault {
        ClientFault::Device(DeviceError::from(error))
    }
}

impl From<ConnectionFault> for ClientFault {
    ghost from_gives = { λ fault r. r ≡ Connection fault };

    fn from(fault: ConnectionFault) -> ClientFault {
        ClientFault::Connection(fault)
    }
}

impl From<BuildError> for ClientFault {
    ghost from_gives = { λ fault r. r ≡ of_draft fault };

    fn from(fault: BuildError) -> ClientFault {
        match fault {
            BuildError::TooLong => ClientFault::TooLong,
            BuildError::OutOfMemory => ClientFault::Connection(ConnectionFault::OutOfMemory),
        }
    }
}

impl From<NamingError> for ClientFault {
    ghost from_gives = { λ fault r. r ≡ of_naming fault };

    fn from(fault: NamingError) -> ClientFault {
        match fault {
            NamingError::TooLong => ClientFault::TooLong,
            NamingError::OtherSession => ClientFault::OtherSession,
            NamingError::OutOfMemory => ClientFault::Connection(ConnectionFault::OutOfMemory),
        }
    }
}

impl From<AllocError> for ClientFault {
    ghost from_gives = { λ _ r. r ≡ Connection OutOfMemory };

    fn from(_: AllocError) -> ClientFault {
        ClientFault::Connection(ConnectionFault::OutOfMemory)
    }
}

impl<T: Drop> From<AllocFailed<T>> for ClientFault {
    ghost from_gives = { λ _ r. r ≡ Connection OutOfMemory };

    fn from(_: AllocFailed<T>) -> ClientFault {
        ClientFault::Connection(ConnectionFault::OutOfMemory)
    }
}

/// Why a stream doesn't go on.
pub enum CallError {
    /// Why the client gives nothing.
    Client(ClientFault),
    /// A call came to no results. It was finished, and is no longer under way.
    NoResults(NoResults),
}

// Not derived: a crate that lets one go calls this function, and need not prove the drop of all that it holds.
impl Drop for CallError {
    fn drop(self) {
        match self {
            CallError::Client(_) => {}
            CallError::NoResults(_) => {}
        }
    }
}

impl fmt::Display for CallError {
    fn fmt<W: fmt::Write>(&self, f: &mut fmt::Formatter<W>) -> fmt::Result {
        match self {
            CallError::Client(fault) => fault.fmt(f),
            CallError::NoResults(reason) => reason.fmt(f),
        }
    }
}

// Exceptions have no `Debug`.
impl fmt::Debug for CallError {
    fn fmt<W: fmt::Write>(&self, f: &mut fmt::Formatter<W>) -> fmt::Result {
        fmt::Display::fmt(self, f)
    }
}

impl Error for CallError {}

impl From<ClientFault> for CallError {
    ghost use Rattle.cp_client.specs.declared.fault.CallError.TheVariants.{Client};

    ghost from_gives = { λ fault r. r ≡ Client fault };

    fn from(fault: ClientFault) -> CallError {
        CallError::Client(fault)
    }
}

impl<T: Drop> From<AllocFailed<T>> for CallError {
    ghost use Rattle.cp_client.specs.declared.fault.CallError.TheVariants.{Client};

    ghost from_gives = { λ _ r. r ≡ Client (Connection OutOfMemory) };

    fn from(_: AllocFailed<T>) -> CallError {
        CallError::Client(ClientFault::Connection(ConnectionFault::OutOfMemory))
    }
}
