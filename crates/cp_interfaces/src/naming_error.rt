//! Why a capability isn't named.

ghost use Rattle.std.specs.Prelude.{◌≡◌};
ghost use Rattle.cp_interfaces.specs.Faults.{of_build, of_reference};
ghost use Rattle.cp_interfaces.specs.declared.naming_error.NamingError.TheVariants.{OutOfMemory};

use cp_builder::BuildError;
use cp_objects::ReferenceError;
use std::alloc::{AllocError, AllocFailed};
use std::error::Error;
use std::fmt;

/// Why results or params that name capabilities can't be written.
#[derive(Clone, Copy, PartialEq, Eq, Debug)]
pub enum NamingError {
    /// A struct, a list, a text or data, or the table of capabilities, is longer than a message's can be.
    TooLong,
    /// A capability is one of another session, where its number means something else.
    OtherSession,
    OutOfMemory,
}

impl fmt::Display for NamingError {
    fn fmt<W: fmt::Write>(&self, f: &mut fmt::Formatter<W>) -> fmt::Result {
        match self {
            NamingError::TooLong => BuildError::TooLong.fmt(f),
            NamingError::OtherSession => ReferenceError::OtherSession.fmt(f),
            NamingError::OutOfMemory => ReferenceError::OutOfMemory.fmt(f),
        }
    }
}

impl Error for NamingError {}

impl From<BuildError> for NamingError {
    ghost from_gives = { λ fault f. f ≡ of_build fault };

    fn from(fault: BuildError) -> NamingError {
        match fault {
            BuildError::TooLong => NamingError::TooLong,
            BuildError::OutOfMemory => NamingError::OutOfMemory,
        }
    }
}

impl From<ReferenceError> for NamingError {
    ghost from_gives = { λ fault f. f ≡ of_reference fault };

    fn from(fault: ReferenceError) -> NamingError {
        match fault {
            ReferenceError::OtherSession => NamingError::OtherSession,
            ReferenceError::OutOfMemory => NamingError::OutOfMemory,
        }
    }
}

impl From<AllocError> for NamingError {
    ghost from_gives = { λ _ f. f ≡ OutOfMemory };

    fn from(_: AllocError) -> NamingError {
        NamingError::OutOfMemory
    }
}

impl<T: Drop> From<AllocFailed<T>> for NamingError {
    ghost from_gives = { λ _ f. f ≡ OutOfMemory };

    fn from(_: AllocFailed<T>) -> NamingError {
        NamingError::OutOfMemory
    }
}
