//! What keeps a builder from being made.

use std::alloc::{AllocError, AllocFailed};
use std::error::Error;
use std::fmt;

/// Why a part of a builder isn't made.
#[derive(Clone, Copy, PartialEq, Eq, Debug)]
pub enum BuildError {
    /// A list, a text or data is longer than a list can be (encoding specification, "Lists"), a struct than a struct can
    /// be, or a table of capabilities than the numbers that name them.
    TooLong,
    OutOfMemory,
}

impl fmt::Display for BuildError {
    fn fmt<W: fmt::Write>(&self, f: &mut fmt::Formatter<W>) -> fmt::Result {
        f.write_str(match self {
            BuildError::TooLong =>
                "a struct, a list, a text, data or a table is longer than a message's can be",
            BuildError::OutOfMemory => "memory ran out",
        })
    }
}

impl Error for BuildError {}

impl From<AllocError> for BuildError {
    ghost use Rattle.std.specs.Prelude.{◌≡◌};
    ghost use Rattle.cp_builder.specs.declared.fault.BuildError.TheVariants.{OutOfMemory};

    ghost from_gives = { λ _ e. e ≡ OutOfMemory };

    fn from(_: AllocError) -> BuildError {
        BuildError::OutOfMemory
    }
}

impl<T: Drop> From<AllocFailed<T>> for BuildError {
    ghost use Rattle.std.specs.Prelude.{◌≡◌};
    ghost use Rattle.cp_builder.specs.declared.fault.BuildError.TheVariants.{OutOfMemory};

    ghost from_gives = { λ _ e. e ≡ OutOfMemory };

    fn from(_: AllocFailed<T>) -> BuildError {
        BuildError::OutOfMemory
    }
}
