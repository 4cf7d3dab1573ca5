//! Why nothing is made of a text.

use std::alloc::{AllocError, AllocFailed};
use std::error::Error;
use std::fmt;

/// Where a text isn't as it should be.
#[derive(PartialEq, Eq, Debug, Drop)]
pub struct NotationFault {
    /// The line, from 1.
    pub line: usize,
    /// The byte of that line, from 1.
    pub column: usize,
    /// What was wanted there, and what there is.
    pub message: String,
}

/// Why nothing is made of a text.
#[derive(PartialEq, Eq, Debug, Drop)]
pub enum EncodeFault {
    Text(NotationFault),
    /// A list, or all that the text has, is longer than a message's can be.
    TooLong,
    OutOfMemory,
}

impl fmt::Display for EncodeFault {
    fn fmt<W: fmt::Write>(&self, f: &mut fmt::Formatter<W>) -> fmt::Result {
        match self {
            EncodeFault::Text(fault) => write!(f, "{fault}"),
            EncodeFault::TooLong => f.write_str("a list is longer than a message's can be"),
            EncodeFault::OutOfMemory => f.write_str("memory ran out"),
        }
    }
}

impl fmt::Display for NotationFault {
    fn fmt<W: fmt::Write>(&self, f: &mut fmt::Formatter<W>) -> fmt::Result {
        write!(
            f,
            "line {}, column {}: {}",
            self.line, self.column, self.message
        )
    }
}

impl Error for EncodeFault {}

impl From<AllocError> for EncodeFault {
    ghost use Rattle.std.specs.Prelude.{◌≡◌};
    ghost use Rattle.cp_encoder.specs.declared.fault.EncodeFault.TheVariants.{OutOfMemory};

    ghost from_gives = { λ _ e. e ≡ OutOfMemory };

    fn from(_: AllocError) -> EncodeFault {
        EncodeFault::OutOfMemory
    }
}

impl<T: Drop> From<AllocFailed<T>> for EncodeFault {
    ghost use Rattle.std.specs.Prelude.{◌≡◌};
    ghost use Rattle.cp_encoder.specs.declared.fault.EncodeFault.TheVariants.{OutOfMemory};

    ghost from_gives = { λ _ e. e ≡ OutOfMemory };

    fn from(_: AllocFailed<T>) -> EncodeFault {
        EncodeFault::OutOfMemory
    }
}
