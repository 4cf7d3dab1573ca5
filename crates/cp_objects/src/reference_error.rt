//! Why a reference isn't taken.

ghost use Rattle.std.specs.Prelude.{◌≡◌};
ghost use Rattle.cp_objects.specs.declared.reference_error.ReferenceError.TheVariants.{OutOfMemory};

use std::alloc::AllocError;
use std::error::Error;
use std::fmt;

/// Why a reference isn't taken: a capability, or what resolves a promise.
#[derive(Clone, Copy, PartialEq, Eq, Debug)]
pub enum ReferenceError {
    /// It is one of another session, where its number means something else. Nothing was done.
    OtherSession,
    OutOfMemory,
}

impl fmt::Display for ReferenceError {
    fn fmt<W: fmt::Write>(&self, f: &mut fmt::Formatter<W>) -> fmt::Result {
        f.write_str(match self {
            ReferenceError::OtherSession => "a reference of another connection",
            ReferenceError::OutOfMemory => "memory ran out",
        })
    }
}

impl Error for ReferenceError {}

impl From<AllocError> for ReferenceError {
    ghost from_gives = { λ _ f. f ≡ OutOfMemory };

    fn from(_: AllocError) -> ReferenceError {
        ReferenceError::OutOfMemory
    }
}

// An object that uses another session's reference in what isn't a typed call ends the serving of its own.
impl From<ReferenceError> for AllocError {
    fn from(_: ReferenceError) -> AllocError {
        AllocError
    }
}
