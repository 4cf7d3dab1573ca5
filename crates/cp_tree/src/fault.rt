//! Why a tree isn't written.

use std::alloc::{AllocError, AllocFailed};
use std::error::Error;
use std::fmt;

/// Why a tree isn't written.
#[derive(Clone, Copy, PartialEq, Eq, Debug)]
pub enum WriteFault {
    /// B1: it nests deeper than the limit.
    TooDeep,
    /// B2: it costs more than the limit.
    TooCostly,
    /// B3: memory ran out.
    OutOfMemory,
    /// B4: its segments have more words together than the limit.
    TooManyWords,
}

impl WriteFault {
    /// What the fault means.
    fn meaning(self) -> &'static str {
        match self {
            WriteFault::TooDeep =>
                "structs and lists nest deeper than the limit, 64 levels by the standard limits",
            WriteFault::TooCostly =>
                "the tree costs more than the traversal limit, 8,388,608 words by the standard limits, or a list is too long for a message",
            WriteFault::OutOfMemory => "memory ran out",
            WriteFault::TooManyWords =>
                "the segments have more words together than the limit, 8,388,608 by the standard limits",
        }
    }
}

impl fmt::Display for WriteFault {
    /// Its name, and in the alternate form, `{:#}`, what it means too.
    fn fmt<W: fmt::Write>(&self, f: &mut fmt::Formatter<W>) -> fmt::Result {
        f.write_str(match self {
            WriteFault::TooDeep => "B1 TooDeep",
            WriteFault::TooCostly => "B2 TooCostly",
            WriteFault::OutOfMemory => "B3 OutOfMemory",
            WriteFault::TooManyWords => "B4 TooManyWords",
        })?;
        if f.alternate() {
            f.write_str(": ")?;
            f.write_str(self.meaning())?;
        }
        Ok(())
    }
}

impl Error for WriteFault {}

impl From<AllocError> for WriteFault {
    ghost use Rattle.std.specs.Prelude.{◌≡◌};
    ghost use Rattle.cp_tree.specs.declared.fault.WriteFault.TheVariants.{OutOfMemory};

    ghost from_gives = { λ _ e. e ≡ OutOfMemory };

    fn from(_: AllocError) -> WriteFault {
        WriteFault::OutOfMemory
    }
}

impl<T: Drop> From<AllocFailed<T>> for WriteFault {
    ghost use Rattle.std.specs.Prelude.{◌≡◌};
    ghost use Rattle.cp_tree.specs.declared.fault.WriteFault.TheVariants.{OutOfMemory};

    ghost from_gives = { λ _ e. e ≡ OutOfMemory };

    fn from(_: AllocFailed<T>) -> WriteFault {
        WriteFault::OutOfMemory
    }
}
