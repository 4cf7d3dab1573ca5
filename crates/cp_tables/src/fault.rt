//! Why a call of a table is refused.

use std::alloc::{AllocError, AllocFailed};
use std::error::Error;
use std::fmt;

/// Why a call of a table was refused. A refused call changes nothing and drops what it was handed.
#[derive(Clone, Copy, PartialEq, Eq, Debug)]
pub enum TableFault {
    /// The number has an entry already, or the entry has that note already.
    Taken,
    /// The number has no entry.
    Unknown,
    /// A count is to be lowered by more than it is.
    TooMany,
    /// The table holds as many entries as it can, or a count can't be raised any more.
    Full,
    /// There was no memory for a new entry.
    OutOfMemory,
}

impl fmt::Display for TableFault {
    fn fmt<W: fmt::Write>(&self, f: &mut fmt::Formatter<W>) -> fmt::Result {
        f.write_str(match self {
            TableFault::Taken => "number or note taken",
            TableFault::Unknown => "unknown number",
            TableFault::TooMany => "lowered past the count",
            TableFault::Full => "table or count full",
            TableFault::OutOfMemory => "out of memory",
        })
    }
}

impl Error for TableFault {}

impl From<AllocError> for TableFault {
    ghost use Rattle.std.specs.Prelude.{◌≡◌};
    ghost use Rattle.cp_tables.specs.declared.fault.TableFault.TheVariants.{OutOfMemory};

    ghost from_gives = { λ _ fault. fault ≡ OutOfMemory };

    fn from(_: AllocError) -> TableFault {
        TableFault::OutOfMemory
    }
}

impl<T: Drop> From<AllocFailed<T>> for TableFault {
    ghost use Rattle.std.specs.Prelude.{◌≡◌};
    ghost use Rattle.cp_tables.specs.declared.fault.TableFault.TheVariants.{OutOfMemory};

    ghost from_gives = { λ _ fault. fault ≡ OutOfMemory };

    fn from(_: AllocFailed<T>) -> TableFault {
        TableFault::OutOfMemory
    }
}
