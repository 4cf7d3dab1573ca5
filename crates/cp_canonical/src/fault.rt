//! Why a message isn't canonical, or has no canonical form.

use cp_reading::TreeFault;
use cp_tree::WriteFault;
use cp_words::Place;
use std::alloc::{AllocError, AllocFailed};
use std::error::Error;
use std::fmt;

/// Why a message isn't canonical, or has no canonical form.
#[derive(Clone, Copy, PartialEq, Eq, Debug)]
pub enum CanonicalFault {
    /// G1 to G9: the words hold no tree.
    Tree(TreeFault),
    /// B3 or B4: the canonical form isn't written.
    Write(WriteFault),
    /// C1: the tree holds a capability, first the one of this index.
    Capability(u32),
    /// C2: the words differ from the canonical form, first at this place.
    Difference(Place),
}

impl fmt::Display for CanonicalFault {
    /// Its name and place, and in the alternate form, `{:#}`, what it means too.
    fn fmt<W: fmt::Write>(&self, f: &mut fmt::Formatter<W>) -> fmt::Result {
        let meaning = match self {
            CanonicalFault::Tree(fault) => return fault.fmt(f),
            CanonicalFault::Write(fault) => return fault.fmt(f),
            CanonicalFault::Capability(index) => {
                write!(f, "C1 Capability {index}")?;
                ": a canonical message holds no capability"
            }
            CanonicalFault::Difference(at) => {
                write!(f, "C2 Difference {at}")?;
                ": the words aren't those of the canonical form from here on"
            }
        };
        if f.alternate() {
            f.write_str(meaning)?;
        }
        Ok(())
    }
}

impl Error for CanonicalFault {}

impl From<TreeFault> for CanonicalFault {
    ghost use Rattle.std.specs.Prelude.{◌≡◌};
    ghost use Rattle.cp_canonical.specs.declared.fault.CanonicalFault.TheVariants.{Tree};

    ghost from_gives = { λ fault e. e ≡ Tree fault };

    fn from(fault: TreeFault) -> CanonicalFault {
        CanonicalFault::Tree(fault)
    }
}

impl From<AllocError> for CanonicalFault {
    ghost use Rattle.std.specs.Prelude.{◌≡◌};
    ghost use Rattle.cp_canonical.specs.declared.fault.CanonicalFault.TheVariants.{Write};
    ghost use Rattle.cp_tree.specs.declared.fault.WriteFault.TheVariants.{OutOfMemory};

    ghost from_gives = { λ _ e. e ≡ Write OutOfMemory };

    fn from(_: AllocError) -> CanonicalFault {
        CanonicalFault::Write(WriteFault::OutOfMemory)
    }
}

impl<T: Drop> From<AllocFailed<T>> for CanonicalFault {
    ghost use Rattle.std.specs.Prelude.{◌≡◌};
    ghost use Rattle.cp_canonical.specs.declared.fault.CanonicalFault.TheVariants.{Write};
    ghost use Rattle.cp_tree.specs.declared.fault.WriteFault.TheVariants.{OutOfMemory};

    ghost from_gives = { λ _ e. e ≡ Write OutOfMemory };

    fn from(_: AllocFailed<T>) -> CanonicalFault {
        CanonicalFault::Write(WriteFault::OutOfMemory)
    }
}
