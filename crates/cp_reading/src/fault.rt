//! What can be wrong with a message's words.

use cp_words::Place;
use std::alloc::{AllocError, AllocFailed};
use std::error::Error;
use std::fmt;

/// What is wrong with a message's words, and the pointer word that is to blame: one that is in
/// a body, or segment 0 word 0 for the root.
#[derive(Clone, Copy, PartialEq, Eq, Debug)]
pub enum TreeFault {
    /// G1: there is no root pointer, or it is null.
    NoRoot(Place),
    /// G2: the root is no struct.
    RootKind(Place),
    /// G3: a body or a far pointer's landing pad isn't wholly inside its segment, or a composite list's
    /// elements overrun its words.
    OutOfBounds(Place),
    /// G4: a far pointer names a segment that doesn't exist.
    NoSegment(Place),
    /// G5: a far pointer's landing pad hasn't the form of one.
    BadPad(Place),
    /// G6: a composite list's tag isn't laid out as a struct pointer.
    BadTag(Place),
    /// G7: a capability word has one of bits 2 to 31 set.
    BadCapability(Place),
    /// G8: structs and lists nest deeper than the limit.
    NestingLimit(Place),
    /// G9: the tree costs more than the limit.
    TraversalLimit(Place),
    /// G10: memory ran out.
    OutOfMemory,
}

impl TreeFault {
    /// What the fault means.
    fn meaning(self) -> &'static str {
        match self {
            TreeFault::NoRoot(_) => "there is no root pointer, or it is null",
            TreeFault::RootKind(_) => "the root isn't a struct",
            TreeFault::OutOfBounds(_) =>
                "a body or a landing pad isn't wholly inside its segment, or elements overrun their list",
            TreeFault::NoSegment(_) => "a far pointer names a segment that doesn't exist",
            TreeFault::BadPad(_) => "a far pointer's landing pad hasn't the form of one",
            TreeFault::BadTag(_) => "the tag of a composite list isn't a struct pointer",
            TreeFault::BadCapability(_) => "a capability pointer has one of bits 2 to 31 set",
            TreeFault::NestingLimit(_) =>
                "structs and lists nest deeper than the limit, 64 levels by the standard limits",
            TreeFault::TraversalLimit(_) =>
                "the tree costs more than the traversal limit, 8,388,608 words by the standard limits",
            TreeFault::OutOfMemory => "memory ran out",
        }
    }
}

impl fmt::Display for TreeFault {
    /// Its name and place, and in the alternate form, `{:#}`, what it means too.
    fn fmt<W: fmt::Write>(&self, f: &mut fmt::Formatter<W>) -> fmt::Result {
        let (name, at) = match self {
            TreeFault::NoRoot(at) => ("G1 NoRoot", Some(at)),
            TreeFault::RootKind(at) => ("G2 RootKind", Some(at)),
            TreeFault::OutOfBounds(at) => ("G3 OutOfBounds", Some(at)),
            TreeFault::NoSegment(at) => ("G4 NoSegment", Some(at)),
            TreeFault::BadPad(at) => ("G5 BadPad", Some(at)),
            TreeFault::BadTag(at) => ("G6 BadTag", Some(at)),
            TreeFault::BadCapability(at) => ("G7 BadCapability", Some(at)),
            TreeFault::NestingLimit(at) => ("G8 NestingLimit", Some(at)),
            TreeFault::TraversalLimit(at) => ("G9 TraversalLimit", Some(at)),
            TreeFault::OutOfMemory => ("G10 OutOfMemory", None),
        };
        f.write_str(name)?;
        if let Some(at) = at {
            write!(f, " {at}")?;
        }
        if f.alternate() {
            f.write_str(": ")?;
            f.write_str(self.meaning())?;
        }
        Ok(())
    }
}

impl Error for TreeFault {}

impl From<AllocError> for TreeFault {
    ghost use Rattle.std.specs.Prelude.{◌≡◌};
    ghost use Rattle.cp_reading.specs.declared.fault.TreeFault.TheVariants.{OutOfMemory};

    ghost from_gives = { λ _ e. e ≡ OutOfMemory };

    fn from(_: AllocError) -> TreeFault {
        TreeFault::OutOfMemory
    }
}

impl<T: Drop> From<AllocFailed<T>> for TreeFault {
    ghost use Rattle.std.specs.Prelude.{◌≡◌};
    ghost use Rattle.cp_reading.specs.declared.fault.TreeFault.TheVariants.{OutOfMemory};

    ghost from_gives = { λ _ e. e ≡ OutOfMemory };

    fn from(_: AllocFailed<T>) -> TreeFault {
        TreeFault::OutOfMemory
    }
}
