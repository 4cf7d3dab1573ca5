//! Why a method gives no results, and why an outcome is none.

ghost use Rattle.std.specs.Prelude.{◌≡◌, Some, IfOk};
ghost use Rattle.cp_servants.specs.Outcomes.{exception_of};
ghost use Rattle.cp_interfaces.specs.Replies.{exception_for};

use crate::naming_error::NamingError;
use cp_builder::BuildError;
use cp_fields::{TextFault, WrongKind};
use cp_objects::ReferenceError;
use cp_rpc::{Exception, ExceptionKind, Text};
use std::alloc::{AllocError, AllocFailed, Global};
use std::cell::{BorrowError, BorrowMutError};
use std::error::Error;
use std::fmt;
use std::num::TryFromIntError;

/// Why a method of an object gives no results. All but `OutOfMemory` are exceptions with which the call fails.
pub enum MethodFault {
    /// The call fails with this exception.
    Fails(Exception),
    /// The object has no such method.
    /// No method has a body by default, which would have to do what every object says of itself: an object returns this.
    Unimplemented,
    /// A pointer of the params is of another kind than the schema says.
    WrongKind(WrongKind),
    /// A text of the params isn't UTF-8.
    NotUtf8,
    /// A struct, a list, a text or data of the results, or their table of capabilities, is longer than a message's can be.
    TooLong,
    /// A number isn't one of the field's type.
    OutOfRange,
    /// What the object shares with others is in use.
    InUse,
    /// A capability of another connection was used.
    OtherSession,
    /// It ends the serving.
    OutOfMemory,
}

// Not derived: a crate that lets one go calls this function, and need not prove the drop of all that it holds.
impl Drop for MethodFault {
    fn drop(self) {
        match self {
            MethodFault::Fails(_) => {}
            MethodFault::Unimplemented => {}
            MethodFault::WrongKind(_) => {}
            MethodFault::NotUtf8 => {}
            MethodFault::TooLong => {}
            MethodFault::OutOfRange => {}
            MethodFault::InUse => {}
            MethodFault::OtherSession => {}
            MethodFault::OutOfMemory => {}
        }
    }
}

impl MethodFault {
    /// The exception with which the call fails. `Err`: memory ran out.
    pub fn exception(self, alloc: Global) -> Result<Exception, AllocError>
        ensures { IfOk result (λ e. exception_for self ≡ Some e) }
    {
        let failed = ExceptionKind::Failed;
        match self {
            MethodFault::Fails(exception) => Ok(exception),
            MethodFault::Unimplemented => {
                exception(alloc, ExceptionKind::Unimplemented, "no such method")
            }
            MethodFault::WrongKind(_) => exception(alloc, failed, "a field is of another kind"),
            MethodFault::NotUtf8 => exception(alloc, failed, "a text isn't UTF-8"),
            MethodFault::TooLong => exception(alloc, failed, "the results are too long"),
            MethodFault::OutOfRange => exception(alloc, failed, "a number is out of range"),
            MethodFault::InUse => exception(alloc, failed, "what is shared is in use"),
            MethodFault::OtherSession => {
                exception(alloc, failed, "a reference of another connection")
            }
            MethodFault::OutOfMemory => Err(AllocError),
        }
    }
}

/// An exception without a trace.
fn exception(alloc: Global, kind: ExceptionKind, reason: &str) -> Result<Exception, AllocError>
    ensures { IfOk result (λ e. e ≡ exception_of kind reason.now) }
{
    Ok(Exception {
        kind,
        reason: Text::new(String::from_str(alloc, reason)?),
        trace: Text::new(String::new(alloc)),
    })
}

impl From<Exception> for MethodFault {
    ghost use Rattle.std.specs.Prelude.{◌≡◌};
    ghost use Rattle.cp_interfaces.specs.declared.fault.MethodFault.TheVariants.{Fails};

    ghost from_gives = { λ exception f. f ≡ Fails exception };

    fn from(exception: Exception) -> MethodFault {
        MethodFault::Fails(exception)
    }
}

impl From<WrongKind> for MethodFault {
    ghost use Rattle.std.specs.Prelude.{◌≡◌};
    ghost use Rattle.cp_interfaces.specs.declared.fault.MethodFault.TheVariants.{WrongKind};

    ghost from_gives = { λ fault f. f ≡ WrongKind fault };

    fn from(fault: WrongKind) -> MethodFault {
        MethodFault::WrongKind(fault)
    }
}

impl From<TextFault> for MethodFault {
    ghost use Rattle.std.specs.Prelude.{◌≡◌};
    ghost use Rattle.cp_interfaces.specs.Replies.{of_text};

    ghost from_gives = { λ fault f. f ≡ of_text fault };

    fn from(fault: TextFault) -> MethodFault {
        match fault {
            TextFault::NotUtf8 => MethodFault::NotUtf8,
            TextFault::OutOfMemory => MethodFault::OutOfMemory,
        }
    }
}

impl From<BuildError> for MethodFault {
    ghost use Rattle.std.specs.Prelude.{◌≡◌};
    ghost use Rattle.cp_interfaces.specs.Replies.{of_draft};

    ghost from_gives = { λ fault f. f ≡ of_draft fault };

    fn from(fault: BuildError) -> MethodFault {
        match fault {
            BuildError::TooLong => MethodFault::TooLong,
            BuildError::OutOfMemory => MethodFault::OutOfMemory,
        }
    }
}

impl From<NamingError> for MethodFault {
    ghost use Rattle.std.specs.Prelude.{◌≡◌};
    ghost use Rattle.cp_interfaces.specs.Replies.{of_naming};

    ghost from_gives = { λ fault f. f ≡ of_naming fault };

    fn from(fault: NamingError) -> MethodFault {
        match fault {
            NamingError::TooLong => MethodFault::TooLong,
            NamingError::OtherSession => MethodFault::OtherSession,
            NamingError::OutOfMemory => MethodFault::OutOfMemory,
        }
    }
}

impl From<ReferenceError> for MethodFault {
    ghost use Rattle.std.specs.Prelude.{◌≡◌};
    ghost use Rattle.cp_interfaces.specs.Replies.{of_reference};

    ghost from_gives = { λ fault f. f ≡ of_reference fault };

    fn from(fault: ReferenceError) -> MethodFault {
        match fault {
            ReferenceError::OtherSession => MethodFault::OtherSession,
            ReferenceError::OutOfMemory => MethodFault::OutOfMemory,
        }
    }
}

impl From<TryFromIntError> for MethodFault {
    ghost use Rattle.std.specs.Prelude.{◌≡◌};
    ghost use Rattle.cp_interfaces.specs.declared.fault.MethodFault.TheVariants.{OutOfRange};

    ghost from_gives = { λ _ f. f ≡ OutOfRange };

    fn from(_: TryFromIntError) -> MethodFault {
        MethodFault::OutOfRange
    }
}

impl From<BorrowError> for MethodFault {
    ghost use Rattle.std.specs.Prelude.{◌≡◌};
    ghost use Rattle.cp_interfaces.specs.declared.fault.MethodFault.TheVariants.{InUse};

    ghost from_gives = { λ _ f. f ≡ InUse };

    fn from(_: BorrowError) -> MethodFault {
        MethodFault::InUse
    }
}

impl From<BorrowMutError> for MethodFault {
    ghost use Rattle.std.specs.Prelude.{◌≡◌};
    ghost use Rattle.cp_interfaces.specs.declared.fault.MethodFault.TheVariants.{InUse};

    ghost from_gives = { λ _ f. f ≡ InUse };

    fn from(_: BorrowMutError) -> MethodFault {
        MethodFault::InUse
    }
}

impl From<AllocError> for MethodFault {
    ghost use Rattle.std.specs.Prelude.{◌≡◌};
    ghost use Rattle.cp_interfaces.specs.declared.fault.MethodFault.TheVariants.{OutOfMemory};

    ghost from_gives = { λ _ f. f ≡ OutOfMemory };

    fn from(_: AllocError) -> MethodFault {
        MethodFault::OutOfMemory
    }
}

impl<T: Drop> From<AllocFailed<T>> for MethodFault {
    ghost use Rattle.std.specs.Prelude.{◌≡◌};
    ghost use Rattle.cp_interfaces.specs.declared.fault.MethodFault.TheVariants.{OutOfMemory};

    ghost from_gives = { λ _ f. f ≡ OutOfMemory };

    fn from(_: AllocFailed<T>) -> MethodFault {
        MethodFault::OutOfMemory
    }
}

// A fault of what an object does when it isn't called ends the serving: there is no call that it could fail.
impl From<MethodFault> for AllocError {
    fn from(fault: MethodFault) -> AllocError {
        drop(fault);
        AllocError
    }
}

/// Why a capability isn't given that a field names.
#[derive(Clone, Copy, PartialEq, Eq, Debug)]
pub enum CapFault {
    /// The field's pointer is no capability.
    WrongKind(WrongKind),
    OutOfMemory,
}

impl fmt::Display for CapFault {
    fn fmt<W: fmt::Write>(&self, f: &mut fmt::Formatter<W>) -> fmt::Result {
        match self {
            CapFault::WrongKind(fault) => fault.fmt(f),
            CapFault::OutOfMemory => f.write_str("memory ran out"),
        }
    }
}

impl Error for CapFault {}

impl From<WrongKind> for CapFault {
    ghost use Rattle.std.specs.Prelude.{◌≡◌};
    ghost use Rattle.cp_interfaces.specs.declared.fault.CapFault.TheVariants.{WrongKind};

    ghost from_gives = { λ fault f. f ≡ WrongKind fault };

    fn from(fault: WrongKind) -> CapFault {
        CapFault::WrongKind(fault)
    }
}

impl From<AllocError> for CapFault {
    ghost use Rattle.std.specs.Prelude.{◌≡◌};
    ghost use Rattle.cp_interfaces.specs.declared.fault.CapFault.TheVariants.{OutOfMemory};

    ghost from_gives = { λ _ f. f ≡ OutOfMemory };

    fn from(_: AllocError) -> CapFault {
        CapFault::OutOfMemory
    }
}

impl From<CapFault> for MethodFault {
    ghost use Rattle.std.specs.Prelude.{◌≡◌};
    ghost use Rattle.cp_interfaces.specs.Replies.{of_cap};

    ghost from_gives = { λ fault f. f ≡ of_cap fault };

    fn from(fault: CapFault) -> MethodFault {
        match fault {
            CapFault::WrongKind(fault) => MethodFault::WrongKind(fault),
            CapFault::OutOfMemory => MethodFault::OutOfMemory,
        }
    }
}

/// Why an outcome is no results.
pub enum NoResults {
    /// The call failed with this exception.
    Failed(Exception),
    /// It was finished before it came to anything.
    Canceled,
}

// Not derived: a crate that lets one go calls this function, and need not prove the drop of all that it holds.
impl Drop for NoResults {
    fn drop(self) {
        match self {
            NoResults::Failed(_) => {}
            NoResults::Canceled => {}
        }
    }
}

impl fmt::Display for NoResults {
    fn fmt<W: fmt::Write>(&self, f: &mut fmt::Formatter<W>) -> fmt::Result {
        match self {
            NoResults::Failed(exception) => exception.fmt(f),
            NoResults::Canceled => f.write_str("canceled"),
        }
    }
}

// Exceptions have no `Debug`.
impl fmt::Debug for NoResults {
    fn fmt<W: fmt::Write>(&self, f: &mut fmt::Formatter<W>) -> fmt::Result {
        fmt::Display::fmt(self, f)
    }
}

impl Error for NoResults {}
