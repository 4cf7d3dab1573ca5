//! Why a part of an event wasn't done to its end.

use cp_tables::TableFault;
use cp_vat_machine::{PeerFault, VatFault};
use std::alloc::{AllocError, AllocFailed};
use std::error::Error;
use std::fmt;

/// Why a part of an event wasn't done to its end.
#[derive(Clone, Copy, Debug)]
pub enum StepFault {
    /// A rule of the machine answers this fault.
    Fault(PeerFault),
    /// An allocation failed. What was changed stays so, and the vat is to be closed.
    OutOfMemory,
}

impl fmt::Display for StepFault {
    fn fmt<W: fmt::Write>(&self, f: &mut fmt::Formatter<W>) -> fmt::Result {
        match self {
            StepFault::Fault(fault) => fault.fmt(f),
            StepFault::OutOfMemory => VatFault::OutOfMemory.fmt(f),
        }
    }
}

impl Error for StepFault {}

impl From<AllocError> for StepFault {
    ghost use Rattle.std.specs.Prelude.{◌≡◌};
    ghost use Rattle.cp_vat_state.specs.declared.step_fault.StepFault.TheVariants.{OutOfMemory};

    ghost from_gives = { λ _ step_fault. step_fault ≡ OutOfMemory };

    fn from(_: AllocError) -> StepFault {
        StepFault::OutOfMemory
    }
}

impl<T: Drop> From<AllocFailed<T>> for StepFault {
    ghost use Rattle.std.specs.Prelude.{◌≡◌};
    ghost use Rattle.cp_vat_state.specs.declared.step_fault.StepFault.TheVariants.{OutOfMemory};

    ghost from_gives = { λ _ step_fault. step_fault ≡ OutOfMemory };

    fn from(_: AllocFailed<T>) -> StepFault {
        StepFault::OutOfMemory
    }
}

impl From<TableFault> for StepFault {
    ghost use Rattle.std.specs.Prelude.{◌≡◌};
    ghost use Rattle.cp_vat_state.specs.Halts.{step_fault_of};

    ghost from_gives = { λ fault step_fault. step_fault ≡ step_fault_of fault };

    fn from(fault: TableFault) -> StepFault {
        match fault {
            TableFault::Taken => StepFault::Fault(PeerFault::QuestionInUse),
            TableFault::Unknown => StepFault::Fault(PeerFault::UnknownExport),
            TableFault::TooMany => StepFault::Fault(PeerFault::ReleaseTooLarge),
            TableFault::Full => StepFault::Fault(PeerFault::TableFull),
            TableFault::OutOfMemory => StepFault::OutOfMemory,
        }
    }
}

/// A full table refuses a call of the application.
impl From<StepFault> for VatFault {
    ghost use Rattle.std.specs.Prelude.{◌≡◌};
    ghost use Rattle.cp_vat_state.specs.Halts.{refusal_of};

    ghost from_gives = { λ step_fault fault. fault ≡ refusal_of step_fault };

    fn from(step_fault: StepFault) -> VatFault {
        match step_fault {
            StepFault::Fault(_) => VatFault::Full,
            StepFault::OutOfMemory => VatFault::OutOfMemory,
        }
    }
}
