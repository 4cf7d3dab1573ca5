//! What stops a command.

use cp_canonical::CanonicalFault;
use cp_frame::{FrameFault, Mode};
use cp_reading::TreeFault;
use cp_rpc::SchemaFault;
use cp_schema::DecodeFault;
use cp_stream::Refusal;
use cp_tree::WriteFault;
use std::alloc::{AllocError, AllocFailed};
use std::io;

/// Why a command stopped.
#[derive(Clone, Copy)]
pub enum Stop {
    /// Input was refused.
    Refused(Refusal),
    /// Input was refused that is read in this form, and seems to have the other one.
    OtherForm(Refusal, Mode),
    /// A message that is shown is none of rpc.capnp.
    OtherStruct(SchemaFault),
    /// A message isn't as its schema says.
    Wrong(DecodeFault),
    /// A message isn't canonical, or holds a capability.
    NotCanonical(CanonicalFault),
    /// The reader failed.
    Reading(io::Error),
    /// The writer failed.
    Writing(io::Error),
}

impl From<io::Error> for Stop {
    fn from(error: io::Error) -> Stop {
        Stop::Writing(error)
    }
}

impl From<AllocError> for Stop {
    fn from(error: AllocError) -> Stop {
        Stop::Refused(Refusal::from(error))
    }
}

impl<T: Drop> From<AllocFailed<T>> for Stop {
    fn from(error: AllocFailed<T>) -> Stop {
        Stop::Refused(Refusal::from(error))
    }
}

impl From<Refusal> for Stop {
    fn from(refusal: Refusal) -> Stop {
        Stop::Refused(refusal)
    }
}

impl From<FrameFault> for Stop {
    fn from(fault: FrameFault) -> Stop {
        Stop::Refused(Refusal::from(fault))
    }
}

impl From<TreeFault> for Stop {
    fn from(fault: TreeFault) -> Stop {
        Stop::Refused(Refusal::from(fault))
    }
}

impl From<WriteFault> for Stop {
    fn from(fault: WriteFault) -> Stop {
        Stop::Refused(Refusal::from(fault))
    }
}

impl From<CanonicalFault> for Stop {
    fn from(fault: CanonicalFault) -> Stop {
        match fault {
            CanonicalFault::Tree(fault) => Stop::from(fault),
            CanonicalFault::Write(fault) => Stop::from(fault),
            fault => Stop::NotCanonical(fault),
        }
    }
}

impl From<DecodeFault> for Stop {
    fn from(fault: DecodeFault) -> Stop {
        match fault {
            DecodeFault::OutOfMemory => Stop::Refused(Refusal::Frame(FrameFault::OutOfMemory)),
            fault => Stop::Wrong(fault),
        }
    }
}
