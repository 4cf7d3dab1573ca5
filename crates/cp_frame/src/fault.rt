//! Why a stream isn't read on, or a frame isn't written.

ghost use Rattle.std.specs.Prelude.{◌≡◌};
ghost use Rattle.cp_frame.specs.declared.fault.FrameFault.TheVariants.{OutOfMemory};

use std::alloc::{AllocError, AllocFailed};
use std::error::Error;
use std::fmt;

/// What is wrong with a frame, or with the call.
#[derive(Clone, Copy, PartialEq, Eq, Debug)]
pub enum FrameFault {
    /// F1: the frame has more segments than the limits allow.
    TooManySegments,
    /// F2: the segments of the frame have together more words than the limits allow.
    FrameTooLarge,
    /// F3: the stream ends inside a frame.
    Truncated,
    /// F4: a run of the packed form goes past the end of the frame.
    RunPastFrame,
    /// F5: a fault was reported before.
    Failed,
    /// F6: memory ran out.
    OutOfMemory,
}

impl FrameFault {
    /// What the fault means.
    fn meaning(self) -> &'static str {
        match self {
            FrameFault::TooManySegments =>
                "a frame has more segments than the limit, 512 by the standard limits",
            FrameFault::FrameTooLarge =>
                "a frame has more words than the limit, 8,388,608 by the standard limits",
            FrameFault::Truncated => "the stream ends inside a frame",
            FrameFault::RunPastFrame => "a run of the packed form goes past the end of its frame",
            FrameFault::Failed => "a fault was reported before",
            FrameFault::OutOfMemory => "memory ran out",
        }
    }
}

impl fmt::Display for FrameFault {
    /// Its name, and in the alternate form, `{:#}`, what it means too.
    fn fmt<W: fmt::Write>(&self, f: &mut fmt::Formatter<W>) -> fmt::Result {
        f.write_str(match self {
            FrameFault::TooManySegments => "F1 TooManySegments",
            FrameFault::FrameTooLarge => "F2 FrameTooLarge",
            FrameFault::Truncated => "F3 Truncated",
            FrameFault::RunPastFrame => "F4 RunPastFrame",
            FrameFault::Failed => "F5 Failed",
            FrameFault::OutOfMemory => "F6 OutOfMemory",
        })?;
        if f.alternate() {
            f.write_str(": ")?;
            f.write_str(self.meaning())?;
        }
        Ok(())
    }
}

impl Error for FrameFault {}

impl From<AllocError> for FrameFault {
    ghost from_gives = { λ _ e. e ≡ OutOfMemory };

    fn from(_: AllocError) -> FrameFault {
        FrameFault::OutOfMemory
    }
}

impl<T: Drop> From<AllocFailed<T>> for FrameFault {
    ghost from_gives = { λ _ e. e ≡ OutOfMemory };

    fn from(_: AllocFailed<T>) -> FrameFault {
        FrameFault::OutOfMemory
    }
}
