//! Why a relay lets nothing more through.

ghost use Rattle.std.specs.Prelude.{◌≡◌};
ghost use Rattle.cp_frame.specs.declared.fault.FrameFault.TheVariants as frames;
ghost use Rattle.cp_stream.specs.declared.fault.Refusal.TheVariants.{Frame};
ghost use Rattle.cp_relay.specs.declared.fault.RelayCause.TheVariants.{Refused};

use cp_frame::FrameFault;
use cp_stream::Refusal;
use std::alloc::AllocError;
use std::error::Error;
use std::fmt;

/// Why a message isn't let through.
#[derive(Clone, Copy, PartialEq, Eq, Debug)]
pub enum RelayCause {
    /// Its bytes are refused, or it can't be written anew.
    Refused(Refusal),
    /// The visitor said no.
    Forbidden,
}

/// Why a relay lets nothing more through, and how many bytes the frames took that it let through: at most
/// `u64::MAX`, where the number stays.
#[derive(Clone, Copy, PartialEq, Eq, Debug)]
pub struct RelayFault {
    pub at: u64,
    pub why: RelayCause,
}

impl fmt::Display for RelayCause {
    fn fmt<W: fmt::Write>(&self, f: &mut fmt::Formatter<W>) -> fmt::Result {
        match self {
            RelayCause::Refused(refusal) => refusal.fmt(f),
            RelayCause::Forbidden => f.write_str("forbidden"),
        }
    }
}

impl Error for RelayCause {}

impl fmt::Display for RelayFault {
    fn fmt<W: fmt::Write>(&self, f: &mut fmt::Formatter<W>) -> fmt::Result {
        write!(f, "refused at byte {}: ", self.at)?;
        self.why.fmt(f)
    }
}

impl Error for RelayFault {}

impl From<Refusal> for RelayCause {
    ghost from_gives = { λ refusal why. why ≡ Refused refusal };

    fn from(refusal: Refusal) -> RelayCause {
        RelayCause::Refused(refusal)
    }
}

impl From<FrameFault> for RelayCause {
    ghost from_gives = { λ fault why. why ≡ Refused (Frame fault) };

    fn from(fault: FrameFault) -> RelayCause {
        RelayCause::Refused(Refusal::Frame(fault))
    }
}

impl From<AllocError> for RelayCause {
    ghost from_gives = { λ _ why. why ≡ Refused (Frame frames.OutOfMemory) };

    fn from(_: AllocError) -> RelayCause {
        RelayCause::Refused(Refusal::Frame(FrameFault::OutOfMemory))
    }
}
