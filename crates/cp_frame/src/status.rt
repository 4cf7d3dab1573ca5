//! Whether a stream is read on.

ghost use Rattle.std.specs.Prelude.{◌≡◌, OnOk, IfErr};
ghost use Rattle.cp_frame.specs.Kept.{IsReportedBy};
ghost use Rattle.cp_frame.specs.declared.status.Status.TheVariants as statuses;

use crate::fault::FrameFault;

/// Whether a stream is read on.
#[derive(Clone, Copy)]
pub enum Status {
    Reading,
    /// A fault was met after frames, and is reported next.
    Refusing(FrameFault),
    /// A fault was reported.
    Failed,
}

impl Status {
    /// Goes on reading, unless a fault was reported, or is kept and reported now.
    pub fn go_on(&mut self) -> Result<(), FrameFault>
        ensures ok { OnOk result ((self.old ≡ statuses.Reading) × (self.new ≡ statuses.Reading)) }
        ensures reported { IfErr result (IsReportedBy self.old) }
        ensures failed { IfErr result (λ fault. self.new ≡ statuses.Failed) }
    {
        match *self {
            Status::Reading => Ok(()),
            Status::Refusing(fault) => {
                *self = Status::Failed;
                Err(fault)
            }
            Status::Failed => Err(FrameFault::Failed),
        }
    }
}
