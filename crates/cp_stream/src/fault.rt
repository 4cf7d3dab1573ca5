//! Why a stream isn't read on, or a message isn't written.

ghost use Rattle.std.specs.Prelude.{◌≡◌};
ghost use Rattle.cp_frame.specs.declared.fault.FrameFault.TheVariants as frames;
ghost use Rattle.cp_stream.specs.declared.fault.Refusal.TheVariants.{Frame, Tree, Schema, Write};
ghost use Rattle.cp_stream.specs.declared.fault.StreamFault.TheVariants.{Refused, Device};
ghost use Rattle.cp_stream.specs.Device.{of_error};

use crate::device::DeviceError;
use cp_frame::FrameFault;
use cp_reading::TreeFault;
use cp_rpc::{ExceptionKind, SchemaFault};
use cp_tree::WriteFault;
use std::alloc::{AllocError, AllocFailed};
use std::error::Error;
use std::{fmt, io};

/// What is wrong with bytes that were read, or with a message that was to be written.
#[derive(Clone, Copy, PartialEq, Eq, Debug)]
pub enum Refusal {
    /// F1 to F6.
    Frame(FrameFault),
    /// G1 to G10.
    Tree(TreeFault),
    /// S1 to S3.
    Schema(SchemaFault),
    /// B1 to B4.
    Write(WriteFault),
}

/// Why a call on a stream gave nothing.
#[derive(Clone, Copy, PartialEq, Eq, Debug)]
pub enum StreamFault {
    /// The refusal, and how many bytes the accepted frames before it took: at most `u64::MAX`, where
    /// the number stays.
    Refused { at: u64, refusal: Refusal },
    /// A call of the reader or of the writer failed, with this error. A write that took no byte has the kind `WriteZero`.
    Device(DeviceError),
}

/// A refusal after this many bytes of accepted frames.
pub(crate) fn refused(at: u64, refusal: Refusal) -> StreamFault
    ensures { result ≡ Refused at refusal }
{
    StreamFault::Refused { at, refusal }
}

impl Refusal {
    ghost use Rattle.std.specs.Prelude.{Decides};
    ghost use Rattle.cp_stream.specs.Kinds.{kind_of_refusal};
    ghost use Rattle.cp_stream.specs.Reader.{IsMemory};

    /// What its caller may do: try again later where memory ran out. (rpc.capnp: "Exception".)
    pub fn kind(self) -> ExceptionKind
        ensures { result ≡ kind_of_refusal self }
    {
        match self {
            Refusal::Frame(FrameFault::OutOfMemory)
            | Refusal::Tree(TreeFault::OutOfMemory)
            | Refusal::Schema(SchemaFault::OutOfMemory)
            | Refusal::Write(WriteFault::OutOfMemory) => ExceptionKind::Overloaded,
            _ => ExceptionKind::Failed,
        }
    }

    /// Whether memory ran out while a stream was read.
    pub(crate) fn is_memory(self) -> bool
        ensures { Decides result (IsMemory self) }
    {
        matches!(
            self,
            Refusal::Frame(FrameFault::OutOfMemory) | Refusal::Schema(SchemaFault::OutOfMemory)
        )
    }
}

impl StreamFault {
    ghost use Rattle.cp_stream.specs.Kinds.{kind_of};

    /// What its caller may do: open the device anew where it failed, else as the refusal says. (rpc.capnp: "Exception".)
    pub fn kind(self) -> ExceptionKind
        ensures { result ≡ kind_of self }
    {
        match self {
            StreamFault::Refused { refusal, .. } => refusal.kind(),
            StreamFault::Device(_) => ExceptionKind::Disconnected,
        }
    }
}

impl fmt::Display for Refusal {
    fn fmt<W: fmt::Write>(&self, f: &mut fmt::Formatter<W>) -> fmt::Result {
        match self {
            Refusal::Frame(fault) => fault.fmt(f),
            Refusal::Tree(fault) => fault.fmt(f),
            Refusal::Schema(fault) => fault.fmt(f),
            Refusal::Write(fault) => fault.fmt(f),
        }
    }
}

impl Error for Refusal {}

impl fmt::Display for StreamFault {
    fn fmt<W: fmt::Write>(&self, f: &mut fmt::Formatter<W>) -> fmt::Result {
        match self {
            StreamFault::Refused { at, refusal } => {
                write!(f, "refused at byte {at}: ")?;
                refusal.fmt(f)
            }
            StreamFault::Device(error) => write!(f, "device failed: {error}"),
        }
    }
}

impl Error for StreamFault {}

impl From<io::Error> for StreamFault {
    ghost from_gives = { λ error r. r ≡ Device (of_error error) };

    fn from(error: io::Error) -> StreamFault {
        StreamFault::Device(DeviceError::from(error))
    }
}

impl From<FrameFault> for Refusal {
    ghost from_gives = { λ fault r. r ≡ Frame fault };

    fn from(fault: FrameFault) -> Refusal {
        Refusal::Frame(fault)
    }
}

impl From<TreeFault> for Refusal {
    ghost from_gives = { λ fault r. r ≡ Tree fault };

    fn from(fault: TreeFault) -> Refusal {
        Refusal::Tree(fault)
    }
}

impl From<SchemaFault> for Refusal {
    ghost from_gives = { λ fault r. r ≡ Schema fault };

    fn from(fault: SchemaFault) -> Refusal {
        Refusal::Schema(fault)
    }
}

impl From<WriteFault> for Refusal {
    ghost from_gives = { λ fault r. r ≡ Write fault };

    fn from(fault: WriteFault) -> Refusal {
        Refusal::Write(fault)
    }
}

impl From<AllocError> for Refusal {
    ghost from_gives = { λ _ r. r ≡ Frame frames.OutOfMemory };

    fn from(_: AllocError) -> Refusal {
        Refusal::Frame(FrameFault::OutOfMemory)
    }
}

impl<T: Drop> From<AllocFailed<T>> for Refusal {
    ghost from_gives = { λ _ r. r ≡ Frame frames.OutOfMemory };

    fn from(_: AllocFailed<T>) -> Refusal {
        Refusal::Frame(FrameFault::OutOfMemory)
    }
}
