//! Why the types of a request can't be had.

use cp_fields::{TextFault, WrongKind};
use cp_frame::FrameFault;
use cp_reading::TreeFault;
use std::alloc::{AllocError, AllocFailed};
use std::error::Error;
use std::fmt;

/// Why the types of a request can't be had.
#[derive(Clone, Copy)]
pub enum RequestFault {
    /// There is no whole message.
    Missing,
    /// The message has no right frame.
    Frame(FrameFault),
    /// The message isn't one that can be read.
    Tree(TreeFault),
    /// A pointer is of another kind than schema.capnp says.
    WrongKind(WrongKind),
    /// A name isn't UTF-8.
    NotUtf8,
    /// Lists lie too deep within one another.
    TooDeep,
    OutOfMemory,
}

impl fmt::Display for RequestFault {
    fn fmt<W: fmt::Write>(&self, f: &mut fmt::Formatter<W>) -> fmt::Result {
        match self {
            RequestFault::Missing => f.write_str("there is no whole message"),
            RequestFault::Frame(fault) => fault.fmt(f),
            RequestFault::Tree(fault) => fault.fmt(f),
            RequestFault::WrongKind(fault) => fault.fmt(f),
            RequestFault::NotUtf8 => f.write_str("a name isn't UTF-8"),
            RequestFault::TooDeep => f.write_str("lists lie too deep within one another"),
            RequestFault::OutOfMemory => f.write_str("memory ran out"),
        }
    }
}

impl fmt::Debug for RequestFault {
    fn fmt<W: fmt::Write>(&self, f: &mut fmt::Formatter<W>) -> fmt::Result {
        fmt::Display::fmt(self, f)
    }
}

impl Error for RequestFault {}

impl From<FrameFault> for RequestFault {
    fn from(fault: FrameFault) -> RequestFault {
        RequestFault::Frame(fault)
    }
}

impl From<TreeFault> for RequestFault {
    fn from(fault: TreeFault) -> RequestFault {
        RequestFault::Tree(fault)
    }
}

impl From<WrongKind> for RequestFault {
    fn from(fault: WrongKind) -> RequestFault {
        RequestFault::WrongKind(fault)
    }
}

impl From<TextFault> for RequestFault {
    fn from(fault: TextFault) -> RequestFault {
        match fault {
            TextFault::NotUtf8 => RequestFault::NotUtf8,
            TextFault::OutOfMemory => RequestFault::OutOfMemory,
        }
    }
}

impl From<AllocError> for RequestFault {
    fn from(_: AllocError) -> RequestFault {
        RequestFault::OutOfMemory
    }
}

impl<T: Drop> From<AllocFailed<T>> for RequestFault {
    fn from(_: AllocFailed<T>) -> RequestFault {
        RequestFault::OutOfMemory
    }
}
