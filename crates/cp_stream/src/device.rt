//! Why a call of a device failed.

ghost use Rattle.std.specs.Prelude.{◌≡◌};
ghost use Rattle.cp_stream.specs.Device.{of_error, of_kind};

use std::error::Error;
use std::fmt;
use std::io::{self, ErrorKind};

/// What is kept of the error of a reader or of a writer: its kind, and the system's number where it has one. An `io::Error`
/// has no equality, so a fault that held one couldn't be compared.
#[derive(Clone, Copy, PartialEq, Eq, Debug)]
pub struct DeviceError {
    pub kind: ErrorKind,
    pub code: Option<i32>,
}

impl fmt::Display for DeviceError {
    fn fmt<W: fmt::Write>(&self, f: &mut fmt::Formatter<W>) -> fmt::Result {
        io::Error::from(*self).fmt(f)
    }
}

impl Error for DeviceError {}

impl From<io::Error> for DeviceError {
    ghost from_gives = { λ error r. r ≡ of_error error };

    fn from(error: io::Error) -> DeviceError {
        DeviceError {
            kind: error.kind(),
            code: error.raw_os_error(),
        }
    }
}

impl From<ErrorKind> for DeviceError {
    ghost from_gives = { λ kind r. r ≡ of_kind kind };

    fn from(kind: ErrorKind) -> DeviceError {
        DeviceError { kind, code: None }
    }
}

/// The error again, but for a text of its own.
impl From<DeviceError> for io::Error {
    fn from(error: DeviceError) -> io::Error {
        match error.code {
            Some(code) => io::Error::from_raw_os_error(code),
            None => io::Error::from(error.kind),
        }
    }
}
