//! What is said of a command that stopped.

use crate::fault::Stop;
use crate::status::{BROKEN, CLOSED, REFUSED};
use cp_frame::{FrameFault, Mode};
use cp_reading::TreeFault;
use cp_stream::Refusal;
use std::fmt::Display;
use std::io::{self, ErrorKind, Write};

/// How a command on a file ended.
#[derive(Clone, Copy)]
pub struct Ended {
    pub status: u8,
    /// What may be wrong with what was refused. It is for whoever sits at a terminal, and no part of the line that says why.
    pub hint: Option<&'static str>,
}

impl Stop {
    /// What may be wrong with what was refused.
    pub(crate) fn hint(&self) -> Option<&'static str> {
        match self {
            Stop::Refused(refusal) => limit_hint(refusal),
            Stop::OtherForm(_, Mode::Plain) => Some("the frames seem to be packed"),
            Stop::OtherForm(_, Mode::Packed) => Some("the frames don't seem to be packed"),
            Stop::OtherStruct(_) => {
                Some("not a message of rpc.capnp; to show a struct give --schema and --type")
            }
            _ => None,
        }
    }
}

/// The option that lets more through, where a limit was met.
pub fn limit_hint(refusal: &Refusal) -> Option<&'static str> {
    match refusal {
        Refusal::Tree(TreeFault::NestingLimit(_)) => {
            Some("--nesting N lets messages nest deeper than 64 levels, the default")
        }
        Refusal::Tree(TreeFault::TraversalLimit(_)) | Refusal::Frame(FrameFault::FrameTooLarge) => {
            Some("--traversal N lets messages be larger than 8388608 words, the default")
        }
        _ => None,
    }
}

/// Says why a command stopped, after what it accepted took so many bytes, and answers the status.
pub(crate) fn stopped<E: Write>(stop: Stop, bytes: u64, err: &mut E) -> u8 {
    match stop {
        Stop::Refused(fault) | Stop::OtherForm(fault, _) => refused(err, bytes, &fault),
        Stop::OtherStruct(fault) => refused(err, bytes, &fault),
        Stop::Wrong(fault) => refused(err, bytes, &fault),
        Stop::NotCanonical(fault) => refused(err, bytes, &fault),
        Stop::Reading(error) => broken(err, "read", error),
        Stop::Writing(error) if error.kind() == ErrorKind::BrokenPipe => CLOSED,
        Stop::Writing(error) => broken(err, "write", error),
    }
}

/// Says that input was refused.
fn refused<E: Write, F: Display>(err: &mut E, bytes: u64, fault: &F) -> u8 {
    let _ = writeln!(err, "refused at byte {bytes}: {fault}");
    REFUSED
}

/// Says that a device failed.
fn broken<E: Write>(err: &mut E, what: &str, error: io::Error) -> u8 {
    let _ = writeln!(err, "device: can't {what}: {error}");
    BROKEN
}
