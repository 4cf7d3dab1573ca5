//! Serving the Desk and the Cell to one connection, and how that ends.

use cp_commands::{BROKEN, REFUSED};
use cp_frame::Mode;
use cp_servants::{Cell, Desk, Sample};
use cp_serve::{ServeFault, serve_each};
use cp_stream::{StreamFault, Tap};
use cp_vat_machine::Reason;
use std::alloc::{AllocError, Global};
use std::fmt;
use std::io::{Read, Write};

/// How a connection was served to its end.
#[derive(Clone, Copy)]
pub(crate) enum Ending {
    /// The peer's messages ended.
    Ended,
    /// The peer sent an Abort.
    ByPeer,
    /// The peer was at fault, and got an Abort.
    ByFault,
}

/// Why a connection wasn't served to its end, as a line says it.
#[derive(Clone, Copy)]
pub(crate) struct Unserved(pub ServeFault);

/// A Desk and a Cell.
fn samples(alloc: Global) -> Result<Vec<Sample>, AllocError> {
    let mut objects = Vec::with_capacity(alloc, 2)?;
    objects.push(Sample::Desk(Desk::new(alloc)))?;
    objects.push(Sample::Cell(Cell::new(alloc)))?;
    Ok(objects)
}

/// Serves a Desk and a Cell.
/// It blocks, and serves one at a time: `serve_each`'s contract says what is written for what was read, which a host's doesn't.
pub(crate) fn serve_objects<R: Read + Drop, W: Write + Drop>(
    alloc: Global,
    from: R,
    to: W,
    mode: Mode,
) -> Result<Ending, ServeFault> {
    let mut objects = samples(alloc)?;
    let (mut from, mut to) = (Tap::new(from), Tap::new(to));
    let report = serve_each(alloc, &mut from, &mut to, &mut objects, mode)?;
    Ok(ending_of(&report.closed))
}

/// How a connection ended, by why its vat closed.
fn ending_of(closed: &Option<Reason>) -> Ending {
    match closed {
        None => Ending::Ended,
        Some(Reason::Peer(_)) => Ending::ByPeer,
        Some(Reason::Fault(_)) => Ending::ByFault,
    }
}

impl Unserved {
    /// Says why, and gives the status that a command ends with.
    pub(crate) fn tell<E: Write>(&self, err: &mut E) -> u8 {
        let _ = writeln!(err, "{self}");
        self.status()
    }

    /// The status that a command ends with.
    pub(crate) fn status(&self) -> u8 {
        match self.0 {
            ServeFault::Stream(StreamFault::Device(_)) => BROKEN,
            _ => REFUSED,
        }
    }
}

impl fmt::Display for Unserved {
    fn fmt<W: fmt::Write>(&self, f: &mut fmt::Formatter<W>) -> fmt::Result {
        match &self.0 {
            ServeFault::Stream(StreamFault::Device(_)) => f.write_str("device"),
            fault => fault.fmt(f),
        }
    }
}
