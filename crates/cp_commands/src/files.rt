//! A command on the file at a path.

use crate::by_schema::{encode_by, show_by};
use crate::plan::{Plan, act_to_end};
use crate::progress::ProgressReader;
use crate::recordings::show_session;
use crate::status::{BROKEN, CLOSED};
use crate::task::{FileTask, InputFile};
use crate::texts::{Encoding, encode};
use cp_schema::{RequestFault, Schema};
use std::fs::{self, File};
use std::io::{self, BufWriter, ErrorKind, IsTerminal, Read, Stderr, Write};

/// The FILE that stands for standard input.
pub const STDIN: &str = "-";

/// The bytes that are kept before they are written.
pub const BUFFER: usize = 65_536;

/// What is made of the bytes of a file.
#[derive(Clone, Copy)]
pub(crate) enum Work<'p> {
    Frames(&'p Plan<'p>),
    Texts(&'p Encoding<'p>),
}

/// Does a command on a file. The status is that of `act`, or 2 where a file can't be read, which a line says.
pub fn act_on_file(rt: &HostRuntime, task: &FileTask) -> u8 {
    let (done, path) = match task {
        FileTask::Frames { plan, input } => (on_file(rt, Work::Frames(plan), *input), input.path),
        FileTask::Show(plan) => (show_by(rt, plan), plan.input.path),
        FileTask::Session(plan) => (show_session(rt, plan), plan.path),
        FileTask::Encode(plan) => (encode_by(rt, plan), plan.input.path),
    };
    done.unwrap_or_else(|error| failed(rt, path, error))
}

/// The status after a device failed, which a line says, unless it is the reader of what is printed that went away.
pub fn failed(rt: &HostRuntime, device: &str, error: io::Error) -> u8 {
    if error.kind() == ErrorKind::BrokenPipe {
        return CLOSED;
    }
    let _ = eprintln!(rt; "device: {device}: {error}");
    BROKEN
}

/// Gives a hint, a line of its own. Standard error has it only as a terminal: a program that reads it gets the promised lines alone.
pub fn tell_hint(err: &mut Stderr, hint: &str) {
    if err.is_terminal() {
        let _ = writeln!(err, "hint: {hint}");
    }
}

/// The schema of the file at a path, or the status after it couldn't be had, which a line says.
pub fn schema_at(rt: &HostRuntime, path: &str) -> Result<Schema, u8> {
    let bytes = match fs::read(rt, path) {
        Ok(bytes) => bytes,
        Err(error) => return Err(failed(rt, path, error)),
    };
    let schema = Schema::read(rt.alloc(), &bytes);
    drop(bytes);
    match schema {
        Ok(schema) => Ok(schema),
        Err(fault) => Err(no_request(rt, path, fault)),
    }
}

/// The status after a file has no request, for this reason, which a line says, and how one is made.
fn no_request(rt: &HostRuntime, path: &str, fault: RequestFault) -> u8 {
    if let RequestFault::OutOfMemory = fault {
        let _ = eprintln!(rt; "{path}: {fault}");
        return BROKEN;
    }
    let name = path.strip_suffix(".capnp").unwrap_or("X");
    let _ = eprintln!(rt;
        "{path}: {fault}: not a request; make one by: capnp compile -o- {name}.capnp > {name}.request"
    );
    BROKEN
}

/// Does this work on a file.
pub(crate) fn on_file(rt: &HostRuntime, work: Work<'_>, input: InputFile<'_>) -> io::Result<u8> {
    if input.path == STDIN {
        let mut from = rt.stdin();
        return on_reader(rt, work, &mut from);
    }
    let file = File::open(rt, input.path)?;
    let length = match file.metadata() {
        Ok(metadata) => metadata.len(),
        // A file that doesn't say its length counts as a short one.
        Err(_) => 0,
    };
    let shows = input.shows_progress && has_terminal(rt, &work);
    let mut from = ProgressReader::new(file, rt.stderr(), length, shows);
    let status = on_reader(rt, work, &mut from);
    from.clear();
    drop(from);
    status
}

/// Whether somebody sees how far this work has come: at a terminal, on which nothing else is printed meanwhile.
fn has_terminal(rt: &HostRuntime, work: &Work<'_>) -> bool {
    if !rt.stderr().is_terminal() {
        return false;
    }
    match work {
        Work::Frames(Plan::Check { .. } | Plan::CheckCanonical { .. }) => true,
        _ => !rt.stdout().is_terminal(),
    }
}

/// Does this work on what a device gives.
fn on_reader<R: Read>(rt: &HostRuntime, work: Work<'_>, from: &mut R) -> io::Result<u8> {
    let mut out = BufWriter::with_capacity(rt.alloc(), BUFFER, io::writer(rt))?;
    let mut err = rt.stderr();
    let status = match work {
        Work::Frames(plan) => {
            let ended = act_to_end(rt.alloc(), plan, from, &mut out, &mut err);
            if let Some(hint) = ended.hint {
                tell_hint(&mut err, hint);
            }
            ended.status
        }
        Work::Texts(by) => encode(rt.alloc(), by, from, &mut out, &mut err),
    };
    drop(out);
    Ok(status)
}
