//! A recording, shown.

use crate::files::{BUFFER, failed, schema_at};
use crate::status::{ACCEPTED, BROKEN, CLOSED, REFUSED};
use crate::task::SessionPlan;
use cp_recordings::{Picture, Recording, SessionFault, Teller};
use cp_schema::Schema;
use std::alloc::Global;
use std::fs::File;
use std::io::{self, BufWriter, ErrorKind, Read, Write};

/// Shows the recording of a connection, by the names of a schema if there is one.
pub(crate) fn show_session(rt: &HostRuntime, plan: &SessionPlan<'_>) -> io::Result<u8> {
    let Some(request) = plan.request else {
        return show_by(rt, plan, None);
    };
    match schema_at(rt, request) {
        Ok(schema) => {
            let status = show_by(rt, plan, Some(&schema));
            drop(schema);
            status
        }
        Err(status) => Ok(status),
    }
}

/// The files of a recording.
#[derive(Drop)]
pub struct RecordedFiles {
    pub times: String,
    pub client: File,
    pub server: File,
}

impl RecordedFiles {
    /// Those of the recording at a path, or the status after they couldn't be had, which a line says.
    pub fn open(rt: &HostRuntime, path: &str) -> Result<RecordedFiles, u8> {
        let client = open(rt, path, "client.bin")?;
        let server = open(rt, path, "server.bin")?;
        let mut file = open(rt, path, "times")?;
        let times = io::read_to_string(rt.alloc(), &mut file);
        drop(file);
        match times {
            Ok(times) => Ok(RecordedFiles {
                times,
                client,
                server,
            }),
            Err(error) => Err(failed(rt, path, error)),
        }
    }
}

/// Shows a recording by the names of a schema, if there is one.
fn show_by(rt: &HostRuntime, plan: &SessionPlan<'_>, schema: Option<&Schema>) -> io::Result<u8> {
    let RecordedFiles {
        times,
        client,
        server,
    } = match RecordedFiles::open(rt, plan.path) {
        Ok(files) => files,
        Err(status) => return Ok(status),
    };
    let status = tell(rt, plan, schema, times.as_str(), (client, server));
    drop(times);
    status
}

/// Tells the recording that has these times and streams.
fn tell(
    rt: &HostRuntime,
    plan: &SessionPlan<'_>,
    schema: Option<&Schema>,
    times: &str,
    (client, server): (File, File),
) -> io::Result<u8> {
    let mut out = BufWriter::with_capacity(rt.alloc(), BUFFER, io::writer(rt))?;
    let told = match Recording::new(rt.alloc(), plan.limits, times, client, server) {
        Ok(mut recording) => {
            let told = match plan.picture {
                Some(slow) => draw(rt.alloc(), &mut recording, schema, slow, &mut out),
                None => print(rt.alloc(), &mut recording, schema, plan.has_times, &mut out),
            };
            drop(recording);
            told
        }
        Err(fault) => Err(fault),
    };
    // What was printed before a fault goes out, too.
    let flushed = out.flush();
    drop(out);
    Ok(match (told, flushed) {
        (Ok(()), Ok(())) => ACCEPTED,
        (Ok(()), Err(error)) => stopped(rt, plan.path, SessionFault::Unwritten(error)),
        (Err(fault), _) => stopped(rt, plan.path, fault),
    })
}

/// Prints a recording as lines.
fn print<R: Read + Drop, W: Write>(
    alloc: Global,
    recording: &mut Recording<'_, R>,
    schema: Option<&Schema>,
    has_times: bool,
    out: &mut W,
) -> Result<(), SessionFault> {
    let mut teller = Teller::new(alloc, out, schema, has_times);
    let told = match recording.play(&mut teller) {
        Ok(ending) => teller.end(ending),
        Err(fault) => Err(fault),
    };
    drop(teller);
    told
}

/// Prints a recording as a picture.
fn draw<R: Read + Drop, W: Write>(
    alloc: Global,
    recording: &mut Recording<'_, R>,
    schema: Option<&Schema>,
    slow: u32,
    out: &mut W,
) -> Result<(), SessionFault> {
    let mut picture = Picture::new(alloc, schema, slow);
    let drawn = match recording.play(&mut picture) {
        Ok(ending) => picture.write(ending, out),
        Err(fault) => Err(fault),
    };
    drop(picture);
    drawn
}

/// A file of a recording, or the status after it couldn't be opened, which a line says.
fn open(rt: &HostRuntime, folder: &str, name: &str) -> Result<File, u8> {
    let path = match format!(in rt.alloc(); "{folder}/{name}") {
        Ok(path) => path,
        Err(error) => return Err(failed(rt, folder, io::Error::from(error))),
    };
    let file = match File::open(rt, path.as_str()) {
        Ok(file) => Ok(file),
        Err(error) => Err(failed(rt, path.as_str(), error)),
    };
    drop(path);
    file
}

/// The status after a recording wasn't told to its end, which a line says.
fn stopped(rt: &HostRuntime, path: &str, fault: SessionFault) -> u8 {
    match fault {
        SessionFault::Unwritten(error) if error.kind() == ErrorKind::BrokenPipe => CLOSED,
        SessionFault::Unwritten(_) | SessionFault::Unread(..) => {
            let _ = eprintln!(rt; "{fault}");
            BROKEN
        }
        SessionFault::Refused(..)
        | SessionFault::Short(_)
        | SessionFault::OutOfMemory
        | SessionFault::Stopped => {
            let _ = eprintln!(rt; "{fault}");
            REFUSED
        }
        SessionFault::Line(_) => {
            let _ = eprintln!(rt; "{path}/{fault}");
            BROKEN
        }
    }
}
