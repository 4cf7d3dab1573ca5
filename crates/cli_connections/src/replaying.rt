//! The calls of a recording, made again.

use crate::address::connect;
use crate::asking::Peer;
use crate::fault::{CommandFault, failed};
use crate::log::Log;
use crate::logged::Logged;
use crate::outcomes::OutcomeForm;
use crate::replayer::play_again;
use cp_client::Client;
use cp_commands::{RecordedFiles, ReplayPlan, schema_at};
use cp_recordings::Recording;
use cp_schema::Schema;
use net_client::DuplexStream;
use std::alloc::Global;
use std::cell::RefCell;
use std::fs::File;
use std::io::{self, Read, Write};

/// Makes the calls of a recording again, and prints what came otherwise. The status is 0 where nothing did, 1 where something did or the
/// peer ended the connection, and 2 where the recording can't be read or a device failed.
pub fn replay(rt: &HostRuntime, plan: &ReplayPlan) -> u8 {
    let Some(path) = plan.call.request else {
        return replay_by(rt, plan, None);
    };
    match schema_at(rt, path) {
        Ok(schema) => {
            let status = replay_by(rt, plan, Some(&schema));
            drop(schema);
            status
        }
        Err(status) => status,
    }
}

/// Makes the calls of a recording again, by the names of a schema if there is one.
fn replay_by(rt: &HostRuntime, plan: &ReplayPlan, schema: Option<&Schema>) -> u8 {
    let RecordedFiles {
        times,
        client,
        server,
    } = match RecordedFiles::open(rt, plan.path) {
        Ok(files) => files,
        Err(status) => return status,
    };
    let ended = replay_files(rt, plan, schema, times.as_str(), (client, server));
    drop(times);
    match ended {
        Ok(status) => status,
        Err(fault) => failed(rt, fault),
    }
}

/// The same of a recording with these times and streams. Gives the status where no more is to be said.
fn replay_files<'p>(
    rt: &HostRuntime,
    plan: &ReplayPlan<'p, '_>,
    schema: Option<&Schema>,
    times: &str,
    (client, server): (File, File),
) -> Result<u8, CommandFault<'p>> {
    let (path, call) = (plan.path, &plan.call);
    let mut recording = match Recording::new(rt.alloc(), call.limits, times, client, server) {
        Ok(recording) => recording,
        Err(fault) => return Err(CommandFault::Recording { path, fault }),
    };
    let ended = match connect(rt, call.address, call.timeout) {
        Ok(stream) => {
            let (mut out, mut err) = (io::writer(rt), rt.stderr());
            replay_over(
                rt.alloc(),
                stream,
                schema,
                plan,
                &mut recording,
                &mut out,
                &mut err,
            )
        }
        Err(fault) => Err(fault),
    };
    drop(recording);
    ended
}

/// The same over a stream.
fn replay_over<'p, O: Write, E: Write>(
    alloc: Global,
    stream: DuplexStream<'_, HostRuntime>,
    schema: Option<&Schema>,
    plan: &ReplayPlan<'p, '_>,
    recording: &mut Recording<'_, File>,
    out: &mut O,
    err: &mut E,
) -> Result<u8, CommandFault<'p>> {
    let call = &plan.call;
    let log = RefCell::new(Log::new(alloc, call));
    let peer = Peer {
        form: OutcomeForm::new(alloc, schema, call),
        stream: &stream,
        log: &log,
        plan: call,
    };
    let (from, to) = (Logged::new(&stream, &log), Logged::new(&stream, &log));
    let mut client = Client::new(alloc, from, to, call.mode, call.limits);
    let ended = match play_again(alloc, schema, plan, &mut client, recording, out, err) {
        Ok(status) => Ok(status),
        Err(fault) => Err(peer.fault(&client, fault)),
    };
    drop(client.into_devices());
    drop(stream);
    drop(log);
    ended
}

/// Makes the calls of a recording again over a reader and a writer, without a schema, as `replay` does over a socket.
pub fn replay_streams<R, W, T, O, E>(
    alloc: Global,
    (from, to): (R, W),
    plan: &ReplayPlan,
    recording: &mut Recording<'_, T>,
    out: &mut O,
    err: &mut E,
) -> u8
where
    R: Read + Drop,
    W: Write + Drop,
    T: Read + Drop,
    O: Write,
    E: Write,
{
    let mut client = Client::new(alloc, from, to, plan.call.mode, plan.call.limits);
    let ended = play_again(alloc, None, plan, &mut client, recording, out, err);
    drop(client.into_devices());
    match ended {
        Ok(status) => status,
        Err(fault) => {
            let fault = CommandFault::Refused(fault);
            let status = fault.tell(err);
            drop(fault);
            status
        }
    }
}
