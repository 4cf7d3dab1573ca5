//! Calls over a socket.

use crate::asking::converse;
use crate::fault::{CommandFault, failed};
use crate::words::calls_of;
use cp_commands::{ACCEPTED, CallPlan, REFUSED, schema_at};
use cp_schema::Schema;
use net_client::{Address, ConnectOptions, DuplexStream};
use std::io;
use std::time::Duration;

/// Makes the calls of a plan in one go, by the names of its schema if it has one. What each came to goes to standard output as a
/// line, in the order of the calls, and a line that says why it stopped to standard error. The status is 0 where each call has
/// results, 1 where one has none, and 2 where a word isn't a call, or a device failed.
pub fn call(rt: &HostRuntime, plan: &CallPlan) -> u8 {
    let Some(path) = plan.request else {
        return call_by(rt, plan, None);
    };
    match schema_at(rt, path) {
        Ok(schema) => {
            let status = call_by(rt, plan, Some(&schema));
            drop(schema);
            status
        }
        Err(status) => status,
    }
}

/// Makes the calls of a plan, by the names of a schema if there is one.
fn call_by(rt: &HostRuntime, plan: &CallPlan, schema: Option<&Schema>) -> u8 {
    match call_all(rt, plan, schema) {
        Ok(true) => ACCEPTED,
        Ok(false) => REFUSED,
        Err(fault) => failed(rt, fault),
    }
}

/// Makes the calls of a plan. Says whether each has results.
fn call_all<'p>(
    rt: &HostRuntime,
    plan: &CallPlan<'p, '_>,
    schema: Option<&Schema>,
) -> Result<bool, CommandFault<'p>> {
    let calls = calls_of(rt, schema, plan.notation, plan.calls)?;
    match connect(rt, plan.address, plan.timeout) {
        Ok(stream) => converse(rt.alloc(), stream, plan, schema, calls, &mut io::writer(rt)),
        Err(fault) => {
            drop(calls);
            Err(fault)
        }
    }
}

/// A connection to an address.
pub(crate) fn connect<'r, 'p>(
    rt: &'r HostRuntime,
    address: &'p str,
    timeout: Option<u32>,
) -> Result<DuplexStream<'r, HostRuntime>, CommandFault<'p>> {
    if Address::of(address).is_none() {
        return Err(CommandFault::Address(address));
    }
    match DuplexStream::connect(rt, address, &options(timeout)) {
        Ok(stream) => Ok(stream),
        Err(error) => Err(CommandFault::Device { address, error }),
    }
}

/// Each address, and each wait, gets so many seconds, if they are named.
fn options(timeout: Option<u32>) -> ConnectOptions {
    let time = match timeout {
        Some(seconds) => Some(Duration::from_secs(seconds as u64)),
        None => None,
    };
    ConnectOptions {
        connecting: time,
        silence: time,
        ..ConnectOptions::standard()
    }
}
