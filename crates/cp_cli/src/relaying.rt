//! Relaying connections, guarded by rules if the words say so.

use crate::guarding::{is_guarded, rules_of};
use cp_commands::{BROKEN, BUFFER, Guarding, RelayTask, failed};
use cp_relay::Rules;
use net_proxy::{GuardPlan, RelayPlan, relay_port};
use std::fs::DirBuilder;
use std::io::{self, BufWriter};
use std::os::unix::fs::DirBuilderExt;

/// Relays connections, guarded by rules if the words say so.
pub(crate) fn relay(rt: &HostRuntime, task: &RelayTask) -> u8 {
    let relayed = if is_guarded(&task.guarding) {
        relay_guarded(rt, task)
    } else {
        relay_by(rt, task, None)
    };
    relayed.unwrap_or_else(|error| failed(rt, task.route.target, error))
}

/// Relays connections by the rules of a guard.
fn relay_guarded(rt: &HostRuntime, task: &RelayTask) -> io::Result<u8> {
    if task.form.shows {
        eprintln!(rt; "error: a guard prints calls by --log, and takes no --show")?;
        return Ok(BROKEN);
    }
    match rules_of(rt, &task.guarding) {
        Ok(rules) => {
            let status = relay_by(rt, task, Some(guard_of(&task.guarding, &rules)));
            drop(rules);
            status
        }
        Err(status) => Ok(status),
    }
}

/// Relays connections, guarded so if they are.
fn relay_by(rt: &HostRuntime, task: &RelayTask, guard: Option<GuardPlan<'_>>) -> io::Result<u8> {
    if let Some(record) = task.record {
        // Its owner alone may read what went through.
        if let Err(error) = DirBuilder::new().mode(0o700).create(rt, record.path) {
            return Ok(failed(rt, record.path, error));
        }
    }
    let plan = RelayPlan {
        form: task.form,
        guard,
        record: task.record,
        figures: task.figures,
    };
    let mut out = BufWriter::with_capacity(rt.alloc(), BUFFER, io::writer(rt))?;
    let mut err = rt.stderr();
    let status = relay_port(rt, &task.route, &plan, &mut out, &mut err);
    drop(out);
    Ok(status)
}

/// How those that connect are guarded, by these rules.
fn guard_of<'r>(guarding: &Guarding, rules: &'r Rules) -> GuardPlan<'r> {
    GuardPlan {
        rules,
        bytes_a_second: guarding.bytes.unwrap_or(u32::MAX),
        logs: guarding.logs,
    }
}
