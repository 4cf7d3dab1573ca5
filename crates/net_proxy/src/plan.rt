//! What is relayed, and from where to where.

use crate::gate::{Gate, GuardPlan, PairGuard};
use crate::proxy::Proxy;
use crate::tape::Tape;
use crate::target::Target;
use crate::watch::Watch;
use cp_commands::{BROKEN, RecordPlan, RelayForm, RelayRoute};
use cp_frame::Mode;
use cp_relay::{Filter, Output, Relay};
use net_sockets::{Incoming, Listener};
use std::alloc::{AllocGlobal, Global};
use std::fs::{File, Files};
use std::io::{self, Write};
use std::net::Net;
use std::time::Clock;

/// How the messages of a connection are relayed.
#[derive(Clone, Copy)]
pub struct RelayPlan<'r> {
    pub form: RelayForm,
    /// How those that connect are guarded, if they are.
    pub guard: Option<GuardPlan<'r>>,
    /// How they are recorded, if they are.
    pub record: Option<RecordPlan<'r>>,
    /// The path of the file into which each second is written what was relayed, as text for Prometheus, if it is.
    pub figures: Option<&'r str>,
}

impl<'r> RelayPlan<'r> {
    /// What lets messages to the target through.
    pub(crate) fn there(&self, alloc: Global) -> Gate {
        self.gate(alloc, self.form.near, self.output(self.form.far), false)
    }

    /// What lets the messages that come back through.
    pub(crate) fn back(&self, alloc: Global) -> Gate {
        self.gate(alloc, self.form.far, self.output(self.form.near), true)
    }

    /// The guard of a connection, if it has one.
    pub(crate) fn guard(&self, alloc: Global) -> Option<PairGuard<'r>> {
        match self.guard {
            Some(plan) => Some(PairGuard::new(alloc, plan)),
            None => None,
        }
    }

    /// What lets messages of this form through.
    fn gate(&self, alloc: Global, from: Mode, output: Output, comes_back: bool) -> Gate {
        if self.guard.is_some() {
            Gate::Filter(Filter::new(alloc, from, output, self.form.limits, comes_back))
        } else {
            Gate::Relay(Relay::new(alloc, from, output, self.form.limits))
        }
    }

    /// What goes out, in this form.
    fn output(&self, mode: Mode) -> Output {
        // A frame changes its form only as its message is written anew.
        if self.form.anew || self.form.near != self.form.far {
            Output::Anew(mode)
        } else {
            Output::AsRead
        }
    }
}

/// Takes the connections of a route, makes one to the target for each, and relays both directions of each until both
/// have ended. Several go on at once.
///
/// Each message that goes is a line of `out`, or each call of a guarded connection, if the plan says so. What stops a
/// direction is a line of `err`. Where
/// one is refused, what was accepted of it goes out, and both its connections are closed. The status is that of the
/// first connection that ended with one: 0 where all was accepted, 1 where something was refused, and 2
/// where a connection failed, or `out`.
pub fn relay_port<N, W: Write + Drop, E: Write>(
    rt: &N,
    route: &RelayRoute,
    plan: &RelayPlan,
    out: &mut W,
    err: &mut E,
) -> u8
where
    N: Net + Clock + Files<File = File> + AllocGlobal,
{
    match relay(rt, route, plan, out, err) {
        Ok(status) => status,
        Err(error) => {
            let _ = writeln!(err, "device: {error}");
            BROKEN
        }
    }
}

/// Relays the connections. An error is one of the listener, of the wait, or of `out`.
fn relay<N, W: Write + Drop, E: Write>(
    rt: &N,
    route: &RelayRoute,
    plan: &RelayPlan,
    out: &mut W,
    err: &mut E,
) -> io::Result<u8>
where
    N: Net + Clock + Files<File = File> + AllocGlobal,
{
    let target = Target::of(rt, route.target)?;
    let listener = Listener::bind(rt, route.address)?;
    let incoming = Incoming::new(listener, Some(route.count as u64));
    let tape = Tape::new(rt, plan.record, &plan.form)?;
    let mut watch = Watch::new(rt.alloc(), out, plan.form.shows, route.count > 1, tape);
    let mut proxy = Proxy::new(rt, plan, incoming, target)?;
    let status = proxy.run(rt, &mut watch, err);
    drop(proxy);
    drop(watch);
    status
}
