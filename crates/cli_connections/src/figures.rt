//! What a service did and holds, as numbers: in a file for Prometheus, and as lines.

use crate::counted::Calls;
use cp_commands::{FiguresFile, Service, count, push_counts, push_figure};
use cp_connection::{ConnectionFault, ConnectionStats};
use cp_dispatch::Limit;
use cp_stream::Refusal;
use cp_vat_machine::Reason;
use net_host::{End, HostEvent, HostFigures};
use std::alloc::{AllocError, AllocGlobal, Global};
use std::fs::Files;
use std::io::{self, Write};

/// How often the numbers are written before there is a line.
const TIMES: u64 = 60;

/// How connections end.
const ENDS: [(&str, u64); 12] = [
    ("ended", 0),
    ("aborted", 0),
    ("protocol", 0),
    ("frame", 0),
    ("message", 0),
    ("memory", 0),
    ("message_time", 0),
    ("idle_time", 0),
    ("closing_time", 0),
    ("kept_bytes", 0),
    ("device", 0),
    ("other", 0),
];

/// What a service tells of itself.
#[derive(Clone, Copy)]
pub(crate) struct ServiceFigures<'a> {
    file: Option<FiguresFile<'a>>,
    logs: bool,
    /// How often it was told.
    times: u64,
    /// How many connections came.
    came: u64,
    /// What those took and sent that ended.
    gone: ConnectionStats,
    ends: [(&'static str, u64); 12],
    /// The connections and calls of the last line.
    last: (u64, u64),
}

impl<'a> ServiceFigures<'a> {
    /// No connection came.
    pub(crate) fn new(service: &Service<'a>) -> ServiceFigures<'a> {
        ServiceFigures {
            file: service.figures.map(|path| FiguresFile::new(path)),
            logs: service.logs,
            times: 0,
            came: 0,
            gone: ConnectionStats {
                messages: 0,
                bytes: 0,
                sent: 0,
            },
            ends: ENDS,
            last: (0, 0),
        }
    }

    /// Whether numbers are told now and then.
    pub(crate) fn is_told(&self) -> bool {
        self.file.is_some() || self.logs
    }

    /// Counts what an event says.
    pub(crate) fn note(&mut self, event: &HostEvent) {
        match event {
            HostEvent::Connected { .. } => self.came = self.came.saturating_add(1),
            HostEvent::Ended { end, stats, .. } => {
                count(&mut self.ends, name_of(end));
                self.gone = sum(self.gone, *stats);
            }
            HostEvent::Refused { .. } | HostEvent::Woken => (),
        }
    }

    /// What all connections took and sent.
    fn all(&self, open: HostFigures) -> ConnectionStats {
        let open = ConnectionStats {
            messages: open.messages,
            bytes: open.bytes,
            sent: open.sent,
        };
        sum(self.gone, open)
    }

    /// Writes the numbers, with those of the connections that are open, and each minute a line where something changed.
    pub(crate) fn tell<N: Files + AllocGlobal, E: Write>(
        &mut self,
        rt: &N,
        open: HostFigures,
        calls: &Calls,
        err: &mut E,
    ) {
        let all = self.all(open);
        let came = self.came;
        if let Some(mut file) = self.file {
            let text = text_of(rt.alloc(), came, all, open, &self.ends, calls);
            file.write(rt, text, err);
            self.file = Some(file);
        }
        self.times = self.times.saturating_add(1);
        if self.times % TIMES == 0 {
            self.tell_line(open, calls, err);
        }
    }

    /// Prints a line, where it is to and something changed since the last one.
    pub(crate) fn tell_line<E: Write>(&mut self, open: HostFigures, calls: &Calls, err: &mut E) {
        let (came, calls) = (self.came, sum_of(calls));
        if !self.logs || (came, calls) == self.last {
            return;
        }
        self.last = (came, calls);
        let (served, kept) = (open.served, open.kept);
        let _ = writeln!(
            err,
            "serves open={served} came={came} calls={calls} kept={kept}"
        );
    }
}

/// The numbers as text.
fn text_of(
    alloc: Global,
    came: u64,
    all: ConnectionStats,
    open: HostFigures,
    ends: &[(&'static str, u64)],
    calls: &Calls,
) -> Result<String, AllocError> {
    let mut text = String::new(alloc);
    push_figure(
        &mut text,
        "gauge",
        "capnp_open_connections",
        open.served as u64,
    )?;
    push_figure(&mut text, "gauge", "capnp_kept_bytes", open.kept)?;
    push_figure(&mut text, "counter", "capnp_connections_total", came)?;
    push_counts(&mut text, "capnp_ended_connections_total", "end", ends)?;
    push_figure(
        &mut text,
        "counter",
        "capnp_received_messages_total",
        all.messages,
    )?;
    push_figure(
        &mut text,
        "counter",
        "capnp_received_bytes_total",
        all.bytes,
    )?;
    push_figure(&mut text, "counter", "capnp_sent_messages_total", all.sent)?;
    push_calls(&mut text, calls)?;
    Ok(text)
}

/// Adds how often each method was called.
fn push_calls(text: &mut String, calls: &Calls) -> Result<(), AllocError> {
    match calls.try_borrow() {
        Ok(calls) => push_counts(text, "capnp_calls_total", "method", &*calls),
        Err(_) => Ok(()),
    }
}

/// What both took and sent.
fn sum(one: ConnectionStats, other: ConnectionStats) -> ConnectionStats {
    ConnectionStats {
        messages: one.messages.saturating_add(other.messages),
        bytes: one.bytes.saturating_add(other.bytes),
        sent: one.sent.saturating_add(other.sent),
    }
}

/// How many calls were made.
fn sum_of(calls: &Calls) -> u64 {
    let mut sum = 0u64;
    if let Ok(calls) = calls.try_borrow() {
        for (_, number) in &*calls {
            sum = sum.saturating_add(*number);
        }
    }
    sum
}

/// The name of an end.
fn name_of(end: &End) -> &'static str {
    match end {
        End::Ended => "ended",
        End::Closed(Reason::Peer(_)) => "aborted",
        End::Closed(Reason::Fault(_)) => "protocol",
        End::Fault(fault) => name_of_fault(fault),
        End::Limit(Limit::Message) => "message_time",
        End::Limit(Limit::Idle) => "idle_time",
        End::Limit(Limit::Closing) => "closing_time",
        End::Limit(Limit::Kept) => "kept_bytes",
        End::Failed(_) => "device",
    }
}

/// The name of a fault that ends a connection.
fn name_of_fault(fault: &ConnectionFault) -> &'static str {
    match fault {
        ConnectionFault::Unreadable {
            refusal: Refusal::Frame(_),
            ..
        } => "frame",
        ConnectionFault::Unreadable { .. } => "message",
        ConnectionFault::OutOfMemory => "memory",
        ConnectionFault::Closed | ConnectionFault::Refused(_) => "other",
    }
}
