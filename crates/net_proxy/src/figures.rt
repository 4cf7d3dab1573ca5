//! What a proxy did and holds, as numbers in a file for Prometheus.

use crate::direction::DirectionEnd;
use crate::pair::PairEnd;
use cp_commands::{FIGURES_EVERY, FiguresFile, count, push_counts, push_figure};
use cp_relay::{Cause, RelayCause};
use cp_stream::Refusal;
use std::alloc::{AllocError, AllocGlobal, Global};
use std::fs::Files;
use std::io::{self, Write};
use std::time::{Clock, Instant};

/// How connections end.
const ENDS: [(&str, u64); 6] = [
    ("ended", 0),
    ("frame", 0),
    ("message", 0),
    ("rules", 0),
    ("device", 0),
    ("other", 0),
];

/// What went over a connection: the bytes that were read of either end, and what became of the calls that a guard judged.
#[derive(Clone, Copy)]
pub(crate) struct PairFigures {
    pub there: u64,
    pub back: u64,
    pub calls: CallFigures,
}

/// What became of calls.
#[derive(Clone, Copy)]
pub(crate) struct CallFigures {
    let_through: u64,
    not_allowed: u64,
    too_many: u64,
    too_fast: u64,
}

/// What a proxy tells of itself.
#[derive(Clone, Copy)]
pub(crate) struct RelayFigures<'a> {
    file: Option<FiguresFile<'a>>,
    /// The milliseconds, from the start on, at which the numbers are written next.
    next: u64,
    came: u64,
    ends: [(&'static str, u64); 6],
    /// What went over the connections that ended.
    gone: PairFigures,
}

impl CallFigures {
    /// No calls.
    pub(crate) fn none() -> CallFigures {
        CallFigures {
            let_through: 0,
            not_allowed: 0,
            too_many: 0,
            too_fast: 0,
        }
    }

    /// Counts a call of which this became.
    pub(crate) fn note(&mut self, cause: Option<Cause>) {
        match cause {
            None => self.let_through = self.let_through.saturating_add(1),
            Some(Cause::NotAllowed { .. }) => self.not_allowed = self.not_allowed.saturating_add(1),
            Some(Cause::TooMany) => self.too_many = self.too_many.saturating_add(1),
            Some(Cause::TooFast) => self.too_fast = self.too_fast.saturating_add(1),
        }
    }

    /// These and those.
    fn and(self, other: CallFigures) -> CallFigures {
        CallFigures {
            let_through: self.let_through.saturating_add(other.let_through),
            not_allowed: self.not_allowed.saturating_add(other.not_allowed),
            too_many: self.too_many.saturating_add(other.too_many),
            too_fast: self.too_fast.saturating_add(other.too_fast),
        }
    }
}

impl PairFigures {
    /// Nothing went.
    pub(crate) fn none() -> PairFigures {
        PairFigures {
            there: 0,
            back: 0,
            calls: CallFigures::none(),
        }
    }

    /// These and those.
    pub(crate) fn and(self, other: PairFigures) -> PairFigures {
        PairFigures {
            there: self.there.saturating_add(other.there),
            back: self.back.saturating_add(other.back),
            calls: self.calls.and(other.calls),
        }
    }
}

impl<'a> RelayFigures<'a> {
    /// No connection came. The path is that of the file, if there is one.
    pub(crate) fn new(path: Option<&'a str>) -> RelayFigures<'a> {
        RelayFigures {
            file: path.map(|path| FiguresFile::new(path)),
            next: FIGURES_EVERY,
            came: 0,
            ends: ENDS,
            gone: PairFigures::none(),
        }
    }

    /// Whether numbers are written.
    pub(crate) fn is_told(&self) -> bool {
        self.file.is_some()
    }

    /// A connection came.
    pub(crate) fn note_came(&mut self) {
        self.came = self.came.saturating_add(1);
    }

    /// A connection ended so.
    pub(crate) fn note_end(&mut self, end: &PairEnd) {
        count(&mut self.ends, name_of(&end.end));
    }

    /// This went over a connection that ended.
    pub(crate) fn note_gone(&mut self, gone: PairFigures) {
        self.gone = self.gone.and(gone);
    }

    /// Whether the time has come to write the numbers. It is said once for each time.
    pub(crate) fn is_due<N: Clock>(&mut self, rt: &N, start: Instant) -> io::Result<bool> {
        if self.file.is_none() {
            return Ok(false);
        }
        let since = Instant::now(rt)?.duration_since(start);
        let seconds = since.as_secs().saturating_mul(1_000);
        let now = seconds.saturating_add(since.subsec_millis() as u64);
        if now < self.next {
            return Ok(false);
        }
        self.next = now.saturating_add(FIGURES_EVERY);
        Ok(true)
    }

    /// Writes the numbers, with those of this many connections that are open.
    pub(crate) fn tell<N: Files + AllocGlobal, E: Write>(
        &mut self,
        rt: &N,
        open: usize,
        moved: PairFigures,
        err: &mut E,
    ) {
        let (came, all) = (self.came, self.gone.and(moved));
        if let Some(mut file) = self.file {
            let text = text_of(rt.alloc(), open, came, &self.ends, all);
            file.write(rt, text, err);
            self.file = Some(file);
        }
    }
}

/// The numbers as text.
fn text_of(
    alloc: Global,
    open: usize,
    came: u64,
    ends: &[(&'static str, u64)],
    all: PairFigures,
) -> Result<String, AllocError> {
    let calls = [
        ("let_through", all.calls.let_through),
        ("not_allowed", all.calls.not_allowed),
        ("too_many", all.calls.too_many),
        ("too_fast", all.calls.too_fast),
    ];
    let bytes = [("there", all.there), ("back", all.back)];
    let mut text = String::new(alloc);
    push_figure(&mut text, "gauge", "capnp_open_connections", open as u64)?;
    push_figure(&mut text, "counter", "capnp_connections_total", came)?;
    push_counts(&mut text, "capnp_ended_connections_total", "end", ends)?;
    push_counts(&mut text, "capnp_relayed_bytes_total", "way", &bytes)?;
    push_counts(&mut text, "capnp_judged_calls_total", "verdict", &calls)?;
    Ok(text)
}

/// The name of an end.
fn name_of(end: &DirectionEnd) -> &'static str {
    match end {
        DirectionEnd::Well | DirectionEnd::Reset => "ended",
        DirectionEnd::Refused(fault) => match fault.why {
            RelayCause::Refused(Refusal::Frame(_)) => "frame",
            RelayCause::Refused(_) => "message",
            _ => "other",
        },
        DirectionEnd::Closed(..) => "rules",
        DirectionEnd::Unanswered(_) | DirectionEnd::Over => "other",
        DirectionEnd::Unread(_) | DirectionEnd::Unwritten(_) => "device",
    }
}
