//! How far a session is, and which of its limits it meets.

ghost use Rattle.std.specs.Prelude.{◌≡◌, ◌↔◌, true, Some, IsTrue, IfSome, IfNone};
ghost use Rattle.cp_session.specs.Progress.{ask_by, begun, less, moved_at, written_at, opened_by, stopped, finished, failed, heeding, ended_again, left, over, met, ended_by, excess_by, kept_excess, IsAtWork, IsDraining, Meets, TicksTo, WentBy, IsSlow, deadline_of, message_deadline, earlier};
ghost use Rattle.cp_dispatch.specs.declared.event.Limit.{Limit};
ghost use Rattle.cp_session.specs.declared.progress.Phase.TheVariants as phases;

use crate::limits::SessionLimits;
use cp_connection::{ConnectionFault, Excess};
use cp_dispatch::Limit;

/// How far a session is.
#[derive(Clone, Copy, PartialEq, Eq)]
pub(crate) enum Phase {
    /// What comes is taken.
    Serving,
    /// Nothing more is taken, and what is left goes out.
    Ending,
    /// All went out. The peer's close is waited for, from this time on, and what comes before it is dropped.
    Draining { since: u64 },
    /// Nothing is left to be done.
    Over,
}

/// How far a session is. Times are milliseconds of one clock.
#[derive(Clone, Copy)]
pub(crate) struct Progress {
    phase: Phase,
    /// When a byte moved last, either way.
    moved: u64,
    /// The peer was asked since then, and of the bytes of that so many are still to be written.
    asked: Option<usize>,
    /// Since when the open message comes, if one does.
    opened: Option<u64>,
    /// The peer's bytes ended after a message.
    is_finished: bool,
    /// Why nothing more is taken, where the vat doesn't say it.
    pub(crate) fault: Option<ConnectionFault>,
    /// The limit that was met.
    pub(crate) limit: Option<Limit>,
    /// The program was told why nothing more is taken.
    pub(crate) is_told: bool,
}

impl Progress {
    /// That of a session that begins at this time.
    pub(crate) fn new(now: u64) -> Progress
        ensures { result ≡ begun now }
    {
        Progress {
            phase: Phase::Serving,
            moved: now,
            asked: None,
            opened: None,
            is_finished: false,
            fault: None,
            limit: None,
            is_told: false,
        }
    }

    /// Whether what comes is taken.
    pub(crate) fn is_serving(&self) -> bool
        ensures { IsTrue result ↔ (self.now.phase ≡ phases.Serving) }
    {
        self.phase == Phase::Serving
    }

    /// Whether nothing more is taken, and something may be to go out.
    pub(crate) fn is_ending(&self) -> bool
        ensures { IsTrue result ↔ (self.now.phase ≡ phases.Ending) }
    {
        self.phase == Phase::Ending
    }

    /// Whether nothing is left to be done.
    pub(crate) fn is_over(&self) -> bool
        ensures { IsTrue result ↔ (self.now.phase ≡ phases.Over) }
    {
        self.phase == Phase::Over
    }

    /// Whether the peer's close is waited for.
    pub(crate) fn is_draining(&self) -> bool
        ensures { IsTrue result ↔ IsDraining self.now.phase }
    {
        matches!(self.phase, Phase::Draining { .. })
    }

    /// A byte moved at this time.
    fn move_at(&mut self, now: u64)
        ensures { self.new ≡ moved_at now self.old }
    {
        self.moved = now;
        self.asked = None;
    }

    /// So many bytes were written at this time. Those by which the peer was asked don't count: it may be gone.
    pub(crate) fn write_at(&mut self, count: usize, now: u64)
        ensures { self.new ≡ written_at count now self.old }
    {
        match less(count, self.asked) {
            Some(left) => self.asked = Some(left),
            None => self.move_at(now),
        }
    }

    /// The peer was asked, by so many bytes, which are the first to be written.
    pub(crate) fn ask(&mut self, count: usize)
        ensures { self.new ≡ record self.old { asked = Some count } }
    {
        self.asked = Some(count);
    }

    /// When a peer that all was written to is asked, if no byte moves before: once half of the time is over in which one has to.
    pub(crate) fn ask_time(&self, limits: &SessionLimits) -> Option<u64>
        ensures { result ≡ ask_by limits.now self.now self.now.phase self.now.asked }
    {
        if self.phase != Phase::Serving || self.asked.is_some() {
            return None;
        }
        let idle = self.moved.checked_add(limits.idle)?;
        Some(idle - limits.idle / 2)
    }

    /// Bytes were taken at this time, and left a message open or not. Each byte of a message gives it no more time.
    pub(crate) fn take_at(&mut self, now: u64, is_open: bool)
        ensures { self.new ≡ record (moved_at now self.old) { opened = opened_by self.old.opened is_open now } }
    {
        self.move_at(now);
        self.opened = if is_open {
            Some(self.opened.unwrap_or(now))
        } else {
            None
        };
    }

    /// Nothing more is taken.
    pub(crate) fn stop(&mut self)
        ensures { self.new ≡ stopped self.old }
    {
        self.opened = None;
        if self.phase == Phase::Serving {
            self.phase = Phase::Ending;
        }
    }

    /// Once the connection ended for a fault nothing more is taken.
    pub(crate) fn heed(&mut self, fault: Option<ConnectionFault>)
        ensures { self.new ≡ heeding fault self.old }
    {
        if fault.is_some() {
            self.stop();
        }
    }

    /// Nothing more is taken, for this fault, if there was none before.
    pub(crate) fn fail(&mut self, fault: ConnectionFault)
        ensures { self.new ≡ failed self.old fault }
    {
        self.fault = Some(self.fault.unwrap_or(fault));
        self.stop();
    }

    /// Nothing more is taken, as the peer's bytes ended.
    pub(crate) fn finish(&mut self)
        ensures { self.new ≡ finished self.old }
    {
        self.is_finished = true;
        self.stop();
    }

    /// All went out, by this time: the peer's close is waited for, unless its bytes ended before.
    pub(crate) fn leave(&mut self, now: u64)
        ensures { self.new ≡ left self.old now }
    {
        self.phase = if self.is_finished {
            Phase::Over
        } else {
            Phase::Draining { since: now }
        };
    }

    /// Nothing is left to be done.
    pub(crate) fn close(&mut self)
        ensures { self.new ≡ over self.old }
    {
        self.opened = None;
        self.phase = Phase::Over;
    }

    /// The peer's bytes ended once nothing was taken: where its close was waited for, nothing is left to be done.
    pub(crate) fn end_again(&mut self)
        ensures { self.new ≡ ended_again self.old }
    {
        let is_draining = self.is_draining();
        self.finish();
        if is_draining {
            self.close();
        }
    }

    /// Nothing more is taken if a limit is met at this time, where this many bytes are kept. Gives what the peer is to be told.
    pub(crate) fn tick(&mut self, limits: &SessionLimits, kept: u64, now: u64) -> Option<Excess>
        ensures { TicksTo limits.now self.old kept now result self.new }
    {
        match self.limit_met(limits, kept, now) {
            Some(limit) => self.meet(limit),
            None => None,
        }
    }

    /// When the next limit of time is met, if no byte moves before.
    pub(crate) fn deadline(&self, limits: &SessionLimits) -> Option<u64>
        ensures { result ≡ deadline_of limits.now self.now self.now.phase }
    {
        match self.phase {
            Phase::Over => None,
            Phase::Draining { since } => since.checked_add(limits.closing),
            Phase::Serving | Phase::Ending => {
                let idle = self.moved.checked_add(limits.idle);
                earlier(idle, self.message_deadline(limits))
            }
        }
    }

    /// A limit is met: nothing is left to be done, unless the peer is to be told what is too much.
    pub(crate) fn meet(&mut self, limit: Limit) -> Option<Excess>
        ensures told { result ≡ excess_by limit self.old.phase }
        ensures met { self.new ≡ met limit self.old }
    {
        self.limit = Some(limit);
        let excess = excess_by(limit, self.phase);
        self.end_by(excess);
        excess
    }

    /// Nothing more is taken, and nothing is left to be done unless the peer is told what is too much.
    fn end_by(&mut self, excess: Option<Excess>)
        ensures { self.new ≡ ended_by excess self.old }
    {
        match excess {
            Some(_) => self.stop(),
            None => self.close(),
        }
    }

    /// The limit that is met at this time, where this many bytes are kept.
    fn limit_met(&self, limits: &SessionLimits, kept: u64, now: u64) -> Option<Limit>
        ensures met { IfSome result (λ limit. Meets limits.now self.now kept now limit) }
        ensures none { IfNone result ((limit : Limit) → Meets limits.now self.now kept now limit → ⊥) }
    {
        match self.phase {
            Phase::Over => None,
            // Only this time counts: what is kept goes nowhere any more.
            Phase::Draining { since } => {
                if went_by(since, limits.closing, now) {
                    return Some(Limit::Closing);
                }
                None
            }
            Phase::Serving | Phase::Ending => self.working_limit_met(limits, kept, now),
        }
    }

    /// The limit that is met before all went out.
    fn working_limit_met(&self, limits: &SessionLimits, kept: u64, now: u64) -> Option<Limit>
        requires { IsAtWork self.now.phase }
        ensures met { IfSome result (λ limit. Meets limits.now self.now kept now limit) }
        ensures none { IfNone result ((limit : Limit) → Meets limits.now self.now kept now limit → ⊥) }
    {
        if kept > limits.kept {
            return Some(Limit::Kept);
        }
        if self.is_slow(limits, now) {
            return Some(Limit::Message);
        }
        if went_by(self.moved, limits.idle, now) {
            return Some(Limit::Idle);
        }
        None
    }

    /// Whether the open message has come for too long.
    fn is_slow(&self, limits: &SessionLimits, now: u64) -> bool
        ensures { IsTrue result ↔ IsSlow limits.now self.now now }
    {
        match self.opened {
            Some(since) => went_by(since, limits.message, now),
            None => false,
        }
    }

    /// When the open message has come for too long.
    fn message_deadline(&self, limits: &SessionLimits) -> Option<u64>
        ensures { result ≡ message_deadline limits.now self.now.opened }
    {
        self.opened?.checked_add(limits.message)
    }
}

/// What is too much where this limit is met, and is told to the peer.
fn excess_by(limit: Limit, phase: Phase) -> Option<Excess>
    ensures { result ≡ excess_by limit phase }
{
    match limit {
        Limit::Kept => kept_excess(phase),
        Limit::Message | Limit::Idle | Limit::Closing => None,
    }
}

/// What is told to the peer where too much is kept: only while its bytes are taken, as an Abort is the last that goes out.
fn kept_excess(phase: Phase) -> Option<Excess>
    ensures { result ≡ kept_excess phase }
{
    match phase {
        Phase::Serving => Some(Excess::Kept),
        Phase::Ending | Phase::Draining { .. } | Phase::Over => None,
    }
}

/// How many of so many bytes are left once the first ones were written, unless more were.
fn less(count: usize, left: Option<usize>) -> Option<usize>
    ensures { result ≡ less count left }
{
    left?.checked_sub(count)
}

/// Whether a time went by.
fn went_by(since: u64, time: u64, now: u64) -> bool
    ensures { IsTrue result ↔ WentBy since time now }
{
    now.saturating_sub(since) >= time
}

/// The earlier of two times.
pub(crate) fn earlier(one: Option<u64>, other: Option<u64>) -> Option<u64>
    ensures { result ≡ earlier one other }
{
    match (one, other) {
        (Some(one), Some(other)) => Some(one.min(other)),
        (None, other) => other,
        (one, None) => one,
    }
}
