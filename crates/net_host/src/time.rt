//! The time of a host.

ghost use Rattle.std.specs.Prelude.{◌≡◌, ◌↔◌, IsTrue, IfOk, None, Some};
ghost use Rattle.cp_session.specs.Progress.{earlier};
ghost use Rattle.net_host.specs.Timing.{ComesBy, IsDue, until};

use std::io;
use std::time::{Clock, Instant};

/// The milliseconds since a host began, and when limits of time are looked at.
#[derive(Clone, Copy)]
pub(crate) struct Time {
    start: Instant,
    at: u64,
    /// When limits of time are looked at next. `None`: no session has one.
    sweep_at: Option<u64>,
    /// When they were last.
    swept_at: Option<u64>,
}

impl Time {
    /// The time of a host that begins.
    pub(crate) fn start<C: Clock>(rt: &C) -> io::Result<Time>
        ensures { IfOk result (λ time. time.sweep_at ≡ None) }
    {
        Ok(Time {
            start: Instant::now(rt)?,
            at: 0,
            sweep_at: None,
            swept_at: None,
        })
    }

    /// The milliseconds at the last look at the clock.
    pub(crate) fn now(&self) -> u64
        ensures { result ≡ self.now.at }
    {
        self.at
    }

    /// Looks at the clock.
    pub(crate) fn look<C: Clock>(&mut self, rt: &C) -> io::Result<()>
        ensures { self.new ≡ record self.old { at = self.new.at } }
    {
        let since = Instant::now(rt)?.duration_since(self.start);
        let seconds = since.as_secs().saturating_mul(1_000);
        self.at = seconds.saturating_add(since.subsec_millis() as u64);
        Ok(())
    }

    /// Limits of time are looked at when this one is met, if not before.
    pub(crate) fn expect(&mut self, deadline: Option<u64>)
        ensures { self.new ≡ record self.old { sweep_at = earlier self.old.sweep_at deadline } }
    {
        self.sweep_at = earlier(self.sweep_at, deadline);
    }

    /// Limits of time were looked at, and are when the first of those that are left is met.
    pub(crate) fn set_sweep(&mut self, first: Option<u64>)
        ensures { self.new ≡ record self.old { sweep_at = first } }
    {
        self.sweep_at = first;
    }

    /// How many milliseconds there are until limits of time are looked at, or until this time, if that is earlier. `None`: there is
    /// neither.
    pub(crate) fn until(&self, other: Option<u64>) -> Option<u64>
        ensures { result ≡ until self.now other }
    {
        let first = earlier(self.sweep_at, other)?;
        Some(first.saturating_sub(self.at).max(1))
    }

    /// Whether limits of time are to be looked at, which they are at most once in a millisecond.
    pub(crate) fn is_due(&mut self) -> bool
        ensures due { IsTrue result ↔ IsDue self.old }
        ensures same { self.new ≡ record self.old { swept_at = self.new.swept_at } }
    {
        if self.is_swept() {
            return false;
        }
        if has_come(self.sweep_at, self.at) {
            self.swept_at = Some(self.at);
            return true;
        }
        false
    }

    /// Whether they were looked at in this millisecond.
    fn is_swept(&self) -> bool
        ensures { IsTrue result ↔ (self.now.swept_at ≡ Some self.now.at) }
    {
        match self.swept_at {
            Some(last) => last == self.at,
            None => false,
        }
    }
}

/// Whether a time has come by now, if there is one.
pub(crate) fn has_come(time: Option<u64>, now: u64) -> bool
    ensures { IsTrue result ↔ ComesBy now time }
{
    match time {
        Some(first) => first <= now,
        None => false,
    }
}

/// The earlier of two times.
pub(crate) fn earlier(one: Option<u64>, other: Option<u64>) -> Option<u64>
    ensures { result ≡ earlier one other }
{
    match (one, other) {
        (Some(one), Some(other)) => Some(one.min(other)),
        (None, other) => other,
        (one, None) => one,
    }
}
