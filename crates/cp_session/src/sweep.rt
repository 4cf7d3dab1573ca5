//! When objects that nothing refers to are sought.

ghost use Rattle.std.specs.Prelude.{◌≡◌, ◌↔◌, IsTrue};
ghost use Rattle.cp_session.specs.Service.{unswept};
ghost use Rattle.cp_session.specs.Sweep.{HasCome, IsSweepDue, again_from, later, swept_from};

/// The objects that are gone over once more for each message.
const SHARE: usize = 32;

/// The time after which they are sought at the latest, in milliseconds.
const LATEST: u64 = 1_000;

/// When objects that nothing refers to are sought. To seek them goes over all objects. So messages pay for it, one for each 32
/// objects, and time does, so that what a silent peer left goes too.
#[derive(Clone, Copy)]
pub(crate) struct Sweep {
    /// The messages that are taken first, in all.
    from: u64,
    /// When they are sought, though fewer messages came.
    pub(crate) at: Option<u64>,
}

impl Sweep {
    /// Nothing was sought.
    pub(crate) fn new() -> Sweep
        ensures { result ≡ unswept }
    {
        Sweep { from: 0, at: None }
    }

    /// Whether some are sought now, after so many messages.
    pub(crate) fn is_due(&self, messages: u64, now: u64) -> bool
        ensures { IsTrue result ↔ IsSweepDue messages now self.now }
    {
        has_come(self.at, now) || self.from <= messages
    }

    /// They weren't sought at this time, and are some time after the first such time at the latest.
    pub(crate) fn later(self, now: u64) -> Sweep
        ensures { result ≡ later now self }
    {
        Sweep {
            from: self.from,
            at: Some(self.at.unwrap_or(now.saturating_add(LATEST))),
        }
    }

    /// They were sought among so many at this time, after so many messages, and so many are left.
    pub(crate) fn after(before: usize, objects: usize, messages: u64, now: u64) -> Sweep
        ensures { result ≡ swept_from before objects messages now }
    {
        let shares = (objects / SHARE) as u64;
        let from = messages.saturating_add(1).saturating_add(shares);
        Sweep {
            from,
            at: again(before, objects, now),
        }
    }
}

/// When they are sought again, though no message comes. What was kept by one that went may be free now. Those that went pay for the
/// next search: where they are too few it waits, so that many that go one by one don't have all the others gone over each time.
fn again(before: usize, objects: usize, now: u64) -> Option<u64>
    ensures { result ≡ again_from before objects now }
{
    if before <= objects {
        None
    } else if before - objects < objects / SHARE {
        Some(now.saturating_add(LATEST))
    } else {
        Some(now)
    }
}

/// Whether that time has come.
pub(crate) fn has_come(at: Option<u64>, now: u64) -> bool
    ensures { IsTrue result ↔ HasCome now at }
{
    match at {
        Some(at) => at <= now,
        None => false,
    }
}
