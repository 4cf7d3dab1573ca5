//! How often polls gave nothing.

ghost use Rattle.std.specs.Prelude.{◌≡◌};
ghost use Rattle.cp_session.specs.EmptyPolls.{after_poll, are_many, counted, is_restless, no_polls, renewed};

/// How many polls in a row may give nothing before objects that say they have more are let rest.
const MOST_EMPTY: u32 = 1_000;

/// How many polls in a row gave nothing since something came.
#[derive(Clone, Copy)]
pub(crate) struct EmptyPolls {
    /// At most `MOST_EMPTY`.
    count: u32,
    /// The program was told that there were too many.
    is_told: bool,
}

impl EmptyPolls {
    /// There were none.
    pub(crate) fn new() -> EmptyPolls
        ensures { result ≡ no_polls }
    {
        EmptyPolls {
            count: 0,
            is_told: false,
        }
    }

    /// Something came: they are counted anew.
    pub(crate) fn renew(&mut self)
        ensures { self.new ≡ renewed self.old }
    {
        self.count = 0;
    }

    /// Whether there were too many.
    pub(crate) fn are_many(&self) -> bool
        ensures { result ≡ are_many self.now }
    {
        self.count >= MOST_EMPTY
    }

    /// Counts a poll that gave something, or nothing. Says whether there are too many now for the first time.
    pub(crate) fn note(&mut self, gave: bool) -> bool
        ensures counted { self.new ≡ after_poll gave self.old }
        ensures restless { result ≡ is_restless gave self.old }
    {
        self.count = counted(gave, self.count);
        if self.is_told {
            return false;
        }
        self.is_told = self.are_many();
        self.is_told
    }
}

/// How many there are after a poll that gave something, or nothing: no more than are too many.
fn counted(gave: bool, count: u32) -> u32
    ensures { result ≡ counted gave count }
{
    if gave {
        0
    } else if count >= MOST_EMPTY {
        count
    } else {
        count + 1
    }
}
