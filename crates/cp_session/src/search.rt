//! When imports and promises that nobody holds are sought.

ghost use Rattle.std.specs.Prelude.{◌≡◌, ◌↔◌, ◌≤◌, IsTrue};
ghost use Rattle.cp_session.specs.Search.{from_then};

/// The imports or promises that are gone over once more for each message.
const SHARE: usize = 32;

/// When imports that no object holds and promises that none knows are sought.
///
/// To seek them goes over all imports and promises of the vat. Those that came since the last time were paid for by the messages that
/// brought them. Those that were left then may be as many as a peer likes, so messages pay for them first: one for each 32 imports,
/// and one for each 32 promises. Where fewer were left, any message may seek.
/// Time could pay for it too, but then a silent crowd would cost as much as a busy one.
#[derive(Clone, Copy)]
pub(crate) struct Search {
    /// The messages that are taken first, in all.
    from: u64,
}

impl Search {
    /// Nothing was sought.
    pub(crate) fn new() -> Search
        ensures { result.from ≡ 0 }
    {
        Search { from: 0 }
    }

    /// Whether they may be sought, after so many messages.
    pub(crate) fn is_due(&self, messages: u64) -> bool
        ensures { IsTrue result ↔ (self.now.from ≤ messages) }
    {
        self.from <= messages
    }

    /// They were sought, after so many messages, and so many imports and promises are left.
    pub(crate) fn after(imports: usize, promises: usize, messages: u64) -> Search
        ensures { result.from ≡ from_then imports promises messages }
    {
        let shares = imports / SHARE + promises / SHARE;
        Search {
            from: messages.saturating_add(shares as u64),
        }
    }
}
