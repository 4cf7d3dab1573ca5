//! What each session of a host keeps, and what it may keep.

use cp_tables::Entries;
use std::alloc::{AllocError, Global};
use std::marker::Model;

/// What each session of a host keeps, in bytes, and what all of them may keep.
///
/// Each may keep its share, whatever the others do. What sessions keep beyond their shares they take of one pool, as long as it
/// lasts. So all together keep no more than a share each and the pool: that is a law of this crate.
///
/// # In which order calls are made
///
/// 1. `new` makes it, for no sessions.
/// 2. Where a session may have come to keep more, ask `allowed`. If it keeps more than that, call `Session::refuse`. If it still does
///    then, end it and call `forget`; and else say by `note` what it keeps. Each has a number of yours.
pub struct Budget {
    share: u64,
    pool: u64,
    kept: Entries<u64>,
    /// What all sessions take of the pool.
    taken: u64,
}

// Not derived: a crate that lets one go calls this function, and need not prove the drop of all that it holds.
impl Drop for Budget {
    fn drop(self) {
        let Budget {
            share: _,
            pool: _,
            kept: _,
            taken: _,
        } = self;
    }
}

impl Model for Budget {
    ghost use Rattle.std.specs.Prelude.{◌≡◌};
    ghost use Rattle.cp_session.specs.Budget.{Keeping, keeping_code, taken_of};

    ghost Value = { Keeping };

    ghost coded = { keeping_code };

    ghost view = { λ b. record { share = b.share; pool = b.pool; kept = b.kept } };

    ghost invariant = { λ b. b.taken ≡ taken_of b.share b.kept };
}

impl Budget {
    ghost use Rattle.std.specs.Prelude.{◌≡◌, Decides, OnOk, OnErr};
    ghost use Rattle.std.specs.FinMap as map;
    ghost use Rattle.cp_refs.specs.Memory.{counted};
    ghost use Rattle.cp_session.specs.Budget.{IsWithin, allowed, others_of, own_of};

    /// No session keeps anything. Each may keep this share, and all of them this pool beyond their shares.
    pub fn new(alloc: Global, share: u64, pool: u64) -> Budget
        ensures { result ≡ record { share = share; pool = pool; kept = map.empty } }
    {
        Budget {
            share,
            pool,
            kept: Entries::new(alloc),
            taken: 0,
        }
    }

    /// The most bytes that a session may keep: its share, and what the others leave of the pool.
    pub fn allowed(&self, session: u32) -> u64
        ensures { result ≡ counted (allowed self.now session) }
    {
        let left = self.pool.saturating_sub(self.others(session));
        self.share.saturating_add(left)
    }

    /// Notes that a session keeps so many bytes now.
    pub fn note(&mut self, session: u32, bytes: u64) -> Result<(), AllocError>
        ensures noted { OnOk result (self.new ≡ record self.old { kept = map.insert self.old.kept session bytes }) }
        ensures err { OnErr result (self.new ≡ self.old) }
    {
        let own = bytes.saturating_sub(self.share);
        // A count that can't rise is refused as a failed allocation is: there is no memory for 2^64 bytes.
        let Some(taken) = self.others(session).checked_add(own) else {
            return Err(AllocError);
        };
        self.kept.put(session, bytes)?;
        self.taken = taken;
        Ok(())
    }

    /// Forgets a session, which ended.
    pub fn forget(&mut self, session: u32)
        ensures { self.new ≡ record self.old { kept = map.remove self.old.kept session } }
    {
        self.taken = self.others(session);
        drop(self.kept.remove(session));
    }

    /// Whether all sessions keep no more than their shares and the pool.
    pub fn is_within(&self) -> bool
        ensures { Decides result (IsWithin self.now) }
    {
        self.taken <= self.pool
    }

    /// What the other sessions take of the pool.
    fn others(&self, session: u32) -> u64
        ensures { result ≡ others_of self.now.share self.now.kept session }
    {
        self.taken.saturating_sub(self.own(session))
    }

    /// What a session takes of the pool.
    fn own(&self, session: u32) -> u64
        ensures { result ≡ own_of self.now.share (map.get self.now.kept session) }
    {
        match self.kept.get(session) {
            Some(bytes) => bytes.saturating_sub(self.share),
            None => 0,
        }
    }
}
