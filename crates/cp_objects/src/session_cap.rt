//! Capabilities, with the sessions that they are of.

ghost use Rattle.std.specs.Prelude.{◌≡◌, IfOk};
ghost use Rattle.cp_objects.specs.SessionCap.{cap_for, is_of, means_same};

use crate::reference_error::ReferenceError;
use cp_refs::Cap;
use std::alloc::{AllocError, Global};

/// A capability, with the number of the session that it is of. Each session numbers its own imports, objects and promises, so only that one
/// takes it. A capability that is null or broken means the same in each, and each takes it.
pub struct SessionCap {
    pub(crate) session: u64,
    pub(crate) cap: Cap,
}

// Not derived: a crate that lets one go calls this function, and need not prove the drop of all that it holds.
impl Drop for SessionCap {
    fn drop(self) {
        let SessionCap { session: _, cap: _ } = self;
    }
}

impl SessionCap {
    /// A capability that a call or an outcome of this session named, or its program.
    pub fn new(session: u64, cap: Cap) -> SessionCap
        ensures { result ≡ record { session = session; cap = cap } }
    {
        SessionCap { session, cap }
    }

    /// The number of its session.
    pub fn session(&self) -> u64
        ensures { result ≡ self.now.session }
    {
        self.session
    }

    /// The capability, lent. What it means is its session's business.
    pub fn cap(&self) -> &Cap
        ensures { result.now ≡ self.now.cap }
    {
        &self.cap
    }

    /// Whether a session takes it.
    pub fn is_of(&self, session: u64) -> bool
        ensures { result ≡ is_of session self.now }
    {
        self.session == session || means_same(&self.cap)
    }

    /// The capability, for a session that takes it.
    pub fn into_cap(self, session: u64) -> Result<Cap, ReferenceError>
        ensures { result ≡ cap_for session self }
    {
        if !self.is_of(session) {
            drop(self);
            return Err(ReferenceError::OtherSession);
        }
        let SessionCap { session: _, cap } = self;
        Ok(cap)
    }

    /// An equal one.
    pub fn copy(&self, alloc: Global) -> Result<SessionCap, AllocError>
        ensures { IfOk result (λ copy. copy ≡ self.now) }
    {
        Ok(SessionCap::new(self.session, self.cap.copy(alloc)?))
    }
}

/// Whether a capability means the same in each session.
fn means_same(cap: &Cap) -> bool
    ensures { result ≡ means_same cap.now }
{
    matches!(cap, Cap::None | Cap::Broken(_))
}
