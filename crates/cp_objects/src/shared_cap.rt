//! Capabilities that each session of a host may name.

ghost use Rattle.std.specs.Prelude.{◌≡◌, IfOk};
ghost use Rattle.cp_objects.specs.SharedCap.{is_home};

use cp_refs::Cap;
use std::alloc::{AllocError, Global};
use std::marker::Model;
use std::rc::Rc;

/// A capability that each session of a host may name (`Context::share`), and that may be stored anywhere. Its session keeps what it stands for
/// as long as one is there, and it is dropped like any value. Once its session ended, calls of it fail with `Disconnected`.
/// Contracts see it as the session, the key under which that lends it, and the capability as that names it.
pub struct SharedCap {
    lent: Rc<LentCap>,
}

/// A capability that a session lends to the others.
#[derive(Drop)]
pub(crate) struct LentCap {
    pub(crate) session: u64,
    /// No other that the session lends has it.
    pub(crate) key: u64,
    pub(crate) cap: Cap,
}

// Not derived: a crate that lets one go calls this function, and need not prove the drop of all that it holds.
impl Drop for SharedCap {
    fn drop(self) {
        let SharedCap { lent: _ } = self;
    }
}

impl Model for SharedCap {
    ghost use Rattle.cp_objects.specs.declared.shared_cap.LentCap.{LentCap};
    ghost use Rattle.cp_objects.specs.contracts.shared_cap.LentCap.{the_row};

    ghost Value = { LentCap };

    ghost coded = { the_row.coded };

    ghost view = { λ s. s.lent.value };
}

/// Capabilities as all sessions name them, in order. Contracts see them as a list.
pub struct SharedCaps {
    caps: Vec<SharedCap>,
}

// Not derived: a crate that lets one go calls this function, and need not prove the drop of all that it holds.
impl Drop for SharedCaps {
    fn drop(self) {
        let SharedCaps { caps: _ } = self;
    }
}

impl Model for SharedCaps {
    ghost use Rattle.std.specs.Prelude.{List};
    ghost use Rattle.std.specs.Coded.{coded_list};
    ghost use Rattle.cp_objects.specs.declared.shared_cap.LentCap.{LentCap};
    ghost use Rattle.cp_objects.specs.contracts.shared_cap.LentCap.{the_row};

    ghost Value = { List LentCap };

    ghost coded = { coded_list the_row.coded };

    ghost view = { λ s. s.caps.items };
}

impl SharedCaps {
    /// These, in order.
    pub(crate) fn new(caps: Vec<SharedCap>) -> SharedCaps
        ensures { result ≡ caps.items }
    {
        SharedCaps { caps }
    }

    /// The capabilities, lent.
    pub(crate) fn caps(&self) -> &[SharedCap]
        ensures { result.now ≡ self.now }
    {
        &self.caps
    }
}

impl SharedCap {
    /// An equal one.
    pub fn copy(&self) -> Result<SharedCap, AllocError>
        ensures { IfOk result (λ copy. copy ≡ self.now) }
    {
        Ok(SharedCap {
            lent: self.lent.clone()?,
        })
    }

    /// What a session lends under a key.
    pub(crate) fn new(
        alloc: Global,
        session: u64,
        key: u64,
        cap: Cap,
    ) -> Result<SharedCap, AllocError>
        ensures { IfOk result (λ shared. shared ≡ record { session = session; key = key; cap = cap }) }
    {
        let lent = LentCap { session, key, cap };
        Ok(SharedCap {
            lent: Rc::new(alloc, lent)?,
        })
    }

    /// The number of the session that lends it.
    pub(crate) fn session(&self) -> u64
        ensures { result ≡ self.now.session }
    {
        self.lent.session
    }

    /// Under which key.
    pub(crate) fn key(&self) -> u64
        ensures { result ≡ self.now.key }
    {
        self.lent.key
    }

    /// The capability, as that session names it.
    pub(crate) fn cap(&self) -> &Cap
        ensures { result.now ≡ self.now.cap }
    {
        &self.lent.cap
    }

    /// Whether this session names it by the capability itself: null, or what it lends. No table names a broken one.
    pub(crate) fn is_home(&self, session: u64) -> bool
        ensures { result ≡ is_home session self.now }
    {
        match self.cap() {
            Cap::None => true,
            Cap::Broken(_) => false,
            _ => self.lent.session == session,
        }
    }

    /// Whether nobody else has it. A contract knows nothing of that.
    pub(crate) fn is_alone(&self) -> bool {
        Rc::strong_count(&self.lent) == 1
    }
}
