//! The capabilities that a builder names.

ghost use Rattle.std.specs.Prelude.{◌≡◌, ◌↔◌, true, false, Err, IfOk, OnOk, OnErr};
ghost use Rattle.cp_servants.specs.Naming.{pointer_naming};
ghost use Rattle.cp_interfaces.specs.Tables.{IsFull, are_of, caps_for, may_name, naming, none_named};
ghost use Rattle.cp_interfaces.specs.declared.naming_error.NamingError.TheVariants as errors;

use crate::naming_error::NamingError;
use cp_builder::cap_of;
use cp_objects::{ReferenceError, SessionCap};
use cp_refs::{Cap, Caps};
use cp_tree::Whole;
use std::alloc::Global;
use std::marker::Model;

/// The number of capabilities that a table has at most.
const MOST: usize = 0xffff_ffff;

/// The table of the capabilities that a builder names, each by its place, all of one session. Contracts see it as the list of them with
/// that session.
pub struct CapTableBuilder {
    session: Option<u64>,
    caps: Vec<Cap>,
}

impl Model for CapTableBuilder {
    ghost use Rattle.cp_interfaces.specs.Tables.{Named, named_code};

    ghost Value = { Named };

    ghost coded = { named_code };

    ghost view = { λ t. record { session = t.session; caps = t.caps.items } };
}

// Not derived: a crate that lets one go calls this function, and need not prove the drop of all that it holds.
impl Drop for CapTableBuilder {
    fn drop(self) {
        let CapTableBuilder {
            session: _,
            caps: _,
        } = self;
    }
}

impl CapTableBuilder {
    /// No capabilities.
    pub fn new(alloc: Global) -> CapTableBuilder
        ensures { result ≡ none_named }
    {
        CapTableBuilder {
            session: None,
            caps: Vec::new(alloc),
        }
    }

    /// Adds a capability, and gives the pointer that names it. One that is null or broken isn't added, as no descriptor says it: its
    /// pointer is null.
    ///
    /// # Errors
    ///
    /// `TooLong`: the table is full, as it has 2^32 - 1 of them. `OtherSession`: it has some of another session. Or memory ran out.
    pub fn add(&mut self, cap: SessionCap) -> Result<Whole, NamingError>
        ensures pointer { IfOk result (λ pointer. pointer ≡ pointer_naming self.old.caps cap.cap) }
        ensures added { OnOk result (self.new ≡ naming self.old cap) }
        ensures left { OnErr result (self.new ≡ self.old) }
        ensures full { result ≡ Err errors.TooLong ↔ IsFull self.old }
        ensures own { OnOk result (may_name self.old cap ≡ true) }
        ensures other { result ≡ Err errors.OtherSession → may_name self.old cap ≡ false }
    {
        let place = self.caps.len();
        // A pointer names a place of 32 bits.
        if place >= MOST {
            drop(cap);
            return Err(NamingError::TooLong);
        }
        if matches!(cap.cap(), Cap::None | Cap::Broken(_)) {
            drop(cap);
            return Ok(Whole::null());
        }
        let session = cap.session();
        if !self.are_of(session) {
            drop(cap);
            return Err(NamingError::OtherSession);
        }
        self.caps.push(cap.into_cap(session)?)?;
        self.session = Some(session);
        Ok(cap_of(place as u32))
    }

    /// The table, as a call or an outcome of this session has it.
    pub fn into_caps(self, session: u64) -> Result<Caps, ReferenceError>
        ensures { result ≡ caps_for session self }
    {
        if !self.are_of(session) {
            drop(self);
            return Err(ReferenceError::OtherSession);
        }
        let CapTableBuilder { session: _, caps } = self;
        Ok(Caps::new(caps))
    }

    /// Whether what it names is of this session.
    fn are_of(&self, session: u64) -> bool
        ensures { result ≡ are_of session self.now.session }
    {
        match self.session {
            Some(other) => other == session,
            None => true,
        }
    }
}
