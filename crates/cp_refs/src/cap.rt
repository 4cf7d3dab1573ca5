//! Capabilities, as an application names them.

use cp_messages::Exception;
use std::alloc::{AllocError, Global};
use std::marker::Model;

/// A promise's number.
pub type PromiseId = u32;

/// A path of pointer fields from a content to a capability in it (rpc.capnp,
/// `PromisedAnswer.transform`). Contracts see it as the list of its fields.
pub struct Path {
    fields: Vec<u16>,
}

// Not derived: a crate that lets one go calls this function, and need not prove the drop of all that it holds.
impl Drop for Path {
    fn drop(self) {
        let Path { fields: _ } = self;
    }
}

impl Model for Path {
    ghost use Rattle.std.specs.Prelude.{ℕ, List};

    ghost Value = { List ℕ };

    ghost view = { λ p. p.fields.items };
}

impl Path {
    ghost use Rattle.std.specs.Prelude.{◌≡◌, IfOk};

    /// These fields, in order.
    pub fn new(fields: Vec<u16>) -> Path
        ensures { result ≡ fields.items }
    {
        Path { fields }
    }

    /// The fields, lent.
    pub fn fields(&self) -> &[u16]
        ensures { result.now ≡ self.now }
    {
        &self.fields
    }

    /// The fields themselves.
    pub fn into_fields(self) -> Vec<u16>
        ensures { result.items ≡ self }
    {
        let Path { fields } = self;
        fields
    }

    /// An equal path.
    pub fn copy(&self, alloc: Global) -> Result<Path, AllocError>
        ensures { IfOk result (λ p. p ≡ self.now) }
    {
        Ok(Path::new(Vec::from_slice(alloc, self.fields())?))
    }
}

/// A capability, as the application of one end of a connection names it.
#[derive(Drop)]
pub enum Cap {
    /// Null.
    None,
    /// An object of this application.
    Object(u32),
    /// A promise of this end.
    Promise(PromiseId),
    /// A capability of the peer.
    Import(u32),
    /// What a question of this end will give at a path.
    Pipelined(u32, Path),
    /// One that fails with this exception.
    Broken(Exception),
}

impl Cap {
    ghost use Rattle.std.specs.Prelude.{◌≡◌, IfOk};

    /// An equal capability.
    pub fn copy(&self, alloc: Global) -> Result<Cap, AllocError>
        ensures { IfOk result (λ c. c ≡ self.now) }
    {
        Ok(match self {
            Cap::None => Cap::None,
            Cap::Object(object) => Cap::Object(*object),
            Cap::Promise(id) => Cap::Promise(*id),
            Cap::Import(id) => Cap::Import(*id),
            Cap::Pipelined(question, path) => Cap::Pipelined(*question, path.copy(alloc)?),
            Cap::Broken(exception) => Cap::Broken(exception.copy(alloc)?),
        })
    }
}

/// A capability table, as an application hands it over. Contracts see it as the list of its
/// capabilities.
pub struct Caps {
    caps: Vec<Cap>,
}

// Not derived: a crate that lets one go calls this function, and need not prove the drop of all that it holds.
impl Drop for Caps {
    fn drop(self) {
        let Caps { caps: _ } = self;
    }
}

impl Model for Caps {
    ghost use Rattle.std.specs.Prelude.{List};
    ghost use Rattle.cp_refs.specs.declared.cap.Cap.{Cap};

    ghost Value = { List Cap };

    ghost use Rattle.std.specs.Coded.{coded_list};
    ghost use Rattle.cp_refs.specs.contracts.cap.Cap.{the_row};

    ghost coded = { coded_list the_row.coded };

    ghost view = { λ c. c.caps.items };
}

impl Caps {
    ghost use Rattle.std.specs.Prelude.{◌≡◌, IfOk};

    /// These capabilities, in order.
    pub fn new(caps: Vec<Cap>) -> Caps
        ensures { result ≡ caps.items }
    {
        Caps { caps }
    }

    /// The capabilities, lent.
    pub fn caps(&self) -> &[Cap]
        ensures { result.now ≡ self.now }
    {
        &self.caps
    }

    /// The capabilities themselves.
    pub fn into_caps(self) -> Vec<Cap>
        ensures { result.items ≡ self }
    {
        let Caps { caps } = self;
        caps
    }

    /// An equal table.
    pub fn copy(&self, alloc: Global) -> Result<Caps, AllocError>
        ensures { IfOk result (λ c. c ≡ self.now) }
    {
        let caps = self.caps();
        let mut copied = Vec::with_capacity(alloc, caps.len())?;
        for cap in caps {
            copied.push(cap.copy(alloc)?)?;
        }
        Ok(Caps::new(copied))
    }
}
