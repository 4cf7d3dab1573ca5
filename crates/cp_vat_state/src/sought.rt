//! What is looked for among capabilities.

use cp_refs::{Cap, Gate, PromiseId};

/// What is looked for among capabilities, and at the gates where calls wait.
#[derive(Clone, Copy)]
pub(crate) enum Sought {
    Import(u32),
    Promise(PromiseId),
    Object(u32),
    /// What the question gives at any path.
    PathOf(u32),
}

impl Sought {
    ghost use Rattle.std.specs.Prelude.{◌≡◌};
    ghost use Rattle.cp_vat_state.specs.Sought.{named_by, awaited_at, key_of};

    /// The number under which it is counted.
    pub(crate) fn key(self) -> u64
        ensures { result ≡ key_of self }
    {
        // Four kinds, so that no two have one number.
        match self {
            Sought::Import(id) => 4 * (id as u64),
            Sought::Promise(id) => 4 * (id as u64) + 1,
            Sought::Object(id) => 4 * (id as u64) + 2,
            Sought::PathOf(id) => 4 * (id as u64) + 3,
        }
    }

    /// What a capability is found as.
    pub(crate) fn named_by(cap: &Cap) -> Option<Sought>
        ensures { result ≡ named_by cap.now }
    {
        match cap {
            Cap::Import(id) => Some(Sought::Import(*id)),
            Cap::Promise(id) => Some(Sought::Promise(*id)),
            Cap::Object(id) => Some(Sought::Object(*id)),
            Cap::Pipelined(id, _) => Some(Sought::PathOf(*id)),
            Cap::None | Cap::Broken(_) => None,
        }
    }

    /// What a call waits for at a gate.
    pub(crate) fn awaited_at(gate: &Gate) -> Option<Sought>
        ensures { result ≡ awaited_at gate.now }
    {
        match gate {
            Gate::Promise(id) => Some(Sought::Promise(*id)),
            Gate::Question(id, _) => Some(Sought::PathOf(*id)),
            // A call at an embargo doesn't hold the import that it named: the embargo holds what it leads to.
            Gate::Answer(_, _) | Gate::Embargo(_) => None,
        }
    }
}
