//! What calls of a vat gave.

use crate::effect::Effects;
use crate::event::Value;
use crate::fault::VatFault;
use std::marker::Model;

/// What a call of a vat gave: its value, and the effects in order.
#[derive(Drop)]
pub struct Acted<V> {
    pub value: V,
    pub effects: Effects,
}

/// Numbers, in order. Contracts see them as their list.
pub struct Ids {
    ids: Vec<u32>,
}

// Not derived: a crate that lets one go calls this function, and need not prove the drop of all that it holds.
impl Drop for Ids {
    fn drop(self) {
        let Ids { ids: _ } = self;
    }
}

impl Model for Ids {
    ghost use Rattle.std.specs.Prelude.{ℕ, List};

    ghost Value = { List ℕ };

    ghost view = { λ i. i.ids.items };
}

impl Ids {
    ghost use Rattle.std.specs.Prelude.{◌≡◌};

    /// These numbers, in order.
    pub fn new(ids: Vec<u32>) -> Ids
        ensures { result ≡ ids.items }
    {
        Ids { ids }
    }

    /// The numbers, lent.
    pub fn ids(&self) -> &[u32]
        ensures { result.now ≡ self.now }
    {
        &self.ids
    }

    /// The numbers themselves.
    pub fn into_ids(self) -> Vec<u32>
        ensures { result.items ≡ self }
    {
        let Ids { ids } = self;
        ids
    }
}

/// The imports and the promises that aren't in use.
#[derive(Drop)]
pub struct Idle {
    /// Rising.
    pub imports: Ids,
    /// Rising.
    pub promises: Ids,
}

/// What a list of events gave: what each did before the first refusal, and the refused event's place
/// with what it was refused for.
#[derive(Drop)]
pub struct Ran {
    pub done: Vec<Acted<Value>>,
    pub refused: Option<(usize, VatFault)>,
}
