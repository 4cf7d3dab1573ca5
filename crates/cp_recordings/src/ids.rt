//! Numbers of exports, in order.

ghost use Rattle.std.specs.Prelude.{◌≡◌, ◌<◌, ◌++◌, [], OnOk, option_to_list, length, slice_index};

use std::alloc::{AllocError, AllocFailed, Global};
use std::marker::Model;

/// Numbers of exports, in order. Contracts see them as a list.
#[derive(Drop)]
pub(crate) struct Ids {
    ids: Vec<u32>,
}

impl Model for Ids {
    ghost use Rattle.std.specs.Prelude.{ℕ, List};
    ghost use Rattle.std.specs.Coded.{coded_ℕ};

    ghost Value = { List ℕ };

    ghost view = { λ i. i.ids.items };
}

impl Ids {
    /// No numbers.
    pub(crate) fn new(alloc: Global) -> Ids
        ensures { result ≡ [] }
    {
        Ids {
            ids: Vec::new(alloc),
        }
    }

    /// How many there are.
    pub(crate) fn len(&self) -> usize
        ensures { result ≡ length self.now }
    {
        self.ids.len()
    }

    /// The one at a place.
    pub(crate) fn id(&self, place: usize) -> u32
        requires { place < length self.now }
        ensures { result ≡ slice_index self.now place }
    {
        self.ids[place]
    }

    /// Adds a number at the end, if there is one.
    pub(crate) fn add(&mut self, id: Option<u32>) -> Result<(), AllocError>
        ensures { OnOk result (self.new ≡ self.old ++ option_to_list id) }
    {
        match id {
            Some(id) => Ok(self.ids.push(id)?),
            None => Ok(()),
        }
    }
}
