//! Objects that went.

ghost use Rattle.std.specs.Prelude.{◌≡◌, []};

use crate::call_queue::CallQueue;
use cp_vat_machine::Ids;
use std::alloc::Global;

/// What an object leaves that was told its end and went.
#[derive(Drop)]
pub struct Departed {
    /// The imports that it held, which are to be given up.
    pub imports: Ids,
    /// The calls that it made last, in order. Nobody is told what they come to.
    pub next_calls: CallQueue,
}

impl Departed {
    /// Nothing.
    pub(crate) fn none(alloc: Global) -> Departed
        ensures { result ≡ record { imports = []; next_calls = [] } }
    {
        Departed {
            imports: Ids::new(Vec::new(alloc)),
            next_calls: CallQueue::new(alloc),
        }
    }
}
