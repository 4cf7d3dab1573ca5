//! An object of a connection.

ghost use Rattle.std.specs.Prelude.{◌≡◌, [], None};
ghost use Rattle.cp_objects.specs.Members.{departed, newborn};

use crate::call_queue::CallQueue;
use crate::departed::Departed;
use crate::numbers::Numbers;
use std::alloc::Global;

/// An object of a connection, with what is known of it.
#[derive(Drop)]
pub(crate) struct ObjectEntry<O> {
    pub(crate) object: O,
    /// How many calls it made, or is yet to make, whose outcome it isn't told yet.
    pub(crate) asked: u64,
    /// The calls that it is yet to make, in order.
    pub(crate) next_calls: CallQueue,
    /// The imports that it was given and didn't give up.
    pub(crate) holds: Numbers,
    /// The objects that it keeps.
    pub(crate) keeps: Numbers,
    /// When it is to be woken.
    pub(crate) alarm: Option<u64>,
}

impl<O: Drop> ObjectEntry<O> {
    /// An object that did nothing.
    pub(crate) fn new(alloc: Global, object: O) -> ObjectEntry<O>
        ensures { result ≡ newborn object }
    {
        ObjectEntry {
            object,
            asked: 0,
            next_calls: CallQueue::new(alloc),
            holds: Numbers::new(alloc),
            keeps: Numbers::new(alloc),
            alarm: None,
        }
    }

    /// It goes: the imports that it holds, and the calls that it is yet to make.
    pub(crate) fn into_departed(self) -> Departed
        ensures { result ≡ departed self }
    {
        let ObjectEntry {
            object,
            asked: _,
            next_calls,
            holds,
            keeps: _,
            alarm: _,
        } = self;
        drop(object);
        Departed {
            imports: holds.into_ids(),
            next_calls,
        }
    }
}
