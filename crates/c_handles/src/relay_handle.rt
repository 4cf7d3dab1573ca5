//! C's handle on a relay.

ghost use Rattle.std.specs.Prelude.{◌≡◌, Option, None, Some};
ghost use Rattle.std.specs.Coded.{coded_option};
ghost use Rattle.c_handles.specs.declared.relay.RelayState.{RelayState};
ghost use Rattle.c_handles.specs.contracts.relay.RelayState.{the_row as relay_row};
ghost use Rattle.c_handles.specs.Handle.{handle_owns, Took, TookBox};

use crate::loose::Loose;
use crate::relay::RelayState;
use std::alloc::Global;
use std::marker::Model;
use std::{mem, ptr};

/// What C keeps of a relay. All zeros, it is closed and owns nothing.
#[repr(C)]
pub struct RelayHandle {
    at: *mut u8,
    alloc: Global,
    is_open: bool,
    pub ghost value: { Option RelayState } by { coded_option relay_row.coded },
}

impl Model for RelayHandle {
    ghost also_owns = { λ h. handle_owns relay_row h.alloc h.at h.is_open h.value };
}

impl Drop for RelayHandle {
    fn drop(self) {
        if let Some(relay) = self.into_loose() {
            drop(relay.into_box());
        }
    }
}

impl RelayHandle {
    /// A closed one.
    fn closed(alloc: Global) -> RelayHandle
        ensures { result.value ≡ None }
    {
        RelayHandle {
            at: ptr::null_mut(),
            alloc,
            is_open: false,
        }
    }

    /// One that owns the relay.
    fn of(relay: Loose<RelayState, Global>) -> RelayHandle
        ensures { result.value ≡ Some relay.value }
    {
        let Loose { at, alloc } = relay;
        RelayHandle {
            at: at as *mut u8,
            alloc,
            is_open: true,
        }
    }

    /// The relay that it owns, if it is open.
    fn into_loose(self) -> Option<Loose<RelayState, Global>>
        ensures { Took self.value result }
    {
        let RelayHandle { at, alloc, is_open } = self;
        if is_open {
            return Some(Loose {
                at: at as *mut RelayState,
                alloc,
            });
        }
        None
    }

    /// Takes the relay out, and leaves the handle closed.
    pub fn take(&mut self, alloc: Global) -> Option<Box<RelayState>>
        ensures took { TookBox self.old.value result }
        ensures closed { self.new.value ≡ None }
    {
        match mem::replace(self, RelayHandle::closed(alloc)).into_loose() {
            Some(relay) => Some(relay.into_box()),
            None => None,
        }
    }

    /// Puts a relay in, and lets go of the one that was there.
    pub fn put(&mut self, relay: Box<RelayState>)
        ensures { self.new.value ≡ Some relay.value }
    {
        *self = RelayHandle::of(Loose::of(relay));
    }

    /// Lets go of the relay, if there is one.
    pub fn close(&mut self, alloc: Global)
        ensures { self.new.value ≡ None }
    {
        *self = RelayHandle::closed(alloc);
    }
}
