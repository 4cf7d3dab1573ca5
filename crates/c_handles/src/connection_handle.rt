//! C's handle on a connection.

ghost use Rattle.std.specs.Prelude.{◌≡◌, Option, None, Some};
ghost use Rattle.std.specs.Coded.{coded_option};
ghost use Rattle.c_handles.specs.declared.connection.ConnectionState.{ConnectionState};
ghost use Rattle.c_handles.specs.contracts.connection.ConnectionState.{the_row as connection_row};
ghost use Rattle.c_handles.specs.Handle.{handle_owns, Took, TookBox};

use crate::connection::ConnectionState;
use crate::loose::Loose;
use std::alloc::Global;
use std::marker::Model;
use std::{mem, ptr};

/// What C keeps of a connection. All zeros, it is closed and owns nothing.
#[repr(C)]
pub struct ConnectionHandle {
    at: *mut u8,
    alloc: Global,
    is_open: bool,
    pub ghost value: { Option ConnectionState } by { coded_option connection_row.coded },
}

impl Model for ConnectionHandle {
    ghost also_owns = { λ h. handle_owns connection_row h.alloc h.at h.is_open h.value };
}

impl Drop for ConnectionHandle {
    fn drop(self) {
        if let Some(connection) = self.into_loose() {
            drop(connection.into_box());
        }
    }
}

impl ConnectionHandle {
    /// A closed one.
    fn closed(alloc: Global) -> ConnectionHandle
        ensures { result.value ≡ None }
    {
        ConnectionHandle {
            at: ptr::null_mut(),
            alloc,
            is_open: false,
        }
    }

    /// One that owns the connection.
    fn of(connection: Loose<ConnectionState, Global>) -> ConnectionHandle
        ensures { result.value ≡ Some connection.value }
    {
        let Loose { at, alloc } = connection;
        ConnectionHandle {
            at: at as *mut u8,
            alloc,
            is_open: true,
        }
    }

    /// The connection that it owns, if it is open.
    fn into_loose(self) -> Option<Loose<ConnectionState, Global>>
        ensures { Took self.value result }
    {
        let ConnectionHandle { at, alloc, is_open } = self;
        if is_open {
            return Some(Loose {
                at: at as *mut ConnectionState,
                alloc,
            });
        }
        None
    }

    /// Takes the connection out, and leaves the handle closed.
    pub fn take(&mut self, alloc: Global) -> Option<Box<ConnectionState>>
        ensures took { TookBox self.old.value result }
        ensures closed { self.new.value ≡ None }
    {
        match mem::replace(self, ConnectionHandle::closed(alloc)).into_loose() {
            Some(connection) => Some(connection.into_box()),
            None => None,
        }
    }

    /// Puts a connection in, and lets go of the one that was there.
    pub fn put(&mut self, connection: Box<ConnectionState>)
        ensures { self.new.value ≡ Some connection.value }
    {
        *self = ConnectionHandle::of(Loose::of(connection));
    }

    /// Lets go of the connection, if there is one.
    pub fn close(&mut self, alloc: Global)
        ensures { self.new.value ≡ None }
    {
        *self = ConnectionHandle::closed(alloc);
    }
}
