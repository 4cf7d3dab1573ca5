//! C's handle on a reader.

ghost use Rattle.std.specs.Prelude.{◌≡◌, Option, None, Some};
ghost use Rattle.std.specs.Coded.{coded_option};
ghost use Rattle.c_handles.specs.declared.reader.ReaderState.{ReaderState};
ghost use Rattle.c_handles.specs.contracts.reader.ReaderState.{the_row as reader_row};
ghost use Rattle.c_handles.specs.Handle.{handle_owns, Took, TookBox};

use crate::loose::Loose;
use crate::reader::ReaderState;
use std::alloc::Global;
use std::marker::Model;
use std::{mem, ptr};

/// What C keeps of a reader. All zeros, it is closed and owns nothing.
#[repr(C)]
pub struct ReaderHandle {
    at: *mut u8,
    alloc: Global,
    is_open: bool,
    pub ghost value: { Option ReaderState } by { coded_option reader_row.coded },
}

impl Model for ReaderHandle {
    ghost also_owns = { λ h. handle_owns reader_row h.alloc h.at h.is_open h.value };
}

impl Drop for ReaderHandle {
    fn drop(self) {
        if let Some(reader) = self.into_loose() {
            drop(reader.into_box());
        }
    }
}

impl ReaderHandle {
    /// A closed one.
    fn closed(alloc: Global) -> ReaderHandle
        ensures { result.value ≡ None }
    {
        ReaderHandle {
            at: ptr::null_mut(),
            alloc,
            is_open: false,
        }
    }

    /// One that owns the reader.
    fn of(reader: Loose<ReaderState, Global>) -> ReaderHandle
        ensures { result.value ≡ Some reader.value }
    {
        let Loose { at, alloc } = reader;
        ReaderHandle {
            at: at as *mut u8,
            alloc,
            is_open: true,
        }
    }

    /// The reader that it owns, if it is open.
    fn into_loose(self) -> Option<Loose<ReaderState, Global>>
        ensures { Took self.value result }
    {
        let ReaderHandle { at, alloc, is_open } = self;
        if is_open {
            return Some(Loose {
                at: at as *mut ReaderState,
                alloc,
            });
        }
        None
    }

    /// Takes the reader out, and leaves the handle closed.
    pub fn take(&mut self, alloc: Global) -> Option<Box<ReaderState>>
        ensures took { TookBox self.old.value result }
        ensures closed { self.new.value ≡ None }
    {
        match mem::replace(self, ReaderHandle::closed(alloc)).into_loose() {
            Some(reader) => Some(reader.into_box()),
            None => None,
        }
    }

    /// Puts a reader in, and lets go of the one that was there.
    pub fn put(&mut self, reader: Box<ReaderState>)
        ensures { self.new.value ≡ Some reader.value }
    {
        *self = ReaderHandle::of(Loose::of(reader));
    }

    /// Lets go of the reader, if there is one.
    pub fn close(&mut self, alloc: Global)
        ensures { self.new.value ≡ None }
    {
        *self = ReaderHandle::closed(alloc);
    }
}
