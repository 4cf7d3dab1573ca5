//! What a promise was resolved to.

ghost use Rattle.std.specs.Prelude.{◌≡◌, true, IfOk};
ghost use Rattle.cp_messages.specs.Fitting.{resolution_fits};
ghost use Rattle.cp_messages.specs.Representable.{IsResolution, IsResolve};
ghost use Rattle.cp_messages.specs.Written.{resolution_number, resolution_pointer, resolve_written};
ghost use Rattle.cp_tree.specs.DraftOf.{draft_of};

use crate::data::{u16_part, u32_part};
use crate::descriptor::Descriptor;
use crate::draft::{null, struct_of};
use crate::exception::Exception;
use cp_tree::{Draft, UnknownEnumerant};
use std::alloc::{AllocError, Global};

/// The union of `struct Resolve` of rpc.capnp.
#[derive(Drop)]
pub enum Resolution {
    /// `cap @1 :CapDescriptor`.
    Cap(Descriptor),
    /// `exception @2 :Exception`.
    Exception(Exception),
    /// Any other number.
    Unknown(UnknownEnumerant<1>),
}

/// `struct Resolve` of rpc.capnp.
#[derive(Drop)]
pub struct Resolve {
    /// `promiseId @0 :ExportId`.
    pub promise_id: u32,
    /// Its union.
    pub resolution: Resolution,
}

impl Resolve {
    /// `promiseId @0 :ExportId`, u32.
    pub const PROMISE_ID: u32 = 0;
    /// The union's number, u16.
    pub const WHICH: u32 = 2;
    /// `cap @1 :CapDescriptor` and `exception @2 :Exception`, a pointer.
    pub const MEMBER: u32 = 0;

    /// An equal resolve.
    pub fn copy(&self, alloc: Global) -> Result<Resolve, AllocError>
        ensures { IfOk result (λ r. r ≡ self.now) }
    {
        Ok(Resolve {
            promise_id: self.promise_id,
            resolution: self.resolution.copy(alloc)?,
        })
    }

    /// The struct that the resolve is written as.
    pub(crate) fn draft(&self, alloc: Global) -> Result<Draft<'_>, AllocError>
        requires { resolution_fits self.now.resolution ≡ true }
        ensures made { IfOk result (λ d. draft_of d ≡ resolve_written self.now) }
        ensures held { IfOk result (λ d. IsResolve self.now) }
    {
        let (number, pointer) = self.resolution.parts(alloc);
        let word = u32_part(Resolve::PROMISE_ID, self.promise_id)
            + u16_part(Resolve::WHICH, number);
        struct_of(alloc, &[word], pointer?)
    }
}

impl Resolution {
    /// An equal resolution.
    pub fn copy(&self, alloc: Global) -> Result<Resolution, AllocError>
        ensures { IfOk result (λ r. r ≡ self.now) }
    {
        Ok(match self {
            Resolution::Cap(descriptor) => Resolution::Cap(descriptor.copy(alloc)?),
            Resolution::Exception(exception) => Resolution::Exception(exception.copy(alloc)?),
            Resolution::Unknown(number) => Resolution::Unknown(*number),
        })
    }

    /// Whether each list of what its member is written as is short enough.
    pub(crate) fn fits(&self) -> bool
        ensures { result ≡ resolution_fits self.now }
    {
        match self {
            Resolution::Cap(descriptor) => descriptor.fits(),
            Resolution::Exception(exception) => exception.fits(),
            Resolution::Unknown(_) => true,
        }
    }

    /// Its member's number, and what its pointer stands for.
    fn parts(&self, alloc: Global) -> (u16, Result<Draft<'_>, AllocError>)
        requires { resolution_fits self.now ≡ true }
        ensures number { result.0 ≡ resolution_number self.now }
        ensures pointer { IfOk result.1 (λ d. draft_of d ≡ resolution_pointer self.now) }
        ensures held { IfOk result.1 (λ d. IsResolution self.now) }
    {
        match self {
            Resolution::Cap(descriptor) => (0, descriptor.draft(alloc)),
            Resolution::Exception(exception) => (1, exception.draft(alloc)),
            Resolution::Unknown(number) => (number.number(), Ok(null())),
        }
    }
}
