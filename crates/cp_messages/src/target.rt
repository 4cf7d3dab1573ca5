//! What a call or a disembargo is sent to.

ghost use Rattle.std.specs.Prelude.{◌≡◌, IfOk};
ghost use Rattle.cp_messages.specs.Fitting.{target_fits};
ghost use Rattle.cp_messages.specs.Representable.{IsTarget};
ghost use Rattle.cp_messages.specs.Written.{target_number, target_id, target_pointer, target_written};
ghost use Rattle.cp_tree.specs.DraftOf.{draft_of};

use crate::data::{u16_part, u32_part};
use crate::draft::{null, struct_of};
use crate::promised_answer::PromisedAnswer;
use cp_tree::{Draft, UnknownEnumerant};
use std::alloc::{AllocError, Global};

/// `struct MessageTarget` of rpc.capnp.
#[derive(Drop)]
pub enum Target {
    /// `importedCap @0 :ImportId`.
    ImportedCap(u32),
    /// `promisedAnswer @1 :PromisedAnswer`.
    PromisedAnswer(PromisedAnswer),
    /// Any other number.
    Unknown(UnknownEnumerant<1>),
}

impl Target {
    /// The union's number, u16.
    pub const WHICH: u32 = 2;
    /// `importedCap @0 :ImportId`, u32.
    pub const IMPORTED_CAP: u32 = 0;
    /// `promisedAnswer @1 :PromisedAnswer`, a pointer.
    pub const PROMISED_ANSWER: u32 = 0;

    /// An equal target.
    pub fn copy(&self, alloc: Global) -> Result<Target, AllocError>
        ensures { IfOk result (λ t. t ≡ self.now) }
    {
        Ok(match self {
            Target::ImportedCap(id) => Target::ImportedCap(*id),
            Target::PromisedAnswer(answer) => Target::PromisedAnswer(answer.copy(alloc)?),
            Target::Unknown(number) => Target::Unknown(*number),
        })
    }

    /// Whether each list of the struct that the target is written as is short enough.
    pub(crate) fn fits(&self) -> bool
        ensures { result ≡ target_fits self.now }
    {
        match self {
            Target::PromisedAnswer(answer) => answer.fits(),
            _ => true,
        }
    }

    /// Its member's number, the number that the member carries, and what its pointer stands for.
    fn parts<'a>(&self, alloc: Global) -> (u16, u32, Result<Draft<'a>, AllocError>)
        ensures number { result.0 ≡ target_number self.now }
        ensures id { result.1 ≡ target_id self.now }
        ensures pointer { IfOk result.2 (λ d. draft_of d ≡ target_pointer self.now) }
        ensures held { IfOk result.2 (λ d. IsTarget self.now) }
    {
        match self {
            Target::ImportedCap(id) => (0, *id, Ok(null())),
            Target::PromisedAnswer(answer) => (1, 0, answer.draft(alloc)),
            Target::Unknown(number) => (number.number(), 0, Ok(null())),
        }
    }

    /// The struct that the target is written as.
    pub(crate) fn draft<'a>(&self, alloc: Global) -> Result<Draft<'a>, AllocError>
        ensures made { IfOk result (λ d. draft_of d ≡ target_written self.now) }
        ensures held { IfOk result (λ d. IsTarget self.now) }
    {
        let (number, id, pointer) = self.parts(alloc);
        let word = u32_part(Target::IMPORTED_CAP, id) + u16_part(Target::WHICH, number);
        struct_of(alloc, &[word], pointer?)
    }
}
