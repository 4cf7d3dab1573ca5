//! Messages of numbers alone: bootstraps, finishes and releases.

ghost use Rattle.std.specs.Prelude.{◌≡◌, IfOk};
ghost use Rattle.cp_tree.specs.DraftOf.{draft_of};
ghost use Rattle.cp_messages.specs.Representable.{IsBootstrap, IsFinish, IsRelease};
ghost use Rattle.cp_messages.specs.Written.{bootstrap_written, finish_written, release_written};

use crate::data::{bit_part, u32_part};
use crate::draft::{null, struct_of, words_of};
use cp_tree::Draft;
use std::alloc::{AllocError, Global};

/// `struct Bootstrap` of rpc.capnp.
#[derive(Clone, Copy, PartialEq, Eq, Debug)]
pub struct Bootstrap {
    /// `questionId @0 :QuestionId`.
    pub question_id: u32,
}

/// `struct Finish` of rpc.capnp.
#[derive(Clone, Copy, PartialEq, Eq, Debug)]
pub struct Finish {
    /// `questionId @0 :QuestionId`.
    pub question_id: u32,
    /// `releaseResultCaps @1 :Bool = true`.
    pub release_result_caps: bool,
}

/// `struct Release` of rpc.capnp.
#[derive(Clone, Copy, PartialEq, Eq, Debug)]
pub struct Release {
    /// `id @0 :ImportId`.
    pub id: u32,
    /// `referenceCount @1 :UInt32`.
    pub reference_count: u32,
}

impl Bootstrap {
    /// `questionId @0 :QuestionId`, u32.
    pub const QUESTION_ID: u32 = 0;

    /// The struct that it is written as.
    pub(crate) fn draft<'a>(self, alloc: Global) -> Result<Draft<'a>, AllocError>
        ensures made { IfOk result (λ d. draft_of d ≡ bootstrap_written self) }
        ensures held { IfOk result (λ d. IsBootstrap self) }
    {
        let word = u32_part(Bootstrap::QUESTION_ID, self.question_id);
        struct_of(alloc, &[word], null())
    }
}

impl Finish {
    /// `questionId @0 :QuestionId`, u32.
    pub const QUESTION_ID: u32 = 0;
    /// `releaseResultCaps @1 :Bool = true`, a bit whose default is true.
    pub const RELEASE_RESULT_CAPS: u32 = 32;

    /// The struct that it is written as.
    pub(crate) fn draft<'a>(self, alloc: Global) -> Result<Draft<'a>, AllocError>
        ensures made { IfOk result (λ d. draft_of d ≡ finish_written self) }
        ensures held { IfOk result (λ d. IsFinish self) }
    {
        // The flag's default is true, so its bit is stored inverted.
        let word = u32_part(Finish::QUESTION_ID, self.question_id)
            + bit_part(Finish::RELEASE_RESULT_CAPS, !self.release_result_caps);
        Ok(Draft::Struct(words_of(alloc, &[word])?))
    }
}

impl Release {
    /// `id @0 :ImportId`, u32.
    pub const ID: u32 = 0;
    /// `referenceCount @1 :UInt32`.
    pub const REFERENCE_COUNT: u32 = 1;

    /// The struct that it is written as.
    pub(crate) fn draft<'a>(self, alloc: Global) -> Result<Draft<'a>, AllocError>
        ensures made { IfOk result (λ d. draft_of d ≡ release_written self) }
        ensures held { IfOk result (λ d. IsRelease self) }
    {
        let word = u32_part(Release::ID, self.id)
            + u32_part(Release::REFERENCE_COUNT, self.reference_count);
        Ok(Draft::Struct(words_of(alloc, &[word])?))
    }
}
