//! Reading messages of numbers alone: bootstraps, finishes and releases.

ghost use Rattle.std.specs.Prelude.{◌≡◌};
ghost use Rattle.cp_messages.specs.Denoted.{bootstrap_denoted, finish_denoted, release_denoted};

use cp_fields::{bit_at, u32_at};
use cp_messages::{Bootstrap, Finish, Release};

/// The bootstrap that a struct's data words say.
pub(crate) fn bootstrap_of(words: &[u64]) -> Bootstrap
    ensures { result ≡ bootstrap_denoted words.now }
{
    Bootstrap {
        question_id: u32_at(words, Bootstrap::QUESTION_ID),
    }
}

/// The finish that a struct's data words say.
pub(crate) fn finish_of(words: &[u64]) -> Finish
    ensures { result ≡ finish_denoted words.now }
{
    // The flag's default is true, so its bit is stored inverted.
    Finish {
        question_id: u32_at(words, Finish::QUESTION_ID),
        release_result_caps: !bit_at(words, Finish::RELEASE_RESULT_CAPS),
    }
}

/// The release that a struct's data words say.
pub(crate) fn release_of(words: &[u64]) -> Release
    ensures { result ≡ release_denoted words.now }
{
    Release {
        id: u32_at(words, Release::ID),
        reference_count: u32_at(words, Release::REFERENCE_COUNT),
    }
}
