//! Struct and list words, whose bodies lie in their own segments: most pointers of a message are such.

ghost use Rattle.std.specs.Prelude.{◌≡◌, ◌<◌, ◌%◌, ◌/◌, ◌^◌};
ghost use Rattle.cp_words.specs.Word.{high_of, offset_of, size_of};
ghost use Rattle.cp_reading.specs.Near.{Near};
ghost use Rattle.cp_reading.specs.Reading.{start_of};
ghost use Rattle.cp_words.specs.declared.kind.BodyKind.TheVariants.{Struct};

use crate::target::{PointerTarget, start_from};
use cp_words::{BodyKind, Place, offset_of, size_of};

/// The body of a struct word.
#[inline(always)]
pub(crate) fn struct_target(at: Place, word: u64) -> PointerTarget
    requires small { at.word < 2 ^ 63 }
    requires some { 0 < word }
    requires kind { word % 4 ≡ 0 }
    ensures near { Near at word result }
    ensures here { result.segment ≡ at.segment }
    ensures kind { result.kind ≡ Struct (high_of word % 2 ^ 16) (high_of word / 2 ^ 16) }
{
    let high = word / 0x1_0000_0000;
    PointerTarget {
        kind: BodyKind::Struct {
            words: (high % 0x1_0000) as u16,
            ptrs: (high / 0x1_0000) as u16,
        },
        segment: at.segment,
        start: near_start(at.word, word),
    }
}

/// The body of a list word.
#[inline(always)]
pub(crate) fn list_target(at: Place, word: u64) -> PointerTarget
    requires small { at.word < 2 ^ 63 }
    requires kind { word % 4 ≡ 1 }
    ensures near { Near at word result }
    ensures here { result.segment ≡ at.segment }
{
    let high = word / 0x1_0000_0000;
    PointerTarget {
        kind: BodyKind::List {
            size: size_of(high % 8),
            count: (high / 8) as u32,
        },
        segment: at.segment,
        start: near_start(at.word, word),
    }
}

/// Where the body of a struct or list word begins, unless that is before its segment.
#[inline(always)]
fn near_start(at: usize, word: u64) -> Option<usize>
    requires { at < 2 ^ 63 }
    ensures { result ≡ start_of at (offset_of word) }
{
    start_from(at, offset_of(word))
}
