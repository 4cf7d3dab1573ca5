//! Words of 64 bits made of bytes.

ghost use Rattle.std.specs.Prelude.{◌≡◌, ◌≤◌, ◌+◌, ◌++◌, min, max, OnOk, length};
ghost use Rattle.std.specs.Vec.{vec_len, vec_capacity};
ghost use Rattle.std.specs.Int.{to_le_bytes, w64};
ghost use Rattle.cp_packed.specs.Words.{words_in};

use byteorder::{ByteOrder, LittleEndian};
use std::alloc::AllocError;

/// The word of 64 bits that eight bytes are, the lowest first.
pub fn word_of(bytes: &[u8]) -> u64
    requires { length bytes.now ≡ 8 }
    ensures { to_le_bytes w64 result ≡ bytes.now }
{
    LittleEndian::read_u64(bytes)
}

/// Makes capacity for `taken` words that have come, where `missing` words are missing in all. Where there is too little, it makes
/// capacity for as many as there are, or have come if these are more, but for no more than are missing. The error is an
/// allocation failure.
pub fn reserve_words(words: &mut Vec<u64>, taken: usize, missing: usize) -> Result<(), AllocError>
    ensures items { OnOk result (words.new.items ≡ words.old.items) }
    ensures capacity { OnOk result (vec_len words.new + min taken missing ≤ vec_capacity words.new) }
    ensures few { OnOk result (vec_capacity words.new ≤ max (vec_capacity words.old) (vec_len words.old + min missing (max (vec_len words.old) taken))) }
{
    let spare = words.capacity() - words.len();
    if spare < taken {
        // At most doubles what has come, so that a peer pays for memory with bytes.
        words.reserve_exact(missing.min(words.len().max(taken)))?;
    }
    Ok(())
}

/// Takes the words of these bytes after others, eight bytes each, the lowest first; bytes after the last whole word
/// are left out. The error is an allocation failure.
pub fn take_in(words: &mut Vec<u64>, bytes: &[u8]) -> Result<(), AllocError>
    ensures { OnOk result (words.new.items ≡ words.old.items ++ words_in bytes.now) }
{
    words.extend(
        bytes
            .as_chunks::<8>()
            .0
            .iter()
            .map(|bytes| u64::from_le_bytes(*bytes)),
    )
}
