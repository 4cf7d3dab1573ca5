//! Packed words read group by group: slow, for comparing with what reads them byte by byte.

ghost use Rattle.std.specs.Prelude.{◌≡◌, ◌<◌, ◌+◌, List, ℕ, IfOk, IfSome, IsTrue, is_some, length};
ghost use Rattle.cp_packed.specs.Packed.{Packed};
ghost use Rattle.cp_packed.specs.Decoding.{TakesHeader, TakesNone};

use crate::group::{header, spread};
use crate::words::word_of;
use std::alloc::{AllocError, Global};

/// The words that packed bytes give, if they do (encoding specification, "Packing"), read group by group, slowly: it is to compare
/// `unpack` with. The error is an allocation failure.
pub fn decode(alloc: Global, bytes: &[u8]) -> Result<Option<Vec<u64>>, AllocError>
    ensures some { IfOk result (λ found. IfSome found (λ words. Packed words.items bytes.now)) }
    ensures only { (ws : List ℕ) → Packed ws bytes.now → IfOk result (λ found. IsTrue (is_some found)) }
{
    let mut words = Vec::new(alloc);
    let mut run = 0;
    let mut left = bytes;
    'decoding: while !left.is_empty() {
        if 0 < run {
            if left.len() < 8 {
                return Ok(None);
            }
            let (word, back) = left.split_at(8);
            words.push(word_of(word))?;
            run -= 1;
            left = back;
            continue;
        }
        let Some((count, back)) = take_header(&mut words, left)? else {
            return Ok(None);
        };
        run = count;
        left = back;
    }
    if run == 0 {
        return Ok(Some(words));
    }
    Ok(None)
}

/// Takes the bytes of a group before the further words of a raw run. Gives how many of these are
/// still to come, and what follows; or nothing, where bytes are missing.
fn take_header<'a>(
    words: &mut Vec<u64>,
    left: &'a [u8],
) -> Result<Option<(usize, &'a [u8])>, AllocError>
    requires { 0 < length left.now }
    ensures none { IfOk result (λ taken. TakesNone left.now taken) }
    ensures some { IfOk result (λ taken. IfSome taken (λ t. TakesHeader words.old.items left.now words.new.items t.0 t.1.now)) }
    ensures shorter { IfOk result (λ taken. IfSome taken (λ t. length t.1.now < length left.now)) }
{
    let tag = left[0];
    let (_, after) = left.split_at(1);
    let length = header(tag) - 1;
    if after.len() < length {
        return Ok(None);
    }
    let (bytes, back) = after.split_at(length);
    if tag == 0 {
        words.resize(words.len() + bytes[0] as usize + 1, 0)?;
        return Ok(Some((0, back)));
    }
    let (word, _) = spread(tag, bytes);
    words.push(u64::from_le_bytes(word))?;
    let run = if tag == 255 { bytes[8] as usize } else { 0 };
    Ok(Some((run, back)))
}
