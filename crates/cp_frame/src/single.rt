//! Frames of one segment that come whole.

ghost use Rattle.std.specs.Prelude.{◌≡◌, ◌*◌, [], IfOk, IfSome, OnOk, length};
ghost use Rattle.cp_packed.specs.Words.{words_in};
ghost use Rattle.cp_frame.specs.Single.{BeginsWithOne, TakesWhole};

use crate::spare::Spare;
use byteorder::{ByteOrder, LittleEndian};
use cp_packed::{take_in, word_of};
use cp_words::{Limits, Segments};
use std::alloc::{AllocError, Global};

/// How many bytes a word has.
const WORD: usize = 8;

/// How many words a short segment has at the most.
const SHORT: usize = 64;

/// Takes the frame that the bytes begin with, if it has one segment and has come whole: the number of
/// its bytes, the segment, and what follows it. The segment takes the spare buffer, where that suits it.
pub fn take_whole<'a>(
    alloc: Global,
    limits: Limits,
    spare: &mut Spare,
    bytes: &'a [u8],
) -> Result<Option<(u64, Segments, &'a [u8])>, AllocError>
    ensures { IfOk result (λ taken. IfSome taken (λ t. TakesWhole limits bytes.now t.0 t.1 t.2.now)) }
{
    let Some(size) = size_of_one(limits, bytes) else {
        return Ok(None);
    };
    let (_, body) = bytes.split_at(WORD);
    let (front, back) = body.split_at(WORD * size);
    let mut words = spare.buffer_for(alloc, size, size)?;
    take_segment(&mut words, size, front)?;
    let taken = (WORD + WORD * size) as u64;
    Ok(Some((taken, Segments::one(words), back)))
}

/// How many words the one segment has whose frame these bytes begin with. `None` where there are
/// several, where its size passes the limit, or where bytes of it are missing.
fn size_of_one(limits: Limits, bytes: &[u8]) -> Option<usize>
    ensures { IfSome result (λ size. BeginsWithOne limits bytes.now size) }
{
    if bytes.len() < WORD {
        return None;
    }
    let (first, body) = bytes.split_at(WORD);
    let table = word_of(first);
    let size = (table / 0x1_0000_0000) as usize;
    let is_one = table % 0x1_0000_0000 == 0;
    if is_one && size <= limits.frame_words() as usize && size <= body.len() / WORD {
        Some(size)
    } else {
        None
    }
}

/// Takes the words of a segment. Those of a short one are read over zeros, which takes less time to begin.
fn take_segment(words: &mut Vec<u64>, size: usize, bytes: &[u8]) -> Result<(), AllocError>
    requires none { words.old.items ≡ [] }
    requires whole { length bytes.now ≡ 8 * size }
    ensures { OnOk result (words.new.items ≡ words_in bytes.now) }
{
    if SHORT < size {
        return take_in(words, bytes);
    }
    words.resize(size, 0)?;
    LittleEndian::read_u64_into(bytes, words);
    Ok(())
}
