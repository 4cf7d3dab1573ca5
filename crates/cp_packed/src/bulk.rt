//! Groups of the packed form taken at once, as far as they have come and their words fit.

ghost use Rattle.std.specs.Prelude.{◌≡◌, ◌<◌, ◌-◌, IfOk, length, replicate};
ghost use Rattle.cp_packed.specs.Groups.{TakesGroups, IsAtEnd, FillsFront};

use crate::group::header;
use crate::scatter::scattered;
use crate::spelling::LONGEST;
use crate::words::{reserve_words, take_in};
use std::alloc::AllocError;

/// How many words are made at once for groups that are taken one after another.
const BLOCK: usize = 512;

/// Takes words of a raw run, of which `run` are to come, and groups, while `words` has fewer than `most`: none that
/// would bring more, or leave a raw run open there. Gives back the bytes that follow; a group that begins less than ten
/// bytes before their end is among these. The error is an allocation failure.
pub fn take_groups<'a>(
    words: &mut Vec<u64>,
    run: &mut usize,
    most: usize,
    left: &'a [u8],
) -> Result<&'a [u8], AllocError>
    requires more { length words.old.items < most }
    requires few { run.old < 256 }
    ensures takes { IfOk result (λ back. TakesGroups most words.old.items run.old left.now words.new.items run.new back.now) }
    ensures ends { IfOk result (λ back. IsAtEnd (most - length words.new.items) run.new back.now) }
{
    let mut left = left;
    'taking: while words.len() < most {
        let back = if *run == 0 {
            take_some(words, run, most, left)?
        } else {
            take_run(words, run, most, left)?
        };
        // What is left is taken byte by byte.
        if back.len() == left.len() {
            return Ok(back);
        }
        left = back;
    }
    Ok(left)
}

/// Takes groups, one of them at the least where it has come and fits.
fn take_some<'a>(
    words: &mut Vec<u64>,
    run: &mut usize,
    most: usize,
    left: &'a [u8],
) -> Result<&'a [u8], AllocError>
    requires more { length words.old.items < most }
    requires none { run.old ≡ 0 }
    ensures takes { IfOk result (λ back. TakesGroups most words.old.items run.old left.now words.new.items run.new back.now) }
    ensures ends { IfOk result (λ back. length back.now ≡ length left.now → IsAtEnd (most - length words.new.items) run.new back.now) }
{
    // Most groups go in blocks. A raw run's header, or what a block has no room for, goes alone.
    let back = take_block(words, most, left)?;
    if back.len() < left.len() {
        return Ok(back);
    }
    take_header(words, run, most, left)
}

/// Takes runs of zero words and groups of one word into words made for many of them at once.
fn take_block<'a>(words: &mut Vec<u64>, most: usize, left: &'a [u8]) -> Result<&'a [u8], AllocError>
    requires more { length words.old.items < most }
    ensures { IfOk result (λ back. TakesGroups most words.old.items 0 left.now words.new.items 0 back.now) }
{
    // A group's bytes are read together, so the longest group must have come.
    if left.len() < LONGEST || left[0] == 255 {
        return Ok(left);
    }
    let start = words.len();
    let missing = most - start;
    let block = missing.min(BLOCK);
    reserve_words(words, block, missing)?;
    // Made as zeros, so that a run of zero words writes nothing more.
    words.resize(start + block, 0)?;
    let (filled, back) = fill(&mut words[start..], left);
    words.truncate(start + filled);
    Ok(back)
}

/// Takes runs of zero words and groups of one word, one after another: how many words they fill, and
/// what follows them.
fn fill<'a>(block: &mut [u64], left: &'a [u8]) -> (usize, &'a [u8])
    requires zeros { block.old ≡ replicate (length block.old) 0 }
    ensures { FillsFront (length block.old) left.now block.new result.0 result.1.now }
{
    let mut filled = 0;
    let mut left = left;
    'filling: while filled < block.len() {
        let (count, back) = take_short(&mut block[filled..], left);
        if count == 0 {
            return (filled, left);
        }
        filled += count;
        left = back;
    }
    (filled, left)
}

/// Takes a run of zero words or a group of one word into words that are zero, if it has come and
/// fits: how many words it fills, and what follows it.
fn take_short<'a>(block: &mut [u64], left: &'a [u8]) -> (usize, &'a [u8])
    requires some { 0 < length block.old }
    requires zeros { block.old ≡ replicate (length block.old) 0 }
    ensures { FillsFront (length block.old) left.now block.new result.0 result.1.now }
{
    if left.len() < LONGEST {
        return (0, left);
    }
    let tag = left[0];
    let (_, after) = left.split_at(1);
    let (bytes, back) = after.split_at(header(tag) - 1);
    if tag == 0 {
        let count = bytes[0] as usize + 1;
        if block.len() < count {
            return (0, left);
        }
        return (count, back);
    }
    // A word with a raw run after it goes through `take_header`.
    if tag == 255 && 0 < bytes[8] {
        return (0, left);
    }
    block[0] = u64::from_le_bytes(scattered(tag, after));
    (1, back)
}

/// Takes a group, up to the further words of a raw run, if it has come and fits.
fn take_header<'a>(
    words: &mut Vec<u64>,
    run: &mut usize,
    most: usize,
    left: &'a [u8],
) -> Result<&'a [u8], AllocError>
    requires more { length words.old.items < most }
    requires none { run.old ≡ 0 }
    ensures takes { IfOk result (λ back. TakesGroups most words.old.items run.old left.now words.new.items run.new back.now) }
    ensures ends { IfOk result (λ back. length back.now ≡ length left.now → IsAtEnd (most - length words.new.items) run.new back.now) }
{
    if left.len() < LONGEST {
        return Ok(left);
    }
    let missing = most - words.len();
    let tag = left[0];
    let (_, after) = left.split_at(1);
    let (bytes, back) = after.split_at(header(tag) - 1);
    if tag == 0 {
        let count = bytes[0] as usize + 1;
        // A run past the end is a fault, which has to show with its byte.
        if missing < count {
            return Ok(left);
        }
        reserve_words(words, count, missing)?;
        words.resize(words.len() + count, 0)?;
        return Ok(back);
    }
    let count = if tag == 255 { bytes[8] as usize } else { 0 };
    // The run would go past the end: that has to show with its byte.
    if missing == 1 && 0 < count {
        return Ok(left);
    }
    reserve_words(words, 1, missing)?;
    words.push(u64::from_le_bytes(scattered(tag, after)))?;
    *run = count;
    Ok(back)
}

/// Takes words of a raw run, one of them at the least where it has come and fits: one fewer than fit,
/// where the run goes on after them.
fn take_run<'a>(
    words: &mut Vec<u64>,
    run: &mut usize,
    most: usize,
    left: &'a [u8],
) -> Result<&'a [u8], AllocError>
    requires more { length words.old.items < most }
    requires some { 0 < run.old }
    requires few { run.old < 256 }
    ensures takes { IfOk result (λ back. TakesGroups most words.old.items run.old left.now words.new.items run.new back.now) }
    ensures ends { IfOk result (λ back. length back.now ≡ length left.now → IsAtEnd (most - length words.new.items) run.new back.now) }
{
    let wanted = *run;
    let missing = most - words.len();
    let fitting = if wanted <= missing {
        wanted
    } else {
        // One word short of the end: with the last one the fault shows, byte by byte.
        missing - 1
    };
    let count = fitting.min(left.len() / 8);
    let (front, back) = left.split_at(8 * count);
    reserve_words(words, count, missing)?;
    take_in(words, front)?;
    *run = wanted - count;
    Ok(back)
}
