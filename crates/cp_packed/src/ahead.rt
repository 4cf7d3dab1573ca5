//! Groups of words of which many are zero, written over the front of bytes.

ghost use Rattle.std.specs.Prelude.{◌≡◌, ◌≤◌, ◌<◌, ◌+◌, ◌*◌, ◌++◌, ◌∷◌, [], ℕ, List, length, take, replicate};
ghost use Rattle.cp_packed.specs.Packed.{StartsWithout};
ghost use Rattle.cp_packed.specs.Packing.{PutsFront, HasRoom, IsMaskOf};

use crate::runs::{raw_run, zero_run};
use crate::spelling::{put_raw, put_sparse, put_zeros, tag_of};
use std::simd::prelude::*;

/// How many words a run of zeros takes at the least after its first before words are looked at ahead.
/// Most runs are short, and their end is found sooner word by word.
const MANY: usize = 7;

/// How many words are looked at ahead.
pub const AHEAD: usize = 64;

/// Writes the group that words begin with over the front of the block, and where it takes many zero words, groups after
/// it: how many bytes they take, and the words after them.
pub fn put_next<'a>(block: &mut [u8], words: &'a [u64]) -> (usize, &'a [u64])
    requires some { 0 < length words.now }
    requires room { HasRoom (length block.old) (length words.now) 321 }
    ensures front { PutsFront [] (take result.0 block.new) words.now result.1.now }
    ensures little { result.0 + 10 * length result.1.now ≤ 10 * length words.now }
    ensures shorter { length result.1.now < length words.now }
    ensures within { result.0 ≤ length block.new }
{
    let bytes = words[0].to_le_bytes();
    let tag = tag_of(&bytes);
    let (_, after) = words.split_at(1);
    if tag == 0 {
        return put_zero_words(block, after);
    }
    if tag < 255 {
        return (put_sparse(block, tag, &bytes), after);
    }
    let (run, back) = after.split_at(raw_run(after));
    (put_raw(block, &bytes, run), back)
}

/// Writes a zero word and the run of zero words after it over the front of the block, and where these are many, groups
/// after them: how many bytes they take, and the words after them.
fn put_zero_words<'a>(block: &mut [u8], after: &'a [u64]) -> (usize, &'a [u64])
    requires room { HasRoom (length block.old) (length after.now + 1) 321 }
    ensures front { PutsFront [] (take result.0 block.new) (0 ∷ after.now) result.1.now }
    ensures little { result.0 + 10 * length result.1.now ≤ 10 * length after.now + 10 }
    ensures shorter { length result.1.now ≤ length after.now }
    ensures within { result.0 ≤ length block.new }
{
    let (run, back) = after.split_at(zero_run(after));
    let size = put_zeros(block, run.len());
    // A mask needs all of its words.
    if run.len() < MANY || back.len() <= AHEAD {
        return (size, back);
    }
    let (more, rest) = put_ahead(&mut block[size..], back);
    (size + more, rest)
}

/// Writes groups of the next words over the front of the block, up to a word whose bytes all count: how many bytes they
/// take, and the words after them. Zero words are found by a mask of all the words that are looked at.
fn put_ahead<'a>(block: &mut [u8], words: &'a [u64]) -> (usize, &'a [u64])
    requires many { 64 < length words.now }
    requires room { 650 ≤ length block.old }
    ensures front { PutsFront [] (take result.0 block.new) words.now result.1.now }
    ensures little { result.0 + 10 * length result.1.now ≤ 10 * length words.now }
    ensures within { result.0 ≤ length block.new }
{
    let mask = mask_of(words);
    let mut filled = 0;
    let mut place = 0;
    'putting: while place < AHEAD {
        let rest = mask >> place;
        if rest == 0 {
            break;
        }
        let zeros = rest.trailing_zeros() as usize;
        let bytes = words[place + zeros].to_le_bytes();
        let tag = tag_of(&bytes);
        // A full word may begin a raw run, which the mask doesn't show. 0 can't be: the mask's words aren't
        // zero.
        if tag == 0 || tag == 255 {
            break;
        }
        filled += put_run(&mut block[filled..], zeros);
        filled += put_sparse(&mut block[filled..], tag, &bytes);
        place += zeros + 1;
    }
    (filled, words.split_at(place).1)
}

/// A bit for each of the first words that isn't zero, the first word's lowest.
fn mask_of(words: &[u64]) -> u64
    requires { 64 < length words.now }
    ensures { IsMaskOf words.now result }
{
    Simd::<u64, AHEAD>::from_slice(words)
        .simd_ne(Simd::splat(0))
        .to_bitmask()
}

/// Writes this many zero words, perhaps none: how many bytes they take.
fn put_run(block: &mut [u8], count: usize) -> usize
    requires room { 2 ≤ length block.old }
    requires few { count ≤ 64 }
    ensures front { (back : List ℕ) → StartsWithout (λ w. w ≡ 0) back → PutsFront [] (take result block.new) (replicate count 0 ++ back) back }
    ensures little { result ≤ 10 * count }
    ensures within { result ≤ 2 }
{
    // The bytes are written also where none is wanted, so that nothing has to be foreseen.
    let size = put_zeros(block, count.saturating_sub(1));
    if count == 0 { 0 } else { size }
}
