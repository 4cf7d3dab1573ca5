//! Packing words.

ghost use Rattle.std.specs.Prelude.{◌≡◌, ◌≤◌, ◌<◌, ◌+◌, ◌-◌, ◌++◌, [], IfOk, OnOk, OnErr, length, take};
ghost use Rattle.cp_packed.specs.Words.{bytes_of};
ghost use Rattle.cp_packed.specs.Packing.{PutsFront, PutsSpelt, HasRoom, Appends};

use crate::ahead::{AHEAD, put_next};
use crate::runs::MOST;
use crate::spelling::LONGEST;
use byteorder::{ByteOrder, LittleEndian};
use std::alloc::{AllocError, Global};

/// How many words are written at once as they are.
const BLOCK: usize = 64;

/// How many words are packed at once, beside those of the last run and those that are looked at ahead.
const STEP: usize = 1_024;

/// Appends words as they are: eight bytes each, the lowest first. The error is an allocation failure, after which some bytes may be
/// appended.
pub fn push_plain(out: &mut Vec<u8>, words: &[u64]) -> Result<(), AllocError>
    ensures put { OnOk result (out.new.items ≡ out.old.items ++ bytes_of words.now) }
    ensures grown { OnErr result (Appends out.old.items out.new.items) }
{
    // By way of the stack: capacity made in `out` would be filled before it is written.
    let mut block = [0; 8 * BLOCK];
    let mut left = words;
    'writing: while !left.is_empty() {
        let (front, back) = left.split_at(left.len().min(BLOCK));
        let bytes = &mut block[..8 * front.len()];
        LittleEndian::write_u64_into(front, bytes);
        out.extend_from_slice(bytes)?;
        left = back;
    }
    Ok(())
}

/// Appends groups that words begin with, until no more than this many words are left, and gives
/// these back. The error is an allocation failure, after which some bytes may be appended.
pub fn push_groups<'a>(
    out: &mut Vec<u8>,
    words: &'a [u64],
    most: usize,
) -> Result<&'a [u64], AllocError>
    ensures front { IfOk result (λ back. PutsFront out.old.items out.new.items words.now back.now) }
    ensures few { IfOk result (λ back. length back.now ≤ most) }
    ensures none { IfOk result (λ back. length words.now ≤ most → back.now ≡ words.now) }
    ensures grown { OnErr result (Appends out.old.items out.new.items) }
{
    let mut left = words;
    // In steps, so that little capacity is made at once.
    'packing: while most < left.len() {
        left = push_some(out, left, most.max(left.len() - left.len().min(STEP)))?;
    }
    Ok(left)
}

/// Appends words, packed as one piece. The error is an allocation failure, after which some bytes may be appended.
pub fn push_packed(out: &mut Vec<u8>, words: &[u64]) -> Result<(), AllocError>
    ensures put { OnOk result (PutsSpelt out.old.items out.new.items words.now) }
    ensures grown { OnErr result (Appends out.old.items out.new.items) }
{
    push_groups(out, words, 0)?;
    Ok(())
}

/// Appends groups that words begin with, until no more than this many words are left, and gives these back. A group is
/// written into capacity that is made for all of them.
fn push_some<'a>(out: &mut Vec<u8>, words: &'a [u64], most: usize) -> Result<&'a [u64], AllocError>
    requires more { most < length words.now }
    requires few { length words.now ≤ most + 1024 }
    ensures front { IfOk result (λ back. PutsFront out.old.items out.new.items words.now back.now) }
    ensures few { IfOk result (λ back. length back.now ≤ most) }
    ensures same { OnErr result (out.new.items ≡ out.old.items) }
{
    let start = out.len();
    // Groups that begin within STEP words may take a run after them, and words looked at ahead.
    let count = words.len().min(STEP + MOST + AHEAD + 1);
    // Room for the longest that groups can be: clearing ten bytes a word costs less than a push for each
    // byte.
    out.resize(start + LONGEST * count, 0)?;
    let (filled, back) = put_groups(&mut out[start..], words, most);
    out.truncate(start + filled);
    Ok(back)
}

/// Writes groups that words begin with over the front of the block, until no more than this many words are left: how
/// many bytes they take, and these words.
fn put_groups<'a>(block: &mut [u8], words: &'a [u64], most: usize) -> (usize, &'a [u64])
    requires more { most < length words.now }
    requires room { HasRoom (length block.old) (length words.now) (length words.now - most + 320) }
    ensures front { PutsFront [] (take result.0 block.new) words.now result.1.now }
    ensures few { length result.1.now ≤ most }
    ensures within { result.0 ≤ length block.new }
{
    let mut filled = 0;
    let mut left = words;
    'putting: while most < left.len() {
        let (count, back) = put_next(&mut block[filled..], left);
        filled += count;
        left = back;
    }
    (filled, left)
}
