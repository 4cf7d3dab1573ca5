//! Groups of each kind, written over the front of bytes.

ghost use Rattle.std.specs.Prelude.{◌≡◌, ◌≤◌, ◌<◌, ◌+◌, ◌*◌, ◌++◌, ◌∷◌, [], length, take};
ghost use Rattle.cp_packed.specs.Words.{bytes_of};
ghost use Rattle.cp_packed.specs.Packed.{tag, written};
ghost use Rattle.cp_packed.specs.Packing.{bytes_that_count};

use crate::gather::gathered;
use byteorder::{ByteOrder, LittleEndian};
use std::simd::prelude::*;

/// How many bytes a packed word takes at most: a tag, eight bytes, and how many words a raw run has after it.
pub const LONGEST: usize = 10;

/// A bit for each byte that isn't zero, the first byte's lowest.
pub fn tag_of(bytes: &[u8; 8]) -> u8
    ensures { result ≡ tag (bytes_that_count bytes.now) }
{
    let zeros = u8x8::from_array(*bytes)
        .simd_eq(u8x8::splat(0))
        .to_bitmask();
    (255 - zeros) as u8
}

/// Writes a run of zero words, this many after its first: how many bytes it takes.
pub fn put_zeros(block: &mut [u8], more: usize) -> usize
    requires room { 2 ≤ length block.old }
    requires few { more < 256 }
    ensures text { take result block.new ≡ 0 ∷ more ∷ [] }
    ensures count { result ≡ 2 }
{
    block[0] = 0;
    block[1] = more as u8;
    2
}

/// Writes a group of one word that has bytes of both kinds, of which the mask has a bit each: how many bytes it takes.
pub fn put_sparse(block: &mut [u8], mask: u8, bytes: &[u8; 8]) -> usize
    requires room { 9 ≤ length block.old }
    requires mask { mask ≡ tag (bytes_that_count bytes.now) }
    ensures text { take result block.new ≡ mask ∷ written (bytes_that_count bytes.now) }
    ensures count { result ≤ 9 }
{
    block[0] = mask;
    // Always eight bytes: those past the mask's are written over next.
    block[1..9].copy_from_slice(&gathered(mask, bytes).to_array()[..8]);
    1 + mask.count_ones() as usize
}

/// Writes a word with a raw run after it, as they are: how many bytes they take.
pub fn put_raw(block: &mut [u8], bytes: &[u8; 8], run: &[u64]) -> usize
    requires few { length run.now < 256 }
    requires room { 10 + 8 * length run.now ≤ length block.old }
    ensures text { take result block.new ≡ 255 ∷ (bytes.now ++ (length run.now ∷ bytes_of run.now)) }
    ensures count { result ≡ 10 + 8 * length run.now }
{
    block[0] = 255;
    block[1..9].copy_from_slice(bytes);
    block[9] = run.len() as u8;
    let end = LONGEST + 8 * run.len();
    LittleEndian::write_u64_into(run, &mut block[LONGEST..end]);
    end
}
