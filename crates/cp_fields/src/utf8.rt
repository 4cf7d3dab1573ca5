//! Bytes that words hold, block by block, and whether they are UTF-8.

ghost use Rattle.std.specs.Prelude.{◌≡◌, ◌+◌, ◌%◌, ◌<◌, ◌≤◌, ◌^◌, ◌↔◌, IsTrue, IsUtf8, length, map};
ghost use Rattle.std.specs.List.{range_with_len};
ghost use Rattle.cp_tree.specs.Elements.{numbers};
ghost use Rattle.cp_fields.specs.Blocks.{byte_before};

use crate::data::number_at;
use byteorder::{ByteOrder, LittleEndian};
use simdutf8::Checker;
use std::simd::prelude::*;

/// The bytes that are tested or copied at a time.
pub(crate) const BLOCK: usize = 64;

/// Whether the first bytes that words hold, this many, are UTF-8.
pub(crate) fn is_utf8(words: &[u64], count: usize) -> bool
    requires small { count ≤ 2 ^ 32 }
    ensures { IsTrue result ↔ IsUtf8 (numbers words.now 8 count) }
{
    let mut checker = Checker::new();
    for i in 0..count.div_ceil(BLOCK) {
        let block = next_block(words, i * BLOCK, count);
        checker = checker.step(u8x64::from_array(block));
    }
    checker.finish()
}

/// Bytes from number `first` on, as many as are tested or copied at a time; those from number `end` on are
/// zero.
#[inline]
pub(crate) fn next_block(words: &[u64], first: usize, end: usize) -> [u8; 64]
    requires begins { first < end }
    requires small { end ≤ 2 ^ 32 }
    requires even { first % 8 ≡ 0 }
    ensures { result ≡ map (λ k. byte_before words.now end (first + k)) (range_with_len 0 64) }
{
    let (from, to) = (first / 8, first / 8 + BLOCK / 8);
    if first + BLOCK <= end && to <= words.len() {
        whole_block(&words[from..to])
    } else {
        block_at(words, first, end)
    }
}

/// The bytes of a block's words.
#[inline]
fn whole_block(words: &[u64]) -> [u8; 64]
    requires { length words.now ≡ 8 }
    ensures { result ≡ numbers words.now 8 64 }
{
    let mut block = [0; BLOCK];
    LittleEndian::write_u64_into(words, &mut block);
    block
}

/// Bytes from number `first` on, one by one; those from number `end` on are zero.
fn block_at(words: &[u64], first: usize, end: usize) -> [u8; 64]
    requires begins { first < end }
    requires small { end ≤ 2 ^ 32 }
    ensures { result ≡ map (λ k. byte_before words.now end (first + k)) (range_with_len 0 64) }
{
    let mut block = [0; BLOCK];
    // Zeros are valid UTF-8, and a sequence that is open before them is a fault.
    for i in 0..BLOCK {
        block[i] = if first + i < end {
            number_at(words, 8, first + i) as u8
        } else {
            0
        };
    }
    block
}
