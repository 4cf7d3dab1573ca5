//! How far a run of words goes.

ghost use Rattle.std.specs.Prelude.{◌≡◌, ◌≤◌, ◌⊎◌, length, take, drop, replicate};
ghost use Rattle.std.specs.List.{AllByRecursion};
ghost use Rattle.cp_packed.specs.Packed.{StartsWithout, zero_bytes};

use std::simd::prelude::*;

/// How many words a run has at most after its first.
pub const MOST: usize = 255;

/// How many words of a raw run are looked at in a row.
const STEP: usize = 8;

/// How many of these words a run of zero words takes after its first.
pub fn zero_run(words: &[u64]) -> usize
    ensures few { result ≤ 255 }
    ensures within { result ≤ length words.now }
    ensures zeros { take result words.now ≡ replicate result 0 }
    ensures ends { (result ≡ 255) ⊎ StartsWithout (λ w. w ≡ 0) (drop result words.now) }
{
    for (place, word) in words.iter().enumerate() {
        if place == MOST || *word != 0 {
            return place;
        }
    }
    words.len()
}

/// How many of these words a raw run takes after its first.
pub fn raw_run(words: &[u64]) -> usize
    ensures few { result ≤ 255 }
    ensures within { result ≤ length words.now }
    ensures full { AllByRecursion (λ w. zero_bytes w ≤ 1) (take result words.now) }
    ensures ends { (result ≡ 255) ⊎ StartsWithout (λ w. zero_bytes w ≤ 1) (drop result words.now) }
{
    let most = words.len().min(MOST);
    let mut run = 0;
    // Of a known number of words at a time, so that the loop over them is unrolled.
    'counting: while run + STEP <= most {
        let count = count_full(&words[run..run + STEP]);
        run += count;
        if count < STEP {
            return run;
        }
    }
    run + count_full(&words[run..most])
}

/// How many of these words have at most one byte that is zero, up to the first that has more.
fn count_full(words: &[u64]) -> usize
    ensures within { result ≤ length words.now }
    ensures full { AllByRecursion (λ w. zero_bytes w ≤ 1) (take result words.now) }
    ensures ends { StartsWithout (λ w. zero_bytes w ≤ 1) (drop result words.now) }
{
    for (place, word) in words.iter().enumerate() {
        // A word with one zero byte is no longer in the run than in a group of its own.
        if 1 < count_zeros(*word) {
            return place;
        }
    }
    words.len()
}

/// How many of a word's bytes are zero.
fn count_zeros(word: u64) -> usize
    ensures { result ≡ zero_bytes word }
{
    u8x8::from_array(word.to_le_bytes())
        .simd_eq(u8x8::splat(0))
        .to_bitmask()
        .count_ones() as usize
}
