//! Bytes as hexadecimal digits, many at a time.

use std::alloc::AllocError;
use std::simd::prelude::*;

/// How many words are written at once.
const BLOCK: usize = 8;

/// How many characters these take at the most: an element of two bytes has four digits and a comma.
const ROOM: usize = 160;

/// Adds the first `length` bytes of words, in the order of the stream, by two digits each. Elements of `width` bytes are
/// joined by commas, but those of one byte by nothing.
pub(crate) fn push_bytes(
    line: &mut String,
    words: &[u64],
    width: usize,
    length: usize,
) -> Result<(), AllocError> {
    let mut left = length;
    for (i, block) in words.chunks(BLOCK).enumerate() {
        let mut characters = [0u8; ROOM];
        let each = count_characters(8, width).max(1);
        for (place, word) in characters.chunks_mut(each).zip(block) {
            put_word(place, *word, width);
        }
        let taken = left.min(8 * BLOCK);
        left -= taken;
        // No comma stands before the first element.
        let first = if i == 0 && width > 1 { 1 } else { 0 };
        let size = count_characters(taken, width);
        line.push_str(text_at(&characters, first, size))?;
    }
    Ok(())
}

/// Adds the first `count` bits of words, the lowest of a word first.
pub(crate) fn push_bits(line: &mut String, words: &[u64], count: u32) -> Result<(), AllocError> {
    let mut left = count as usize;
    for word in words {
        let mut characters = [b'0'; 64];
        for (i, place) in characters.iter_mut().enumerate() {
            if *word >> (i % 64) & 1 == 1 {
                *place = b'1';
            }
        }
        let taken = left.min(64);
        left -= taken;
        line.push_str(text_at(&characters, 0, taken))?;
    }
    Ok(())
}

/// How many characters the elements of so many bytes take, a comma before each that has more than a byte.
fn count_characters(bytes: usize, width: usize) -> usize {
    let digits = bytes.saturating_mul(2);
    if width <= 1 {
        digits
    } else {
        digits.saturating_add(bytes / width)
    }
}

/// Writes a word's elements over the front of a block, which has room for them.
fn put_word(block: &mut [u8], word: u64, width: usize) {
    let digits = digits_of(word);
    if width <= 1 {
        put_front(block, &digits);
    } else if width == 8 {
        put_element(block, &digits);
    } else {
        let size = width.saturating_mul(2);
        for (place, element) in block
            .chunks_mut(size.saturating_add(1))
            .zip(digits.chunks(size))
        {
            put_element(place, element);
        }
    }
}

/// Writes a comma and an element's digits over the front of a block, which has room for them.
fn put_element(block: &mut [u8], digits: &[u8]) {
    if let Some((comma, place)) = block.split_first_mut() {
        *comma = b',';
        put_front(place, digits);
    }
}

/// Writes digits over the front of a block, which has room for them.
fn put_front(block: &mut [u8], digits: &[u8]) {
    if let Some(front) = block.get_mut(..digits.len()) {
        front.copy_from_slice(digits);
    }
}

/// The digits of a word's bytes, the lowest byte first.
fn digits_of(word: u64) -> [u8; 16] {
    let bytes = u8x8::from_array(word.to_le_bytes());
    let halves = (bytes >> u8x8::splat(4)).shuffle(
        bytes,
        [0, 8, 1, 9, 2, 10, 3, 11, 4, 12, 5, 13, 6, 14, 7, 15],
    );
    let halves = halves & u8x16::splat(15);
    let letters = halves
        .simd_ge(u8x16::splat(10))
        .select(u8x16::splat(b'a' - b'0' - 10), u8x16::splat(0));
    (halves + u8x16::splat(b'0') + letters).to_array()
}

/// Characters of a block, all of ASCII.
fn text_at(block: &[u8], first: usize, last: usize) -> &str {
    str::from_utf8(block.get(first..last).unwrap_or(&[])).unwrap_or("")
}
