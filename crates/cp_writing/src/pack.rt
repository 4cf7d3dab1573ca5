//! Elements of lists without pointers, as the words that hold them.

ghost use Rattle.std.specs.Prelude.{◌≡◌, ◌<◌, ◌≤◌, ◌++◌, length, map, OnOk};
ghost use Rattle.cp_writing.specs.Packed.{value, groups, bit_of};

use std::alloc::AllocError;

/// Appends the words of a list of bits.
pub(crate) fn push_bits(words: &mut Vec<u64>, items: &[bool]) -> Result<(), AllocError>
    ensures { OnOk result (words.new.items ≡ words.old.items ++ groups 2 64 (map bit_of items.now)) }
{
    for k in 0..(items.len() + 63) / 64 {
        let start = 64 * k;
        let end = items.len().min(start + 64);
        words.push(bits_word(&items[start..end]))?;
    }
    Ok(())
}

/// Appends the words of a list of bytes.
pub(crate) fn push_bytes(words: &mut Vec<u64>, items: &[u8]) -> Result<(), AllocError>
    ensures { OnOk result (words.new.items ≡ words.old.items ++ groups 256 8 items.now) }
{
    let (chunks, rest) = items.as_chunks::<8>();
    words.extend(chunks.iter().map(|chunk| eight_bytes(chunk)))?;
    if !rest.is_empty() {
        words.push(bytes_word(rest))?;
    }
    Ok(())
}

/// Appends the words of a list of numbers of two bytes.
pub(crate) fn push_two_bytes(words: &mut Vec<u64>, items: &[u16]) -> Result<(), AllocError>
    ensures { OnOk result (words.new.items ≡ words.old.items ++ groups 65536 4 items.now) }
{
    let (chunks, rest) = items.as_chunks::<4>();
    words.extend(chunks.iter().map(|chunk| word_of_four(chunk)))?;
    if !rest.is_empty() {
        words.push(two_bytes_word(rest))?;
    }
    Ok(())
}

/// Appends the words of a list of numbers of four bytes.
pub(crate) fn push_four_bytes(words: &mut Vec<u64>, items: &[u32]) -> Result<(), AllocError>
    ensures { OnOk result (words.new.items ≡ words.old.items ++ groups 4294967296 2 items.now) }
{
    let (chunks, rest) = items.as_chunks::<2>();
    words.extend(chunks.iter().map(|chunk| word_of_two(chunk)))?;
    if !rest.is_empty() {
        words.push(four_bytes_word(rest))?;
    }
    Ok(())
}

/// The word that at most 64 bits are, the first one lowest.
pub(crate) fn bits_word(items: &[bool]) -> u64
    requires { length items.now ≤ 64 }
    ensures { result ≡ value 2 (map bit_of items.now) }
{
    let mut word = 0;
    let mut i = items.len();
    // From the last bit down, so that the first one ends up lowest.
    while i > 0 {
        i -= 1;
        word = 2 * word + bit(items[i]);
    }
    word
}

/// A bit as a number.
fn bit(flag: bool) -> u64
    ensures value { result ≡ bit_of flag }
    ensures small { result < 2 }
{
    flag as u64
}

/// The word that 8 bytes are.
fn eight_bytes(items: &[u8; 8]) -> u64
    ensures { result ≡ value 256 items.now }
{
    u64::from_le_bytes(*items)
}

/// The word that at most 8 bytes are, the first one lowest.
pub(crate) fn bytes_word(items: &[u8]) -> u64
    requires { length items.now ≤ 8 }
    ensures { result ≡ value 256 items.now }
{
    let mut word = 0;
    let mut i = items.len();
    while i > 0 {
        i -= 1;
        word = 0x100 * word + items[i] as u64;
    }
    word
}

/// The word that 4 numbers of two bytes are.
fn word_of_four(items: &[u16; 4]) -> u64
    ensures { result ≡ value 65536 items.now }
{
    let low = items[0] as u64 + 0x1_0000 * items[1] as u64;
    let high = items[2] as u64 + 0x1_0000 * items[3] as u64;
    low + 0x1_0000_0000 * high
}

/// The word that at most 4 numbers of two bytes are, the first one lowest.
pub(crate) fn two_bytes_word(items: &[u16]) -> u64
    requires { length items.now ≤ 4 }
    ensures { result ≡ value 65536 items.now }
{
    let mut word = 0;
    let mut i = items.len();
    while i > 0 {
        i -= 1;
        word = 0x1_0000 * word + items[i] as u64;
    }
    word
}

/// The word that 2 numbers of four bytes are.
fn word_of_two(items: &[u32; 2]) -> u64
    ensures { result ≡ value 4294967296 items.now }
{
    items[0] as u64 + 0x1_0000_0000 * items[1] as u64
}

/// The word that at most 2 numbers of four bytes are, the first one lowest.
pub(crate) fn four_bytes_word(items: &[u32]) -> u64
    requires { length items.now ≤ 2 }
    ensures { result ≡ value 4294967296 items.now }
{
    let mut word = 0;
    let mut i = items.len();
    while i > 0 {
        i -= 1;
        word = 0x1_0000_0000 * word + items[i] as u64;
    }
    word
}
