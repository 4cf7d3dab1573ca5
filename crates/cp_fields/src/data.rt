//! Numbers of words.

ghost use Rattle.std.specs.Prelude.{◌≡◌, ◌==◌, ◌<◌, ◌≤◌, ◌^◌};
ghost use Rattle.cp_tree.specs.Elements.{element};

/// The `index`-th number of 16 bits that words hold. What lies past their end is zero.
#[inline(always)]
pub fn u16_at(words: &[u64], index: u32) -> u16
    ensures { result ≡ element words.now 16 index }
{
    number_at(words, 16, index as usize) as u16
}

/// The `index`-th number of 32 bits.
#[inline(always)]
pub fn u32_at(words: &[u64], index: u32) -> u32
    ensures { result ≡ element words.now 32 index }
{
    number_at(words, 32, index as usize) as u32
}

/// The `index`-th number of 64 bits.
#[inline(always)]
pub fn u64_at(words: &[u64], index: u32) -> u64
    ensures { result ≡ element words.now 64 index }
{
    word_at(words, index as usize)
}

/// The `index`-th bit.
#[inline(always)]
pub fn bit_at(words: &[u64], index: u32) -> bool
    ensures { result ≡ (element words.now 1 index == 1) }
{
    number_at(words, 1, index as usize) == 1
}

/// The `index`-th number of this many bits that words hold. What lies past their end is zero.
#[inline(always)]
pub(crate) fn number_at(words: &[u64], width: usize, index: usize) -> u64
    requires some { 0 < width }
    requires narrow { width < 64 }
    requires small { index < 2 ^ 32 }
    ensures value { result ≡ element words.now width index }
    ensures fits { result < 2 ^ width }
{
    let bit = index * width;
    match words.get(bit / 64) {
        // No number crosses a word.
        Some(word) => (*word >> (bit % 64)) % (1 << width),
        None => 0,
    }
}

/// The `index`-th number of 64 bits.
#[inline(always)]
pub(crate) fn word_at(words: &[u64], index: usize) -> u64
    requires { index < 2 ^ 32 }
    ensures { result ≡ element words.now 64 index }
{
    match words.get(index) {
        Some(word) => *word,
        None => 0,
    }
}

/// The `index`-th number of at most 64 bits.
#[inline(always)]
pub(crate) fn packed_at(words: &[u64], width: usize, index: usize) -> u64
    requires some { 0 < width }
    requires narrow { width ≤ 64 }
    requires small { index < 2 ^ 32 }
    ensures { result ≡ element words.now width index }
{
    // `1 << 64` would overflow.
    if width == 64 {
        word_at(words, index)
    } else {
        number_at(words, width, index)
    }
}
