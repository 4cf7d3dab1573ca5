//! The elements of lists without pointers, taken from their words.

ghost use Rattle.std.specs.Prelude.{◌≡◌, ◌<◌, ◌≤◌, ◌*◌, ◌/◌, ◌^◌, [], ◌∷◌, length, IfOk};
ghost use Rattle.cp_words.specs.Word.{words_for};
ghost use Rattle.cp_words.specs.declared.pointer.ElementSize.TheVariants as sizes;
ghost use Rattle.cp_tree.specs.Elements.{element, numbers, flags, elements_of};
ghost use Rattle.cp_tree.specs.Node.{list};
ghost use Rattle.cp_tree.specs.NodeOf.{node_of};
ghost use Rattle.cp_reading.specs.Rows.{IsData};

use byteorder::{ByteOrder, LittleEndian};
use cp_tree::Tree;
use cp_words::ElementSize;
use std::alloc::{AllocError, Global};

/// The words whose bytes are put together before they are copied.
const BLOCK: usize = 64;

/// A list without pointers, of the words that hold its elements.
pub(crate) fn list_of(
    alloc: Global,
    words: &[u64],
    size: ElementSize,
    count: u32,
) -> Result<Tree, AllocError>
    requires sized { IsData size }
    requires whole { words_for size count ≤ length words.now }
    ensures { IfOk result (λ t. node_of t ≡ list (elements_of words.now size count)) }
{
    match size {
        ElementSize::Void => Ok(Tree::Voids(count)),
        ElementSize::Bit => bits_of(alloc, words, count).map(Tree::Bits),
        ElementSize::Byte => bytes_of(alloc, words, count).map(Tree::Bytes),
        ElementSize::TwoBytes => two_bytes_of(alloc, words, count).map(Tree::Halves),
        ElementSize::FourBytes => four_bytes_of(alloc, words, count).map(Tree::Quads),
        // The last two don't come here: their trees are built from their pointers.
        ElementSize::EightBytes | ElementSize::Pointer | ElementSize::Composite => {
            words_of(alloc, words, count).map(Tree::Words)
        }
    }
}

/// The first bits, this many.
pub(crate) fn bits_of(alloc: Global, words: &[u64], count: u32) -> Result<Vec<bool>, AllocError>
    requires { words_for sizes.Bit count ≤ length words.now }
    ensures { IfOk result (λ v. v.items ≡ flags words.now count) }
{
    let mut items = Vec::with_capacity(alloc, count as usize)?;
    for i in 0..count {
        items.push(element_of(words, 1, i) == 1)?;
    }
    Ok(items)
}

/// The first bytes, this many.
pub(crate) fn bytes_of(alloc: Global, words: &[u64], count: u32) -> Result<Vec<u8>, AllocError>
    requires { words_for sizes.Byte count ≤ length words.now }
    ensures { IfOk result (λ v. v.items ≡ numbers words.now 8 count) }
{
    let count = count as usize;
    let whole = (count + 7) / 8;
    let mut items = Vec::with_capacity(alloc, 8 * whole)?;
    // By way of the stack: what `items` had to be filled with first would be written twice.
    let mut block = [0; 8 * BLOCK];
    let mut left = &words[..whole];
    'writing: while !left.is_empty() {
        let (front, back) = left.split_at(left.len().min(BLOCK));
        let buffer = &mut block[..8 * front.len()];
        LittleEndian::write_u64_into(front, buffer);
        items.extend_from_slice(buffer)?;
        left = back;
    }
    items.truncate(count);
    Ok(items)
}

/// The first numbers of two bytes, this many.
pub(crate) fn two_bytes_of(alloc: Global, words: &[u64], count: u32) -> Result<Vec<u16>, AllocError>
    requires { words_for sizes.TwoBytes count ≤ length words.now }
    ensures { IfOk result (λ v. v.items ≡ numbers words.now 16 count) }
{
    let count = count as usize;
    let whole = (count + 3) / 4;
    let mut items = Vec::with_capacity(alloc, 4 * whole)?;
    for i in 0..whole {
        items.extend_from_slice(&two_bytes_in(words[i]))?;
    }
    items.truncate(count);
    Ok(items)
}

/// The first numbers of four bytes, this many.
pub(crate) fn four_bytes_of(
    alloc: Global,
    words: &[u64],
    count: u32,
) -> Result<Vec<u32>, AllocError>
    requires { words_for sizes.FourBytes count ≤ length words.now }
    ensures { IfOk result (λ v. v.items ≡ numbers words.now 32 count) }
{
    let count = count as usize;
    let whole = (count + 1) / 2;
    let mut items = Vec::with_capacity(alloc, 2 * whole)?;
    for i in 0..whole {
        items.extend_from_slice(&four_bytes_in(words[i]))?;
    }
    items.truncate(count);
    Ok(items)
}

/// The first words, this many.
pub(crate) fn words_of(alloc: Global, words: &[u64], count: u32) -> Result<Vec<u64>, AllocError>
    requires { words_for sizes.EightBytes count ≤ length words.now }
    ensures { IfOk result (λ v. v.items ≡ numbers words.now 64 count) }
{
    Vec::from_slice(alloc, &words[..count as usize])
}

/// Element `index`, of this many bits.
fn element_of(words: &[u64], width: usize, index: u32) -> u64
    requires some { 0 < width }
    requires fits { width ≤ 64 }
    requires inside { index * width / 64 < length words.now }
    ensures value { result ≡ element words.now width index }
    ensures narrow { result < 2 ^ width }
{
    let bit = index as usize * width;
    let shifted = words[bit / 64] >> (bit % 64);
    // `1 << 64` would overflow.
    if width == 64 {
        shifted
    } else {
        shifted % (1 << width)
    }
}

/// The numbers of two bytes that a word holds.
fn two_bytes_in(word: u64) -> [u16; 4]
    ensures { result ≡ numbers (word ∷ []) 16 4 }
{
    [
        (word % 0x1_0000) as u16,
        (word / 0x1_0000 % 0x1_0000) as u16,
        (word / 0x1_0000_0000 % 0x1_0000) as u16,
        (word / 0x1_0000_0000_0000) as u16,
    ]
}

/// The numbers of four bytes that a word holds.
fn four_bytes_in(word: u64) -> [u32; 2]
    ensures { result ≡ numbers (word ∷ []) 32 2 }
{
    [(word % 0x1_0000_0000) as u32, (word / 0x1_0000_0000) as u32]
}
