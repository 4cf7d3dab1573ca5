//! The words of a segment while it is written.

ghost use Rattle.std.specs.Prelude.{◌≡◌, ◌<◌, ◌^◌, ◌++◌, [], IfOk, OnOk, length, map, replicate, set};
ghost use Rattle.cp_writing.specs.Blocks.{block_of};
ghost use Rattle.cp_writing.specs.Strips.{words_on};
ghost use Rattle.cp_writing.specs.Packed.{groups, bit_of};

use crate::block::Block;
use crate::pack::{push_bits, push_bytes, push_four_bytes, push_two_bytes};
use std::alloc::{AllocError, Global};

/// The words of a segment, as words or as bytes.
#[derive(Drop)]
pub(crate) enum Strip {
    Words(Vec<u64>),
    Bytes(Block),
}

impl Strip {
    /// No words, over what a buffer holds.
    pub fn over(mut buffer: Vec<u64>) -> Strip
        ensures { words_on result ≡ [] }
    {
        buffer.clear();
        Strip::Words(buffer)
    }

    /// The words.
    pub fn into_words(self, alloc: Global) -> Result<Vec<u64>, AllocError>
        ensures { IfOk result (λ v. v.items ≡ words_on self) }
    {
        match self {
            Strip::Words(words) => Ok(words),
            Strip::Bytes(block) => block.into_words(alloc),
        }
    }

    /// The bytes of the words, after zero bytes in the place of a segment table.
    pub fn into_bytes(self, alloc: Global) -> Result<Vec<u8>, AllocError>
        ensures { IfOk result (λ v. v.items ≡ block_of (words_on self)) }
    {
        match self {
            Strip::Bytes(block) => Ok(block.into_bytes()),
            Strip::Words(words) => {
                // An arena of one segment that began over bytes doesn't come here.
                let mut block = Block::new(Vec::new(alloc))?;
                block.append(&words)?;
                Ok(block.into_bytes())
            }
        }
    }

    /// How many words there are.
    #[inline]
    pub fn len(&self) -> usize
        ensures { result ≡ length (words_on self.now) }
    {
        match self {
            Strip::Words(words) => words.len(),
            Strip::Bytes(block) => block.len(),
        }
    }

    /// Makes capacity for this many more words.
    pub fn reserve(&mut self, words: usize) -> Result<(), AllocError>
        requires { words < 2 ^ 32 }
        ensures { OnOk result (words_on self.new ≡ words_on self.old) }
    {
        match self {
            Strip::Words(held) => held.reserve(words),
            Strip::Bytes(block) => block.reserve(words),
        }
    }

    /// Writes a word in place of one that was written.
    #[inline]
    pub fn put(&mut self, at: usize, word: u64)
        requires { at < length (words_on self.old) }
        ensures { words_on self.new ≡ set (words_on self.old) at word }
    {
        match self {
            Strip::Words(words) => words[at] = word,
            Strip::Bytes(block) => block.put(at, word),
        }
    }

    /// Appends words.
    #[inline]
    pub fn append(&mut self, words: &[u64]) -> Result<(), AllocError>
        ensures { OnOk result (words_on self.new ≡ words_on self.old ++ words.now) }
    {
        match self {
            Strip::Words(held) => held.extend_from_slice(words),
            Strip::Bytes(block) => block.append(words),
        }
    }

    /// Appends this many blank words.
    #[inline]
    pub fn append_blank(&mut self, words: usize) -> Result<(), AllocError>
        requires { words < 2 ^ 32 }
        ensures { OnOk result (words_on self.new ≡ words_on self.old ++ replicate words 0) }
    {
        match self {
            Strip::Words(held) => held.resize(held.len() + words, 0),
            Strip::Bytes(block) => block.append_blank(words),
        }
    }

    /// Appends the words of a list of bits.
    pub fn append_bits(&mut self, items: &[bool]) -> Result<(), AllocError>
        ensures { OnOk result (words_on self.new ≡ words_on self.old ++ groups 2 64 (map bit_of items.now)) }
    {
        match self {
            Strip::Words(words) => push_bits(words, items),
            Strip::Bytes(block) => block.append_bits(items),
        }
    }

    /// Appends the words of a list of bytes.
    pub fn append_bytes(&mut self, items: &[u8]) -> Result<(), AllocError>
        ensures { OnOk result (words_on self.new ≡ words_on self.old ++ groups 256 8 items.now) }
    {
        match self {
            Strip::Words(words) => push_bytes(words, items),
            Strip::Bytes(block) => block.append_bytes(items),
        }
    }

    /// Appends the words of a list of numbers of two bytes.
    pub fn append_two_bytes(&mut self, items: &[u16]) -> Result<(), AllocError>
        ensures { OnOk result (words_on self.new ≡ words_on self.old ++ groups 65536 4 items.now) }
    {
        match self {
            Strip::Words(words) => push_two_bytes(words, items),
            Strip::Bytes(block) => block.append_two_bytes(items),
        }
    }

    /// Appends the words of a list of numbers of four bytes.
    pub fn append_four_bytes(&mut self, items: &[u32]) -> Result<(), AllocError>
        ensures { OnOk result (words_on self.new ≡ words_on self.old ++ groups 4294967296 2 items.now) }
    {
        match self {
            Strip::Words(words) => push_four_bytes(words, items),
            Strip::Bytes(block) => block.append_four_bytes(items),
        }
    }
}
