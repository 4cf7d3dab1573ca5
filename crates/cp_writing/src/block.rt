//! The words of a segment, written as bytes.

ghost use Rattle.std.specs.Prelude.{◌≡◌, ◌<◌, ◌≤◌, ◌+◌, ◌*◌, ◌^◌, ◌++◌, ◌∷◌, [], IfOk, OnOk, length, map, replicate, set, take, drop};
ghost use Rattle.std.specs.Int.{to_le_bytes, w64};
ghost use Rattle.cp_packed.specs.Words.{words_in};
ghost use Rattle.cp_writing.specs.Blocks.{block_of};
ghost use Rattle.cp_writing.specs.Packed.{groups, bit_of};

use crate::pack::{bits_word, bytes_word, four_bytes_word, two_bytes_word};
use cp_packed::{push_plain, take_in};
use std::alloc::{AllocError, Global};
use std::marker::Model;

/// How many bytes come before the words: as many as the segment table of one segment has.
const TABLE: usize = 8;

/// Words as bytes, the lowest byte of each first, after zero bytes in the place of a segment table. Contracts see the
/// words.
#[derive(Drop)]
pub(crate) struct Block {
    bytes: Vec<u8>,
}

impl Model for Block {
    ghost use Rattle.std.specs.Prelude.{List, ℕ};
    ghost use Rattle.cp_writing.specs.Blocks.{words_of_block, IsBlock};

    ghost Value = { List ℕ };

    ghost view = { λ b. words_of_block b.bytes.items };

    ghost invariant = { λ b. IsBlock b.bytes.items };
}

impl Block {
    /// No words, over what a buffer holds.
    pub fn new(mut buffer: Vec<u8>) -> Result<Block, AllocError>
        ensures { IfOk result (λ b. b ≡ []) }
    {
        buffer.clear();
        buffer.extend_from_slice(&[0; TABLE])?;
        Ok(Block { bytes: buffer })
    }

    /// The bytes.
    pub fn into_bytes(self) -> Vec<u8>
        ensures { result.items ≡ block_of self }
    {
        self.bytes
    }

    /// The words.
    pub fn into_words(self, alloc: Global) -> Result<Vec<u64>, AllocError>
        ensures { IfOk result (λ v. v.items ≡ self) }
    {
        let mut words = Vec::new(alloc);
        take_in(&mut words, &self.bytes[TABLE..])?;
        Ok(words)
    }

    /// How many words there are.
    #[inline]
    pub fn len(&self) -> usize
        ensures { result ≡ length self.now }
    {
        (self.bytes.len() - TABLE) / 8
    }

    /// Makes capacity for this many more words.
    pub fn reserve(&mut self, words: usize) -> Result<(), AllocError>
        requires { words < 2 ^ 32 }
        ensures { self.new ≡ self.old }
    {
        self.bytes.reserve(8 * words)?;
        Ok(())
    }

    /// Writes a word in place of one that was written.
    #[inline]
    pub fn put(&mut self, at: usize, word: u64)
        requires { at < length self.old }
        ensures { self.new ≡ set self.old at word }
    {
        put_word(&mut self.bytes, at, word);
    }

    /// Appends a word.
    #[inline]
    pub fn push(&mut self, word: u64) -> Result<(), AllocError>
        ensures { OnOk result (self.new ≡ self.old ++ word ∷ []) }
    {
        self.bytes.extend_from_slice(&word.to_le_bytes())?;
        Ok(())
    }

    /// Appends words.
    pub fn append(&mut self, words: &[u64]) -> Result<(), AllocError>
        ensures { OnOk result (self.new ≡ self.old ++ words.now) }
    {
        let length = self.bytes.len();
        match push_plain(&mut self.bytes, words) {
            Ok(()) => Ok(()),
            Err(error) => {
                // A part may have been written before memory ran out.
                self.bytes.truncate(length);
                Err(error)
            }
        }
    }

    /// Appends this many blank words.
    pub fn append_blank(&mut self, words: usize) -> Result<(), AllocError>
        requires { words < 2 ^ 32 }
        ensures { OnOk result (self.new ≡ self.old ++ replicate words 0) }
    {
        self.bytes.resize(self.bytes.len() + 8 * words, 0)?;
        Ok(())
    }

    /// Appends the words of a list of bits.
    pub fn append_bits(&mut self, items: &[bool]) -> Result<(), AllocError>
        ensures { OnOk result (self.new ≡ self.old ++ groups 2 64 (map bit_of items.now)) }
    {
        for k in 0..(items.len() + 63) / 64 {
            let start = 64 * k;
            let end = items.len().min(start + 64);
            self.push(bits_word(&items[start..end]))?;
        }
        Ok(())
    }

    /// Appends the words of a list of bytes.
    pub fn append_bytes(&mut self, items: &[u8]) -> Result<(), AllocError>
        ensures { OnOk result (self.new ≡ self.old ++ groups 256 8 items.now) }
    {
        self.append_whole(items)?;
        let rest = &items[items.len() / 8 * 8..];
        if !rest.is_empty() {
            self.push(bytes_word(rest))?;
        }
        Ok(())
    }

    /// Appends the words that bytes are; bytes after the last whole word are left out.
    fn append_whole(&mut self, bytes: &[u8]) -> Result<(), AllocError>
        ensures { OnOk result (self.new ≡ self.old ++ words_in bytes.now) }
    {
        self.bytes.extend_from_slice(&bytes[..bytes.len() / 8 * 8])?;
        Ok(())
    }

    /// Appends the words of a list of numbers of two bytes.
    pub fn append_two_bytes(&mut self, items: &[u16]) -> Result<(), AllocError>
        ensures { OnOk result (self.new ≡ self.old ++ groups 65536 4 items.now) }
    {
        for k in 0..(items.len() + 3) / 4 {
            let start = 4 * k;
            let end = items.len().min(start + 4);
            self.push(two_bytes_word(&items[start..end]))?;
        }
        Ok(())
    }

    /// Appends the words of a list of numbers of four bytes.
    pub fn append_four_bytes(&mut self, items: &[u32]) -> Result<(), AllocError>
        ensures { OnOk result (self.new ≡ self.old ++ groups 4294967296 2 items.now) }
    {
        for k in 0..(items.len() + 1) / 2 {
            let start = 2 * k;
            let end = items.len().min(start + 2);
            self.push(four_bytes_word(&items[start..end]))?;
        }
        Ok(())
    }
}

/// Writes a word in place of one that bytes hold after the place of a segment table.
#[inline]
fn put_word(bytes: &mut [u8], at: usize, word: u64)
    requires { 16 + 8 * at ≤ length bytes.old }
    ensures { bytes.new ≡ (take (8 + 8 * at) bytes.old ++ to_le_bytes w64 word) ++ drop (8 + 8 * at + 8) bytes.old }
{
    let start = TABLE + 8 * at;
    bytes[start..start + 8].copy_from_slice(&word.to_le_bytes());
}
