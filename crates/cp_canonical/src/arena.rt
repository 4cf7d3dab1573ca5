//! The words of a segment while they are written.

ghost use Rattle.std.specs.Prelude.{◌≡◌, ◌<◌, ◌≤◌, ◌+◌, ◌++◌, ◌∷◌, [], None, IfOk, IfErr, OnOk, length, replicate, set};
ghost use Rattle.cp_writing.specs.Sheets.{IsNamed};
ghost use Rattle.cp_canonical.specs.Arenas.{IsArena, Writes, masked, pointed};
ghost use Rattle.cp_canonical.specs.declared.fault.CanonicalFault.TheVariants.{Write};
ghost use Rattle.cp_tree.specs.declared.fault.WriteFault.TheVariants.{TooManyWords};

use crate::fault::CanonicalFault;
use cp_tree::WriteFault;
use cp_words::{BodyKind, Pointer, encode};
use std::alloc::{AllocError, Global};

/// A segment begins with capacity for this many words, if it may have them.
const FIRST_WORDS: usize = 128;

/// The words of a segment, and how many it may have.
#[derive(Drop)]
pub(crate) struct Arena {
    pub words: Vec<u64>,
    pub most: usize,
}

impl Arena {
    /// One blank word, for the root's pointer.
    pub fn new(alloc: Global, most: usize) -> Result<Arena, AllocError>
        requires some { 0 < most }
        requires few { most ≤ 67108864 }
        ensures { IfOk result (λ s. (s.words.items ≡ 0 ∷ []) × IsArena s × (s.most ≡ most)) }
    {
        let mut words = Vec::with_capacity(alloc, most.min(FIRST_WORDS))?;
        words.push(0)?;
        Ok(Arena { words, most })
    }

    /// Writes a word in place of a blank one.
    #[inline(always)]
    pub fn put(&mut self, at: usize, word: u64)
        requires { at < length self.old.words.items }
        ensures words { self.new.words.items ≡ set self.old.words.items at word }
        ensures most { self.new.most ≡ self.old.most }
    {
        self.words[at] = word;
    }

    /// Whether this many more words may be written.
    #[inline(always)]
    fn check_room(&self, words: usize) -> Result<(), CanonicalFault>
        requires { IsArena self.now }
        ensures within { OnOk result (length self.now.words.items + words ≤ self.now.most) }
        ensures past { IfErr result (λ e. (e ≡ Write TooManyWords) × (self.now.most < length self.now.words.items + words)) }
    {
        // The words never pass the most, so the difference can't wrap.
        if words > self.most - self.words.len() {
            return Err(CanonicalFault::Write(WriteFault::TooManyWords));
        }
        Ok(())
    }

    /// Appends words.
    #[inline]
    pub fn append(&mut self, words: &[u64]) -> Result<(), CanonicalFault>
        requires { IsArena self.old }
        ensures { Writes self.old self.new result None (λ ws. ws ++ words.now) }
    {
        self.check_room(words.len())?;
        self.words.extend_from_slice(words)?;
        Ok(())
    }

    /// Appends blank words.
    #[inline]
    pub fn append_blank(&mut self, count: usize) -> Result<(), CanonicalFault>
        requires { IsArena self.old }
        ensures { Writes self.old self.new result None (λ ws. ws ++ replicate count 0) }
    {
        self.check_room(count)?;
        self.words.resize(self.words.len() + count, 0)?;
        Ok(())
    }

    /// Keeps these bits of the last word alone, the lowest ones; all of them, if none are counted.
    pub fn keep_bits(&mut self, bits: u32)
        requires few { bits < 64 }
        requires some { 0 < length self.old.words.items }
        ensures words { self.new.words.items ≡ masked bits self.old.words.items }
        ensures most { self.new.most ≡ self.old.most }
    {
        if bits > 0 {
            let last = self.words.len() - 1;
            self.words[last] %= 1 << bits;
        }
    }

    /// Writes a pointer to a body that begins after the last word.
    #[inline]
    pub fn point(&mut self, at: usize, kind: BodyKind)
        requires arena { IsArena self.old }
        requires there { at < length self.old.words.items }
        requires named { IsNamed kind }
        ensures words { self.new.words.items ≡ pointed at kind self.old.words.items }
        ensures most { self.new.most ≡ self.old.most }
    {
        let offset = (self.words.len() - (at + 1)) as i32;
        self.words[at] = encode(match kind {
            BodyKind::Struct { words, ptrs } => Pointer::Struct {
                offset,
                words,
                ptrs,
            },
            BodyKind::List { size, count } => Pointer::List {
                offset,
                size,
                count,
            },
        });
    }
}
