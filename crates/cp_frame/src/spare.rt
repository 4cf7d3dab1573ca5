//! A buffer that was given back.

ghost use Rattle.std.specs.Prelude.{◌≡◌, ◌⊎◌, ◌≤◌, [], IfOk, vec_capacity};
ghost use Rattle.cp_frame.specs.Reader.{most_spare};

use std::alloc::{AllocError, Global};
use std::mem;

/// How many times the words of a segment the capacity of its buffer may be.
/// A small message that is kept then holds no large buffer.
const MOST_SPARE: usize = 8;

/// How many words a buffer that is kept has room for at the most: 2 MiB.
/// A packed frame of 65 KB can name 64 MiB of zeros, whose buffer would stay as long as its connection.
/// With 1 MiB, a call with params of that size took new pages from the system each time.
const MOST_KEPT: usize = 262_144;

/// A buffer that was given back, for the words of a later segment. It holds none.
#[derive(Drop)]
pub struct Spare {
    words: Vec<u64>,
    ghost empty: { words.items ≡ [] },
    ghost little: { vec_capacity words ≤ most_spare },
}

impl Spare {
    /// A buffer without capacity.
    pub fn new(alloc: Global) -> Spare
        ensures { vec_capacity result.words ≡ 0 }
    {
        Spare {
            words: Vec::new(alloc),
        }
    }

    /// How many words it has room for.
    pub fn capacity(&self) -> usize
        ensures { result ≡ vec_capacity self.now.words }
    {
        self.words.capacity()
    }

    /// Keeps a list's buffer, without its words, if it has more capacity than what is kept. Of a larger one than may be kept
    /// the front stays.
    pub fn keep(&mut self, mut list: Vec<u64>) {
        if list.capacity().min(MOST_KEPT) <= self.words.capacity() {
            return;
        }
        list.clear();
        // With its whole buffer given back, the C library gives the pages of a large message back to the system, call by call.
        list.shrink_to(MOST_KEPT);
        if list.capacity() <= MOST_KEPT {
            self.words = list;
        }
    }

    /// A list for this many words: in this buffer, where its capacity is neither less than is asked for nor far
    /// more than the words need, or else in one of that capacity.
    pub fn buffer_for(
        &mut self,
        alloc: Global,
        capacity: usize,
        size: usize,
    ) -> Result<Vec<u64>, AllocError>
        ensures items { IfOk result (λ v. v.items ≡ []) }
        ensures capacity { IfOk result (λ v. (vec_capacity v ≤ capacity) ⊎ (vec_capacity v ≡ vec_capacity self.old.words)) }
    {
        if self.words.capacity() < capacity || size < self.words.capacity() / MOST_SPARE {
            return Vec::with_capacity(alloc, capacity);
        }
        Ok(mem::replace(&mut self.words, Vec::new(alloc)))
    }
}
