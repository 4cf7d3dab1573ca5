//! Where a word is.

use std::fmt;

/// A word of a message: its segment, and its number in that segment, each from 0.
/// `usize`, since offsets add up along a path: a pointer word may lie beyond word 2^32 of its segment.
#[derive(Clone, Copy, PartialEq, Eq, Debug)]
pub struct Place {
    pub segment: usize,
    pub word: usize,
}

impl fmt::Display for Place {
    fn fmt<W: fmt::Write>(&self, f: &mut fmt::Formatter<W>) -> fmt::Result {
        write!(f, "segment {} word {}", self.segment, self.word)
    }
}
