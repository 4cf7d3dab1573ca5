//! The segments of a message.

ghost use Rattle.std.specs.Prelude.{◌≡◌, ◌<◌, ◌∷◌, List, ℕ, [], IfOk, IfErr, length};
ghost use Rattle.cp_words.specs.Segments.{words_of, words_held};

use std::marker::Model;
use std::slice;

/// One or more segments, each a list of words, numbered from 0. Contracts see them as the list of these lists.
pub struct Segments {
    held: SegmentList,
}

// Not derived: a crate that lets one go calls this function, and need not prove the drop of all that it holds.
impl Drop for Segments {
    fn drop(self) {
        let Segments { held: _ } = self;
    }
}

/// The segments. Most messages have one, which needs no vector around it.
#[derive(Drop)]
enum SegmentList {
    One(Vec<u64>),
    Many(Vec<Vec<u64>>),
}

impl Model for Segments {
    ghost Value = { List (List ℕ) };

    ghost view = { λ s. words_held s.held };

    ghost invariant = { λ s. 0 < length (words_held s.held) };
}

impl Segments {
    /// Holds the segments. None at all are given back.
    pub fn new(segments: Vec<Vec<u64>>) -> Result<Segments, Vec<Vec<u64>>>
        ensures held { IfOk result (λ s. s ≡ words_of segments.items) }
        ensures some { IfOk result (λ s. 0 < length s) }
        ensures empty { IfErr result (λ back. (back ≡ segments) × (segments.items ≡ [])) }
    {
        if segments.is_empty() {
            return Err(segments);
        }
        Ok(Segments {
            held: SegmentList::Many(segments),
        })
    }

    /// Holds one segment.
    pub fn one(words: Vec<u64>) -> Segments
        ensures { result ≡ words.items ∷ [] }
    {
        Segments {
            held: SegmentList::One(words),
        }
    }

    /// The segments, lent.
    pub fn lists(&self) -> &[Vec<u64>]
        ensures all { words_of result.now ≡ self.now }
        ensures some { 0 < length result.now }
    {
        match &self.held {
            SegmentList::One(words) => slice::from_ref(words),
            SegmentList::Many(segments) => segments,
        }
    }

    /// The first segment, without the others.
    pub fn into_first(self) -> Vec<u64>
        ensures { (others : List (List ℕ)) × (self ≡ result.items ∷ others) }
    {
        let Segments { held } = self;
        match held {
            SegmentList::One(words) => words,
            // The other segments are dropped, so their order doesn't matter.
            SegmentList::Many(mut segments) => segments.swap_remove(0),
        }
    }
}
