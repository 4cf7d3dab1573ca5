//! The limits that reading and writing keep to.

use std::alloc::AllocError;
use std::marker::Model;

/// What a message may ask for at most. Contracts see it as its four numbers.
///
/// The encoding specification ("Security considerations") asks for a limit on nesting and one on
/// traversal; the other two bound the frame that holds the message.
pub struct Limits {
    nesting: u32,
    traversal: u32,
    segments: u32,
    frame_words: u32,
}

impl Model for Limits {
    ghost use Rattle.cp_words.specs.Limits.{Bounds};

    ghost Value = { Bounds };

    ghost use Rattle.cp_words.specs.Limits.{IsAllowed};

    ghost view = { λ l. record { nesting = l.nesting; traversal = l.traversal; segments = l.segments; frame_words = l.frame_words } };

    ghost invariant = { λ l. IsAllowed (record { nesting = l.nesting; traversal = l.traversal; segments = l.segments; frame_words = l.frame_words }) };

    ghost inverse = { λ b. record { nesting = b.nesting; traversal = b.traversal; segments = b.segments; frame_words = b.frame_words } };
}

impl Clone for Limits {
    ghost use Rattle.std.specs.Prelude.{◌≡◌, IfOk};

    fn clone(&self) -> Result<Limits, AllocError>
        ensures { IfOk result (λ l. l ≡ self.now) }
    {
        Ok(*self)
    }
}

impl Copy for Limits {}

impl Limits {
    ghost use Rattle.std.specs.Prelude.{◌≡◌, ◌≤◌, ◌<◌, ◌↔◌, IsSome, IfSome};
    ghost use Rattle.cp_words.specs.Limits.{IsAllowed, standard};

    /// These limits: levels of nesting (1 to 256), words of traversal (1 to 67,108,864), segments
    /// of a frame (1 to 512) and words of all its segments together (the traversal to 67,108,864).
    /// `None` where one is out of its range.
    pub fn new(nesting: u32, traversal: u32, segments: u32, frame_words: u32) -> Option<Limits>
        ensures allowed { IsSome result ↔ IsAllowed (record { nesting = nesting; traversal = traversal; segments = segments; frame_words = frame_words }) }
        ensures value { IfSome result (λ l. l ≡ record { nesting = nesting; traversal = traversal; segments = segments; frame_words = frame_words }) }
    {
        if nesting == 0 || nesting > 256 || traversal == 0 || traversal > frame_words {
            return None;
        }
        if segments == 0 || segments > 512 || frame_words > 67_108_864 {
            return None;
        }
        Some(Limits {
            nesting,
            traversal,
            segments,
            frame_words,
        })
    }

    /// 64 levels, 8,388,608 words of traversal, 512 segments and 8,388,608 words of a frame.
    pub fn standard() -> Limits
        ensures { result ≡ standard }
    {
        Limits {
            nesting: 64,
            traversal: 8_388_608,
            segments: 512,
            frame_words: 8_388_608,
        }
    }

    /// How many levels of structs and lists may nest.
    pub fn nesting(&self) -> u32
        ensures value { result ≡ self.now.nesting }
        ensures range { result ≤ 256 }
    {
        self.nesting
    }

    /// How many words may be gone over, each once for each way to it.
    pub fn traversal(&self) -> u32
        ensures value { result ≡ self.now.traversal }
        ensures range { result ≤ 67108864 }
    {
        self.traversal
    }

    /// How many segments a frame may have.
    pub fn segments(&self) -> u32
        ensures value { result ≡ self.now.segments }
        ensures range { result ≤ 512 }
    {
        self.segments
    }

    /// How many words all segments of a frame may have together.
    pub fn frame_words(&self) -> u32
        ensures value { result ≡ self.now.frame_words }
        ensures range { result ≤ 67108864 }
    {
        self.frame_words
    }
}
