//! Limits that C gives.

ghost use Rattle.std.specs.Prelude.{◌≡◌, ◌↔◌, IfSome, IsSome};
ghost use Rattle.cp_words.specs.Limits.{IsAllowed};
ghost use Rattle.c_handles.specs.Limits.{bounds_of};

use cp_words::Limits;

/// The four limits of `cp_words::Limits`.
#[repr(C)]
#[derive(Clone, Copy, PartialEq, Eq, Debug)]
pub struct LimitNumbers {
    pub nesting: u32,
    pub traversal: u32,
    pub segments: u32,
    pub frame_words: u32,
}

impl LimitNumbers {
    /// The limits, where each is in its range.
    pub fn limits(&self) -> Option<Limits>
        ensures allowed { IsSome result ↔ IsAllowed (bounds_of self.now) }
        ensures value { IfSome result (λ l. l ≡ bounds_of self.now) }
    {
        Limits::new(
            self.nesting,
            self.traversal,
            self.segments,
            self.frame_words,
        )
    }
}
