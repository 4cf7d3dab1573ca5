//! Texts, one after another in pieces, each up to its end.

ghost use Rattle.std.specs.Prelude.{◌≡◌, ◌++◌, [], IsFalse};

use crate::token::is_blank;

/// What a byte of a text lies in.
#[derive(Clone, Copy)]
enum Within {
    Plain,
    Comment,
    /// Between quotes.
    Quotes,
    /// Between quotes, after a `\`.
    Escape,
}

/// How far a text was followed.
#[derive(Clone, Copy)]
pub struct Splitter {
    is_json: bool,
    within: Within,
    /// How many brackets are open.
    depth: usize,
    /// Whether anything but blanks and comments came.
    is_begun: bool,
}

/// A piece, cut where its first text ends.
#[derive(Clone, Copy)]
pub struct Piece<'t> {
    pub text: &'t [u8],
    pub rest: &'t [u8],
    /// Whether the text ends there.
    pub is_whole: bool,
}

impl Splitter {
    /// A text of which nothing came yet, or an object of JSON.
    pub fn new(is_json: bool) -> Splitter {
        Splitter {
            is_json,
            within: Within::Plain,
            depth: 0,
            is_begun: false,
        }
    }

    /// Whether anything but blanks and comments came of a text that hasn't ended.
    pub fn is_begun(&self) -> bool {
        self.is_begun
    }

    /// Follows a piece up to where the text ends, with its last bracket. Then another text may follow.
    pub fn cut<'t>(&mut self, piece: &'t [u8]) -> Piece<'t>
        ensures all { result.text.now ++ result.rest.now ≡ piece.now }
        ensures part { IsFalse result.is_whole → result.rest.now ≡ [] }
    {
        for (place, byte) in piece.iter().enumerate() {
            if self.ends_with(*byte) {
                *self = Splitter::new(self.is_json);
                return Piece {
                    text: &piece[..place + 1],
                    rest: &piece[place + 1..],
                    is_whole: true,
                };
            }
        }
        Piece {
            text: piece,
            rest: &[],
            is_whole: false,
        }
    }

    /// Follows a byte. Says whether the text ends with it.
    fn ends_with(&mut self, byte: u8) -> bool {
        match (self.within, byte) {
            (Within::Comment, b'\n') | (Within::Quotes, b'"') => self.within = Within::Plain,
            (Within::Comment, _) => {}
            (Within::Quotes, b'\\') => self.within = Within::Escape,
            (Within::Quotes | Within::Escape, _) => self.within = Within::Quotes,
            (Within::Plain, byte) => return self.plain(byte),
        }
        false
    }

    /// Follows a byte that is in no comment, and in no text between quotes. Says whether the text ends with it.
    fn plain(&mut self, byte: u8) -> bool {
        let (open, close) = if self.is_json {
            (b'{', b'}')
        } else {
            (b'(', b')')
        };
        let begins_comment = byte == b'#' && !self.is_json;
        if begins_comment {
            self.within = Within::Comment;
        } else if byte == b'"' {
            self.within = Within::Quotes;
        } else if byte == open {
            self.depth = self.depth.saturating_add(1);
        } else if byte == close {
            self.depth = self.depth.saturating_sub(1);
        }
        self.is_begun = self.is_begun || !begins_comment && !is_blank(byte);
        byte == close && self.depth == 0
    }
}
