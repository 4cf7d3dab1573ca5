//! What questions gave, as params name it.

use crate::calls::CallReader;
use crate::word::{Part, text_of};
use cp_encoder::{EncodeFault, NotationFault};
use std::alloc::AllocError;

/// The word in front of a question.
const QUESTION: &[u8] = b"question:";

/// A text of params in which what questions gave is named by the numbers of pointers, and where it was named by fields.
#[derive(Drop)]
pub(crate) struct Mentions {
    pub(crate) text: Vec<u8>,
    /// How many bytes of the word stand before the params.
    before: usize,
    changed: Vec<Change>,
}

/// Where a name was changed.
#[derive(Clone, Copy)]
struct Change {
    /// Where the changed name ends in the text: the number of the line, and of the byte after it, both from 1.
    line: usize,
    column: usize,
    /// How many bytes the name had, and has.
    old: usize,
    new: usize,
}

/// What a byte of a text lies in.
#[derive(Clone, Copy)]
enum Within {
    Plain,
    /// A name or a number.
    Name,
    Comment,
    Quotes,
    /// Between quotes, after a `\`.
    Escape,
}

/// A text, cut around the first capability in it that is named by fields: before the word `question:`, and around what follows it.
#[derive(Clone, Copy)]
struct Cut<'t> {
    before: &'t [u8],
    name: &'t [u8],
    after: &'t [u8],
}

impl Mentions {
    /// The params of a word, before which so many of its bytes stand.
    pub(crate) fn read(
        reader: &CallReader<'_>,
        params: &[u8],
        before: usize,
    ) -> Result<Mentions, EncodeFault> {
        let mut mentions = Mentions {
            text: Vec::with_capacity(reader.alloc, params.len())?,
            before,
            changed: Vec::new(reader.alloc),
        };
        match mentions.put(reader, params) {
            Ok(()) => Ok(mentions),
            Err(fault) => {
                drop(mentions);
                Err(fault)
            }
        }
    }

    /// Adds params, with numbers for the names by fields.
    fn put(&mut self, reader: &CallReader<'_>, params: &[u8]) -> Result<(), EncodeFault> {
        let mut left = params;
        // Each name takes a byte at least.
        for _ in 0..params.len() {
            let Some(cut) = cut_first(left) else {
                break;
            };
            self.text.extend_from_slice(cut.before)?;
            self.change(reader, cut.name)?;
            left = cut.after;
        }
        Ok(self.text.extend_from_slice(left)?)
    }

    /// A fault by its place in the word.
    pub(crate) fn placed(&self, fault: EncodeFault) -> EncodeFault {
        match fault {
            EncodeFault::Text(
                NotationFault {
                    line,
                    column,
                    message,
                },
            ) => EncodeFault::Text(NotationFault {
                line,
                column: self.column(line, column),
                message,
            }),
            fault => fault,
        }
    }

    /// Adds the numbers for a name by fields.
    fn change(&mut self, reader: &CallReader<'_>, name: &[u8]) -> Result<(), EncodeFault> {
        let (line, column) = self.end();
        let part = Part {
            text: text_of(name),
            column: self.column(line, column).saturating_add(QUESTION.len()),
        };
        let words = match reader.given(part) {
            Ok(given) => given.into_words()?,
            Err(fault) => return Err(on_line(line, fault)),
        };
        let added = self.text.extend_from_slice(words.as_bytes());
        let new = words.len();
        drop(words);
        added?;
        let (line, column) = self.end();
        self.changed.push(Change {
            line,
            column,
            old: name.len().saturating_add(QUESTION.len()),
            new,
        })?;
        Ok(())
    }

    /// The column in the word of what stands in the text at this line and column.
    fn column(&self, line: usize, column: usize) -> usize {
        let mut place = column;
        for change in &self.changed {
            if change.line == line && change.column <= column {
                place = place.saturating_add(change.old).saturating_sub(change.new);
            }
        }
        if line == 1 {
            place.saturating_add(self.before)
        } else {
            place
        }
    }

    /// The line and the column after the text.
    fn end(&self) -> (usize, usize) {
        let (mut line, mut column) = (1_usize, 1_usize);
        for byte in &self.text {
            if *byte == b'\n' {
                line = line.saturating_add(1);
                column = 1;
            } else {
                column = column.saturating_add(1);
            }
        }
        (line, column)
    }
}

impl Within {
    /// What the byte after this one lies in.
    fn after(self, byte: u8) -> Within {
        match (self, byte) {
            (Within::Comment, b'\n') | (Within::Quotes, b'"') => Within::Plain,
            (Within::Comment, _) => Within::Comment,
            (Within::Quotes, b'\\') => Within::Escape,
            (Within::Quotes | Within::Escape, _) => Within::Quotes,
            (_, b'#') => Within::Comment,
            (_, b'"') => Within::Quotes,
            (_, byte) if is_of_name(byte) => Within::Name,
            _ => Within::Plain,
        }
    }
}

/// A fault of a part as one on this line.
fn on_line(line: usize, fault: EncodeFault) -> EncodeFault {
    match fault {
        EncodeFault::Text(
            NotationFault {
                line: _,
                column,
                message,
            },
        ) => EncodeFault::Text(NotationFault {
            line,
            column,
            message,
        }),
        fault => fault,
    }
}

/// Cuts a text around the first capability that it names by fields, as `question:1.page`.
fn cut_first(text: &[u8]) -> Option<Cut<'_>> {
    let mut within = Within::Plain;
    for (place, byte) in text.iter().enumerate() {
        if let Within::Plain = within {
            if let Some((name, after)) = first_name(&text[place..]) {
                let before = &text[..place];
                return Some(Cut {
                    before,
                    name,
                    after,
                });
            }
        }
        within = within.after(*byte);
    }
    None
}

/// The question and the fields of the capability that a text begins with, as `1.page`, and what comes after them.
fn first_name(text: &[u8]) -> Option<(&[u8], &[u8])> {
    let name = text.strip_prefix(QUESTION)?;
    for (place, byte) in name.iter().enumerate() {
        if !is_of_name(*byte) && *byte != b'.' {
            let (name, after) = (&name[..place], &name[place..]);
            return if name.contains(&b'.') {
                Some((name, after))
            } else {
                None
            };
        }
    }
    // A text ends with its bracket: that this one doesn't is a fault that the encoder finds.
    None
}

/// Whether a byte can stand in a name.
fn is_of_name(byte: u8) -> bool {
    byte.is_ascii_alphanumeric() || byte == b'_'
}
