//! The parts of a word.

/// A part of a word, and the column where it begins, from 1.
#[derive(Clone, Copy)]
pub(crate) struct Part<'t> {
    pub(crate) text: &'t str,
    pub(crate) column: usize,
}

/// A word by names: `TARGET INTERFACE.METHOD PARAMS`, of which the target, the interface and the params may lack.
#[derive(Clone, Copy)]
pub(crate) struct Word<'t> {
    pub(crate) target: Option<Part<'t>>,
    pub(crate) method: Part<'t>,
    pub(crate) params: &'t [u8],
    /// How many bytes stand before the params.
    pub(crate) before: usize,
}

/// Whether a word names its method, and doesn't number it.
pub fn is_named(word: &str) -> bool {
    let (head, _) = cut(word);
    !head.contains('=')
}

/// The params of a word, if they aren't a struct's text: `{TREE caps[..]}`, or `@FILE`.
pub fn plain_params(word: &str) -> Option<&str> {
    let (_, params) = cut(word);
    match params.first().copied() {
        Some(b'{' | b'@') => Some(text_of(params)),
        _ => None,
    }
}

impl<'t> Word<'t> {
    /// The parts of a word.
    pub(crate) fn of(word: &'t str) -> Word<'t> {
        let (head, params) = cut(word);
        let whole = Part {
            text: head.trim_end_matches(' '),
            column: 1,
        };
        let (target, method) = match whole.cut_last(' ') {
            Some((target, method)) => (Some(target), method),
            None => (None, whole),
        };
        Word {
            target,
            method,
            params,
            before: head.len(),
        }
    }
}

impl<'t> Part<'t> {
    /// What stands before the first such mark, and what comes after it, if there is one.
    pub(crate) fn cut_first(self, mark: char) -> (Part<'t>, Option<Part<'t>>) {
        match self.text.split_once(mark) {
            Some((before, after)) => {
                let (before, after) = self.around(before, after);
                (before, Some(after))
            }
            None => (self, None),
        }
    }

    /// What stands before the last such mark, and what comes after it.
    pub(crate) fn cut_last(self, mark: char) -> Option<(Part<'t>, Part<'t>)> {
        match self.text.rsplit_once(mark) {
            Some((before, after)) => Some(self.around(before, after)),
            None => None,
        }
    }

    /// The part without this word in front of it.
    pub(crate) fn after(self, word: &str) -> Part<'t> {
        match self.text.strip_prefix(word) {
            Some(text) => Part {
                text,
                column: self.column.saturating_add(word.len()),
            },
            None => self,
        }
    }

    /// Whether it begins with a question: its number, or the word and its number.
    pub(crate) fn is_of_question(self) -> bool {
        match self.after("question:").text.as_bytes().first() {
            Some(byte) => (*byte).is_ascii_digit(),
            None => false,
        }
    }

    /// Its parts around a mark of one byte.
    fn around(self, before: &'t str, after: &'t str) -> (Part<'t>, Part<'t>) {
        let column = self.column.saturating_add(before.len()).saturating_add(1);
        let first = Part {
            text: before,
            column: self.column,
        };
        (
            first,
            Part {
                text: after,
                column,
            },
        )
    }
}

/// A word up to its params, and these.
fn cut(word: &str) -> (&str, &[u8]) {
    let bytes = word.as_bytes();
    for (place, byte) in bytes.iter().enumerate() {
        if matches!(*byte, b'(' | b'{' | b'@') {
            return (text_of(&bytes[..place]), &bytes[place..]);
        }
    }
    (word, &[])
}

/// Bytes of a word as a text. They are cut beside marks of one byte, and so are one.
pub(crate) fn text_of(bytes: &[u8]) -> &str {
    str::from_utf8(bytes).unwrap_or("")
}
