//! Text that grows, and the spellings of names.

use crate::names::{OF_CALLS, PROMISED, has_word, is_reserved};
use std::alloc::{AllocError, Global};

/// A text that grows. It remembers whether memory ran out, and is then without what was put last.
pub struct Out {
    pub alloc: Global,
    text: String,
    pub is_full: bool,
}

// Not derived: who lets one go calls this function, and need not prove the drop of its text.
impl Drop for Out {
    fn drop(self) {
        let Out {
            alloc: _,
            text: _,
            is_full: _,
        } = self;
    }
}

impl Out {
    /// An empty text.
    pub fn new(alloc: Global) -> Out {
        Out {
            alloc,
            text: String::new(alloc),
            is_full: false,
        }
    }

    /// A text of these parts.
    pub fn of<'t>(alloc: Global, parts: &[&'t str]) -> Out {
        let mut out = Out::new(alloc);
        out.all(parts);
        out
    }

    /// A text in a spelling.
    pub fn spelled(alloc: Global, text: &str, spelling: &str) -> Out {
        let mut out = Out::new(alloc);
        out.spell(text, spelling);
        out
    }

    pub fn as_str(&self) -> &str {
        self.text.as_str()
    }

    pub fn is_empty(&self) -> bool {
        self.text.is_empty()
    }

    /// Adds a text.
    pub fn put(&mut self, text: &str) {
        if self.text.push_str(text).is_err() {
            self.is_full = true;
        }
    }

    /// Adds a character.
    pub fn push(&mut self, c: char) {
        if self.text.push(c).is_err() {
            self.is_full = true;
        }
    }

    /// Adds texts one after another.
    pub fn all<'t>(&mut self, texts: &[&'t str]) {
        for text in texts {
            self.put(text);
        }
    }

    /// Adds a number, also as code has it in hexadecimal, with 16 digits.
    pub fn number(&mut self, number: u64, spelling: &str) {
        let written = match spelling {
            "hex" => write!(self.text, "{number:#018x}"),
            _ => write!(self.text, "{number}"),
        };
        if written.is_err() {
            self.is_full = true;
        }
    }

    /// Adds bytes, as code has a text of bytes, or as definitions have a list of numbers, but its end.
    pub fn bytes(&mut self, bytes: &[u8], spelling: &str) {
        let is_list = spelling == "items";
        self.put(if is_list { "" } else { "b\"" });
        for byte in bytes {
            let written = if is_list {
                write!(self.text, "{byte} ∷ ")
            } else {
                write!(self.text, "\\x{byte:02x}")
            };
            if written.is_err() {
                self.is_full = true;
            }
        }
        self.put(if is_list { "" } else { "\"" });
    }

    /// Adds a text in a spelling.
    pub fn spell(&mut self, text: &str, spelling: &str) {
        match spelling {
            // In snake case, and none of the words that have another meaning.
            "method" => self.method(text, ""),
            "promised" => self.method(text, PROMISED),
            "argument" => self.argument(text),
            "snake" => self.snake(text),
            "upper" => self.upper(text),
            "camel" => self.camel(text),
            "variant" => self.variant(text),
            // A module's name, as its definitions are called.
            "module" => self.module(text),
            "quoted" => self.quoted(text),
            "items" => self.bytes(text.as_bytes(), spelling),
            _ => self.put(text),
        }
    }

    /// Adds a name in snake case.
    fn snake(&mut self, name: &str) {
        let mut is_first = true;
        for c in name.chars() {
            if c.is_ascii_uppercase() && !is_first {
                self.push('_');
            }
            self.push(c.to_ascii_lowercase());
            is_first = false;
        }
    }

    /// Adds a name as a method is called: neither reserved nor one of these words.
    fn method(&mut self, name: &str, words: &str) {
        let mut word = Out::new(self.alloc);
        word.snake(name);
        self.put(word.as_str());
        if is_reserved(word.as_str()) || has_word(words, word.as_str()) {
            self.push('_');
        }
    }

    /// Adds a name as an argument of a call is called, which would hide a word of the call's clauses.
    fn argument(&mut self, name: &str) {
        self.method(name, OF_CALLS);
        // So definitions call the number of an enum's value.
        if name.ends_with("Number") {
            self.push('_');
        }
    }

    /// Adds a name in upper camel case; names within others are put together.
    fn camel(&mut self, name: &str) {
        let mut is_first = true;
        for c in name.chars() {
            if c == '.' || c == '$' || c == '_' {
                is_first = true;
            } else {
                self.push(if is_first { c.to_ascii_uppercase() } else { c });
                is_first = false;
            }
        }
    }

    /// Adds the name of a variant.
    fn variant(&mut self, name: &str) {
        // `Unknown` stands for later numbers, and `Self` is a word of the language.
        self.camel(name);
        if name == "unknown" || name == "self" {
            self.push('_');
        }
    }

    /// Adds a name in upper snake case, as a constant is called.
    fn upper(&mut self, name: &str) {
        let mut is_first = true;
        for c in name.chars() {
            if c == '.' || c == '$' {
                self.push('_');
                is_first = true;
            } else {
                if c.is_ascii_uppercase() && !is_first {
                    self.push('_');
                }
                self.push(c.to_ascii_uppercase());
                is_first = false;
            }
        }
    }

    /// Adds the name of a module's definitions.
    fn module(&mut self, name: &str) {
        self.camel(name);
        if name.ends_with('_') {
            self.push('_');
        }
    }

    /// Adds a text as code has it.
    fn quoted(&mut self, text: &str) {
        if write!(self.text, "{text:?}").is_err() {
            self.is_full = true;
        }
    }

    /// Adds a schema's comment, as lines of a comment.
    pub fn doc(&mut self, text: &str) {
        for line in text.trim_end().lines() {
            self.put("/// ");
            for c in line.chars() {
                self.push(if is_forbidden(c) { ' ' } else { c });
            }
            self.put("\n");
        }
    }

    /// Adds lines in order, each once, between these texts.
    pub fn put_sorted(&mut self, text: &str, (before, after): (&str, &str)) {
        let mut lines = Vec::new(self.alloc);
        match sort(&mut lines, text) {
            Ok(()) => {
                for line in lines.iter() {
                    self.all(&[before, line, after]);
                }
            }
            Err(_) => self.is_full = true,
        }
    }
}

/// Whether code can't have a character: a tab, and others that control lines or the direction of writing.
fn is_forbidden(c: char) -> bool {
    c.is_control()
        || ('\u{200e}'..='\u{200f}').contains(&c)
        || ('\u{2028}'..='\u{202e}').contains(&c)
        || ('\u{2066}'..='\u{2069}').contains(&c)
        || c == '\u{61c}'
}

/// The name that a path ends with.
pub fn name_of(path: &str) -> &str {
    after_last(path, "::")
}

/// The name of a file without its folders.
pub fn file_name(path: &str) -> &str {
    after_last(path, "/")
}

/// What a text has after the last of these marks, or all of it.
fn after_last<'t>(text: &'t str, mark: &str) -> &'t str {
    match text.rsplit_once(mark) {
        Some((_, rest)) => rest,
        None => text,
    }
}

/// What a text has before a character, if it has that.
pub fn before(text: &str, end: char) -> &str {
    match text.split_once(end) {
        Some((start, _)) => start,
        None => text,
    }
}

/// Adds the lines of a text, and puts all in order, each once.
fn sort<'t>(lines: &mut Vec<&'t str>, text: &'t str) -> Result<(), AllocError> {
    for line in text.lines() {
        lines.push(line)?;
    }
    lines.sort()?;
    lines.dedup();
    Ok(())
}
