//! Capabilities, in the notation of scripts.

use crate::number::integer_of;
use crate::reader::Reader;
use crate::token::Token;
use crate::value::TextValue;

impl<'s, 't> Reader<'s, 't> {
    /// A capability, or null.
    pub(crate) fn cap(&mut self) -> TextValue {
        if let Token::Name(b"null") = self.token {
            self.advance();
            return TextValue::Null;
        }
        if self.caps.is_none() {
            self.miss("null, since a message by itself has no capabilities");
            return TextValue::Null;
        }
        let words = if self.is_json {
            self.cap_string()
        } else {
            let mut words = String::new(self.alloc);
            self.cap_words(&mut words);
            words
        };
        self.add_cap(words)
    }

    /// What a string of JSON has that names a capability.
    fn cap_string(&mut self) -> String {
        let Token::Text(raw) = self.token else {
            self.miss("null, or a capability such as \"question:1[0]\"");
            return String::new(self.alloc);
        };
        let bytes = self.unescaped(raw);
        self.advance();
        // It is UTF-8, as each string of JSON is.
        String::from_utf8(bytes).unwrap_or(String::new(self.alloc))
    }

    /// Adds a capability to those that were named.
    fn add_cap(&mut self, words: String) -> TextValue {
        let Some(caps) = &mut self.caps else {
            return TextValue::Null;
        };
        let index = caps.len();
        let pushed = caps.push(words);
        match u32::try_from(index) {
            Ok(index) if pushed.is_ok() => TextValue::Cap(index),
            _ => {
                self.starve();
                TextValue::Null
            }
        }
    }

    /// Takes off what names a capability, and adds it without blanks.
    fn cap_words(&mut self, words: &mut String) {
        let kind = match self.token {
            Token::Name(b"question") => "question:",
            Token::Name(b"import") => "import:",
            Token::Name(b"object") => "object:",
            Token::Name(b"promise") => "promise:",
            _ => {
                self.miss("null, question:N[FIELDS], import:N, object:N or promise:N");
                return;
            }
        };
        self.advance();
        self.put(words, kind);
        self.skip(b':', ":");
        self.count(words, u32::MAX as u64);
        if kind == "question:" {
            self.path(words);
        }
    }

    /// Takes the fields off by which a result is reached, and adds them.
    fn path(&mut self, words: &mut String) {
        self.skip(b'[', "[");
        self.put(words, "[");
        for place in 0..=self.most() {
            if !self.goes_on(place, b']', ", or ]") {
                break;
            }
            if place > 0 {
                self.put(words, ",");
            }
            self.count(words, u16::MAX as u64);
        }
        self.put(words, "]");
    }

    /// Takes a number of at most this off, and adds it.
    fn count(&mut self, words: &mut String, most: u64) {
        let number = match self.token {
            Token::Number(numeral) => integer_of(numeral),
            _ => None,
        };
        match number {
            Some(number) if number <= most => {
                self.advance();
                if write!(words, "{number}").is_err() {
                    self.starve();
                }
            }
            _ => self.miss("a number"),
        }
    }

    /// Adds a word.
    fn put(&mut self, words: &mut String, word: &str) {
        if words.push_str(word).is_err() {
            self.starve();
        }
    }
}
