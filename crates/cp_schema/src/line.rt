//! A message as text, as it is put together.

use crate::annotation::DataForm;
use crate::brand::Generics;
use crate::decoder::DecodeFault;
use crate::node::{Enumerant, Schema};
use crate::notation::Notation;
use base64::engine::general_purpose::STANDARD;
use cp_fields::{DataReader, TextReader, WrongKind};
use std::alloc::Global;
use std::mem;

/// A line, or lines of JSON. It remembers whether memory ran out, and the first pointer that was of another kind than the
/// schema says.
#[derive(Drop)]
pub(crate) struct Line<'s> {
    pub(crate) alloc: Global,
    pub(crate) schema: &'s Schema,
    /// What the parameters of generics stand for in the open structs.
    pub(crate) generics: Generics<'s>,
    notation: Notation,
    pub(crate) text: String,
    /// Whether a bracket was opened last.
    opened: bool,
    /// How many brackets are open.
    depth: u32,
    /// What the names of fields begin with that stand in the place of a struct: all open structs' prefixes, the outer first.
    prefixes: Vec<&'s str>,
    /// Where those of the innermost struct begin.
    first: usize,
    /// The bytes of the text or the data that is added.
    bytes: Vec<u8>,
    pub(crate) is_full: bool,
    pub(crate) wrong: Option<WrongKind>,
    /// Whether what it shows lies too deep.
    pub(crate) is_deep: bool,
    /// Whether a text isn't UTF-8, as those of JSON are.
    is_foreign: bool,
}

impl<'s> Line<'s> {
    /// What follows a text.
    pub(crate) fn after(
        alloc: Global,
        text: String,
        schema: &'s Schema,
        notation: Notation,
    ) -> Line<'s> {
        Line {
            alloc,
            schema,
            generics: Generics::new(alloc),
            notation,
            text,
            opened: true,
            depth: 0,
            prefixes: Vec::new(alloc),
            first: 0,
            bytes: Vec::new(alloc),
            is_full: false,
            wrong: None,
            is_deep: false,
            is_foreign: false,
        }
    }

    /// The text with its line feed, if it is right.
    pub(crate) fn done(mut self) -> Result<String, DecodeFault> {
        self.push('\n');
        if self.is_full || self.generics.is_starved() {
            return Err(DecodeFault::OutOfMemory);
        }
        if self.is_deep {
            return Err(DecodeFault::TooDeep);
        }
        if self.is_foreign {
            return Err(DecodeFault::NotUtf8);
        }
        match self.wrong {
            Some(wrong) => Err(DecodeFault::WrongKind(wrong)),
            None => Ok(self.text),
        }
    }

    /// Whether it is JSON.
    pub(crate) fn is_json(&self) -> bool {
        self.notation.is_json()
    }

    /// Adds a text.
    pub(crate) fn put(&mut self, text: &str) {
        if self.text.push_str(text).is_err() {
            self.is_full = true;
        }
    }

    /// Adds a character.
    pub(crate) fn push(&mut self, c: char) {
        if self.text.push(c).is_err() {
            self.is_full = true;
        }
    }

    /// Opens a struct. `close_struct` takes what is answered.
    pub(crate) fn open_struct(&mut self) -> usize {
        self.open(if self.is_json() { '{' } else { '(' });
        mem::replace(&mut self.first, self.prefixes.len())
    }

    /// Closes a struct.
    pub(crate) fn close_struct(&mut self, first: usize) {
        self.first = first;
        self.close(if self.is_json() { '}' } else { ')' });
    }

    /// Begins the fields that stand in the place of a struct.
    pub(crate) fn begin(&mut self, prefix: &'s str) {
        if self.prefixes.push(prefix).is_err() {
            self.is_full = true;
        }
    }

    /// Ends the fields that stand in the place of a struct.
    pub(crate) fn end(&mut self) {
        let _ = self.prefixes.pop();
    }

    /// Opens a list.
    pub(crate) fn open_list(&mut self) {
        self.open('[');
    }

    /// Closes a list.
    pub(crate) fn close_list(&mut self) {
        self.close(']');
    }

    /// Adds what comes before an element.
    pub(crate) fn item(&mut self) {
        if !self.opened {
            self.put(if self.is_json() { "," } else { ", " });
        }
        self.opened = false;
        self.feed();
    }

    /// Adds what comes before a field's value.
    pub(crate) fn field(&mut self, name: &str) {
        self.item();
        if self.is_json() {
            self.key(name);
        } else {
            self.put(name);
            self.put(" = ");
        }
    }

    /// Says that a pointer is of another kind than the schema says.
    pub(crate) fn refuse(&mut self, wrong: WrongKind) {
        if self.wrong.is_none() {
            self.wrong = Some(wrong);
        }
    }

    /// Adds a word that stands for a value.
    pub(crate) fn word(&mut self, word: &str) {
        if self.is_json() {
            self.characters(word);
        } else {
            self.put(word);
        }
    }

    /// Adds a value of an enum by its name.
    pub(crate) fn enumerant(&mut self, item: &Enumerant) {
        if self.is_json() {
            self.characters(item.json_name());
        } else {
            self.put(item.name.as_str());
        }
    }

    /// Adds a value of an enum that has no name.
    pub(crate) fn unknown(&mut self, number: u64) {
        if self.is_json() {
            self.unsigned(number);
        } else {
            self.push('(');
            self.unsigned(number);
            self.push(')');
        }
    }

    /// Adds a text between quotes.
    pub(crate) fn string(&mut self, text: &TextReader<'_>) {
        let bytes = self.taken(&text.bytes());
        match str::from_utf8(&bytes) {
            Ok(lent) => self.characters(lent),
            Err(_) if self.is_json() => self.is_foreign = true,
            // The reference tool prints such bytes as they are.
            Err(_) => self.escapes(&bytes),
        }
        self.bytes = bytes;
    }

    /// Adds characters between quotes. Those that stand for themselves go in runs.
    pub(crate) fn characters(&mut self, text: &str) {
        self.push('"');
        self.runs(text);
        self.push('"');
    }

    /// Adds data.
    pub(crate) fn data(&mut self, data: &DataReader<'_>, form: DataForm) {
        let bytes = self.taken(data);
        match (self.notation, form) {
            (Notation::Text, _) => self.escapes(&bytes),
            (_, DataForm::Numbers) => self.numbers(&bytes),
            (_, DataForm::Base64) => self.base64(&bytes),
            (_, DataForm::Hex) => self.hexadecimal(&bytes),
        }
        self.bytes = bytes;
    }

    /// Opens a bracket.
    fn open(&mut self, mark: char) {
        self.push(mark);
        self.opened = true;
        self.depth = self.depth.saturating_add(1);
    }

    /// Closes a bracket.
    fn close(&mut self, mark: char) {
        self.depth = self.depth.saturating_sub(1);
        if !self.opened {
            self.feed();
        }
        self.push(mark);
        self.opened = false;
    }

    /// Begins a line of its own, where each member and element has one.
    fn feed(&mut self) {
        if self.notation.is_pretty() {
            self.push('\n');
            for _ in 0..self.depth {
                self.put("  ");
            }
        }
    }

    /// Adds a member's name: the prefixes of its struct, and its own.
    fn key(&mut self, name: &str) {
        self.push('"');
        for place in self.first..self.prefixes.len() {
            let prefix = self.prefixes.get(place).copied().unwrap_or("");
            self.runs(prefix);
        }
        self.runs(name);
        self.put(if self.notation.is_pretty() {
            "\": "
        } else {
            "\":"
        });
    }

    /// The bytes of a list, in the place of those that were added last.
    fn taken(&mut self, list: &DataReader<'_>) -> Vec<u8> {
        let mut bytes = mem::replace(&mut self.bytes, Vec::new(self.alloc));
        bytes.clear();
        if list.append_to(&mut bytes).is_err() {
            self.is_full = true;
        }
        bytes
    }

    /// Adds characters, and escapes for those that don't stand for themselves.
    fn runs(&mut self, text: &str) {
        let mut left = text;
        for _ in 0..text.len() {
            let bytes = left.as_bytes();
            let run = self.run_of(bytes);
            self.put(left.get(..run).unwrap_or(""));
            let Some(escaped) = bytes.get(run) else {
                break;
            };
            self.byte(*escaped);
            left = left.get(run.saturating_add(1)..).unwrap_or("");
        }
    }

    /// Adds bytes between quotes.
    fn escapes(&mut self, bytes: &[u8]) {
        self.push('"');
        for byte in bytes {
            self.byte(*byte);
        }
        self.push('"');
    }

    /// Adds bytes as a list of numbers.
    fn numbers(&mut self, bytes: &[u8]) {
        self.open_list();
        for byte in bytes {
            self.item();
            self.unsigned(*byte as u64);
        }
        self.close_list();
    }

    /// Adds bytes in base64.
    fn base64(&mut self, bytes: &[u8]) {
        self.push('"');
        if STANDARD.encode_string(bytes, &mut self.text).is_err() {
            self.is_full = true;
        }
        self.push('"');
    }

    /// Adds bytes in hexadecimal.
    fn hexadecimal(&mut self, bytes: &[u8]) {
        self.push('"');
        for byte in bytes {
            if write!(self.text, "{byte:02x}").is_err() {
                self.is_full = true;
            }
        }
        self.push('"');
    }

    /// Adds a byte of a text.
    fn byte(&mut self, byte: u8) {
        // The reference's escapes.
        match byte {
            7 if !self.is_json() => self.put("\\a"),
            8 => self.put("\\b"),
            9 => self.put("\\t"),
            10 => self.put("\\n"),
            11 if !self.is_json() => self.put("\\v"),
            12 => self.put("\\f"),
            13 => self.put("\\r"),
            34 => self.put("\\\""),
            39 => self.put("\\'"),
            92 => self.put("\\\\"),
            32..=126 => self.push(byte as char),
            _ => self.number_of(byte),
        }
    }

    /// Adds a byte by its number.
    fn number_of(&mut self, byte: u8) {
        if self.is_json() {
            if write!(self.text, "\\u{byte:04x}").is_err() {
                self.is_full = true;
            }
            return;
        }
        self.push('\\');
        self.digit(byte / 64);
        self.digit(byte / 8 % 8);
        self.digit(byte % 8);
    }

    /// Adds a digit.
    pub(crate) fn digit(&mut self, digit: u8) {
        self.push((b'0' + digit % 10) as char);
    }

    /// How many bytes there are before the first that is escaped in a text.
    fn run_of(&self, bytes: &[u8]) -> usize {
        let is_json = self.is_json();
        for (place, byte) in bytes.iter().enumerate() {
            if is_escaped(*byte, is_json) {
                return place;
            }
        }
        bytes.len()
    }
}

/// Whether a byte of a text is escaped: never one of a character beyond ASCII.
fn is_escaped(byte: u8, is_json: bool) -> bool {
    match byte {
        0..32 | b'"' | b'\\' => true,
        b'\'' | 127 => !is_json,
        _ => false,
    }
}
