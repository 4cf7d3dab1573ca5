//! Parts of a line.

ghost use Rattle.std.specs.Prelude.{◌≤◌, ◌<◌};

use crate::wrong::Wrong;
use cp_rpc::Text;
use std::alloc::Global;

/// What is left of a line. The first thing that isn't as it should be ends the reading: from there on
/// nothing is taken.
#[derive(Drop)]
pub(crate) struct Reader<'a> {
    pub(crate) alloc: Global,
    line: &'a str,
    rest: &'a [u8],
    wrong: Option<Wrong>,
}

impl<'a> Reader<'a> {
    pub(crate) fn new(alloc: Global, line: &'a str) -> Reader<'a> {
        Reader {
            alloc,
            line,
            rest: line.as_bytes(),
            wrong: None,
        }
    }

    /// What was read, if the whole line was, and was as it should be.
    pub(crate) fn end<T: Drop>(&mut self, item: T) -> Result<T, Wrong> {
        if !self.rest.is_empty() {
            self.miss("the end");
        }
        match self.wrong {
            Some(wrong) => {
                drop(item);
                Err(wrong)
            }
            None => Ok(item),
        }
    }

    /// Ends the reading here, where this is wanted.
    pub(crate) fn miss(&mut self, wanted: &'static str) {
        // Later faults follow from the first one.
        if self.wrong.is_none() {
            let column = self
                .line
                .len()
                .saturating_sub(self.rest.len())
                .saturating_add(1);
            self.wrong = Some(Wrong { column, wanted });
        }
        // Nothing is taken any more, so one look at the end suffices.
        self.rest = &[];
    }

    /// Ends the reading where this was left, where this is wanted.
    pub(crate) fn miss_at(&mut self, before: &'a [u8], wanted: &'static str) {
        self.rest = before;
        self.miss(wanted);
    }

    /// Adds an item. Where memory runs out, ends the reading here.
    pub(crate) fn push<T: Drop>(&mut self, items: &mut Vec<T>, item: T) {
        if items.push(item).is_err() {
            self.miss(MEMORY);
        }
    }

    /// What is left.
    pub(crate) fn rest(&self) -> &'a [u8] {
        self.rest
    }

    /// How many parts are left at most.
    pub(crate) fn most(&self) -> usize {
        // Each part takes a byte at least, which bounds the loops over rows.
        self.rest.len()
    }

    /// Whether a word is next.
    pub(crate) fn is_next(&self, word: &str) -> bool {
        self.rest.starts_with(word.as_bytes())
    }

    /// Takes a word off, if it is next.
    pub(crate) fn takes(&mut self, word: &str) -> bool {
        match self.rest.strip_prefix(word.as_bytes()) {
            Some(rest) => {
                self.rest = rest;
                true
            }
            None => false,
        }
    }

    /// Takes a word off.
    pub(crate) fn skip(&mut self, word: &'static str) {
        if !self.takes(word) {
            self.miss(word);
        }
    }

    /// Takes the last word off that may be here, where this is wanted.
    pub(crate) fn skip_last(&mut self, word: &str, wanted: &'static str) {
        if !self.takes(word) {
            self.miss(wanted);
        }
    }

    /// Whether a row has a part at this place. Takes the comma before it off, or the row's end.
    pub(crate) fn goes_on(&mut self, place: usize, end: &'static str) -> bool {
        if self.takes(end) {
            return false;
        }
        if self.rest.is_empty() {
            self.miss(end);
            return false;
        }
        if place > 0 {
            self.skip(",");
        }
        self.wrong.is_none()
    }

    /// The next byte, if there is one.
    pub(crate) fn byte(&mut self) -> Option<u8> {
        let (first, rest) = self.rest.split_first()?;
        self.rest = rest;
        Some(*first)
    }

    /// The hexadecimal digits that stand next.
    pub(crate) fn digits(&mut self) -> &'a [u8] {
        let text = self.rest;
        for (place, byte) in text.iter().enumerate() {
            if !byte.is_ascii_hexdigit() {
                self.rest = &text[place..];
                return &text[..place];
            }
        }
        self.rest = &[];
        text
    }

    /// A decimal number of at most this.
    fn decimal(&mut self, most: u64) -> u64
        ensures { result ≤ most }
    {
        let before = self.rest;
        match value_of(self.digits(), 10) {
            Some(number) if number <= most => number,
            _ => {
                self.miss_at(before, "a number");
                0
            }
        }
    }

    pub(crate) fn number(&mut self) -> u32 {
        self.decimal(u32::MAX as u64) as u32
    }

    pub(crate) fn small(&mut self) -> u16 {
        self.decimal(u16::MAX as u64) as u16
    }

    /// A hexadecimal number of 64 bits.
    pub(crate) fn large(&mut self) -> u64 {
        let before = self.rest;
        match value_of(self.digits(), 16) {
            Some(number) => number,
            None => {
                self.miss_at(before, "a hexadecimal number");
                0
            }
        }
    }

    /// An element of 2, 4 or 8 bytes, each of two digits, the lowest first.
    pub(crate) fn element(&mut self, bytes: usize) -> u64
        requires small { bytes ≤ 8 }
        requires some { 0 < bytes }
    {
        let before = self.rest;
        let digits = self.digits();
        match value_of(digits, 16) {
            // The digits are in the order of the stream, the lowest byte first.
            Some(number) if digits.len() == bytes * 2 => number.swap_bytes() >> (64 - bytes * 8),
            _ => {
                let wanted = match bytes {
                    2 => "4 digits",
                    4 => "8 digits",
                    _ => "16 digits",
                };
                self.miss_at(before, wanted);
                0
            }
        }
    }

    pub(crate) fn truth(&mut self) -> bool {
        if self.takes("true") {
            return true;
        }
        self.skip_last("false", "true or false");
        false
    }

    /// A text between quotes, in which `\x` and two digits stand for a byte.
    pub(crate) fn text(&mut self) -> Text {
        self.skip("\"");
        let mut bytes = Vec::new(self.alloc);
        for _ in 0..=self.most() {
            if self.takes("\"") {
                break;
            }
            let byte = self.text_byte();
            self.push(&mut bytes, byte);
        }
        match String::from_utf8(bytes) {
            Ok(text) => Text::new(text),
            Err(_) => {
                self.miss("a text in UTF-8");
                Text::new(String::new(self.alloc))
            }
        }
    }

    /// A byte of a text.
    fn text_byte(&mut self) -> u8 {
        if self.takes("\\x") {
            return self.escaped();
        }
        let before = self.rest;
        match self.byte() {
            Some(byte) if byte != b'\\' => byte,
            _ => {
                self.miss_at(before, "\"");
                0
            }
        }
    }

    /// A byte of two digits.
    fn escaped(&mut self) -> u8 {
        let before = self.rest;
        let digits = [self.byte().unwrap_or(0), self.byte().unwrap_or(0)];
        match value_of(&digits, 16) {
            Some(byte) if byte < 256 => byte as u8,
            _ => {
                self.miss_at(before, "two hexadecimal digits");
                0
            }
        }
    }
}

/// What is wanted where memory ran out.
const MEMORY: &str = "memory";

/// The number of these digits. `None` where there are none, or one isn't a digit, or the number is greater than 64 bits.
fn value_of(digits: &[u8], radix: u32) -> Option<u64>
    requires least { 2 ≤ radix }
    requires greatest { radix ≤ 36 }
{
    if digits.is_empty() {
        return None;
    }
    let mut number: u64 = 0;
    for byte in digits {
        let digit = (*byte as char).to_digit(radix)?;
        number = number.checked_mul(radix as u64)?.checked_add(digit as u64)?;
    }
    Some(number)
}
