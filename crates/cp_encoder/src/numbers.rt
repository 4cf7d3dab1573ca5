//! Numbers, bools and values of enums.

use crate::json::{real_of, whole_of};
use crate::nearest::Nearest;
use crate::number::{bits_of_float, float_of, infinity, integer_of, nan, sign_bit};
use crate::reader::Reader;
use crate::token::Token;
use crate::value::Width;
use cp_schema::{Base, Enumerant, Node, NodeKind, Type};

/// How many bits a value of this type has, which is no pointer. `None`: it has none.
pub(crate) fn width_of(of: Base) -> Option<Width> {
    match of {
        Base::Bool => Some(Width::Bit),
        Base::Signed(8) | Base::Unsigned(8) => Some(Width::Byte),
        Base::Signed(16) | Base::Unsigned(16) | Base::Enum(_) => Some(Width::TwoBytes),
        Base::Signed(32) | Base::Unsigned(32) | Base::Float(32) => Some(Width::FourBytes),
        Base::Signed(_) | Base::Unsigned(_) | Base::Float(_) => Some(Width::Word),
        _ => None,
    }
}

/// Whether a type's values are pointers.
pub(crate) fn is_pointer(of: Type) -> bool {
    of.lists > 0
        || matches!(
            of.of,
            Base::Text | Base::Data | Base::Struct(_) | Base::Interface(_) | Base::AnyPointer
        )
}

impl<'s, 't> Reader<'s, 't> {
    /// The bits of a value of this type, which is no pointer.
    pub(crate) fn bits(&mut self, of: Base) -> u64 {
        match of {
            Base::Bool => self.truth() as u64,
            Base::Signed(width) | Base::Unsigned(width) => self.integer(of, width),
            Base::Float(width) => self.float(width),
            Base::Enum(id) => self.enum_value(id),
            _ => {
                self.void();
                0
            }
        }
    }

    /// A bool.
    pub(crate) fn truth(&mut self) -> bool {
        match self.token {
            Token::Name(b"true") => {
                self.advance();
                true
            }
            Token::Name(b"false") => {
                self.advance();
                false
            }
            _ => {
                self.miss("true or false");
                false
            }
        }
    }

    /// The value of type Void.
    pub(crate) fn void(&mut self) {
        match (self.token, self.is_json) {
            (Token::Name(b"void"), false) | (Token::Name(b"null"), true) => self.advance(),
            (_, false) => self.miss("void"),
            (_, true) => self.miss("null"),
        }
    }

    /// The bits of a whole number of this width.
    fn integer(&mut self, of: Base, width: u32) -> u64 {
        let before = self.mark();
        let is_signed = matches!(of, Base::Signed(_));
        match self.whole() {
            Some((is_negative, size)) if is_in_range(is_signed, width, is_negative, size) => {
                self.advance();
                if is_negative {
                    0_u64.wrapping_sub(size) & mask(width)
                } else {
                    size
                }
            }
            _ => {
                self.miss_from(before, range_of(is_signed, width));
                0
            }
        }
    }

    /// The sign and the size of the whole number that is next. Its sign is taken off, where it is a token of its own.
    fn whole(&mut self) -> Option<(bool, u64)> {
        if self.is_json {
            return match self.token {
                Token::Number(numeral) | Token::Text(numeral) => whole_of(numeral),
                _ => None,
            };
        }
        let is_negative = self.takes(b'-');
        match self.token {
            Token::Number(numeral) => Some((is_negative, integer_of(numeral)?)),
            _ => None,
        }
    }

    /// The bits of a float of this width, as JSON has it.
    fn json_float(&mut self, width: u32) -> u64 {
        let found = match self.token {
            Token::Text(b"NaN") | Token::Name(b"null") => Some((false, nan(width))),
            Token::Text(b"Infinity") => Some((false, infinity(width))),
            Token::Text(b"-Infinity") => Some((true, infinity(width))),
            Token::Number(numeral) | Token::Text(numeral) => real_of(numeral).map(|(
                is_negative,
                x,
            )| (is_negative, bits_of_float(width, x))),
            _ => None,
        };
        match found {
            Some((is_negative, bits)) => {
                self.advance();
                if is_negative {
                    bits ^ sign_bit(width)
                } else {
                    bits
                }
            }
            None => {
                self.miss("a number, \"NaN\", \"Infinity\" or \"-Infinity\"");
                0
            }
        }
    }

    /// The bits of a float of this width.
    fn float(&mut self, width: u32) -> u64 {
        if self.is_json {
            return self.json_float(width);
        }
        let is_negative = self.takes(b'-');
        let bits = match self.token {
            Token::Name(b"inf") => Some(infinity(width)),
            Token::Name(b"nan") => Some(nan(width)),
            Token::Number(numeral) => float_of(numeral).map(|x| bits_of_float(width, x)),
            _ => None,
        };
        match bits {
            Some(bits) => {
                self.advance();
                if is_negative {
                    bits ^ sign_bit(width)
                } else {
                    bits
                }
            }
            None => {
                self.miss("a number, inf or nan");
                0
            }
        }
    }

    /// The number of a value of the enum of this node: by its name, or by a number between brackets.
    fn enum_value(&mut self, id: u64) -> u64 {
        if self.is_json {
            return self.json_enum(id);
        }
        if self.takes(b'(') {
            let number = self.integer(Base::Unsigned(16), 16);
            self.skip(b')', ")");
            return number;
        }
        let found = match self.token {
            Token::Name(name) => self.number_of(id, name),
            _ => None,
        };
        match found {
            Some(number) => {
                self.advance();
                number
            }
            None => {
                let name = match self.token {
                    Token::Name(name) => name,
                    _ => &[],
                };
                self.miss_enum(id, name);
                0
            }
        }
    }

    /// The number of a value of the enum of this node in JSON: by its name, or by its number.
    fn json_enum(&mut self, id: u64) -> u64 {
        let Token::Text(raw) = self.token else {
            return self.integer(Base::Unsigned(16), 16);
        };
        let name = self.unescaped(raw);
        let found = self.number_of(id, &name);
        match found {
            Some(_) => self.advance(),
            None => self.miss_enum(id, &name),
        }
        drop(name);
        found.unwrap_or(0)
    }

    /// Ends the reading here, where a value of the enum of this number is wanted, and not this name.
    fn miss_enum(&mut self, id: u64, name: &[u8]) {
        match self.schema.find(id) {
            Some(node) => self.miss_value(node, name),
            None => self.miss("a value of an enum that the schema has"),
        }
    }

    /// Ends the reading here, where a value of this enum is wanted and there is another name.
    fn miss_value(&mut self, node: &Node, name: &[u8]) {
        let mut nearest = Nearest::new(self.alloc, name);
        if let NodeKind::Enum(items) = &node.kind {
            for item in items {
                nearest.add(self.name_of(item));
            }
        }
        let wanted = nearest.wanted(node.name());
        drop(nearest);
        self.miss_made(wanted);
    }

    /// The number of the value of this name.
    fn number_of(&self, id: u64, name: &[u8]) -> Option<u64> {
        let NodeKind::Enum(items) = &self.schema.find(id)?.kind else {
            return None;
        };
        for (place, item) in items.iter().enumerate() {
            if self.name_of(item).as_bytes() == name {
                return Some(place as u64);
            }
        }
        None
    }

    /// The name of a value of an enum.
    fn name_of<'e>(&self, item: &'e Enumerant) -> &'e str {
        if self.is_json {
            item.json_name()
        } else {
            item.name.as_str()
        }
    }
}

/// Whether a whole number of this sign and size has this width.
fn is_in_range(is_signed: bool, width: u32, is_negative: bool, size: u64) -> bool {
    match (is_signed, is_negative) {
        (false, false) => size <= mask(width),
        (false, true) => size == 0,
        (true, false) => size <= mask(width) / 2,
        (true, true) => size <= mask(width) / 2 + 1,
    }
}

/// The greatest number of this width.
fn mask(width: u32) -> u64 {
    match width {
        8 => 0xff,
        16 => 0xffff,
        32 => 0xffff_ffff,
        _ => u64::MAX,
    }
}

/// What whole numbers there are of this width.
fn range_of(is_signed: bool, width: u32) -> &'static str {
    match (is_signed, width) {
        (false, 8) => "UInt8, from 0 to 255",
        (false, 16) => "UInt16, from 0 to 65535",
        (false, 32) => "UInt32, from 0 to 4294967295",
        (false, _) => "UInt64, from 0 to 18446744073709551615",
        (true, 8) => "Int8, from -128 to 127",
        (true, 16) => "Int16, from -32768 to 32767",
        (true, 32) => "Int32, from -2147483648 to 2147483647",
        (true, _) => "Int64, from -9223372036854775808 to 9223372036854775807",
    }
}
