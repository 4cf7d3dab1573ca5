//! Defaults and constants, as schema text.

use crate::describing::Text;
use cp_schema::{Base, NodeKind, SchemaValue, Type};
use std::alloc::AllocError;
use std::fmt::Display;
use std::num::{f32_from_bits_with_nan, f64_from_bits_with_nan};

impl<'s> Text<'s> {
    /// Adds a default or a constant of a type: a number by its bits.
    pub(crate) fn value(
        &mut self,
        of: Type,
        bits: u64,
        value: &SchemaValue,
    ) -> Result<(), AllocError> {
        self.put(" = ")?;
        match value {
            SchemaValue::Text(text) => push_quoted(&mut self.lines, text.as_str()),
            SchemaValue::Data(bytes) => push_data(&mut self.lines, bytes),
            SchemaValue::Tree(_) => self.put("(..)"),
            SchemaValue::Bits(_) | SchemaValue::Other => self.number(of.of, bits),
        }
    }

    /// Adds a number by its bits.
    fn number(&mut self, of: Base, bits: u64) -> Result<(), AllocError> {
        match of {
            Base::Bool => self.put(if bits == 0 { "false" } else { "true" }),
            Base::Signed(width) => {
                let (sign, size) = signed(width, bits);
                write!(self.lines, "{sign}{size}")
            }
            Base::Float(32) => {
                let float = f32_from_bits_with_nan(u32::try_from(bits).unwrap_or(0));
                self.float(float.is_nan(), &float)
            }
            Base::Float(_) => {
                let float = f64_from_bits_with_nan(bits);
                self.float(float.is_nan(), &float)
            }
            Base::Enum(id) => self.enumerant(id, bits),
            Base::Void => self.put("void"),
            _ => write!(self.lines, "{bits}"),
        }
    }

    /// Adds a float.
    fn float<F: Display>(&mut self, is_nan: bool, float: &F) -> Result<(), AllocError> {
        if is_nan {
            return self.put("nan");
        }
        write!(self.lines, "{float}")
    }

    /// Adds a value of an enum.
    fn enumerant(&mut self, id: u64, bits: u64) -> Result<(), AllocError> {
        if let Some(node) = self.schema.find(id) {
            if let NodeKind::Enum(items) = &node.kind {
                if let Some(item) = items.get(bits as usize) {
                    return self.put(item.name.as_str());
                }
            }
        }
        write!(self.lines, "{bits}")
    }
}

/// The bits of a constant.
pub(crate) fn bits_of(value: &SchemaValue) -> u64 {
    match value {
        SchemaValue::Bits(bits) => *bits,
        _ => 0,
    }
}

/// Adds a text between quotes.
fn push_quoted(line: &mut String, text: &str) -> Result<(), AllocError> {
    line.push('"')?;
    for c in text.chars() {
        push_char(line, c)?;
    }
    line.push('"')
}

/// Adds a character of a text between quotes.
fn push_char(line: &mut String, c: char) -> Result<(), AllocError> {
    match c {
        '"' | '\\' => {
            line.push('\\')?;
            line.push(c)
        }
        '\n' => line.push_str("\\n"),
        c if c.is_ascii_control() => {
            let byte = c as u32;
            write!(line, "\\x{byte:02x}")
        }
        c => line.push(c),
    }
}

/// Adds data in hexadecimal.
fn push_data(line: &mut String, bytes: &[u8]) -> Result<(), AllocError> {
    line.push_str("0x\"")?;
    for (place, byte) in bytes.iter().enumerate() {
        if place > 0 {
            line.push(' ')?;
        }
        write!(line, "{byte:02x}")?;
    }
    line.push('"')
}

/// The sign and the size of a number of this width, which has these bits.
fn signed(width: u32, bits: u64) -> (&'static str, u64) {
    let (half, past) = match width {
        8 => (0x80, 0x100),
        16 => (0x8000, 0x1_0000),
        32 => (0x8000_0000, 0x1_0000_0000),
        // Of 64 bits the second doesn't fit, and is 0: the difference wraps.
        _ => (0x8000_0000_0000_0000, 0_u64),
    };
    if bits < half {
        ("", bits)
    } else {
        ("-", past.wrapping_sub(bits))
    }
}
