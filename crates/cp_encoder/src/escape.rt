//! Texts and data between quotes.

ghost use Rattle.std.specs.Prelude.{◌≤◌};

use crate::token::is_blank;
use std::alloc::AllocError;

/// Adds the bytes that a text between quotes stands for. `Ok(false)`: after a `\` there is something else than can be.
pub(crate) fn push_text(bytes: &mut Vec<u8>, raw: &[u8]) -> Result<bool, AllocError> {
    let mut rest = raw;
    for _ in 0..raw.len() {
        let (plain, escape) = before_escape(rest);
        bytes.extend_from_slice(plain)?;
        rest = escape;
        let Some((byte, after)) = first_byte(escape) else {
            break;
        };
        bytes.push(byte)?;
        rest = after;
    }
    Ok(rest.is_empty())
}

/// Adds the bytes that two digits each stand for, between which there may be blanks. `Ok(false)`: something else stands there.
pub(crate) fn push_hex(bytes: &mut Vec<u8>, raw: &[u8]) -> Result<bool, AllocError> {
    let mut first = None;
    for byte in raw {
        match (digit_of(*byte, 16), first) {
            (Some(digit), None) => first = Some(digit),
            (Some(digit), Some(high)) => {
                bytes.push(joined(high, digit, 16))?;
                first = None;
            }
            (None, None) if is_blank(*byte) => {}
            (None, _) => return Ok(false),
        }
    }
    Ok(first.is_none())
}

/// What of a text stands for itself, and what comes from its first escape on.
pub(crate) fn before_escape(text: &[u8]) -> (&[u8], &[u8]) {
    for (place, byte) in text.iter().enumerate() {
        if *byte == b'\\' {
            return (&text[..place], &text[place..]);
        }
    }
    (text, &[])
}

/// The byte that the escape at the front of a text stands for, and what comes after it.
fn first_byte(text: &[u8]) -> Option<(u8, &[u8])> {
    match text {
        [b'\\', b'x', high, low, rest @ ..] => {
            let (high, low) = (digit_of(*high, 16)?, digit_of(*low, 16)?);
            Some((joined(high, low, 16), rest))
        }
        [b'\\', b'0'..=b'7', ..] => octal(text),
        [b'\\', mark, rest @ ..] => Some((meant_by(*mark)?, rest)),
        _ => None,
    }
}

/// The byte that one to three digits after the first byte stand for, and what comes after them.
fn octal(text: &[u8]) -> Option<(u8, &[u8])> {
    let (_, mut rest) = text.split_first()?;
    let mut byte = 0;
    for _ in 0..3 {
        let Some((first, after)) = rest.split_first() else {
            break;
        };
        let Some(digit) = digit_of(*first, 8) else {
            break;
        };
        byte = joined(byte, digit, 8);
        rest = after;
    }
    Some((byte, rest))
}

/// What a mark after a `\` means.
fn meant_by(mark: u8) -> Option<u8> {
    Some(match mark {
        b'a' => 7,
        b'b' => 8,
        b't' => 9,
        b'n' => 10,
        b'v' => 11,
        b'f' => 12,
        b'r' => 13,
        b'\\' | b'\'' | b'"' | b'?' => mark,
        _ => return None,
    })
}

/// What a digit counts.
pub(crate) fn digit_of(byte: u8, radix: u32) -> Option<u8>
    requires least { 2 ≤ radix }
    requires greatest { radix ≤ 36 }
{
    let digit = (byte as char).to_digit(radix)?;
    u8::try_from(digit).ok()
}

/// A number with one more digit; what is greater than a byte is dropped.
fn joined(number: u8, digit: u8, radix: u8) -> u8 {
    number.wrapping_mul(radix).wrapping_add(digit)
}
