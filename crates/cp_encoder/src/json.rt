//! The tokens of JSON. (RFC 8259)

use crate::escape::{before_escape, digit_of};
use std::alloc::AllocError;
use std::num::{nearest_u64_to_f64, saturating_f64_to_u64};

/// Below this number floats have all whole numbers.
const MOST_EXACT: u64 = 9_007_199_254_740_992;

/// A text without the blanks that it begins with.
pub(crate) fn after_json_blanks(text: &[u8]) -> &[u8] {
    for (place, byte) in text.iter().enumerate() {
        if !matches!(*byte, b' ' | b'\t' | b'\n' | b'\r') {
            return &text[place..];
        }
    }
    &[]
}

/// Adds the bytes of a string between quotes. `Ok(false)`: it isn't one of JSON.
pub(crate) fn push_string(bytes: &mut Vec<u8>, raw: &[u8]) -> Result<bool, AllocError> {
    if str::from_utf8(raw).is_err() {
        return Ok(false);
    }
    let mut rest = raw;
    for _ in 0..raw.len() {
        let (plain, escape) = before_escape(rest);
        if plain.iter().any(|byte| *byte < b' ') {
            return Ok(false);
        }
        bytes.extend_from_slice(plain)?;
        rest = escape;
        let Some((c, after)) = first_escape(escape) else {
            break;
        };
        push_char(bytes, c)?;
        rest = after;
    }
    Ok(rest.is_empty())
}

/// The sign and the size of a whole number. `None`: it is none, or isn't exact.
pub(crate) fn whole_of(numeral: &[u8]) -> Option<(bool, u64)> {
    if !is_numeral(numeral) {
        return None;
    }
    let (is_negative, size) = signed(numeral);
    match str::from_utf8(size).unwrap_or("").parse::<u64>() {
        Ok(whole) => Some((is_negative, whole)),
        Err(_) => Some((is_negative, exact(fast_float::parse(size).ok()?)?)),
    }
}

/// The sign and the size of a number. `None`: it is none.
pub(crate) fn real_of(numeral: &[u8]) -> Option<(bool, f64)> {
    if !is_numeral(numeral) {
        return None;
    }
    let (is_negative, size) = signed(numeral);
    Some((is_negative, fast_float::parse(size).ok()?))
}

/// Whether a numeral is one of JSON.
fn is_numeral(numeral: &[u8]) -> bool {
    let (_, size) = signed(numeral);
    let (whole, rest) = digits(size);
    if !matches!(whole, [b'0'] | [b'1'..=b'9', ..]) {
        return false;
    }
    let rest = match rest {
        [b'.', fraction @ ..] => match digits(fraction) {
            ([], _) => return false,
            (_, rest) => rest,
        },
        rest => rest,
    };
    match rest {
        [b'e' | b'E', b'+' | b'-', exponent @ ..] | [b'e' | b'E', exponent @ ..] => {
            let (digits, rest) = digits(exponent);
            !digits.is_empty() && rest.is_empty()
        }
        rest => rest.is_empty(),
    }
}

/// Whether a numeral has a sign, and the numeral without it.
fn signed(numeral: &[u8]) -> (bool, &[u8]) {
    match numeral {
        [b'-', size @ ..] => (true, size),
        size => (false, size),
    }
}

/// The digits that a text begins with, and what comes after them.
fn digits(text: &[u8]) -> (&[u8], &[u8]) {
    for (place, byte) in text.iter().enumerate() {
        if !(*byte).is_ascii_digit() {
            return (&text[..place], &text[place..]);
        }
    }
    (text, &[])
}

/// The whole number that a float is, where floats have all of them.
fn exact(x: f64) -> Option<u64> {
    let whole = saturating_f64_to_u64(x);
    if whole < MOST_EXACT && nearest_u64_to_f64(whole) == x {
        Some(whole)
    } else {
        None
    }
}

/// The character of the escape that a text begins with, and what comes after it.
fn first_escape(text: &[u8]) -> Option<(char, &[u8])> {
    match text {
        [b'\\', b'u', rest @ ..] => code_point(rest),
        [b'\\', mark, rest @ ..] => Some((meant_by(*mark)?, rest)),
        _ => None,
    }
}

/// The character of one code unit, or of two.
fn code_point(text: &[u8]) -> Option<(char, &[u8])> {
    let (unit, rest) = code_unit(text)?;
    let high = unit.wrapping_sub(0xd800);
    if high >= 0x400 {
        return Some((char::from_u32(unit)?, rest));
    }
    let [b'\\', b'u', rest @ ..] = rest else {
        return None;
    };
    let (unit, rest) = code_unit(rest)?;
    let low = unit.wrapping_sub(0xdc00);
    if low >= 0x400 {
        return None;
    }
    Some((char::from_u32(0x1_0000 + high * 0x400 + low)?, rest))
}

/// The code unit of four digits, and what comes after it.
fn code_unit(text: &[u8]) -> Option<(u32, &[u8])> {
    let [a, b, c, d, rest @ ..] = text else {
        return None;
    };
    let high = digit_of(*a, 16)? as u32 * 16 + digit_of(*b, 16)? as u32;
    let low = digit_of(*c, 16)? as u32 * 16 + digit_of(*d, 16)? as u32;
    Some((high * 256 + low, rest))
}

/// What a mark after a `\` means.
fn meant_by(mark: u8) -> Option<char> {
    Some(match mark {
        b'b' => '\u{8}',
        b'f' => '\u{c}',
        b'n' => '\n',
        b'r' => '\r',
        b't' => '\t',
        b'"' | b'\\' | b'/' => mark as char,
        _ => return None,
    })
}

/// Adds a character's bytes.
fn push_char(bytes: &mut Vec<u8>, c: char) -> Result<(), AllocError> {
    let mut room = [0_u8; 4];
    bytes.extend_from_slice(c.encode_utf8(&mut room).as_bytes())
}
