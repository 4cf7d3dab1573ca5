//! Numbers as texts have them.

ghost use Rattle.std.specs.Prelude.{◌≤◌};

use std::num::{
    f32_to_bits_with_nan, f64_to_bits_with_nan, nearest_f64_to_f32_with_nan, nearest_u64_to_f64,
};

/// The whole number of 64 bits that a numeral stands for: hexadecimal after `0x`, octal after `0`, else decimal. `None`: it is
/// none, or greater.
pub(crate) fn integer_of(numeral: &[u8]) -> Option<u64> {
    match numeral {
        [b'0', b'x', digits @ ..] => value_of(digits, 16),
        [b'0', _, ..] => value_of(numeral, 8),
        _ => value_of(numeral, 10),
    }
}

/// Whether a numeral has a point or an exponent.
pub(crate) fn is_decimal(numeral: &[u8]) -> bool {
    !numeral.starts_with(b"0x")
        && numeral
            .iter()
            .any(|byte| matches!(*byte, b'.' | b'e' | b'E'))
}

/// The float that is nearest to a numeral. `None`: it is none.
pub(crate) fn float_of(numeral: &[u8]) -> Option<f64> {
    if is_decimal(numeral) {
        fast_float::parse(numeral).ok()
    } else {
        Some(nearest_u64_to_f64(integer_of(numeral)?))
    }
}

/// The bits of the float of this width that is nearest to one of 64 bits.
pub(crate) fn bits_of_float(width: u32, x: f64) -> u64 {
    if width == 32 {
        u64::from(f32_to_bits_with_nan(nearest_f64_to_f32_with_nan(x)))
    } else {
        f64_to_bits_with_nan(x)
    }
}

/// The bits of a float that is no number, as the reference tool has it.
pub(crate) fn nan(width: u32) -> u64 {
    if width == 32 {
        0x7fc0_0000
    } else {
        0x7ff8_0000_0000_0000
    }
}

/// The bits of the float past all others.
pub(crate) fn infinity(width: u32) -> u64 {
    if width == 32 {
        0x7f80_0000
    } else {
        0x7ff0_0000_0000_0000
    }
}

/// The bit of a float's sign.
pub(crate) fn sign_bit(width: u32) -> u64 {
    if width == 32 {
        0x8000_0000
    } else {
        0x8000_0000_0000_0000
    }
}

/// The number of these digits. `None`: there are none, or one isn't a digit, or the number is greater than 64 bits.
fn value_of(digits: &[u8], radix: u32) -> Option<u64>
    requires least { 2 ≤ radix }
    requires greatest { radix ≤ 36 }
{
    if digits.is_empty() {
        return None;
    }
    let mut number: u64 = 0;
    for byte in digits {
        let digit = (*byte as char).to_digit(radix)?;
        number = number.checked_mul(radix as u64)?.checked_add(digit as u64)?;
    }
    Some(number)
}
