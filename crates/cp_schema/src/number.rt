//! Numbers in the reference tool's notation.

use crate::line::Line;
use std::num::{
    f32_to_f64_with_nan, nearest_u32_to_f32, nearest_u64_to_f64, saturating_f32_to_u32,
    saturating_f64_to_u64,
};

/// The smallest float of 32 bits that has all its bits.
const SMALLEST: f32 = 1.17549435e-38;

/// The sign and the size of a number of this width, which has these bits.
pub(crate) fn signed(width: u32, bits: u64) -> (&'static str, u64) {
    let (half, past) = match width {
        8 => (128, 256),
        16 => (32_768, 65_536),
        32 => (2_147_483_648, 4_294_967_296),
        _ => (9_223_372_036_854_775_808, 0_u64),
    };
    if bits < half {
        ("", bits)
    } else {
        // Of 64 bits the past doesn't fit, and is 0: the difference wraps.
        ("-", past.wrapping_sub(bits))
    }
}

impl Line<'_> {
    /// Adds a whole number of this width. In JSON one of 64 bits is a text, since many readers have no such numbers.
    pub(crate) fn integer(&mut self, width: u32, sign: &str, size: u64) {
        let is_quoted = width == 64 && self.is_json();
        if is_quoted {
            self.push('"');
        }
        self.put(sign);
        self.unsigned(size);
        if is_quoted {
            self.push('"');
        }
    }

    /// Adds a number.
    pub(crate) fn unsigned(&mut self, number: u64) {
        if write!(self.text, "{number}").is_err() {
            self.is_full = true;
        }
    }

    /// Adds a float of 32 bits: by six digits, or by eight where six say another number, or where it is so small that
    /// it has fewer bits.
    pub(crate) fn float32(&mut self, x: f32) {
        if self.is_json() {
            self.float64(f32_to_f64_with_nan(x));
            return;
        }
        let size = if x < 0.0 { -x } else { x };
        let count = saturating_f32_to_u32(size * 1000.0 + 0.5);
        // The float nearest to so few thousandths is shown as these: they have six digits at the most.
        if 0 < count && count < 1_000_000 && nearest_u32_to_f32(count) / 1000.0 == size {
            self.thousandths(x < 0.0, count as u64);
            return;
        }
        // The reference tool's digits.
        let mut short = String::new(self.alloc);
        if write!(short, "{x:e}").is_err() {
            self.is_full = true;
        }
        let mut long = String::new(self.alloc);
        let is_small = x != 0.0 && x > -SMALLEST && x < SMALLEST;
        let precision = if is_small || digits(short.as_str()) > 6 {
            8
        } else {
            6
        };
        let written = match precision {
            6 => write!(long, "{x:.5e}"),
            _ => write!(long, "{x:.7e}"),
        };
        if written.is_err() {
            self.is_full = true;
        }
        self.general(long.as_str(), precision);
    }

    /// Adds a float of 64 bits: by fifteen digits, or by seventeen where fifteen say another number.
    pub(crate) fn float64(&mut self, x: f64) {
        if self.is_json() && !x.is_finite() {
            self.characters(not_finite(x));
            return;
        }
        let size = if x < 0.0 { -x } else { x };
        let count = saturating_f64_to_u64(size * 1000.0 + 0.5);
        // As above: they have fifteen digits at the most.
        if 0 < count
            && count < 1_000_000_000_000_000
            && nearest_u64_to_f64(count) / 1000.0 == size
        {
            self.thousandths(x < 0.0, count);
            return;
        }
        let mut short = String::new(self.alloc);
        if write!(short, "{x:e}").is_err() {
            self.is_full = true;
        }
        let mut long = String::new(self.alloc);
        let precision = if digits(short.as_str()) > 15 { 17 } else { 15 };
        let written = match precision {
            15 => write!(long, "{x:.14e}"),
            _ => write!(long, "{x:.16e}"),
        };
        if written.is_err() {
            self.is_full = true;
        }
        self.general(long.as_str(), precision);
    }

    /// Adds a number of thousandths, without zeros at its end.
    fn thousandths(&mut self, is_negative: bool, count: u64) {
        if is_negative {
            self.push('-');
        }
        self.unsigned(count / 1000);
        let mut left = count % 1000;
        if left > 0 {
            self.push('.');
        }
        for _ in 0..3 {
            if left > 0 {
                self.digit((left / 100 % 10) as u8);
                left = left % 100 * 10;
            }
        }
    }

    /// Adds a number that is written with an exponent: without zeros at its end, and with no exponent where it has few
    /// digits before its point or few zeros after it.
    fn general(&mut self, written: &str, precision: i32) {
        let Some((mantissa, exponent)) = written.split_once('e') else {
            self.put(match written {
                // The reference tool's word.
                "NaN" => "nan",
                other => other,
            });
            return;
        };
        let Ok(exponent) = exponent.parse::<i32>() else {
            return;
        };
        let mantissa = match mantissa.strip_prefix('-') {
            Some(rest) => {
                self.push('-');
                rest
            }
            None => mantissa,
        };
        let mantissa = if mantissa.contains('.') {
            mantissa.trim_end_matches('0')
        } else {
            mantissa
        };
        if exponent < -4 || exponent >= precision {
            self.put(mantissa.trim_end_matches('.'));
            self.exponent(exponent);
        } else if exponent < 0 {
            self.put("0.");
            self.zeros(0_i32.saturating_sub(exponent).saturating_sub(1));
            self.fraction(mantissa, -1);
        } else {
            self.fraction(mantissa, exponent);
        }
    }

    /// Adds an exponent, by two digits at least.
    fn exponent(&mut self, exponent: i32) {
        let size = exponent.saturating_abs();
        let sign = if exponent < 0 { "-" } else { "" };
        if write!(self.text, "e{sign}{size:02}").is_err() {
            self.is_full = true;
        }
    }

    /// Adds zeros.
    fn zeros(&mut self, count: i32) {
        for _ in 0..count {
            self.push('0');
        }
    }

    /// Adds the digits of a number, with the point after digit `last`, if some follow it and it isn't negative.
    fn fraction(&mut self, mantissa: &str, last: i32) {
        let mut place = 0_i32;
        for c in mantissa.chars() {
            if c.is_ascii_digit() {
                if last >= 0 && place == last.saturating_add(1) {
                    self.push('.');
                }
                self.push(c);
                place = place.saturating_add(1);
            }
        }
        self.zeros(last.saturating_add(1).saturating_sub(place));
    }
}

/// The word of JSON for a float that isn't finite.
fn not_finite(x: f64) -> &'static str {
    if x.is_nan() {
        "NaN"
    } else if x < 0.0 {
        "-Infinity"
    } else {
        "Infinity"
    }
}

/// The number of digits of a number, its exponent aside.
fn digits(written: &str) -> usize {
    let mut count = 0_usize;
    for c in written.chars() {
        if c == 'e' {
            return count;
        }
        if c.is_ascii_digit() {
            count = count.saturating_add(1);
        }
    }
    count
}
