//! The numbers of a struct's data section, by their places and defaults (encoding specification,
//! "Structs", "Default Values").

ghost use Rattle.std.specs.Prelude.{◌≡◌, ◌==◌, bit_xor, from_bits, not};
ghost use Rattle.std.specs.Int.{cast_signed, w8, w16, w32, w64};
ghost use Rattle.std.specs.Float.{binary32, binary64};
ghost use Rattle.cp_fields.specs.Numbers.{plain, uint, flag};

use crate::structure::StructReader;
use std::num::{f32_from_bits_with_nan, f64_from_bits_with_nan};

impl<'a> StructReader<'a> {
    /// Bit `i`.
    #[inline]
    pub fn bit(&self, i: u32) -> bool
        ensures { result ≡ flag self.now i }
    {
        self.number(1, i) == 1
    }

    /// Number `i` of 8 bits.
    #[inline]
    pub fn u8(&self, i: u32) -> u8
        ensures { result ≡ plain self.now 8 i }
    {
        self.number(8, i) as u8
    }

    /// Number `i` of 16 bits.
    #[inline]
    pub fn u16(&self, i: u32) -> u16
        ensures { result ≡ plain self.now 16 i }
    {
        self.number(16, i) as u16
    }

    /// Number `i` of 32 bits.
    #[inline]
    pub fn u32(&self, i: u32) -> u32
        ensures { result ≡ plain self.now 32 i }
    {
        self.number(32, i) as u32
    }

    /// Number `i` of 64 bits.
    #[inline]
    pub fn u64(&self, i: u32) -> u64
        ensures { result ≡ plain self.now 64 i }
    {
        self.word(i as usize)
    }

    /// Signed number `i` of 8 bits.
    #[inline]
    pub fn i8(&self, i: u32) -> i8
        ensures { result ≡ cast_signed w8 (plain self.now 8 i) }
    {
        self.u8(i).cast_signed()
    }

    /// Signed number `i` of 16 bits.
    #[inline]
    pub fn i16(&self, i: u32) -> i16
        ensures { result ≡ cast_signed w16 (plain self.now 16 i) }
    {
        self.u16(i).cast_signed()
    }

    /// Signed number `i` of 32 bits.
    #[inline]
    pub fn i32(&self, i: u32) -> i32
        ensures { result ≡ cast_signed w32 (plain self.now 32 i) }
    {
        self.u32(i).cast_signed()
    }

    /// Signed number `i` of 64 bits.
    #[inline]
    pub fn i64(&self, i: u32) -> i64
        ensures { result ≡ cast_signed w64 (plain self.now 64 i) }
    {
        self.u64(i).cast_signed()
    }

    /// Float `i` of 32 bits. Whatever its bits are, a NaN is one NaN.
    /// The toolchain knows one NaN; `u32` of the same place gives its bits.
    #[inline]
    pub fn f32(&self, i: u32) -> f32
        ensures { result ≡ from_bits binary32 (plain self.now 32 i) }
    {
        f32_from_bits_with_nan(self.u32(i))
    }

    /// Float `i` of 64 bits. Whatever its bits are, a NaN is one NaN.
    /// The toolchain knows one NaN; `u64` of the same place gives its bits.
    #[inline]
    pub fn f64(&self, i: u32) -> f64
        ensures { result ≡ from_bits binary64 (plain self.now 64 i) }
    {
        f64_from_bits_with_nan(self.u64(i))
    }

    /// Bit `i`, of a field whose default is true.
    #[inline]
    pub fn bit_or_true(&self, i: u32) -> bool
        ensures { result ≡ not (flag self.now i) }
    {
        // Stored as the exclusive or with the default, so that zero bits stand for the default.
        !self.bit(i)
    }

    /// Number `i` of 8 bits, of a field with this default.
    #[inline]
    pub fn u8_or(&self, i: u32, default: u8) -> u8
        ensures { result ≡ uint self.now 8 i default }
    {
        // Stored as the exclusive or with the default.
        self.u8(i) ^ default
    }

    /// Number `i` of 16 bits, of a field with this default.
    #[inline]
    pub fn u16_or(&self, i: u32, default: u16) -> u16
        ensures { result ≡ uint self.now 16 i default }
    {
        self.u16(i) ^ default
    }

    /// Number `i` of 32 bits, of a field with this default.
    #[inline]
    pub fn u32_or(&self, i: u32, default: u32) -> u32
        ensures { result ≡ uint self.now 32 i default }
    {
        self.u32(i) ^ default
    }

    /// Number `i` of 64 bits, of a field with this default.
    #[inline]
    pub fn u64_or(&self, i: u32, default: u64) -> u64
        ensures { result ≡ uint self.now 64 i default }
    {
        self.u64(i) ^ default
    }

    /// Signed number `i` of 8 bits, of a field whose default has these bits.
    #[inline]
    pub fn i8_or(&self, i: u32, default: u8) -> i8
        ensures { result ≡ cast_signed w8 (uint self.now 8 i default) }
    {
        self.u8_or(i, default).cast_signed()
    }

    /// Signed number `i` of 16 bits, of a field whose default has these bits.
    #[inline]
    pub fn i16_or(&self, i: u32, default: u16) -> i16
        ensures { result ≡ cast_signed w16 (uint self.now 16 i default) }
    {
        self.u16_or(i, default).cast_signed()
    }

    /// Signed number `i` of 32 bits, of a field whose default has these bits.
    #[inline]
    pub fn i32_or(&self, i: u32, default: u32) -> i32
        ensures { result ≡ cast_signed w32 (uint self.now 32 i default) }
    {
        self.u32_or(i, default).cast_signed()
    }

    /// Signed number `i` of 64 bits, of a field whose default has these bits.
    #[inline]
    pub fn i64_or(&self, i: u32, default: u64) -> i64
        ensures { result ≡ cast_signed w64 (uint self.now 64 i default) }
    {
        self.u64_or(i, default).cast_signed()
    }

    /// Float `i` of 32 bits, of a field whose default has these bits. Whatever its bits are, a NaN is one NaN.
    #[inline]
    pub fn f32_or(&self, i: u32, default: u32) -> f32
        ensures { result ≡ from_bits binary32 (uint self.now 32 i default) }
    {
        f32_from_bits_with_nan(self.u32_or(i, default))
    }

    /// Float `i` of 64 bits, of a field whose default has these bits. Whatever its bits are, a NaN is one NaN.
    #[inline]
    pub fn f64_or(&self, i: u32, default: u64) -> f64
        ensures { result ≡ from_bits binary64 (uint self.now 64 i default) }
    {
        f64_from_bits_with_nan(self.u64_or(i, default))
    }
}
