//! The numbers of a struct's data section (encoding specification, "Structs", "Default Values").

ghost use Rattle.std.specs.Prelude.{◌≡◌, ◌<◌, ◌≤◌, ◌+◌, ◌^◌};
ghost use Rattle.cp_builder.specs.Numbers.{put};

use crate::structure::StructBuilder;
use cp_fields::u16_at;

impl<const W: usize, const P: usize> StructBuilder<W, P> {
    ghost use Rattle.std.specs.Prelude.{◌≡◌, ◌<◌, ◌≤◌, ◌+◌, ◌*◌, ◌/◌, ◌%◌, ◌^◌};
    ghost use Rattle.cp_fields.specs.Numbers.{plain};
    ghost use Rattle.cp_builder.specs.Numbers.{flag_bit};
    ghost use Rattle.cp_builder.specs.Drafts.{with_uint};

    /// Sets bit `i`.
    #[inline]
    pub fn set_bit(&mut self, i: u32, set: bool)
        requires { i / 64 < W }
        ensures { self.new ≡ with_uint self.old 1 i (flag_bit set) }
    {
        self.set_number(1, i, set as u64);
    }

    /// Sets number `i` of 8 bits.
    #[inline]
    pub fn set_u8(&mut self, i: u32, number: u8)
        requires { i * 8 / 64 < W }
        ensures { self.new ≡ with_uint self.old 8 i number }
    {
        self.set_number(8, i, number as u64);
    }

    /// Sets number `i` of 16 bits.
    #[inline]
    pub fn set_u16(&mut self, i: u32, number: u16)
        requires { i * 16 / 64 < W }
        ensures { self.new ≡ with_uint self.old 16 i number }
    {
        self.set_number(16, i, number as u64);
    }

    /// Number `i` of 16 bits, such as that of a union's member.
    pub fn u16(&self, i: u32) -> u16
        ensures { result ≡ plain self.now 16 i }
    {
        u16_at(&self.words, i)
    }

    /// Sets number `i` of 32 bits.
    #[inline]
    pub fn set_u32(&mut self, i: u32, number: u32)
        requires { i * 32 / 64 < W }
        ensures { self.new ≡ with_uint self.old 32 i number }
    {
        self.set_number(32, i, number as u64);
    }

    /// Sets number `i` of 64 bits.
    #[inline]
    pub fn set_u64(&mut self, i: u32, number: u64)
        requires { i < W }
        ensures { self.new ≡ with_uint self.old 64 i number }
    {
        let word = self.words[i as usize];
        self.words[i as usize] = put_whole(word, number);
    }

    /// Sets number `i` of this many bits.
    #[inline(always)]
    fn set_number(&mut self, width: usize, i: u32, number: u64)
        requires some { 0 < width }
        requires narrow { width ≤ 32 }
        requires inside { i * width % 64 + width ≤ 64 }
        requires fits { number < 2 ^ width }
        requires within { i * width / 64 < W }
        ensures { self.new ≡ with_uint self.old width i number }
    {
        let first = i as usize * width;
        let word = self.words[first / 64];
        self.words[first / 64] = put(word, width, first % 64, number);
    }
}

/// A word with some of its bits replaced by a number's.
#[inline(always)]
fn put(word: u64, width: usize, first: usize, number: u64) -> u64
    requires narrow { width < 64 }
    requires within { first + width ≤ 64 }
    requires first { first < 64 }
    requires fits { number < 2 ^ width }
    ensures { result ≡ put word width first number }
{
    // Two shifts: `first + width` may be 64, which would overflow one.
    let above = word >> first >> width;
    (((above << width) | number) << first) | (word % (1 << first))
}

/// A word that is replaced by a number of 64 bits.
#[inline(always)]
fn put_whole(_word: u64, number: u64) -> u64
    ensures { result ≡ put _word 64 0 number }
{
    number
}
