//! Pointer words.

ghost use Rattle.std.specs.Prelude.{◌≡◌, ◌<◌, ◌≤◌, ◌^◌, ◌-ℤ◌, pos, nat_lt, if◌then◌else◌, Some, ok_or};
ghost use Rattle.cp_words.specs.Word.{pointer_of, tag_of, size_of, IsOffset, IsWritable, offset_of, size_code, bits_of, words_for, offset_bits, word_of};

use std::error::Error;
use std::fmt;

/// How large each element of a list is (encoding specification, "Lists").
#[derive(Clone, Copy, PartialEq, Eq, Debug)]
pub enum ElementSize {
    Void,
    Bit,
    Byte,
    TwoBytes,
    FourBytes,
    EightBytes,
    Pointer,
    Composite,
}

/// What a pointer word says (encoding specification, "Structs", "Lists", "Inter-Segment Pointers",
/// "Capabilities (Interfaces)").
#[derive(Clone, Copy, PartialEq, Eq, Debug)]
pub enum Pointer {
    /// All 64 bits are zero.
    Null,
    /// A struct: its body begins `offset` words after the word after the pointer, with this many
    /// data words and then this many pointers.
    Struct {
        offset: i32,
        words: u16,
        ptrs: u16,
    },
    /// A list: its body begins as a struct's does. `count` is the number of elements, or for a
    /// composite list the number of words after its tag.
    List {
        offset: i32,
        size: ElementSize,
        count: u32,
    },
    /// The pointer is in another place: `place` is the word of `segment` where its landing pad begins, which
    /// has two words if `double`.
    Far {
        double: bool,
        place: u32,
        segment: u32,
    },
    /// A capability: its index in the capability table.
    Cap(u32),
}

/// A capability word with one of bits 2 to 31 set.
#[derive(Clone, Copy, PartialEq, Eq, Debug)]
pub struct BadCapability;

impl fmt::Display for BadCapability {
    fn fmt<W: fmt::Write>(&self, f: &mut fmt::Formatter<W>) -> fmt::Result {
        f.write_str("a capability word with one of bits 2 to 31 set")
    }
}

impl Error for BadCapability {}

/// Bits 2 to 31 of a struct or list word, a signed number.
#[inline(always)]
pub fn offset_of(word: u64) -> i32
    ensures { result ≡ offset_of word }
{
    let field = (word / 4 % 0x4000_0000) as i32;
    // Two's complement over 30 bits: from 2^29 on the number is negative.
    if field < 0x2000_0000 {
        field
    } else {
        field - 0x4000_0000
    }
}

/// The element size that three bits say.
#[inline(always)]
pub fn size_of(code: u64) -> ElementSize
    requires { code < 8 }
    ensures { result ≡ size_of code }
{
    match code {
        0 => ElementSize::Void,
        1 => ElementSize::Bit,
        2 => ElementSize::Byte,
        3 => ElementSize::TwoBytes,
        4 => ElementSize::FourBytes,
        5 => ElementSize::EightBytes,
        6 => ElementSize::Pointer,
        _ => ElementSize::Composite,
    }
}

/// What the word says, by the bit tables of the encoding specification.
#[inline(always)]
#[tactic(auto, unfolding(crate::specs::Word::pointer_of))]
pub fn decode(word: u64) -> Result<Pointer, BadCapability>
    ensures { result ≡ ok_or (pointer_of word) (record {}) }
{
    if word == 0 {
        return Ok(Pointer::Null);
    }
    // Divisions by powers of two, as the definitions have them: they compile to shifts.
    let high = word / 0x1_0000_0000;
    match word % 4 {
        0 => Ok(Pointer::Struct {
            offset: offset_of(word),
            words: (high % 0x1_0000) as u16,
            ptrs: (high / 0x1_0000) as u16,
        }),
        1 => Ok(Pointer::List {
            offset: offset_of(word),
            size: size_of(high % 8),
            count: (high / 8) as u32,
        }),
        2 => Ok(Pointer::Far {
            double: word / 4 % 2 == 1,
            place: (word / 8 % 0x2000_0000) as u32,
            segment: high as u32,
        }),
        _ => {
            // Bits 2 to 31 of a capability word are reserved, and have to be zero.
            if word % 0x1_0000_0000 == 3 {
                Ok(Pointer::Cap(high as u32))
            } else {
                Err(BadCapability)
            }
        }
    }
}

/// The word that says this. Each part must fit its bits, and a struct may not come out as the word
/// 0, which says null: a struct of size zero is written with offset -1.
#[tactic(auto, unfolding(crate::specs::Word::pointer_of))]
pub fn encode(pointer: Pointer) -> u64
    requires { IsWritable pointer }
    ensures says { pointer_of result ≡ Some pointer }
    ensures word { result ≡ word_of pointer }
{
    match pointer {
        Pointer::Null => 0,
        Pointer::Struct {
            offset,
            words,
            ptrs,
        } => {
            let high = words as u64 + 0x1_0000 * ptrs as u64;
            4 * offset_field(offset) + 0x1_0000_0000 * high
        }
        Pointer::List {
            offset,
            size,
            count,
        } => {
            let high = code_of(size) + 8 * count as u64;
            1 + 4 * offset_field(offset) + 0x1_0000_0000 * high
        }
        Pointer::Far {
            double,
            place,
            segment,
        } => {
            let landing_pad: u64 = if double { 1 } else { 0 };
            2 + 4 * landing_pad + 8 * place as u64 + 0x1_0000_0000 * segment as u64
        }
        Pointer::Cap(index) => 3 + 0x1_0000_0000 * index as u64,
    }
}

/// The words of a list's body: of this many elements, or for a composite list of this many words and
/// their tag.
#[inline(always)]
pub fn list_words(size: ElementSize, count: u32) -> u64
    ensures { result ≡ words_for size count }
{
    // One sum for each size, so that no jump depends on it.
    let whole = (count as u64 * bits_of(size) + 63) / 64;
    match size {
        ElementSize::Composite => whole + 1,
        _ => whole,
    }
}

/// The tag of a composite list (encoding specification, "Lists"): how many elements there are, and
/// of how many data words and pointers each.
#[derive(Clone, Copy, PartialEq, Eq, Debug)]
pub struct Tag {
    pub count: u32,
    pub words: u16,
    pub ptrs: u16,
}

/// The tag that a word is. `None` is a word of another kind than a struct pointer's.
#[inline(always)]
#[tactic(auto, unfolding(crate::specs::Word::tag_of))]
pub fn decode_tag(word: u64) -> Option<Tag>
    ensures { result ≡ tag_of word }
{
    if word % 4 != 0 {
        return None;
    }
    let high = word / 0x1_0000_0000;
    Some(Tag {
        count: (word / 4 % 0x4000_0000) as u32,
        words: (high % 0x1_0000) as u16,
        ptrs: (high / 0x1_0000) as u16,
    })
}

/// The 30 bits that stand for an offset.
fn offset_field(offset: i32) -> u64
    requires { IsOffset offset }
    ensures bits { result ≡ offset_bits offset }
    ensures field { result < 2 ^ 30 }
    ensures value { (if nat_lt result (2 ^ 29) then pos result else (pos result -ℤ pos (2 ^ 30))) ≡ offset }
{
    if offset < 0 {
        (offset + 0x4000_0000) as u64
    } else {
        offset as u64
    }
}

fn code_of(size: ElementSize) -> u64
    ensures { result ≡ size_code size }
{
    match size {
        ElementSize::Void => 0,
        ElementSize::Bit => 1,
        ElementSize::Byte => 2,
        ElementSize::TwoBytes => 3,
        ElementSize::FourBytes => 4,
        ElementSize::EightBytes => 5,
        ElementSize::Pointer => 6,
        ElementSize::Composite => 7,
    }
}

/// How many bits of a list's body an element takes; the elements of a composite list are counted by
/// words.
#[inline(always)]
fn bits_of(size: ElementSize) -> u64
    ensures value { result ≡ bits_of size }
    ensures small { result ≤ 64 }
{
    match size {
        ElementSize::Void => 0,
        ElementSize::Bit => 1,
        ElementSize::Byte => 8,
        ElementSize::TwoBytes => 16,
        ElementSize::FourBytes => 32,
        ElementSize::EightBytes | ElementSize::Pointer | ElementSize::Composite => 64,
    }
}
