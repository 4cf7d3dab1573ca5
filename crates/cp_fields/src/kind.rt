//! The kinds of what pointers stand for, and which of them a list may be read from.

ghost use Rattle.std.specs.Prelude.{◌≡◌};
ghost use Rattle.cp_words.specs.Word.{bits_of};
ghost use Rattle.cp_fields.specs.Kinds.{reads_from as reads, reads_from_structs as reads_structs};

use cp_words::ElementSize;
use std::error::Error;
use std::fmt;

/// What a pointer stands for, or what a field's type wants of it (encoding specification, "Structs",
/// "Lists", "Capabilities (Interfaces)").
#[derive(Clone, Copy, PartialEq, Eq, Debug)]
pub enum Kind {
    Null,
    Struct,
    /// A list whose elements are of this size.
    List(ElementSize),
    /// A list of bytes whose last is zero.
    Text,
    /// A list of bytes.
    Data,
    Capability,
}

/// A field's pointer stands for something of another kind than the field's type wants.
#[derive(Clone, Copy, PartialEq, Eq, Debug)]
pub struct WrongKind {
    pub wanted: Kind,
    pub found: Kind,
}

impl Kind {
    /// The kind in words.
    fn words(self) -> &'static str {
        match self {
            Kind::Null => "null",
            Kind::Struct => "a struct",
            Kind::List(size) => list_words(size),
            Kind::Text => "a text",
            Kind::Data => "data",
            Kind::Capability => "a capability",
        }
    }
}

impl fmt::Display for Kind {
    fn fmt<W: fmt::Write>(&self, f: &mut fmt::Formatter<W>) -> fmt::Result {
        f.write_str(self.words())
    }
}

impl fmt::Display for WrongKind {
    fn fmt<W: fmt::Write>(&self, f: &mut fmt::Formatter<W>) -> fmt::Result {
        f.write_str(self.found.words())?;
        f.write_str(" where ")?;
        f.write_str(self.wanted.words())?;
        f.write_str(" is wanted")
    }
}

impl Error for WrongKind {}

/// Whether elements of a size are read from those of another.
/// The rules are the reference library's; the specification says less.
#[inline(always)]
pub(crate) fn reads_from(wanted: ElementSize, found: ElementSize) -> bool
    ensures { result ≡ reads wanted found }
{
    match (wanted, found) {
        (ElementSize::Bit, ElementSize::Bit) => true,
        // A list of bits can't be upgraded to another list.
        (ElementSize::Bit, _) | (_, ElementSize::Bit) => false,
        // Any other element is read as a struct: fields past its end are zero or null.
        (ElementSize::Void | ElementSize::Composite, _) => true,
        (ElementSize::Pointer, ElementSize::Pointer) => true,
        (ElementSize::Pointer, _) | (_, ElementSize::Pointer) => false,
        _ => element_bits(wanted) <= element_bits(found),
    }
}

/// Whether elements of a size are read from structs of this many data words and pointers.
#[inline(always)]
pub(crate) fn reads_from_structs(wanted: ElementSize, words: u16, pointers: u16) -> bool
    ensures { result ≡ reads_structs wanted words pointers }
{
    match wanted {
        ElementSize::Void | ElementSize::Composite => true,
        ElementSize::Bit => false,
        ElementSize::Pointer => 0 < pointers,
        _ => 0 < words,
    }
}

/// The number of bits of an element.
#[inline(always)]
pub(crate) fn element_bits(size: ElementSize) -> u64
    ensures { result ≡ bits_of size }
{
    match size {
        ElementSize::Void => 0,
        ElementSize::Bit => 1,
        ElementSize::Byte => 8,
        ElementSize::TwoBytes => 16,
        ElementSize::FourBytes => 32,
        ElementSize::EightBytes | ElementSize::Pointer | ElementSize::Composite => 64,
    }
}

/// A list of elements of a size, in words.
fn list_words(size: ElementSize) -> &'static str {
    match size {
        ElementSize::Void => "a list of voids",
        ElementSize::Bit => "a list of bits",
        ElementSize::Byte => "a list of bytes",
        ElementSize::TwoBytes => "a list of numbers of two bytes",
        ElementSize::FourBytes => "a list of numbers of four bytes",
        ElementSize::EightBytes => "a list of numbers of eight bytes",
        ElementSize::Pointer => "a list of pointers",
        ElementSize::Composite => "a list of structs",
    }
}
