//! What elements of lists are read as.

ghost use Rattle.std.specs.Prelude.{◌≡◌, [], from_bits};
ghost use Rattle.std.specs.Int.{cast_signed, w8, w16, w32, w64};
ghost use Rattle.std.specs.Float.{binary32, binary64};
ghost use Rattle.cp_words.specs.declared.pointer.ElementSize.{ElementSize};
ghost use Rattle.cp_words.specs.declared.pointer.ElementSize.TheVariants as sizes;
ghost use Rattle.cp_tree.specs.Node.{Node};
ghost use Rattle.cp_tree.specs.Seen.{pointee_of};
ghost use Rattle.cp_fields.specs.Numbers.{plain, flag};
ghost use Rattle.cp_fields.specs.Pointers.{struct_field, text_field, data_field, cap_field, list_field};

use crate::bytes::DataReader;
use crate::kind::WrongKind;
use crate::list::List;
use crate::pointer_reader::PointerReader;
use crate::structure::StructReader;
use crate::text::TextReader;
use cp_words::ElementSize;

/// What an element of a list is read as.
pub trait Element<'a>: Drop {
    /// The size of the elements that are wanted.
    ghost SIZE: { ElementSize };
    /// What an element is read as, which is seen as a struct.
    ghost read: { Node → Self };

    /// The size of the elements that are wanted.
    fn size() -> ElementSize
        ensures { result ≡ SIZE };

    /// What an element is read as. A number is the first of its width in the struct's data section, and a
    /// pointer the first of the struct.
    fn of_element(item: StructReader<'a>) -> Self
        ensures { result ≡ read item.entry };
}

impl<'a> Element<'a> for StructReader<'a> {
    ghost SIZE = { sizes.Composite };

    ghost read = { λ t. t };

    fn size() -> ElementSize
        ensures { result ≡ sizes.Composite }
    {
        ElementSize::Composite
    }

    #[inline]
    fn of_element(item: StructReader<'a>) -> StructReader<'a> {
        item
    }
}

impl<'a> Element<'a> for () {
    ghost SIZE = { sizes.Void };

    ghost read = { λ _. tt };

    fn size() -> ElementSize {
        ElementSize::Void
    }

    #[inline]
    fn of_element(_item: StructReader<'a>) -> () {
        ()
    }
}

impl<'a> Element<'a> for bool {
    ghost SIZE = { sizes.Bit };

    ghost read = { λ t. flag t 0 };

    fn size() -> ElementSize {
        ElementSize::Bit
    }

    #[inline]
    fn of_element(item: StructReader<'a>) -> bool {
        item.bit(0)
    }
}

impl<'a> Element<'a> for u8 {
    ghost SIZE = { sizes.Byte };

    ghost read = { λ t. plain t 8 0 };

    fn size() -> ElementSize {
        ElementSize::Byte
    }

    #[inline]
    fn of_element(item: StructReader<'a>) -> u8 {
        item.u8(0)
    }
}

impl<'a> Element<'a> for u16 {
    ghost SIZE = { sizes.TwoBytes };

    ghost read = { λ t. plain t 16 0 };

    fn size() -> ElementSize {
        ElementSize::TwoBytes
    }

    #[inline]
    fn of_element(item: StructReader<'a>) -> u16 {
        item.u16(0)
    }
}

impl<'a> Element<'a> for u32 {
    ghost SIZE = { sizes.FourBytes };

    ghost read = { λ t. plain t 32 0 };

    fn size() -> ElementSize {
        ElementSize::FourBytes
    }

    #[inline]
    fn of_element(item: StructReader<'a>) -> u32 {
        item.u32(0)
    }
}

impl<'a> Element<'a> for u64 {
    ghost SIZE = { sizes.EightBytes };

    ghost read = { λ t. plain t 64 0 };

    fn size() -> ElementSize {
        ElementSize::EightBytes
    }

    #[inline]
    fn of_element(item: StructReader<'a>) -> u64 {
        item.u64(0)
    }
}

impl<'a> Element<'a> for i8 {
    ghost SIZE = { sizes.Byte };

    ghost read = { λ t. cast_signed w8 (plain t 8 0) };

    fn size() -> ElementSize {
        ElementSize::Byte
    }

    #[inline]
    fn of_element(item: StructReader<'a>) -> i8 {
        item.i8(0)
    }
}

impl<'a> Element<'a> for i16 {
    ghost SIZE = { sizes.TwoBytes };

    ghost read = { λ t. cast_signed w16 (plain t 16 0) };

    fn size() -> ElementSize {
        ElementSize::TwoBytes
    }

    #[inline]
    fn of_element(item: StructReader<'a>) -> i16 {
        item.i16(0)
    }
}

impl<'a> Element<'a> for i32 {
    ghost SIZE = { sizes.FourBytes };

    ghost read = { λ t. cast_signed w32 (plain t 32 0) };

    fn size() -> ElementSize {
        ElementSize::FourBytes
    }

    #[inline]
    fn of_element(item: StructReader<'a>) -> i32 {
        item.i32(0)
    }
}

impl<'a> Element<'a> for i64 {
    ghost SIZE = { sizes.EightBytes };

    ghost read = { λ t. cast_signed w64 (plain t 64 0) };

    fn size() -> ElementSize {
        ElementSize::EightBytes
    }

    #[inline]
    fn of_element(item: StructReader<'a>) -> i64 {
        item.i64(0)
    }
}

impl<'a> Element<'a> for f32 {
    ghost SIZE = { sizes.FourBytes };

    ghost read = { λ t. from_bits binary32 (plain t 32 0) };

    fn size() -> ElementSize {
        ElementSize::FourBytes
    }

    #[inline]
    fn of_element(item: StructReader<'a>) -> f32 {
        item.f32(0)
    }
}

impl<'a> Element<'a> for f64 {
    ghost SIZE = { sizes.EightBytes };

    ghost read = { λ t. from_bits binary64 (plain t 64 0) };

    fn size() -> ElementSize {
        ElementSize::EightBytes
    }

    #[inline]
    fn of_element(item: StructReader<'a>) -> f64 {
        item.f64(0)
    }
}

impl<'a> Element<'a> for PointerReader<'a> {
    ghost SIZE = { sizes.Pointer };

    ghost read = { λ t. pointee_of t 0 };

    fn size() -> ElementSize
        ensures { result ≡ sizes.Pointer }
    {
        ElementSize::Pointer
    }

    #[inline]
    fn of_element(item: StructReader<'a>) -> PointerReader<'a> {
        item.pointer(0)
    }
}

impl<'a> Element<'a> for Result<TextReader<'a>, WrongKind> {
    ghost SIZE = { sizes.Pointer };

    ghost read = { λ t. text_field [] (pointee_of t 0) };

    fn size() -> ElementSize
        ensures { result ≡ sizes.Pointer }
    {
        ElementSize::Pointer
    }

    #[inline]
    fn of_element(item: StructReader<'a>) -> Result<TextReader<'a>, WrongKind> {
        item.text(0)
    }
}

impl<'a> Element<'a> for Result<DataReader<'a>, WrongKind> {
    ghost SIZE = { sizes.Pointer };

    ghost read = { λ t. data_field [] (pointee_of t 0) };

    fn size() -> ElementSize
        ensures { result ≡ sizes.Pointer }
    {
        ElementSize::Pointer
    }

    #[inline]
    fn of_element(item: StructReader<'a>) -> Result<DataReader<'a>, WrongKind> {
        item.data(0)
    }
}

impl<'a> Element<'a> for Result<Option<u32>, WrongKind> {
    ghost SIZE = { sizes.Pointer };

    ghost read = { λ t. cap_field (pointee_of t 0) };

    fn size() -> ElementSize {
        ElementSize::Pointer
    }

    #[inline]
    fn of_element(item: StructReader<'a>) -> Result<Option<u32>, WrongKind> {
        item.cap(0)
    }
}

impl<'a, T: Element<'a>> Element<'a> for Result<List<'a, T>, WrongKind> {
    ghost SIZE = { sizes.Pointer };

    ghost read = { λ t. list_field T.SIZE (pointee_of t 0) };

    fn size() -> ElementSize {
        ElementSize::Pointer
    }

    #[inline]
    fn of_element(item: StructReader<'a>) -> Result<List<'a, T>, WrongKind> {
        item.list(0)
    }
}
