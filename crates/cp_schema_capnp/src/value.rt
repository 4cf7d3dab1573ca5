//! `value` of schema.capnp.

ghost use Rattle.std.specs.Prelude.{◌≡◌, []};
ghost use Rattle.cp_words.specs.declared.pointer.ElementSize.TheVariants as sizes;
ghost use Rattle.cp_tree.specs.Seen.{pointee_of};
ghost use Rattle.cp_fields.specs.Numbers.{flag, plain};
ghost use Rattle.cp_fields.specs.Pointers.{data_field, text_field};
ghost use Rattle.cp_schema_capnp.specs.Value.{value_which_of};

use cp_fields::{
    DataReader, Element, PointerReader, StructReader, TextReader, UnknownEnumerant, WrongKind,
};

/// Represents a value, e.g. a field default value, constant value, or annotation value.
#[derive(Drop)]
pub struct ValueReader<'a> {
    /// The struct, by the places of its fields.
    pub body: StructReader<'a>,
}

impl<'a> Element<'a> for ValueReader<'a> {
    ghost SIZE = { sizes.Composite };

    ghost read = { λ t. record { body = t } };

    fn size() -> cp_words::ElementSize
        ensures { result ≡ sizes.Composite }
    {
        cp_words::ElementSize::Composite
    }

    fn of_element(item: StructReader<'a>) -> ValueReader<'a> {
        ValueReader { body: item }
    }
}

impl<'a> ValueReader<'a> {
    /// Which member of the union is set.
    pub fn which(&self) -> ValueWhich
        ensures { result ≡ value_which_of (plain self.now.body 16 0) }
    {
        ValueWhich::of(self.body.u16(0))
    }

    /// `bool @1`.
    pub fn bool_(&self) -> bool
        ensures { result ≡ flag self.now.body 16 }
    {
        self.body.bit(16)
    }

    /// `uint8 @6`.
    pub fn uint8(&self) -> u8
        ensures { result ≡ plain self.now.body 8 2 }
    {
        self.body.u8(2)
    }

    /// `uint16 @7`.
    pub fn uint16(&self) -> u16
        ensures { result ≡ plain self.now.body 16 1 }
    {
        self.body.u16(1)
    }

    /// `uint32 @8`.
    pub fn uint32(&self) -> u32
        ensures { result ≡ plain self.now.body 32 1 }
    {
        self.body.u32(1)
    }

    /// `uint64 @9`.
    pub fn uint64(&self) -> u64
        ensures { result ≡ plain self.now.body 64 1 }
    {
        self.body.u64(1)
    }

    /// `text @12`.
    pub fn text(&self) -> Result<TextReader<'a>, WrongKind>
        ensures { result ≡ text_field [] (pointee_of self.now.body 0) }
    {
        self.body.text(0)
    }

    /// `data @13`.
    pub fn data_(&self) -> Result<DataReader<'a>, WrongKind>
        ensures { result ≡ data_field [] (pointee_of self.now.body 0) }
    {
        self.body.data(0)
    }

    /// `list @14`.
    pub fn list(&self) -> PointerReader<'a>
        ensures { result ≡ pointee_of self.now.body 0 }
    {
        self.body.pointer(0)
    }
}

/// The members of the union of `Value`.
#[derive(Clone, Copy, PartialEq, Eq)]
pub enum ValueWhich {
    Void,
    Bool,
    Int8,
    Int16,
    Int32,
    Int64,
    Uint8,
    Uint16,
    Uint32,
    Uint64,
    Float32,
    Float64,
    Text,
    Data,
    List,
    Enum,
    Struct,
    Interface,
    AnyPointer,
    /// A number that a newer schema has.
    Unknown(UnknownEnumerant<18>),
}

impl ValueWhich {
    /// The value of this number.
    pub fn of(number: u16) -> ValueWhich
        ensures { result ≡ value_which_of number }
    {
        match number {
            0 => ValueWhich::Void,
            1 => ValueWhich::Bool,
            2 => ValueWhich::Int8,
            3 => ValueWhich::Int16,
            4 => ValueWhich::Int32,
            5 => ValueWhich::Int64,
            6 => ValueWhich::Uint8,
            7 => ValueWhich::Uint16,
            8 => ValueWhich::Uint32,
            9 => ValueWhich::Uint64,
            10 => ValueWhich::Float32,
            11 => ValueWhich::Float64,
            12 => ValueWhich::Text,
            13 => ValueWhich::Data,
            14 => ValueWhich::List,
            15 => ValueWhich::Enum,
            16 => ValueWhich::Struct,
            17 => ValueWhich::Interface,
            18 => ValueWhich::AnyPointer,
            _ => match UnknownEnumerant::new(number) {
                Some(number) => ValueWhich::Unknown(number),
                None => unreachable!(),
            },
        }
    }
}
