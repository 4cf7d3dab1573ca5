//! Values as they are read.

/// What a pointer is to stand for.
#[cycle(value)]
#[derive(Drop)]
pub enum TextValue {
    Null,
    /// A capability, by its index in the table that goes with the message.
    Cap(u32),
    /// A text, by its bytes.
    Text(Vec<u8>),
    Struct(Fields),
    Voids(u32),
    Bits(Vec<bool>),
    /// Data, or a list of bytes.
    Bytes(Vec<u8>),
    Halves(Vec<u16>),
    Quads(Vec<u32>),
    Words(Vec<u64>),
    /// A list of pointers.
    Pointers(Vec<TextValue>),
    /// A list of structs, each of this many data words and pointers.
    Structs {
        words: u16,
        pointers: u16,
        items: Vec<Fields>,
    },
}

/// A struct of this many data words and pointers, by the fields that are given.
#[cycle(value)]
#[derive(Drop)]
pub struct Fields {
    pub words: u16,
    pub pointers: u16,
    pub numbers: Vec<Number>,
    pub values: Vec<TextPointer>,
}

/// A field that is a number.
#[derive(Clone, Copy, Drop)]
pub struct Number {
    pub width: Width,
    /// It is number so many of that width.
    pub place: u32,
    /// Its bits.
    pub bits: u64,
    /// The bits of its default.
    pub default: u64,
}

/// How many bits a number has.
#[derive(Clone, Copy)]
pub enum Width {
    Bit,
    Byte,
    TwoBytes,
    FourBytes,
    Word,
}

/// A field that is a pointer.
#[cycle(value)]
#[derive(Drop)]
pub struct TextPointer {
    /// It is pointer so many.
    pub place: u32,
    pub value: TextValue,
}
