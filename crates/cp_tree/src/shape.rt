//! What a tree is at its top.

use cp_words::ElementSize;

/// A tree's kind and sizes.
#[derive(Clone, Copy, PartialEq, Eq, Debug)]
pub enum Shape {
    Null,
    /// A capability: its index in the message's capability table.
    Cap(u32),
    /// A struct of this many data words and pointers.
    Struct { words: u16, ptrs: u16 },
    /// A list of this many elements.
    List { size: ElementSize, count: u32 },
    /// A composite list: this many elements, each of `words` data words and `ptrs` pointers.
    Structs { words: u16, ptrs: u16, count: u32 },
}
