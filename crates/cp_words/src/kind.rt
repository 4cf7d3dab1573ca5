//! What pointer words lead to.

use crate::pointer::ElementSize;

/// What a struct or list pointer says that its body is (encoding specification, "Structs", "Lists").
#[derive(Clone, Copy)]
pub enum BodyKind {
    /// A struct of this many data words and this many pointers.
    Struct { words: u16, ptrs: u16 },
    /// A list of this many elements; of a composite one the count is of words, its tag aside.
    List { size: ElementSize, count: u32 },
}
