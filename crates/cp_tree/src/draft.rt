//! Trees with lent parts, for writing.

use crate::tree::Tree;

/// A tree to be written, of small nodes of its own and trees that are lent.
#[cycle(draft)]
#[derive(Drop)]
pub enum Draft<'a> {
    /// A tree of its own, without lent parts.
    Own(Tree),
    /// A tree that is lent.
    Lent(&'a Tree),
    Struct(DraftBody<'a>),
    /// A list of pointers.
    Ptrs(Vec<Draft<'a>>),
    /// A composite list: each item has `words` data words and `ptrs` pointers.
    Structs {
        words: u16,
        ptrs: u16,
        items: Vec<DraftBody<'a>>,
    },
}

/// A struct to be written: its data words, and what its pointers stand for.
#[cycle(draft)]
#[derive(Drop)]
pub struct DraftBody<'a> {
    pub words: Vec<u64>,
    pub ptrs: Vec<Draft<'a>>,
}
