//! Trees, as a program holds them.

ghost use Rattle.std.specs.Prelude.{◌≡◌, MatchOption};
ghost use Rattle.cp_tree.specs.Node.{null, struct, data_of};
ghost use Rattle.cp_tree.specs.NodeOf.{node_of, struct_of};
ghost use Rattle.cp_tree.specs.Seen.{pointee_of};

/// What a pointer word stands for (encoding specification, "Structs", "Lists", "Capabilities").
/// `==` carries no contract.
#[cycle(tree)]
#[derive(PartialEq, Eq, Debug, Drop)]
pub enum Tree {
    /// A null pointer.
    Null,
    /// A capability: its index in the message's capability table.
    Cap(u32),
    Struct(Body),
    /// A list of this many elements without bits.
    Voids(u32),
    Bits(Vec<bool>),
    Bytes(Vec<u8>),
    Halves(Vec<u16>),
    Quads(Vec<u32>),
    Words(Vec<u64>),
    /// A list of pointers.
    Ptrs(Vec<Tree>),
    /// A composite list: each item has `words` data words and `ptrs` pointers.
    Structs {
        words: u16,
        ptrs: u16,
        items: Vec<Body>,
    },
}

/// A struct: its data words, and what its pointers stand for.
#[cycle(tree)]
#[derive(PartialEq, Eq, Debug, Drop)]
pub struct Body {
    pub words: Vec<u64>,
    pub ptrs: Vec<Tree>,
}

impl Tree {
    /// A struct's data words; of any other tree there are none.
    pub fn data(&self) -> &[u64]
        ensures { result.now ≡ data_of (node_of self.now) }
    {
        match self {
            Tree::Struct(body) => &body.words,
            _ => &[],
        }
    }

    /// What pointer `i` of a struct stands for. `None` is past the end, or of a tree that is no
    /// struct.
    pub fn pointer(&self, i: u32) -> Option<&Tree>
        ensures { MatchOption result (pointee_of (node_of self.now) i ≡ null) (λ t. node_of t.now ≡ pointee_of (node_of self.now) i) }
    {
        match self {
            Tree::Struct(body) => body.pointer(i),
            _ => None,
        }
    }
}

impl Body {
    /// What pointer `i` stands for. `None` is past the end.
    pub fn pointer(&self, i: u32) -> Option<&Tree>
        ensures { MatchOption result (pointee_of (struct_of self.now) i ≡ null) (λ t. node_of t.now ≡ pointee_of (struct_of self.now) i) }
    {
        let ptrs = self.ptrs.as_slice();
        if i as usize >= ptrs.len() {
            return None;
        }
        Some(&ptrs[i as usize])
    }
}
