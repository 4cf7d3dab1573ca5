//! Structs to be written (encoding specification, "Structs").

ghost use Rattle.std.specs.Prelude.{◌≡◌, ◌<◌, length, slice_set};
ghost use Rattle.cp_tree.specs.Shaped.{AllFit};

use crate::views::push_nulls;
use cp_tree::{Body, Object, Tree, Whole};
use std::alloc::{AllocError, Global};
use std::marker::Model;

/// A struct to be written, of `W` data words and `P` pointers, or more where it was read and its writer knew
/// more fields. Its fields are set by their places: number `i` of a width counts numbers of that width from
/// the start of the data section. A message can hold it at any time. Contracts see it as its tree.
/// It is a tree and not a run of words, though a run is built and written in less than half the time: requests and
/// outcomes want owned trees, and each level of a run would copy what is below it.
pub struct StructBuilder<const W: usize, const P: usize> {
    pub(crate) words: Vec<u64>,
    pub(crate) pointers: Vec<Tree>,
}

// Not derived: a crate that lets one go calls this function, and need not prove the drop of all that it holds.
impl<const W: usize, const P: usize> Drop for StructBuilder<W, P> {
    fn drop(self) {
        let StructBuilder {
            words: _,
            pointers: _,
        } = self;
    }
}

impl<const W: usize, const P: usize> Model for StructBuilder<W, P> {
    ghost use Rattle.cp_tree.specs.Node.{Node};
    ghost use Rattle.cp_tree.specs.Code.{tree_code};

    ghost Value = { Node };

    ghost coded = { tree_code };

    ghost use Rattle.std.specs.Prelude.{◌≤◌, map, length};
    ghost use Rattle.cp_tree.specs.Node.{struct};
    ghost use Rattle.cp_tree.specs.NodeOf.{node_of, nodes_of};
    ghost use Rattle.cp_tree.specs.Shaped.{HasSizes, EachShaped};

    ghost view = { λ d. struct d.words.items (nodes_of (map node_of d.pointers.items)) };

    ghost invariant = { λ d. HasSizes (length d.words.items) (length d.pointers.items) × (W ≤ length d.words.items) × (P ≤ length d.pointers.items) × EachShaped (nodes_of (map node_of d.pointers.items)) };
}

impl<const W: usize, const P: usize> StructBuilder<W, P> {
    ghost use Rattle.std.specs.Prelude.{◌≡◌, ◌<◌, ◌^◌, [], ◌∷◌, IfOk};
    ghost use Rattle.cp_tree.specs.Node.{struct, structs, Bodies};
    ghost use Rattle.cp_tree.specs.NodeOf.{body_of, bodies_of};
    ghost use Rattle.cp_tree.specs.Shaped.{Shaped, EachEven, HasSizes};
    ghost use Rattle.cp_builder.specs.Drafts.{blank, bodies_then, with_last, with_pointer};

    /// A struct whose fields are all as by default.
    pub fn new(alloc: Global) -> Result<StructBuilder<W, P>, AllocError>
        requires words { W < 2 ^ 16 }
        requires pointers { P < 2 ^ 16 }
        ensures { IfOk result (λ d. d ≡ blank W P) }
    {
        let words = vec![in alloc; 0; W]?;
        let mut pointers = Vec::with_capacity(alloc, P)?;
        push_nulls(&mut pointers, P)?;
        Ok(StructBuilder { words, pointers })
    }

    /// Where its memory comes from.
    pub fn alloc(&self) -> Global {
        *self.words.allocator()
    }

    /// Sets what pointer `i` stands for.
    #[inline(always)]
    pub fn set_pointer(&mut self, i: u32, whole: Whole)
        requires { i < P }
        ensures { self.new ≡ with_pointer self.old i whole }
    {
        put_tree(&mut self.pointers, i as usize, whole.into_tree());
    }

    /// The struct as an element of a list: the fields of the list's schema alone, since its elements are all of one size.
    #[inline]
    pub(crate) fn into_element(self) -> Body
        ensures added { (bs : Bodies) → with_last (structs W P bs) self.entry ≡ structs W P (bodies_then bs (body_of result).0 (body_of result).1) }
        ensures sizes { HasSizes W P }
        ensures even { EachEven W P (bodies_of (body_of result ∷ [])) }
    {
        let StructBuilder {
            mut words,
            pointers: mut ptrs,
        } = self;
        // As the reference library's `setWithCaveats` does: then a list needs no padding.
        words.truncate(W);
        ptrs.truncate(P);
        // For the proof.
        fit(&words);
        Body { words, ptrs }
    }

    /// The struct with all that it has.
    #[inline]
    fn into_body(self) -> Body
        ensures body { struct (body_of result).0 (body_of result).1 ≡ self.entry }
        ensures shaped { Shaped self.entry }
    {
        let StructBuilder { words, pointers } = self;
        fit(&words);
        Body {
            words,
            ptrs: pointers,
        }
    }

    /// The struct as a part of another one. Nothing is copied, and nothing is looked at again.
    #[inline]
    pub fn into_whole(self) -> Whole
        ensures { result ≡ self.entry }
    {
        Whole::from_shaped(Tree::Struct(self.into_body()))
    }

    /// The struct as the root of a message, or as the content of a call. Nothing is copied.
    pub fn into_object(self) -> Object
        ensures { result ≡ self.entry }
    {
        match self.into_whole().into_object() {
            Ok(object) => object,
            // It was made as a struct.
            Err(_) => unreachable!(),
        }
    }
}

/// Puts a tree in the place of another one.
#[inline(always)]
fn put_tree(trees: &mut Vec<Tree>, i: usize, tree: Tree)
    requires { i < length trees.old.items }
    ensures { trees.new.items ≡ slice_set trees.old.items i tree }
{
    trees[i] = tree;
}

/// Words of the program fit 64 bits. This does nothing but tell a proof, which learns it by the type of a slice alone.
fn fit(words: &[u64])
    ensures { AllFit 64 words.now }
{}
