//! Lists of structs to be written (encoding specification, "Lists").

ghost use Rattle.std.specs.Prelude.{◌≡◌, ◌<◌, ◌≤◌, ◌+◌, ◌*◌, ◌^◌, Err, OnOk, OnErr, IfErr};
ghost use Rattle.cp_builder.specs.Drafts.{blank_list, with_last, HoldsOneMore};
ghost use Rattle.cp_builder.specs.declared.fault.BuildError.TheVariants.{TooLong};

use crate::fault::BuildError;
use crate::structure::StructBuilder;
use cp_tree::{Body, Tree, Whole};
use std::alloc::{AllocError, Global};
use std::marker::Model;

/// The number of elements that a composite list has fewer of, and the words that they take fewer of together.
/// A tag counts elements in 30 bits, and a list pointer counts words in 29.
const MOST_ITEMS: usize = 0x4000_0000;

const MOST_WORDS: usize = 0x2000_0000;

/// A list of structs to be written, each of `W` data words and `P` pointers. Contracts see it as its tree.
pub struct StructListBuilder<const W: usize, const P: usize> {
    items: Vec<Body>,
}

// Not derived: a crate that lets one go calls this function, and need not prove the drop of all that it holds.
impl<const W: usize, const P: usize> Drop for StructListBuilder<W, P> {
    fn drop(self) {
        let StructListBuilder { items: _ } = self;
    }
}

impl<const W: usize, const P: usize> Model for StructListBuilder<W, P> {
    ghost use Rattle.cp_tree.specs.Node.{Node};
    ghost use Rattle.cp_tree.specs.Code.{tree_code};

    ghost Value = { Node };

    ghost coded = { tree_code };

    ghost use Rattle.std.specs.Prelude.{map};
    ghost use Rattle.cp_tree.specs.Node.{structs};
    ghost use Rattle.cp_tree.specs.NodeOf.{body_of, bodies_of};
    ghost use Rattle.cp_tree.specs.Shaped.{Shaped};

    ghost view = { λ l. structs W P (bodies_of (map body_of l.items.items)) };

    ghost invariant = { λ l. Shaped (structs W P (bodies_of (map body_of l.items.items))) };
}

impl<const W: usize, const P: usize> StructListBuilder<W, P> {
    ghost use Rattle.std.specs.Prelude.{◌≡◌, ◌<◌, ◌≤◌, ◌+◌, ◌*◌, ◌^◌, Err, OnOk, OnErr};
    ghost use Rattle.cp_builder.specs.Drafts.{blank_list, with_last, HoldsOneMore};
    ghost use Rattle.cp_builder.specs.declared.fault.BuildError.TheVariants.{TooLong};

    /// No struct yet.
    pub fn new(alloc: Global) -> StructListBuilder<W, P>
        requires words { W < 2 ^ 16 }
        requires pointers { P < 2 ^ 16 }
        ensures { result ≡ blank_list W P }
    {
        StructListBuilder {
            items: Vec::new(alloc),
        }
    }

    /// Adds a struct at the end: the fields of this schema alone, since the structs of a list are all of one size.
    /// `TooLong` says that the list has no room for it: a list has fewer than 2^30 structs, which take fewer than
    /// 2^29 words together.
    #[tactic(auto, using(cp_tree::proofs::Trees::number_in))]
    pub fn push(&mut self, item: StructBuilder<W, P>) -> Result<(), BuildError>
        ensures pushed { OnOk result (self.new ≡ with_last self.old item.entry) }
        ensures left { OnErr result (self.new ≡ self.old) }
        ensures long { result ≡ Err TooLong → ¬ (HoldsOneMore self.old (W + P)) }
    {
        let count = self.items.len() + 1;
        if count >= MOST_ITEMS || count * (W + P) >= MOST_WORDS {
            return Err(BuildError::TooLong);
        }
        self.add(item)?;
        Ok(())
    }

    /// The list as a part of a struct. Nothing is copied, and nothing is looked at again.
    pub fn into_whole(self) -> Whole
        ensures { result ≡ self.entry }
    {
        let StructListBuilder { items } = self;
        Whole::from_shaped(Tree::Structs {
            words: W as u16,
            ptrs: P as u16,
            items,
        })
    }

    /// Adds a struct at the end of a list that has room for it.
    #[inline]
    fn add(&mut self, item: StructBuilder<W, P>) -> Result<(), AllocError>
        requires { HoldsOneMore self.old (W + P) }
        ensures pushed { OnOk result (self.new ≡ with_last self.old item.entry) }
        ensures left { OnErr result (self.new ≡ self.old) }
    {
        self.items.push(item.into_element())?;
        Ok(())
    }
}
