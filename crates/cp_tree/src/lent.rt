//! Trees that are lent, seen alike whether a program owns them or drafts stand for them.

ghost use Rattle.std.specs.Prelude.{◌≡◌, ◌<◌, ◌^◌, [], ◌∷◌, MatchOption};
ghost use Rattle.std.specs.Iterator.{item_count};
ghost use Rattle.cp_words.specs.Word.{words_for};
ghost use Rattle.cp_tree.specs.Node.{count, number_of, element_size, element_count};
ghost use Rattle.cp_tree.specs.DraftOf.{draft_of, draft_body_of};
ghost use Rattle.cp_tree.specs.NodeOf.{node_of, body_of, nodes_of, bodies_of};
ghost use Rattle.cp_tree.specs.Lent.{node_in, row_in, body_in, bodies_in, elements_in, top_node};

use crate::draft::{Draft, DraftBody};
use crate::tree::{Body, Tree};

/// A tree that is lent.
/// One recursion over it measures, copies and lays out owned trees and drafts alike.
#[derive(Clone, Copy)]
pub enum TreeRef<'a, 'd> {
    Tree(&'a Tree),
    Draft(&'a Draft<'d>),
}

/// Trees that are lent, one after another.
#[derive(Clone, Copy)]
pub enum RowRef<'a, 'd> {
    Trees(&'a [Tree]),
    Drafts(&'a [Draft<'d>]),
}

/// A struct that is lent: its data words, and what its pointers stand for.
#[derive(Clone, Copy)]
pub struct BodyRef<'a, 'd> {
    pub words: &'a [u64],
    pub ptrs: RowRef<'a, 'd>,
}

/// The elements of a composite list that is lent.
#[derive(Clone, Copy)]
pub enum BodiesRef<'a, 'd> {
    Bodies(&'a [Body]),
    Drafts(&'a [DraftBody<'d>]),
}

/// A composite list that is lent: each item has `words` data words and `ptrs` pointers.
#[derive(Clone, Copy)]
pub struct StructsRef<'a, 'd> {
    pub words: u16,
    pub ptrs: u16,
    pub items: BodiesRef<'a, 'd>,
}

/// A list without pointers that is lent.
#[derive(Clone, Copy)]
pub enum ListRef<'a> {
    Voids(u32),
    Bits(&'a [bool]),
    Bytes(&'a [u8]),
    TwoBytes(&'a [u16]),
    FourBytes(&'a [u32]),
    Words(&'a [u64]),
}

/// What a tree is at its top, with the trees below it lent.
#[derive(Clone, Copy)]
pub enum Top<'a, 'd> {
    Null,
    Cap(u32),
    Struct(BodyRef<'a, 'd>),
    List(ListRef<'a>),
    Ptrs(RowRef<'a, 'd>),
    Structs(StructsRef<'a, 'd>),
}

impl<'a, 'd> TreeRef<'a, 'd> {
    /// What the tree is at its top.
    #[inline(always)]
    pub fn top(self) -> Top<'a, 'd>
        ensures { top_node result ≡ node_in self.entry }
    {
        match self {
            TreeRef::Tree(tree) => return top_of::<'d>(tree),
            TreeRef::Draft(draft) => return top_of_draft(draft),
        }
    }
}

impl<'a, 'd> BodyRef<'a, 'd> {
    /// A struct that a program owns.
    #[inline(always)]
    pub fn of(body: &'a Body) -> BodyRef<'a, 'd>
        ensures { body_in result ≡ body_of body.now }
    {
        BodyRef {
            words: &body.words,
            ptrs: RowRef::Trees(&body.ptrs),
        }
    }

    /// A struct of a draft.
    #[inline(always)]
    fn of_draft(body: &'a DraftBody<'d>) -> BodyRef<'a, 'd>
        ensures { body_in result ≡ draft_body_of body.now }
    {
        BodyRef {
            words: &body.words,
            ptrs: RowRef::Drafts(&body.ptrs),
        }
    }
}

impl<'a, 'd> RowRef<'a, 'd> {
    /// The number of trees that are left.
    #[tactic(auto, using(crate::proofs::Trees::count_in))]
    #[inline(always)]
    pub fn len(self) -> usize
        ensures value { result ≡ count (nodes_of (row_in self.entry)) }
        ensures few { result < 2 ^ 63 }
    {
        match self {
            RowRef::Trees(trees) => trees.len(),
            RowRef::Drafts(drafts) => drafts.len(),
        }
    }
}

impl<'a, 'd> Iterator for RowRef<'a, 'd> {
    type Item = TreeRef<'a, 'd>;

    ghost next_gives = { λ old result new. MatchOption result (row_in old ≡ []) (λ t. row_in old ≡ node_in t ∷ row_in new) };

    ghost remaining = { item_count row_in };

    #[inline(always)]
    fn next(&mut self) -> Option<TreeRef<'a, 'd>> {
        match *self {
            RowRef::Trees(trees) => {
                let (first, rest) = trees.split_first()?;
                *self = RowRef::Trees(rest);
                Some(TreeRef::Tree(first))
            }
            RowRef::Drafts(drafts) => {
                let (first, rest) = drafts.split_first()?;
                *self = RowRef::Drafts(rest);
                Some(TreeRef::Draft(first))
            }
        }
    }
}

impl<'a, 'd> BodiesRef<'a, 'd> {
    /// The number of elements that are left.
    #[tactic(auto, using(crate::proofs::Trees::number_in))]
    #[inline(always)]
    pub fn len(self) -> usize
        ensures value { result ≡ number_of (bodies_of (bodies_in self.entry)) }
        ensures few { result < 2 ^ 63 }
    {
        match self {
            BodiesRef::Bodies(bodies) => bodies.len(),
            BodiesRef::Drafts(bodies) => bodies.len(),
        }
    }
}

impl<'a, 'd> Iterator for BodiesRef<'a, 'd> {
    type Item = BodyRef<'a, 'd>;

    ghost next_gives = { λ old result new. MatchOption result (bodies_in old ≡ []) (λ b. bodies_in old ≡ body_in b ∷ bodies_in new) };

    ghost remaining = { item_count bodies_in };

    #[inline(always)]
    fn next(&mut self) -> Option<BodyRef<'a, 'd>> {
        match *self {
            BodiesRef::Bodies(bodies) => {
                let (first, rest) = bodies.split_first()?;
                *self = BodiesRef::Bodies(rest);
                let body: BodyRef<'a, 'd> = BodyRef::of(first);
                Some(body)
            }
            BodiesRef::Drafts(bodies) => {
                let (first, rest) = bodies.split_first()?;
                *self = BodiesRef::Drafts(rest);
                let body = BodyRef::of_draft(first);
                Some(body)
            }
        }
    }
}

impl<'a> ListRef<'a> {
    /// The number of words that the elements take.
    #[inline(always)]
    pub fn words(self) -> u64
        ensures { result ≡ words_for (element_size (elements_in self.entry)) (element_count (elements_in self.entry)) }
    {
        match self {
            ListRef::Voids(_) => 0,
            ListRef::Bits(items) => (items.len() as u64 + 63) / 64,
            ListRef::Bytes(items) => (items.len() as u64 + 7) / 8,
            ListRef::TwoBytes(items) => (items.len() as u64 + 3) / 4,
            ListRef::FourBytes(items) => (items.len() as u64 + 1) / 2,
            ListRef::Words(items) => items.len() as u64,
        }
    }
}

/// What an owned tree is at its top.
#[inline(always)]
fn top_of<'a, 'd>(tree: &'a Tree) -> Top<'a, 'd>
    ensures { top_node result ≡ node_of tree.now }
{
    match tree {
        Tree::Null => Top::Null,
        Tree::Cap(index) => Top::Cap(*index),
        Tree::Struct(body) => {
            let body: BodyRef<'a, 'd> = BodyRef::of(body);
            Top::Struct(body)
        }
        Tree::Voids(count) => Top::List(ListRef::Voids(*count)),
        Tree::Bits(items) => Top::List(ListRef::Bits(items)),
        Tree::Bytes(items) => Top::List(ListRef::Bytes(items)),
        Tree::Halves(items) => Top::List(ListRef::TwoBytes(items)),
        Tree::Quads(items) => Top::List(ListRef::FourBytes(items)),
        Tree::Words(items) => Top::List(ListRef::Words(items)),
        Tree::Ptrs(items) => Top::Ptrs(RowRef::Trees(items)),
        Tree::Structs { words, ptrs, items } => Top::Structs(StructsRef {
            words: *words,
            ptrs: *ptrs,
            items: BodiesRef::Bodies(items),
        }),
    }
}

/// What a draft is at its top.
#[inline(always)]
fn top_of_draft<'a, 'd>(draft: &'a Draft<'d>) -> Top<'a, 'd>
    ensures { top_node result ≡ draft_of draft.now }
{
    match draft {
        Draft::Own(tree) => return top_of::<'d>(tree),
        Draft::Lent(tree) => return top_of::<'d>(tree),
        Draft::Struct(body) => {
            let body = BodyRef::of_draft(body);
            Top::Struct(body)
        }
        Draft::Ptrs(items) => Top::Ptrs(RowRef::Drafts(items)),
        Draft::Structs { words, ptrs, items } => Top::Structs(StructsRef {
            words: *words,
            ptrs: *ptrs,
            items: BodiesRef::Drafts(items),
        }),
    }
}
