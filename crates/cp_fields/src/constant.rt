//! Trees that are constants of a program, as the defaults of pointer fields are (encoding specification,
//! "Default Values").

ghost use Rattle.std.specs.Prelude.{◌≡◌, ◌<◌, length, map, IfOk, MatchOption, slice_index};
ghost use Rattle.cp_tree.specs.Lent.{elements_in};
ghost use Rattle.cp_tree.specs.Node.{element_size, list as list_node, null, struct};
ghost use Rattle.cp_tree.specs.Seen.{pointee_of};
ghost use Rattle.cp_tree.specs.NodeOf.{node_of, nodes_of, body_of};
ghost use Rattle.cp_fields.specs.Constants.{constant_of, constant_body_of};
ghost use Rattle.cp_fields.specs.Items.{bit_number, numbers_of};
ghost use Rattle.cp_fields.specs.Kinds.{kind_of};
ghost use Rattle.cp_fields.specs.Rows.{body_item};

use crate::kind::Kind;
use cp_tree::{Body, ListRef, Tree};
use cp_words::ElementSize;
use std::alloc::{AllocError, Global};

/// A tree that is a constant.
/// Its slices can lie in a `static`. The words of a frame would need vectors, and a check at each look.
#[cycle(constant)]
#[derive(Clone, Copy)]
pub enum Constant<'a> {
    /// A null pointer.
    Null,
    Struct(ConstantBody<'a>),
    /// A list without pointers.
    List(ListRef<'a>),
    /// A list of pointers.
    Ptrs(&'a [Constant<'a>]),
    /// A composite list: each item has `words` data words and `ptrs` pointers.
    Structs {
        words: u16,
        ptrs: u16,
        items: &'a [ConstantBody<'a>],
    },
}

/// A struct that is a constant: its data words, and what its pointers stand for.
#[cycle(constant)]
#[derive(Clone, Copy)]
pub struct ConstantBody<'a> {
    pub words: &'a [u64],
    pub ptrs: &'a [Constant<'a>],
}

impl<'a> ConstantBody<'a> {
    /// What pointer `i` stands for. `None` is past the end.
    pub(crate) fn pointer(&self, i: u32) -> Option<&'a Constant<'a>>
        ensures { MatchOption result (pointee_of (body_item self.now) i ≡ null) (λ t. constant_of t.now ≡ pointee_of (body_item self.now) i) }
    {
        let ptrs = self.ptrs;
        if i as usize >= ptrs.len() {
            return None;
        }
        Some(&ptrs[i as usize])
    }
}

/// The kind of a constant tree.
pub(crate) fn constant_kind(tree: &Constant<'_>) -> Kind
    ensures { result ≡ kind_of (constant_of tree.now) }
{
    match tree {
        Constant::Null => Kind::Null,
        Constant::Struct(_) => Kind::Struct,
        Constant::List(items) => Kind::List(size_of_list(items)),
        Constant::Ptrs(_) => Kind::List(ElementSize::Pointer),
        Constant::Structs { .. } => Kind::List(ElementSize::Composite),
    }
}

/// The size of the elements of a list without pointers.
fn size_of_list(items: &ListRef<'_>) -> ElementSize
    ensures { result ≡ element_size (elements_in items.now) }
{
    match items {
        ListRef::Voids(_) => ElementSize::Void,
        ListRef::Bits(_) => ElementSize::Bit,
        ListRef::Bytes(_) => ElementSize::Byte,
        ListRef::TwoBytes(_) => ElementSize::TwoBytes,
        ListRef::FourBytes(_) => ElementSize::FourBytes,
        ListRef::Words(_) => ElementSize::EightBytes,
    }
}

/// The number of elements of a list without pointers.
pub(crate) fn list_count(items: &ListRef<'_>) -> usize
    ensures { result ≡ length (numbers_of (elements_in items.now)) }
{
    match items {
        ListRef::Voids(count) => *count as usize,
        ListRef::Bits(items) => items.len(),
        ListRef::Bytes(items) => items.len(),
        ListRef::TwoBytes(items) => items.len(),
        ListRef::FourBytes(items) => items.len(),
        ListRef::Words(items) => items.len(),
    }
}

/// Element `i` of a list without pointers, as a number.
pub(crate) fn list_number(items: &ListRef<'_>, i: usize) -> u64
    ensures { result ≡ slice_index (numbers_of (elements_in items.now)) i }
{
    match items {
        ListRef::Voids(_) => 0,
        ListRef::Bits(items) => match items.get(i) {
            Some(set) => bit_value(*set),
            None => 0,
        },
        ListRef::Bytes(items) => match items.get(i) {
            Some(number) => *number as u64,
            None => 0,
        },
        ListRef::TwoBytes(items) => match items.get(i) {
            Some(number) => *number as u64,
            None => 0,
        },
        ListRef::FourBytes(items) => match items.get(i) {
            Some(number) => *number as u64,
            None => 0,
        },
        ListRef::Words(items) => match items.get(i) {
            Some(number) => *number,
            None => 0,
        },
    }
}

/// A bit as a number.
pub(crate) fn bit_value(set: bool) -> u64
    ensures { result ≡ bit_number set }
{
    if set { 1 } else { 0 }
}

/// What the pointers of a struct that is a constant stand for, owned.
pub(crate) fn pointers_copy(alloc: Global, body: &ConstantBody<'_>) -> Result<Vec<Tree>, AllocError>
    ensures { IfOk result (λ trees. nodes_of (map node_of trees.items) ≡ (constant_body_of body.now).1) }
{
    row_copy(alloc, body.ptrs)
}

/// An equal tree, owned.
#[cycle(constant_copy)]
pub(crate) fn constant_copy(alloc: Global, tree: &Constant<'_>) -> Result<Tree, AllocError>
    ensures { IfOk result (λ t. node_of t ≡ constant_of tree.now) }
{
    Ok(match tree {
        Constant::Null => Tree::Null,
        Constant::Struct(body) => Tree::Struct(body_copy(alloc, body)?),
        Constant::List(items) => list_copy(alloc, items)?,
        Constant::Ptrs(items) => Tree::Ptrs(row_copy(alloc, items)?),
        Constant::Structs { words, ptrs, items } => Tree::Structs {
            words: *words,
            ptrs: *ptrs,
            items: bodies_copy(alloc, items)?,
        },
    })
}

/// An equal struct, owned.
#[cycle(constant_copy)]
fn body_copy(alloc: Global, body: &ConstantBody<'_>) -> Result<Body, AllocError>
    ensures { IfOk result (λ b. body_of b ≡ constant_body_of body.now) }
{
    Ok(Body {
        words: Vec::from_slice(alloc, body.words)?,
        ptrs: row_copy(alloc, body.ptrs)?,
    })
}

/// Equal trees, owned.
#[cycle(constant_copy)]
fn row_copy(alloc: Global, trees: &[Constant<'_>]) -> Result<Vec<Tree>, AllocError>
    ensures { IfOk result (λ v. map node_of v.items ≡ map constant_of trees.now) }
{
    let mut found = Vec::with_capacity(alloc, trees.len())?;
    for tree in trees {
        found.push(constant_copy(alloc, tree)?)?;
    }
    Ok(found)
}

/// Equal structs, owned.
#[cycle(constant_copy)]
fn bodies_copy(alloc: Global, bodies: &[ConstantBody<'_>]) -> Result<Vec<Body>, AllocError>
    ensures { IfOk result (λ v. map body_of v.items ≡ map constant_body_of bodies.now) }
{
    let mut found = Vec::with_capacity(alloc, bodies.len())?;
    for body in bodies {
        found.push(body_copy(alloc, body)?)?;
    }
    Ok(found)
}

/// An equal list, owned.
fn list_copy(alloc: Global, list: &ListRef<'_>) -> Result<Tree, AllocError>
    ensures { IfOk result (λ t. node_of t ≡ list_node (elements_in list.now)) }
{
    Ok(match list {
        ListRef::Voids(count) => Tree::Voids(*count),
        ListRef::Bits(items) => Tree::Bits(Vec::from_slice(alloc, items)?),
        ListRef::Bytes(items) => Tree::Bytes(Vec::from_slice(alloc, items)?),
        ListRef::TwoBytes(items) => Tree::Halves(Vec::from_slice(alloc, items)?),
        ListRef::FourBytes(items) => Tree::Quads(Vec::from_slice(alloc, items)?),
        ListRef::Words(items) => Tree::Words(Vec::from_slice(alloc, items)?),
    })
}
