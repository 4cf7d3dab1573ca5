//! Lists that are read where they lie (encoding specification, "Lists").

ghost use Rattle.std.specs.Prelude.{◌≡◌, ◌==◌, ◌<◌, Ok, IsTrue, IsFalse, length, drop, map, slice_index_or};
ghost use Rattle.std.specs.Iterator.{YieldsFirst, item_count};
ghost use Rattle.cp_tree.specs.Node.{Node, null};
ghost use Rattle.cp_tree.specs.NodeOf.{node_of};
ghost use Rattle.cp_tree.specs.Seen.{shape_of};
ghost use Rattle.cp_words.specs.declared.pointer.ElementSize.{ElementSize};
ghost use Rattle.cp_fields.specs.Constants.{constant_of};
ghost use Rattle.cp_fields.specs.Items.{items_of};
ghost use Rattle.cp_fields.specs.Kinds.{wrong};
ghost use Rattle.cp_fields.specs.Pointers.{Lists, list_field};
ghost use Rattle.cp_fields.specs.declared.kind.Kind.TheVariants as kinds;

use crate::constant::Constant;
use crate::element::Element;
use crate::kind::{Kind, WrongKind, reads_from, reads_from_structs};
use crate::pointer_reader::{Part, PointerReader};
use crate::row::Elements;
use cp_reading::View;
use cp_tree::{Shape, Tree};
use cp_words::ElementSize;
use std::marker::{Model, PhantomData};

/// A list, where it lies, whose elements are read as `T`. A list that an older or newer schema wrote is
/// read as such a list is: elements that are numbers or pointers as structs with that one field, and
/// structs as their first number or pointer. Contracts see it as its elements, each a struct.
/// Since each element is seen as a struct, the rules of evolution are one definition, not a case for each
/// pair.
pub struct List<'a, T> {
    elements: Elements<'a>,
    of: PhantomData<T>,
}

// Not derived: a crate that lets one go calls this function, and need not prove the drop of all that it holds.
impl<'a, T> Drop for List<'a, T> {
    #[inline(always)]
    fn drop(self) {
        let List { elements: _, of: _ } = self;
    }
}

impl<'a, T> Model for List<'a, T> {
    ghost use Rattle.std.specs.Prelude.{List};
    ghost use Rattle.std.specs.Coded.{coded_list};
    ghost use Rattle.cp_tree.specs.Node.{Node};
    ghost use Rattle.cp_tree.specs.Code.{tree_code};

    ghost Value = { List Node };

    ghost coded = { coded_list tree_code };

    ghost use Rattle.cp_fields.specs.Items.{items_of};

    ghost view = { λ l. items_of l.elements };
}

impl<'a, T> List<'a, T> {
    ghost use Rattle.std.specs.Prelude.{◌≡◌, ◌==◌, length};
    ghost use Rattle.cp_fields.specs.Items.{items_of};

    /// The number of elements.
    #[inline(always)]
    pub fn len(&self) -> usize
        ensures { result ≡ length self.now }
    {
        self.elements.len()
    }

    /// Whether there are none.
    pub fn is_empty(&self) -> bool
        ensures { result ≡ (length self.now == 0) }
    {
        self.len() == 0
    }

    /// What its pointer stands for, as it lies: with all that a newer schema's program wrote. Null stands for the empty list.
    pub fn pointer(&self) -> PointerReader<'a>
        ensures { items_of result ≡ self.now }
    {
        self.elements.pointer()
    }
}

impl<'a, T: Element<'a>> List<'a, T> {
    ghost use Rattle.std.specs.Prelude.{◌≡◌, ◌<◌, length, slice_index_or};
    ghost use Rattle.cp_tree.specs.Node.{null};
    ghost use Rattle.cp_fields.specs.Pointers.{list_field};

    /// The list that a pointer stands for; null stands for the empty list.
    #[inline(always)]
    pub fn of(at: PointerReader<'a>) -> Result<List<'a, T>, WrongKind>
        ensures { result ≡ list_field T.SIZE at.entry }
    {
        Ok(List {
            elements: elements_of(at, T::size())?,
            of: PhantomData,
        })
    }

    /// Element `i`.
    #[inline(always)]
    pub fn get(&self, i: usize) -> T
        requires { i < length self.now }
        ensures { result ≡ T.read (slice_index_or self.now i null) }
    {
        T::of_element(self.elements.get(i))
    }
}

impl<'a, T: Element<'a>> IntoIterator for List<'a, T> {
    type Item = T;

    type IntoIter = ListIter<'a, T>;

    #[inline(always)]
    fn into_iter(self) -> ListIter<'a, T> {
        ListIter {
            list: self,
            next: 0,
        }
    }
}

/// The elements of a list that are left, one after another.
pub struct ListIter<'a, T> {
    list: List<'a, T>,
    next: usize,
}

// Not derived: a crate that lets one go calls this function, and need not prove the drop of all that it holds.
impl<'a, T> Drop for ListIter<'a, T> {
    #[inline(always)]
    fn drop(self) {
        let ListIter { list: _, next: _ } = self;
    }
}

impl<'a, T: Element<'a>> Iterator for ListIter<'a, T> {
    type Item = T;

    ghost next_gives = { YieldsFirst (λ it. map T.read (drop it.next it.list)) };

    ghost remaining = { item_count (λ it. drop it.next it.list) };

    #[inline(always)]
    fn next(&mut self) -> Option<T> {
        if self.next >= self.list.len() {
            return None;
        }
        let item = self.list.get(self.next);
        self.next += 1;
        Some(item)
    }
}

/// The elements of a list, where elements of a size are wanted.
#[inline(always)]
fn elements_of(at: PointerReader<'_>, wanted: ElementSize) -> Result<Elements<'_>, WrongKind>
    ensures { Lists wanted at.entry result }
{
    match at.into_part() {
        Part::Null => Ok(Elements::null()),
        Part::View(view) => elements_in_place(view, wanted),
        Part::Tree(tree) => elements_owned(tree, wanted),
        Part::Constant(tree) => elements_constant(tree, wanted),
    }
}

/// The elements of a list that is read in place, where elements of a size are wanted.
#[inline(always)]
fn elements_in_place<'a>(view: View<'a>, wanted: ElementSize) -> Result<Elements<'a>, WrongKind>
    ensures { Lists wanted view.entry result }
{
    if reads_shape(wanted, view.shape()) {
        Ok(Elements::of_view(view))
    } else {
        Err(PointerReader::of_view(view).wrong(Kind::List(wanted)))
    }
}

/// Whether a list, where elements of a size are wanted, is read from a tree of this kind and sizes.
#[inline(always)]
fn reads_shape(wanted: ElementSize, shape: Shape) -> bool
    ensures read { IsTrue result → (t : Node) → shape_of t ≡ shape → list_field wanted t ≡ Ok (items_of t) }
    ensures other { IsFalse result → (t : Node) → shape_of t ≡ shape → list_field wanted t ≡ wrong (kinds.List wanted) t }
{
    match shape {
        Shape::Null => true,
        Shape::List { size, .. } => reads_from(wanted, size),
        Shape::Structs { words, ptrs, .. } => reads_from_structs(wanted, words, ptrs),
        Shape::Cap(_) | Shape::Struct { .. } => false,
    }
}

/// The elements of a list that is owned, where elements of a size are wanted.
fn elements_owned(tree: &Tree, wanted: ElementSize) -> Result<Elements<'_>, WrongKind>
    ensures { Lists wanted (node_of tree.now) result }
{
    let at = PointerReader::of_tree(tree);
    let reads = match tree {
        Tree::Null => true,
        Tree::Structs { words, ptrs, .. } => reads_from_structs(wanted, *words, *ptrs),
        _ => match at.kind() {
            Kind::List(size) => reads_from(wanted, size),
            _ => false,
        },
    };
    if reads {
        Ok(Elements::of_tree(tree))
    } else {
        Err(at.wrong(Kind::List(wanted)))
    }
}

/// The elements of a list that is a constant, where elements of a size are wanted.
fn elements_constant<'a>(
    tree: &'a Constant<'a>,
    wanted: ElementSize,
) -> Result<Elements<'a>, WrongKind>
    ensures { Lists wanted (constant_of tree.now) result }
{
    let at = PointerReader::of_constant(tree);
    let reads = match tree {
        Constant::Null => true,
        Constant::Structs { words, ptrs, .. } => reads_from_structs(wanted, *words, *ptrs),
        _ => match at.kind() {
            Kind::List(size) => reads_from(wanted, size),
            _ => false,
        },
    };
    if reads {
        Ok(Elements::of_constant(tree))
    } else {
        Err(at.wrong(Kind::List(wanted)))
    }
}
