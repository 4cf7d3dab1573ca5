//! What of a struct is kept: the words up to the last that isn't zero, the pointers up to the last that isn't null.

ghost use Rattle.std.specs.Prelude.{◌≡◌, ◌<◌, ◌≤◌, ◌^◌, length};
ghost use Rattle.cp_tree.specs.Node.{IsStruct, count, number_of, row_of};
ghost use Rattle.cp_tree.specs.Shaped.{EachEven};
ghost use Rattle.cp_reading.specs.Rows.{bodies_in};
ghost use Rattle.cp_canonical.specs.Cut.{most_ptrs, most_words, used_ptrs, used_words};

use cp_reading::View;
use cp_tree::Shape;

/// How many elements a composite list has, and how many words and pointers each has.
#[derive(Clone, Copy)]
pub(crate) struct Composite {
    pub count: u32,
    pub words: u16,
    pub ptrs: u16,
}

/// How many words there are up to the last that isn't zero.
pub(crate) fn used_words(words: &[u64]) -> usize
    ensures used { result ≡ used_words words.now }
    ensures within { result ≤ length words.now }
{
    for i in (0..words.len()).rev() {
        if words[i] != 0 {
            return i + 1;
        }
    }
    0
}

/// How many of a struct's pointers there are up to the last that isn't null.
pub(crate) fn used_ptrs(view: &View, ptrs: u16) -> u16
    requires is_struct { IsStruct view.now }
    requires all { count (row_of view.now) ≡ ptrs }
    ensures used { result ≡ used_ptrs (row_of view.now) }
    ensures within { result ≤ ptrs }
{
    for i in (0..ptrs).rev() {
        match view.child(i as u32).shape() {
            Shape::Null => {}
            _ => return i + 1,
        }
    }
    0
}

/// The least sizes that all elements of a composite list have in common, of a list with such sizes.
pub(crate) fn least_sizes(view: &View, of: Composite) -> Composite
    requires all { number_of (bodies_in view.now) ≡ of.count }
    requires even { EachEven of.words of.ptrs (bodies_in view.now) }
    requires small { of.words < 2 ^ 16 }
    ensures count { result.count ≡ of.count }
    ensures words { result.words ≡ most_words (bodies_in view.now) }
    ensures ptrs { result.ptrs ≡ most_ptrs (bodies_in view.now) }
{
    let mut words: u16 = 0;
    let mut ptrs: u16 = 0;
    for i in 0..of.count {
        let element = view.child(i);
        words = words.max(used_words(element.words()) as u16);
        ptrs = ptrs.max(used_ptrs(&element, of.ptrs));
    }
    Composite {
        count: of.count,
        words,
        ptrs,
    }
}
