//! A tree that is read in place, laid out in its canonical form.

ghost use Rattle.std.specs.Prelude.{◌≡◌, ◌<◌, ◌≤◌, ◌+◌, ◌*◌, ◌++◌, ◌^◌, ◌%◌, None, length};
ghost use Rattle.cp_words.specs.Word.{bits_of, words_for};
ghost use Rattle.cp_tree.specs.Elements.{elements_of};
ghost use Rattle.cp_tree.specs.Node.{IsStruct, count, number_of, row_of};
ghost use Rattle.cp_tree.specs.Shaped.{EachShaped, ElementsFit, Shaped};
ghost use Rattle.cp_reading.specs.Rows.{IsData, bodies_in};
ghost use Rattle.cp_writing.specs.Writing.{tag_word};
ghost use Rattle.cp_canonical.specs.Cut.{cut, first_cap, first_cap_in, first_cap_of};
ghost use Rattle.cp_canonical.specs.Arenas.{EachHasPtrs, EachHasWords, IsPtrs, IsArena, IsStructs, Writes, elements_blank, kept_bodies, kept_row};
ghost use Rattle.cp_canonical.specs.Arenas.{with_elements, with_list, with_ptrs, with_row, with_struct, with_tag, with_tree};

use crate::arena::Arena;
use crate::fault::CanonicalFault;
use crate::fit::words_fit;
use crate::used::{Composite, least_sizes, used_ptrs, used_words};
use cp_reading::View;
use cp_tree::Shape;
use cp_words::{BodyKind, ElementSize, Pointer, encode};

/// Lays out a tree whose pointer is a blank word.
#[cycle(lay)]
pub(crate) fn lay(arena: &mut Arena, at: usize, view: &View) -> Result<(), CanonicalFault>
    requires arena { IsArena arena.old }
    requires there { at < length arena.old.words.items }
    requires shaped { Shaped view.now }
    ensures { Writes arena.old arena.new result (first_cap (cut view.now)) (with_tree at (cut view.now)) }
{
    match view.shape() {
        Shape::Null => {
            arena.put(at, 0);
            Ok(())
        }
        Shape::Cap(index) => Err(CanonicalFault::Capability(index)),
        Shape::Struct { ptrs, .. } => lay_struct(arena, at, view, ptrs),
        Shape::List { size, count } => match size {
            ElementSize::Pointer => lay_ptrs(arena, at, view, count),
            _ => lay_list(arena, at, view.words(), size, count),
        },
        Shape::Structs { words, ptrs, count } => {
            lay_structs(arena, at, view, Composite { count, words, ptrs })
        }
    }
}

/// Lays out a struct, up to the last word that isn't zero and the last pointer that isn't null.
#[cycle(lay)]
fn lay_struct(arena: &mut Arena, at: usize, view: &View, ptrs: u16) -> Result<(), CanonicalFault>
    requires arena { IsArena arena.old }
    requires there { at < length arena.old.words.items }
    requires shaped { Shaped view.now }
    requires is_struct { IsStruct view.now }
    requires all { count (row_of view.now) ≡ ptrs }
    ensures { Writes arena.old arena.new result (first_cap (cut view.now)) (with_tree at (cut view.now)) }
{
    let words = view.words();
    let words = &words[..used_words(words)];
    let ptrs = used_ptrs(view, ptrs);
    let first = arena.words.len() + words.len();
    begin_struct(arena, at, words, ptrs)?;
    lay_row(arena, first, view, ptrs as u32)
}

/// Lays out a list of pointers.
#[cycle(lay)]
fn lay_ptrs(arena: &mut Arena, at: usize, view: &View, number: u32) -> Result<(), CanonicalFault>
    requires arena { IsArena arena.old }
    requires there { at < length arena.old.words.items }
    requires shaped { Shaped view.now }
    requires is_ptrs { IsPtrs view.now }
    requires all { count (row_of view.now) ≡ number }
    ensures { Writes arena.old arena.new result (first_cap (cut view.now)) (with_tree at (cut view.now)) }
{
    let first = arena.words.len();
    begin_ptrs(arena, at, number)?;
    lay_row(arena, first, view, number)
}

/// Lays out a composite list, whose elements get the least sizes that all have in common.
#[cycle(lay)]
fn lay_structs(
    arena: &mut Arena,
    at: usize,
    view: &View,
    of: Composite,
) -> Result<(), CanonicalFault>
    requires arena { IsArena arena.old }
    requires there { at < length arena.old.words.items }
    requires shaped { Shaped view.now }
    requires sizes { IsStructs view.now of.words of.ptrs of.count }
    ensures { Writes arena.old arena.new result (first_cap (cut view.now)) (with_tree at (cut view.now)) }
{
    let least = least_sizes(view, of);
    let first = arena.words.len() + 1;
    begin_elements(arena, at, least)?;
    append_elements(arena, view, least)?;
    lay_elements(arena, first, view, least)
}

/// Lays out the first trees of a struct or of a list of pointers, whose pointers are blank words from one on.
#[cycle(lay)]
fn lay_row(arena: &mut Arena, first: usize, view: &View, number: u32) -> Result<(), CanonicalFault>
    requires arena { IsArena arena.old }
    requires there { first + number ≤ length arena.old.words.items }
    requires some { number ≤ count (row_of view.now) }
    requires shaped { EachShaped (row_of view.now) }
    ensures { Writes arena.old arena.new result (first_cap_in (kept_row number view.now)) (with_row first (kept_row number view.now)) }
{
    for i in 0..number {
        lay(arena, first + i as usize, &view.child(i))?;
    }
    Ok(())
}

/// Lays out what hangs on the pointers of a composite list's elements, which stand from a word on.
#[cycle(lay)]
fn lay_elements(
    arena: &mut Arena,
    first: usize,
    view: &View,
    of: Composite,
) -> Result<(), CanonicalFault>
    requires arena { IsArena arena.old }
    requires there { first + of.count * (of.words + of.ptrs) ≤ length arena.old.words.items }
    requires all { number_of (bodies_in view.now) ≡ of.count }
    requires shaped { EachHasPtrs of.ptrs (bodies_in view.now) }
    ensures { Writes arena.old arena.new result (first_cap_of (kept_bodies of view.now)) (with_elements first of view.now) }
{
    let mut pointers = first;
    for i in 0..of.count {
        pointers += of.words as usize;
        lay_row(arena, pointers, &view.child(i), of.ptrs as u32)?;
        pointers += of.ptrs as usize;
    }
    Ok(())
}

/// Begins a struct: its data words, and blank words for its pointers. One of size zero has no body.
fn begin_struct(
    arena: &mut Arena,
    at: usize,
    words: &[u64],
    ptrs: u16,
) -> Result<(), CanonicalFault>
    requires arena { IsArena arena.old }
    requires there { at < length arena.old.words.items }
    requires few { length words.now < 2 ^ 16 }
    ensures { Writes arena.old arena.new result None (with_struct at words.now ptrs) }
{
    if words.len() + ptrs as usize == 0 {
        // With offset 0 the word would be 0, which says null.
        let empty = Pointer::Struct {
            offset: -1,
            words: 0,
            ptrs: 0,
        };
        arena.put(at, encode(empty));
        return Ok(());
    }
    let kind = BodyKind::Struct {
        words: words.len() as u16,
        ptrs,
    };
    arena.point(at, kind);
    arena.append(words)?;
    arena.append_blank(ptrs as usize)
}

/// Begins a list of pointers: blank words.
fn begin_ptrs(arena: &mut Arena, at: usize, count: u32) -> Result<(), CanonicalFault>
    requires arena { IsArena arena.old }
    requires there { at < length arena.old.words.items }
    requires few { count < 2 ^ 29 }
    ensures { Writes arena.old arena.new result None (with_ptrs at count) }
{
    let size = ElementSize::Pointer;
    arena.point(at, BodyKind::List { size, count });
    arena.append_blank(count as usize)
}

/// A list without pointers: the words that hold its elements, with zero bits after the last one.
fn lay_list(
    arena: &mut Arena,
    at: usize,
    words: &[u64],
    size: ElementSize,
    count: u32,
) -> Result<(), CanonicalFault>
    requires arena { IsArena arena.old }
    requires there { at < length arena.old.words.items }
    requires few { count < 2 ^ 29 }
    requires plain { IsData size }
    requires fit { ElementsFit (elements_of words.now size count) }
    requires words { length words.now ≡ words_for size count }
    ensures { Writes arena.old arena.new result None (with_list at (elements_of words.now size count)) }
{
    arena.point(at, BodyKind::List { size, count });
    arena.append(words)?;
    words_fit(words);
    let bits = count as u64 * bits_of(size) % 64;
    arena.keep_bits(bits as u32);
    Ok(())
}

/// How many bits an element without pointers takes.
fn bits_of(size: ElementSize) -> u64
    requires { IsData size }
    ensures { result ≡ bits_of size }
{
    match size {
        ElementSize::Void => 0,
        ElementSize::Bit => 1,
        ElementSize::Byte => 8,
        ElementSize::TwoBytes => 16,
        ElementSize::FourBytes => 32,
        _ => 64,
    }
}

/// Begins a composite list: its tag.
fn begin_elements(arena: &mut Arena, at: usize, of: Composite) -> Result<(), CanonicalFault>
    requires arena { IsArena arena.old }
    requires there { at < length arena.old.words.items }
    requires few { of.count < 2 ^ 30 }
    requires small { of.count * (of.words + of.ptrs) < 2 ^ 29 }
    ensures { Writes arena.old arena.new result None (with_tag at of.words of.ptrs of.count) }
{
    // The list pointer doesn't count the tag.
    let count = of.count as usize * (of.words as usize + of.ptrs as usize);
    let kind = BodyKind::List {
        size: ElementSize::Composite,
        count: count as u32,
    };
    arena.point(at, kind);
    arena.append(&[tag_word(of)])
}

/// A composite list's tag.
fn tag_word(of: Composite) -> u64
    requires { of.count < 2 ^ 30 }
    ensures { result ≡ tag_word of.count of.words of.ptrs }
{
    4 * of.count as u64 + 0x1_0000_0000 * of.words as u64 + 0x1_0000_0000_0000 * of.ptrs as u64
}

/// Appends the elements of a composite list, each with blank words for its pointers.
fn append_elements(arena: &mut Arena, view: &View, of: Composite) -> Result<(), CanonicalFault>
    requires arena { IsArena arena.old }
    requires all { number_of (bodies_in view.now) ≡ of.count }
    requires wide { EachHasWords of.words (bodies_in view.now) }
    ensures { Writes arena.old arena.new result None (λ ws. ws ++ elements_blank of.words of.ptrs (bodies_in view.now)) }
{
    for i in 0..of.count {
        let element = view.child(i);
        arena.append(&element.words()[..of.words as usize])?;
        arena.append_blank(of.ptrs as usize)?;
    }
    Ok(())
}
