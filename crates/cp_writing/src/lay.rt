//! How a tree is laid out in segments.

ghost use Rattle.std.specs.Prelude.{◌≡◌, ◌<◌, ◌+◌, ◌*◌, ◌^◌, [], length};
ghost use Rattle.cp_tree.specs.Lent.{node_in, row_in, bodies_in};
ghost use Rattle.cp_tree.specs.Node.{count, number_of, null, struct, structs, ptrs as pointers};
ghost use Rattle.cp_tree.specs.NodeOf.{nodes_of, bodies_of};
ghost use Rattle.cp_tree.specs.Shaped.{Shaped, EachShaped, EachEven, HasSizes};
ghost use Rattle.cp_writing.specs.Sheets.{written, IsWithin, IsPlace, IsRun, Appends, Places};
ghost use Rattle.cp_writing.specs.Writing.{body_blank, bodies_blank, tag_word, structs_begun, Begins, BeginsBodies, LaysTree, LaysRow, LaysBodies};

use crate::arena::Arena;
use crate::lay_list::{lay_bytes, lay_list, place_list};
use cp_tree::{BodiesRef, RowRef, StructsRef, Top, Tree, TreeRef, WriteFault};
use cp_words::{BodyKind, ElementSize, Place, Pointer, encode};

/// Lays out a tree whose pointer is at a place, if it nests no deeper than this many levels and costs
/// no more than the arena's budget.
#[cycle(lay)]
pub(crate) fn lay(
    arena: &mut Arena,
    at: Place,
    tree: TreeRef,
    levels: u32,
) -> Result<(), WriteFault>
    requires keeps { IsWithin arena.old }
    requires there { IsPlace (written arena.old) at }
    requires shaped { Shaped (node_in tree) }
    ensures { LaysTree arena.old arena.new levels result at (node_in tree.entry) }
{
    match tree.top() {
        Top::Null => {
            arena.put(at, 0);
            Ok(())
        }
        Top::Cap(index) => {
            arena.put(at, encode(Pointer::Cap(index)));
            Ok(())
        }
        Top::Struct(body) => {
            let count = body.ptrs.len();
            let below = arena.charge(levels, 1 + body.words.len() as u64 + count as u64)?;
            let first = begin_struct(arena, at, body.words, count)?;
            lay_row(arena, first, body.ptrs, below)
        }
        Top::List(list) => lay_list(arena, at, list, levels),
        Top::Ptrs(trees) => {
            let count = trees.len();
            let below = arena.charge(levels, 1 + count as u64)?;
            let first = begin_ptrs(arena, at, count)?;
            lay_row(arena, first, trees, below)
        }
        Top::Structs(list) => {
            let price = 1 + list.words as u64 + list.ptrs as u64;
            let below = arena.charge(levels, 2 + list.items.len() as u64 * price)?;
            let first = begin_structs(arena, at, list)?;
            // The elements stand together, before what hangs on any of them.
            lay_bodies(arena, first, list, below)
        }
    }
}

/// Lays out the trees whose pointers stand from a place on.
#[cycle(lay)]
fn lay_row(arena: &mut Arena, first: Place, trees: RowRef, levels: u32) -> Result<(), WriteFault>
    requires keeps { IsWithin arena.old }
    requires run { IsRun (written arena.old) first (count (nodes_of (row_in trees))) }
    requires shaped { EachShaped (nodes_of (row_in trees)) }
    ensures { LaysRow arena.old arena.new levels result first (nodes_of (row_in trees.entry)) }
{
    let mut at = first;
    for tree in trees {
        lay_pointer(arena, at, tree, levels)?;
        at.word += 1;
    }
    Ok(())
}

/// Lays out a tree as `lay` does. Most pointers of a struct are null, or lead to a text or data: these go without a
/// look at the other kinds.
#[cycle(lay)]
#[inline(always)]
fn lay_pointer(arena: &mut Arena, at: Place, tree: TreeRef, levels: u32) -> Result<(), WriteFault>
    requires keeps { IsWithin arena.old }
    requires there { IsPlace (written arena.old) at }
    requires shaped { Shaped (node_in tree) }
    ensures { LaysTree arena.old arena.new levels result at (node_in tree.entry) }
{
    match tree {
        TreeRef::Tree(Tree::Null) => lay_null(arena, at, levels),
        TreeRef::Tree(Tree::Bytes(items)) => lay_bytes(arena, at, items, levels),
        _ => lay(arena, at, tree, levels),
    }
}

/// Writes a null pointer, which nests and costs nothing.
#[inline(always)]
fn lay_null(arena: &mut Arena, at: Place, _levels: u32) -> Result<(), WriteFault>
    requires keeps { IsWithin arena.old }
    requires there { IsPlace (written arena.old) at }
    ensures { LaysTree arena.old arena.new _levels result at null }
{
    // `_levels` is named by the contract alone.
    arena.put(at, 0);
    Ok(())
}

/// Lays out what hangs on the pointers of a composite list's elements, which stand from a place on.
#[cycle(lay)]
fn lay_bodies(
    arena: &mut Arena,
    first: Place,
    list: StructsRef,
    levels: u32,
) -> Result<(), WriteFault>
    requires keeps { IsWithin arena.old }
    requires run { IsRun (written arena.old) first (number_of (bodies_of (bodies_in list.items)) * (list.words + list.ptrs)) }
    requires even { EachEven list.words list.ptrs (bodies_of (bodies_in list.items)) }
    ensures { LaysBodies arena.old arena.new levels result first list.entry.words list.entry.ptrs (bodies_of (bodies_in list.entry.items)) }
{
    // Nothing hangs on such elements, however many there are.
    if list.ptrs == 0 {
        return Ok(());
    }
    let mut at = first;
    for body in list.items {
        let pointers = Place {
            segment: at.segment,
            word: at.word + list.words as usize,
        };
        lay_row(arena, pointers, body.ptrs, levels)?;
        at.word = pointers.word + list.ptrs as usize;
    }
    Ok(())
}

/// Begins a struct: its data words, and blank words for its pointers. Gives where these begin. One of
/// size zero has no body.
#[inline(always)]
fn begin_struct(
    arena: &mut Arena,
    at: Place,
    words: &[u64],
    ptrs: usize,
) -> Result<Place, WriteFault>
    requires keeps { IsWithin arena.old }
    requires there { IsPlace (written arena.old) at }
    requires sizes { HasSizes (length words.now) ptrs }
    ensures { Begins arena.old arena.new result at ptrs (struct words.now) }
{
    if words.len() + ptrs == 0 {
        // With offset 0 the word would be 0, which says null.
        let empty = Pointer::Struct {
            offset: -1,
            words: 0,
            ptrs: 0,
        };
        arena.put(at, encode(empty));
        return Ok(at);
    }
    let kind = BodyKind::Struct {
        words: words.len() as u16,
        ptrs: ptrs as u16,
    };
    let start = arena.place(at, kind, words.len() + ptrs)?;
    append_body(arena, words, ptrs)?;
    Ok(Place {
        segment: start.segment,
        word: start.word + words.len(),
    })
}

/// Begins a list of pointers: blank words. Gives where they begin.
fn begin_ptrs(arena: &mut Arena, at: Place, count: usize) -> Result<Place, WriteFault>
    requires keeps { IsWithin arena.old }
    requires there { IsPlace (written arena.old) at }
    requires few { count < 2 ^ 29 }
    ensures { Begins arena.old arena.new result at count pointers }
{
    let start = place_list(arena, at, ElementSize::Pointer, count, count)?;
    arena.append_blank(count)?;
    Ok(start)
}

/// Begins a composite list: its tag, and its elements with blank words for their pointers. Gives
/// where the elements begin.
fn begin_structs(arena: &mut Arena, at: Place, list: StructsRef) -> Result<Place, WriteFault>
    requires keeps { IsWithin arena.old }
    requires there { IsPlace (written arena.old) at }
    requires shaped { Shaped (structs list.words list.ptrs (bodies_of (bodies_in list.items))) }
    ensures { BeginsBodies arena.old arena.new result at list.entry.words list.entry.ptrs (bodies_of (bodies_in list.entry.items)) }
{
    let first = begin_elements(arena, at, list.words, list.ptrs, list.items.len())?;
    append_bodies(arena, list.items)?;
    Ok(first)
}

/// Begins a composite list: its tag. Gives where its elements begin.
fn begin_elements(
    arena: &mut Arena,
    at: Place,
    words: u16,
    ptrs: u16,
    count: usize,
) -> Result<Place, WriteFault>
    requires keeps { IsWithin arena.old }
    requires there { IsPlace (written arena.old) at }
    requires few { count < 2 ^ 30 }
    requires small { count * (words + ptrs) < 2 ^ 29 }
    ensures { Places arena.old arena.new result (structs_begun arena.old.capacity at.segment at.word words ptrs count [] (written arena.old)) }
{
    // The list pointer doesn't count the tag.
    let size = count * (words as usize + ptrs as usize);
    let tag = place_list(arena, at, ElementSize::Composite, size, size + 1)?;
    arena.append(&[tag_word(count, words, ptrs)])?;
    Ok(Place {
        segment: tag.segment,
        word: tag.word + 1,
    })
}

/// A composite list's tag.
fn tag_word(count: usize, words: u16, ptrs: u16) -> u64
    requires { count < 2 ^ 30 }
    ensures { result ≡ tag_word count words ptrs }
{
    4 * count as u64 + 0x1_0000_0000 * words as u64 + 0x1_0000_0000_0000 * ptrs as u64
}

/// The elements of a composite list, each with blank words for its pointers.
#[inline]
fn append_bodies(arena: &mut Arena, bodies: BodiesRef) -> Result<(), WriteFault>
    requires { IsWithin arena.old }
    ensures { Appends arena.old arena.new result (bodies_blank (bodies_of (bodies_in bodies.entry))) }
{
    for body in bodies {
        append_body(arena, body.words, body.ptrs.len())?;
    }
    Ok(())
}

/// A struct's data words, and blank words for its pointers.
#[inline(always)]
fn append_body(arena: &mut Arena, words: &[u64], ptrs: usize) -> Result<(), WriteFault>
    requires { IsWithin arena.old }
    ensures { Appends arena.old arena.new result (body_blank words.now ptrs) }
{
    if ptrs == 0 {
        return arena.append(words);
    }
    arena.append(words)?;
    arena.append_blank(ptrs)
}
