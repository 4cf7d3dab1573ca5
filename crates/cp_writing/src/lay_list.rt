//! How lists without pointers are laid out in segments.

ghost use Rattle.std.specs.Prelude.{◌<◌, ◌^◌, length};
ghost use Rattle.cp_words.specs.declared.kind.BodyKind.TheVariants as kinds;
ghost use Rattle.cp_tree.specs.Lent.{elements_in};
ghost use Rattle.cp_tree.specs.Node.{element_count, list as list_node, voids, bits, bytes, halves, quads, words as words_list};
ghost use Rattle.cp_writing.specs.Sheets.{written, place_on, IsWithin, IsPlace, Places};
ghost use Rattle.cp_writing.specs.Writing.{LaysTree};

use crate::arena::Arena;
use cp_tree::{ListRef, WriteFault};
use cp_words::{BodyKind, ElementSize, Place};

/// Lays out a list, as `lay` does a tree.
#[inline(always)]
pub(crate) fn lay_list(
    arena: &mut Arena,
    at: Place,
    list: ListRef,
    levels: u32,
) -> Result<(), WriteFault>
    requires keeps { IsWithin arena.old }
    requires there { IsPlace (written arena.old) at }
    requires few { element_count (elements_in list) < 2 ^ 29 }
    ensures { LaysTree arena.old arena.new levels result at (list_node (elements_in list.entry)) }
{
    match list {
        ListRef::Voids(count) => lay_voids(arena, at, count, levels),
        ListRef::Bits(items) => lay_bits(arena, at, items, levels),
        ListRef::Bytes(items) => lay_bytes(arena, at, items, levels),
        ListRef::TwoBytes(items) => lay_two_bytes(arena, at, items, levels),
        ListRef::FourBytes(items) => lay_four_bytes(arena, at, items, levels),
        ListRef::Words(items) => lay_words(arena, at, items, levels),
    }
}

/// Lays out a list's body, and gives where its elements are to be written.
#[inline(always)]
pub(crate) fn place_list(
    arena: &mut Arena,
    at: Place,
    size: ElementSize,
    count: usize,
    words: usize,
) -> Result<Place, WriteFault>
    requires keeps { IsWithin arena.old }
    requires there { IsPlace (written arena.old) at }
    requires few { count < 2 ^ 29 }
    requires sized { words < 2 ^ 60 }
    ensures { Places arena.old arena.new result (place_on arena.old at (kinds.List size count) words) }
{
    let kind = BodyKind::List {
        size,
        count: count as u32,
    };
    arena.place(at, kind, words)
}

/// Lays out this many elements without bits.
fn lay_voids(arena: &mut Arena, at: Place, count: u32, levels: u32) -> Result<(), WriteFault>
    requires keeps { IsWithin arena.old }
    requires there { IsPlace (written arena.old) at }
    requires few { count < 2 ^ 29 }
    ensures { LaysTree arena.old arena.new levels result at (list_node (voids count)) }
{
    arena.charge(levels, 1)?;
    place_list(arena, at, ElementSize::Void, count as usize, 0)?;
    Ok(())
}

/// Lays out bits.
fn lay_bits(arena: &mut Arena, at: Place, items: &[bool], levels: u32) -> Result<(), WriteFault>
    requires keeps { IsWithin arena.old }
    requires there { IsPlace (written arena.old) at }
    requires few { length items.now < 2 ^ 29 }
    ensures { LaysTree arena.old arena.new levels result at (list_node (bits items.now)) }
{
    let count = items.len();
    let words = (count + 63) / 64;
    arena.charge(levels, 1 + words as u64)?;
    place_list(arena, at, ElementSize::Bit, count, words)?;
    arena.append_bits(items)
}

/// Lays out bytes.
pub(crate) fn lay_bytes(
    arena: &mut Arena,
    at: Place,
    items: &[u8],
    levels: u32,
) -> Result<(), WriteFault>
    requires keeps { IsWithin arena.old }
    requires there { IsPlace (written arena.old) at }
    requires few { length items.now < 2 ^ 29 }
    ensures { LaysTree arena.old arena.new levels result at (list_node (bytes items.now)) }
{
    let count = items.len();
    let words = (count + 7) / 8;
    arena.charge(levels, 1 + words as u64)?;
    place_list(arena, at, ElementSize::Byte, count, words)?;
    arena.append_bytes(items)
}

/// Lays out numbers of two bytes.
fn lay_two_bytes(arena: &mut Arena, at: Place, items: &[u16], levels: u32) -> Result<(), WriteFault>
    requires keeps { IsWithin arena.old }
    requires there { IsPlace (written arena.old) at }
    requires few { length items.now < 2 ^ 29 }
    ensures { LaysTree arena.old arena.new levels result at (list_node (halves items.now)) }
{
    let count = items.len();
    let words = (count + 3) / 4;
    arena.charge(levels, 1 + words as u64)?;
    place_list(arena, at, ElementSize::TwoBytes, count, words)?;
    arena.append_two_bytes(items)
}

/// Lays out numbers of four bytes.
fn lay_four_bytes(
    arena: &mut Arena,
    at: Place,
    items: &[u32],
    levels: u32,
) -> Result<(), WriteFault>
    requires keeps { IsWithin arena.old }
    requires there { IsPlace (written arena.old) at }
    requires few { length items.now < 2 ^ 29 }
    ensures { LaysTree arena.old arena.new levels result at (list_node (quads items.now)) }
{
    let count = items.len();
    let words = (count + 1) / 2;
    arena.charge(levels, 1 + words as u64)?;
    place_list(arena, at, ElementSize::FourBytes, count, words)?;
    arena.append_four_bytes(items)
}

/// Lays out words.
fn lay_words(arena: &mut Arena, at: Place, items: &[u64], levels: u32) -> Result<(), WriteFault>
    requires keeps { IsWithin arena.old }
    requires there { IsPlace (written arena.old) at }
    requires few { length items.now < 2 ^ 29 }
    ensures { LaysTree arena.old arena.new levels result at (list_node (words_list items.now)) }
{
    let count = items.len();
    arena.charge(levels, 1 + count as u64)?;
    place_list(arena, at, ElementSize::EightBytes, count, count)?;
    arena.append(items)
}
