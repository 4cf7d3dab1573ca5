//! Groups that are members of unions, as templates have them: what is cleared where one is chosen.

use crate::book::Book;
use crate::fields::is_void;
use crate::model::Model;
use crate::types::{base_of, setting_of};
use cp_schema::{FieldKind, NodeKind, Schema, Slot, Structure};
use std::alloc::AllocError;

/// The widths of numbers, the greatest first. That of a pointer stands for none.
const WIDTHS: [u32; 6] = [64, 32, 16, 8, 1, POINTER];

/// What a pointer has for its width.
const POINTER: u32 = 0;

/// Where a field lies.
#[derive(Clone, Copy)]
struct Cell {
    width: u32,
    place: u32,
}

impl Cell {
    fn of(slot: &Slot) -> Cell {
        let width = if setting_of(slot).points {
            POINTER
        } else {
            base_of(slot.of.of).1
        };
        Cell {
            width,
            place: slot.place,
        }
    }

    /// Whether it has all bits of another one, or is the same pointer.
    fn covers(self, other: Cell) -> bool {
        if self.width == POINTER || other.width == POINTER {
            return self.width == other.width && self.place == other.place;
        }
        let (first, second) = (self.start(), other.start());
        first <= second
            && second.saturating_add(other.width as u64) <= first.saturating_add(self.width as u64)
    }

    fn start(self) -> u64 {
        (self.width as u64).saturating_mul(self.place as u64)
    }
}

/// Adds what the group of this number has: all its fields, with those of groups in it and the numbers of unions. What another one has all
/// bits of is left out.
pub fn cells<'m>(model: &mut Model<'m>, book: &'m Book<'_>, id: u64) {
    let (mut ids, mut all) = (Vec::new(book.alloc), Vec::new(book.alloc));
    let mut kept = Vec::new(book.alloc);
    if push_cells(book.schema, id, &mut ids, &mut all).is_err()
        || push_kept(all.as_slice(), &mut kept).is_err()
    {
        model.fill_up();
    }
    model.list("cells");
    for it in kept.iter() {
        add_cell(model, *it);
    }
    model.close();
    model.list("wraps");
    for it in kept.iter().rev() {
        add_cell(model, *it);
    }
    model.close();
    drop(ids);
    drop(all);
    drop(kept);
}

fn add_cell(model: &mut Model<'_>, of: Cell) {
    model.record("");
    model.numbers(&[
        ("points", (of.width == POINTER) as u64),
        ("bit", (of.width == 1) as u64),
        ("width", of.width as u64),
        ("place", of.place as u64),
    ]);
    model.close();
}

/// Adds the cells of a group and of all groups in it.
fn push_cells(
    schema: &Schema,
    id: u64,
    ids: &mut Vec<u64>,
    all: &mut Vec<Cell>,
) -> Result<(), AllocError> {
    ids.push(id)?;
    // No more groups than nodes, which bounds the walk.
    for i in 0..schema.nodes.len() {
        let Some(id) = ids.get(i).copied() else {
            break;
        };
        if let Some(node) = schema.find(id) {
            if let NodeKind::Struct(of) = &node.kind {
                push_fields(of, ids, all)?;
            }
        }
    }
    Ok(())
}

/// Adds the cells of a group, and the groups in it.
fn push_fields(of: &Structure, ids: &mut Vec<u64>, all: &mut Vec<Cell>) -> Result<(), AllocError> {
    if of.tags > 0 {
        all.push(Cell {
            width: 16,
            place: of.tag_place,
        })?;
    }
    for field in &of.fields {
        match &field.kind {
            FieldKind::Slot(slot) if !is_void(&field.kind) => all.push(Cell::of(slot))?,
            FieldKind::Group(id) => ids.push(*id)?,
            _ => {}
        }
    }
    Ok(())
}

/// Adds the cells whose bits no other one has all of, each once.
fn push_kept(all: &[Cell], kept: &mut Vec<Cell>) -> Result<(), AllocError> {
    for width in &WIDTHS {
        for it in all {
            if it.width == *width && !is_covered(*it, kept.as_slice()) {
                kept.push(*it)?;
            }
        }
    }
    Ok(())
}

fn is_covered(of: Cell, by: &[Cell]) -> bool {
    for it in by {
        if it.covers(of) {
            return true;
        }
    }
    false
}
