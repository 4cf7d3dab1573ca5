//! Owned trees, built from views.

ghost use Rattle.std.specs.Prelude.{◌≡◌, ◌≤◌, ◌+◌, map, IfOk, OnOk};
ghost use Rattle.cp_tree.specs.Node.{struct};
ghost use Rattle.cp_tree.specs.NodeOf.{node_of, body_of, nodes_of, bodies_of};
ghost use Rattle.cp_words.specs.Segments.{words_of};
ghost use Rattle.cp_reading.specs.Building.{elements_in, part_in, row_in, struct_in};
ghost use Rattle.cp_reading.specs.Viewed.{IsViewed};
ghost use Rattle.cp_reading.specs.Rows.{struct_at, structs_at};
ghost use Rattle.cp_reading.specs.Visited.{pointers, pointers_of_row, pointers_of_bodies};
ghost use Rattle.cp_reading.specs.declared.view.Viewed.TheVariants as viewed;

use crate::area::{Area, Form};
use crate::elements::list_of;
use crate::view::{View, Viewed, viewed_at, words_at};
use crate::visits::Visits;
use cp_tree::{Body, Tree, Whole};
use cp_words::{ElementSize, Place, list_words};
use std::alloc::{AllocError, Global};
use std::sync::ledger::Ledger;

/// The tree that is viewed, owned.
pub(crate) fn whole_of<L: Ledger>(
    alloc: Global,
    view: &View,
    visits: &mut Visits<L>,
) -> Result<Whole, AllocError>
    ensures tree { IfOk result (λ w. w ≡ view.now) }
    ensures exact { OnOk result (visits.new ≡ visits.old + pointers view.now) }
    ensures few { visits.new ≤ visits.old + pointers view.now }
{
    let (segments, part) = view.place();
    let mut builder = Builder {
        alloc,
        segments,
        visits,
    };
    Ok(Whole::from_shaped(builder.build(part)?))
}

/// Builds trees of a message that was checked: each pointer word is visited once more.
#[derive(Drop)]
struct Builder<'a, 'v, L: Ledger> {
    alloc: Global,
    segments: &'a [Vec<u64>],
    visits: &'v mut Visits<L>,
}

impl<'a, 'v, L: Ledger> Builder<'a, 'v, L> {
    /// The tree that a part stands for.
    #[cycle(build)]
    #[inline(always)]
    fn build(&mut self, part: Viewed) -> Result<Tree, AllocError>
        requires { IsViewed (words_of self.old.segments.now) part }
        ensures tree { IfOk result (λ t. node_of t ≡ part_in self.old part) }
        ensures exact { OnOk result (self.new.visits.now ≡ self.old.visits.now + pointers (part_in self.old part)) }
        ensures few { self.new.visits.now ≤ self.old.visits.now + pointers (part_in self.old part) }
        ensures same { self.new.segments ≡ self.old.segments }
        ensures lent { self.new.visits.ghost_name ≡ self.old.visits.ghost_name }
    {
        match part {
            Viewed::Null => Ok(Tree::Null),
            Viewed::Cap(index) => Ok(Tree::Cap(index)),
            Viewed::Body(area) => self.build_area(area),
        }
    }

    /// The tree of a body.
    #[cycle(build)]
    #[inline(always)]
    fn build_area(&mut self, area: Area) -> Result<Tree, AllocError>
        requires { IsViewed (words_of self.old.segments.now) (viewed.Body area) }
        ensures tree { IfOk result (λ t. node_of t ≡ part_in self.old (viewed.Body area)) }
        ensures exact { OnOk result (self.new.visits.now ≡ self.old.visits.now + pointers (part_in self.old (viewed.Body area))) }
        ensures few { self.new.visits.now ≤ self.old.visits.now + pointers (part_in self.old (viewed.Body area)) }
        ensures same { self.new.segments ≡ self.old.segments }
        ensures lent { self.new.visits.ghost_name ≡ self.old.visits.ghost_name }
    {
        let first = Place {
            segment: area.segment,
            word: area.start,
        };
        match area.form {
            Form::Struct { words, ptrs } => Ok(Tree::Struct(self.build_body(first, words, ptrs)?)),
            Form::List { size, count } => match size {
                ElementSize::Pointer => Ok(Tree::Ptrs(self.build_row(first, count as usize)?)),
                _ => {
                    let words = list_words(size, count) as usize;
                    list_of(
                        self.alloc,
                        words_at(self.segments, area.segment, area.start, words),
                        size,
                        count,
                    )
                }
            },
            Form::Structs { words, ptrs, count } => Ok(Tree::Structs {
                words,
                ptrs,
                items: self.build_bodies(first, words, ptrs, count)?,
            }),
        }
    }

    /// The struct whose body begins at a place.
    #[cycle(build)]
    #[inline(always)]
    fn build_body(&mut self, start: Place, words: u16, ptrs: u16) -> Result<Body, AllocError>
        requires { IsViewed (words_of self.old.segments.now) (viewed.Body (struct_at start words ptrs)) }
        ensures body { IfOk result (λ b. struct (body_of b).0 (body_of b).1 ≡ struct_in self.old start words ptrs) }
        ensures exact { OnOk result (self.new.visits.now ≡ self.old.visits.now + pointers (struct_in self.old start words ptrs)) }
        ensures few { self.new.visits.now ≤ self.old.visits.now + pointers (struct_in self.old start words ptrs) }
        ensures same { self.new.segments ≡ self.old.segments }
        ensures lent { self.new.visits.ghost_name ≡ self.old.visits.ghost_name }
    {
        let held = words_at(self.segments, start.segment, start.word, words as usize);
        let words = Vec::from_slice(self.alloc, held)?;
        let first = Place {
            segment: start.segment,
            word: start.word + held.len(),
        };
        let ptrs = self.build_ptrs(first, ptrs as usize)?;
        Ok(Body { words, ptrs })
    }

    /// The trees of this many pointer words, if there are any.
    #[cycle(build)]
    #[inline(always)]
    fn build_ptrs(&mut self, first: Place, number: usize) -> Result<Vec<Tree>, AllocError>
        requires { IsViewed (words_of self.old.segments.now) (viewed.Body (struct_at first 0 number)) }
        ensures row { IfOk result (λ v. nodes_of (map node_of v.items) ≡ row_in self.old first number) }
        ensures exact { OnOk result (self.new.visits.now ≡ self.old.visits.now + pointers_of_row (row_in self.old first number)) }
        ensures few { self.new.visits.now ≤ self.old.visits.now + pointers_of_row (row_in self.old first number) }
        ensures same { self.new.segments ≡ self.old.segments }
        ensures lent { self.new.visits.ghost_name ≡ self.old.visits.ghost_name }
    {
        if number == 0 {
            return Ok(Vec::new(self.alloc));
        }
        self.build_row(first, number)
    }

    /// The trees of this many pointer words, from one on.
    #[cycle(build)]
    fn build_row(&mut self, first: Place, number: usize) -> Result<Vec<Tree>, AllocError>
        requires { IsViewed (words_of self.old.segments.now) (viewed.Body (struct_at first 0 number)) }
        ensures row { IfOk result (λ v. nodes_of (map node_of v.items) ≡ row_in self.old first number) }
        ensures exact { OnOk result (self.new.visits.now ≡ self.old.visits.now + pointers_of_row (row_in self.old first number)) }
        ensures few { self.new.visits.now ≤ self.old.visits.now + pointers_of_row (row_in self.old first number) }
        ensures same { self.new.segments ≡ self.old.segments }
        ensures lent { self.new.visits.ghost_name ≡ self.old.visits.ghost_name }
    {
        let mut found = Vec::with_capacity(self.alloc, number)?;
        for i in 0..number {
            let at = Place {
                segment: first.segment,
                word: first.word + i,
            };
            self.visits.tick();
            found.push(self.build(viewed_at(self.segments, at))?)?;
        }
        Ok(found)
    }

    /// The elements of the composite list whose first one begins at a place.
    #[cycle(build)]
    fn build_bodies(
        &mut self,
        first: Place,
        words: u16,
        ptrs: u16,
        number: u32,
    ) -> Result<Vec<Body>, AllocError>
        requires { IsViewed (words_of self.old.segments.now) (viewed.Body (structs_at first words ptrs number)) }
        ensures bodies { IfOk result (λ v. bodies_of (map body_of v.items) ≡ elements_in self.old first words ptrs number) }
        ensures exact { OnOk result (self.new.visits.now ≡ self.old.visits.now + pointers_of_bodies (elements_in self.old first words ptrs number)) }
        ensures few { self.new.visits.now ≤ self.old.visits.now + pointers_of_bodies (elements_in self.old first words ptrs number) }
        ensures same { self.new.segments ≡ self.old.segments }
        ensures lent { self.new.visits.ghost_name ≡ self.old.visits.ghost_name }
    {
        let mut found = Vec::with_capacity(self.alloc, number as usize)?;
        for i in 0..number {
            let start = Place {
                segment: first.segment,
                word: first.word + i as usize * (words as usize + ptrs as usize),
            };
            found.push(self.build_body(start, words, ptrs)?)?;
        }
        Ok(found)
    }
}
