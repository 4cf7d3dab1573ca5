//! Going over a message's words once, without taking memory.

ghost use Rattle.std.specs.Prelude.{◌≡◌, ◌<◌, ◌==◌, false, ◌≤◌, ◌+◌, ◌*◌, ◌^◌, List, length, Some, Ok, Err, IfOk, IfErr, IfSome, OnOk, OnErr, slice_index};
ghost use Rattle.cp_words.specs.Targets.{segment};
ghost use Rattle.cp_reading.specs.Near.{root_read};
ghost use Rattle.cp_tree.specs.Node.{Node};
ghost use Rattle.cp_words.specs.Segments.{words_of};
ghost use Rattle.cp_reading.specs.Checking.{GoesOver, GoesOverWord, body_at, elements_at, parts_at, root_in, row_at, word_at};
ghost use Rattle.cp_reading.specs.Reading.{price, body_words, budget_after, root_of, IsRootArea, IsWithin};
ghost use Rattle.cp_reading.specs.Visited.{pointers, pointers_of_row, pointers_of_bodies};

use crate::area::{Area, Form, area_of};
use crate::fault::TreeFault;
use crate::near::{list_target, struct_target};
use crate::target::{pointer_at, pointer_in, segment_at, target_of};
use crate::visits::Visits;
use cp_words::{BodyKind, ElementSize, Place, Pointer};
use std::sync::ledger::Ledger;

/// The root's place.
pub(crate) const TOP: Place = Place {
    segment: 0,
    word: 0,
};

/// The word of a struct of a data word and a pointer that follows at once.
const ROOT_WORD: u64 = 0x1_0001_0000_0000;

/// The word of a struct of a data word that follows at once.
const LEAF_WORD: u64 = 0x1_0000_0000;

/// Goes over a message's words: it visits each pointer word, and charges each body.
#[derive(Drop)]
pub(crate) struct Checker<'a, 'v, L: Ledger> {
    pub segments: &'a [Vec<u64>],
    pub budget: u64,
    pub visits: &'v mut Visits<L>,
}

impl<'a, 'v, L: Ledger> Checker<'a, 'v, L> {
    /// Checks the root struct and what hangs on it.
    #[tactic(auto, unfolding(crate::specs::Reading::root_of))]
    pub(crate) fn check_root(&mut self, nesting: u32) -> Result<Area, TreeFault>
        requires { 0 < length self.old.segments.now }
        ensures fault { IfErr result (λ e. root_in nesting self.old ≡ Err e) }
        ensures read { IfOk result (λ a. IsRootArea nesting self.old.budget (words_of self.old.segments.now) a) }
        ensures small { IfOk result (λ a. a.start + body_words a.form < 2 ^ 63) }
        ensures exact { IfOk result (λ a. (t : Node) → root_in nesting self.old ≡ Ok t → self.new.visits.now ≡ self.old.visits.now + 1 + pointers t) }
        ensures few { self.new.visits.now ≤ self.old.visits.now + 1 + self.old.budget }
        ensures lent { self.new.visits.ghost_name ≡ self.old.visits.ghost_name }
    {
        let words = segment_at(self.segments, 0);
        if words.is_empty() {
            return Err(TreeFault::NoRoot(TOP));
        }
        self.visits.tick();
        if let Some(area) = small_root(self.segments, nesting, self.budget) {
            // Its one pointer.
            self.visits.tick();
            return Ok(area);
        }
        let word = words[0];
        // Nearly every root is a near struct pointer; the others go the longer way.
        if word == 0 || word % 4 != 0 {
            return self.check_any_root(nesting);
        }
        let area = area_of(self.segments, TOP, struct_target(TOP, word))?;
        self.check_root_body(area, nesting)
    }

    /// Checks what hangs on a root word of any kind, which is visited.
    #[cold]
    #[tactic(auto, unfolding(crate::specs::Reading::root_of))]
    fn check_any_root(&mut self, nesting: u32) -> Result<Area, TreeFault>
        requires exists { 0 < length self.old.segments.now }
        requires some { (length (segment (words_of self.old.segments.now) 0) == 0) ≡ false }
        ensures fault { IfErr result (λ e. root_in nesting self.old ≡ Err e) }
        ensures read { IfOk result (λ a. IsRootArea nesting self.old.budget (words_of self.old.segments.now) a) }
        ensures small { IfOk result (λ a. a.start + body_words a.form < 2 ^ 63) }
        ensures exact { IfOk result (λ a. (t : Node) → root_in nesting self.old ≡ Ok t → self.new.visits.now ≡ self.old.visits.now + pointers t) }
        ensures few { self.new.visits.now ≤ self.old.visits.now + self.old.budget }
        ensures lent { self.new.visits.ghost_name ≡ self.old.visits.ghost_name }
    {
        match pointer_at(self.segments, TOP) {
            None => Err(TreeFault::BadCapability(TOP)),
            Some(Pointer::Null) => Err(TreeFault::NoRoot(TOP)),
            Some(Pointer::Cap(_)) => Err(TreeFault::RootKind(TOP)),
            Some(pointer) => {
                let target = target_of(self.segments, TOP, pointer)?;
                // The kind before the bounds: G2 says what the root's pointer says, wherever its body lies.
                let BodyKind::Struct { .. } = target.kind else {
                    return Err(TreeFault::RootKind(TOP));
                };
                let area = area_of(self.segments, TOP, target)?;
                self.check_root_body(area, nesting)
            }
        }
    }

    /// Checks the root struct's body and what hangs on it.
    #[inline(always)]
    fn check_root_body(&mut self, area: Area, nesting: u32) -> Result<Area, TreeFault>
        requires within { IsWithin (words_of self.old.segments.now) area }
        requires small { area.start + body_words area.form < 2 ^ 63 }
        requires root { root_in nesting self.old ≡ root_read nesting self.old.budget (words_of self.old.segments.now) area }
        ensures fault { IfErr result (λ e. root_in nesting self.old ≡ Err e) }
        ensures read { IfOk result (λ a. IsRootArea nesting self.old.budget (words_of self.old.segments.now) a) }
        ensures small { IfOk result (λ a. a.start + body_words a.form < 2 ^ 63) }
        ensures exact { IfOk result (λ a. (t : Node) → root_in nesting self.old ≡ Ok t → self.new.visits.now ≡ self.old.visits.now + pointers t) }
        ensures few { self.new.visits.now ≤ self.old.visits.now + self.old.budget }
        ensures lent { self.new.visits.ghost_name ≡ self.old.visits.ghost_name }
    {
        self.check_body(TOP, area, nesting)?;
        Ok(area)
    }

    /// Checks a body and what hangs on it.
    #[cycle(check)]
    #[inline(always)]
    pub(crate) fn check_body(&mut self, at: Place, area: Area, depth: u32) -> Result<(), TreeFault>
        requires within { IsWithin (words_of self.old.segments.now) area }
        requires small { area.start + body_words area.form < 2 ^ 63 }
        ensures reports { GoesOver pointers (body_at at area depth) self.old result self.new }
        ensures few { self.new.visits.now + self.new.budget ≤ self.old.visits.now + self.old.budget }
        ensures same { self.new.segments ≡ self.old.segments }
        ensures lent { self.new.visits.ghost_name ≡ self.old.visits.ghost_name }
    {
        // Charged before its parts are read, so that no more than the limit is gone over.
        charge(at, depth, area.form.price(), &mut self.budget)?;
        self.check_parts(area, depth - 1)
    }

    /// Checks the pointers of a body.
    #[cycle(check)]
    #[inline(always)]
    fn check_parts(&mut self, area: Area, depth: u32) -> Result<(), TreeFault>
        requires within { IsWithin (words_of self.old.segments.now) area }
        requires small { area.start + body_words area.form < 2 ^ 63 }
        ensures reports { GoesOver pointers (parts_at area depth) self.old result self.new }
        ensures few { self.new.visits.now + self.new.budget < self.old.visits.now + price area.form + self.old.budget }
        ensures same { self.new.segments ≡ self.old.segments }
        ensures lent { self.new.visits.ghost_name ≡ self.old.visits.ghost_name }
    {
        let first = Place {
            segment: area.segment,
            word: area.start,
        };
        match area.form {
            Form::Struct { words, ptrs } => {
                let first = Place {
                    segment: area.segment,
                    word: area.start + words as usize,
                };
                self.check_ptrs(first, ptrs as usize, depth)
            }
            Form::List {
                size: ElementSize::Pointer,
                count,
            } => self.check_ptrs(first, count as usize, depth),
            Form::List { .. } => Ok(()),
            Form::Structs { words, ptrs, count } => {
                self.check_elements(first, words, ptrs, count, depth)
            }
        }
    }

    /// Checks the pointer words from `first` on, if there are any.
    #[cycle(check)]
    #[inline(always)]
    fn check_ptrs(&mut self, first: Place, count: usize, depth: u32) -> Result<(), TreeFault>
        requires exists { first.segment < length self.old.segments.now }
        requires within { first.word + count ≤ length (segment (words_of self.old.segments.now) first.segment) }
        requires small { first.word + count < 2 ^ 63 }
        ensures reports { GoesOver pointers_of_row (row_at first count depth) self.old result self.new }
        ensures few { self.new.visits.now + self.new.budget ≤ self.old.visits.now + count + self.old.budget }
        ensures same { self.new.segments ≡ self.old.segments }
        ensures lent { self.new.visits.ghost_name ≡ self.old.visits.ghost_name }
    {
        if count == 0 {
            return Ok(());
        }
        self.check_row(first, count, depth)
    }

    /// Checks the pointers of a composite list's elements.
    #[cycle(check)]
    fn check_elements(
        &mut self,
        first: Place,
        words: u16,
        ptrs: u16,
        count: u32,
        depth: u32,
    ) -> Result<(), TreeFault>
        requires exists { first.segment < length self.old.segments.now }
        requires within { first.word + count * (words + ptrs) ≤ length (segment (words_of self.old.segments.now) first.segment) }
        requires small { first.word + count * (words + ptrs) < 2 ^ 63 }
        ensures reports { GoesOver pointers_of_bodies (elements_at first words ptrs count depth) self.old result self.new }
        ensures few { self.new.visits.now + self.new.budget ≤ self.old.visits.now + count * (words + ptrs) + self.old.budget }
        ensures same { self.new.segments ≡ self.old.segments }
        ensures lent { self.new.visits.ghost_name ≡ self.old.visits.ghost_name }
    {
        // Nothing hangs on such elements, however many there are.
        if ptrs == 0 {
            return Ok(());
        }
        let mut start = first.word;
        for i in 0..count {
            let row = Place {
                segment: first.segment,
                word: start + words as usize,
            };
            self.check_words(row, ptrs as usize, depth)?;
            start = row.word + ptrs as usize;
        }
        Ok(())
    }

    /// Checks the pointer words from `first` on.
    #[cycle(check)]
    fn check_row(&mut self, first: Place, count: usize, depth: u32) -> Result<(), TreeFault>
        requires exists { first.segment < length self.old.segments.now }
        requires within { first.word + count ≤ length (segment (words_of self.old.segments.now) first.segment) }
        requires small { first.word + count < 2 ^ 63 }
        ensures reports { GoesOver pointers_of_row (row_at first count depth) self.old result self.new }
        ensures few { self.new.visits.now + self.new.budget ≤ self.old.visits.now + count + self.old.budget }
        ensures same { self.new.segments ≡ self.old.segments }
        ensures lent { self.new.visits.ghost_name ≡ self.old.visits.ghost_name }
    {
        self.check_words(first, count, depth)
    }

    /// Checks the pointer words from `first` on. The elements of a list are checked without a call for each.
    #[cycle(check)]
    #[inline(always)]
    fn check_words(&mut self, first: Place, count: usize, depth: u32) -> Result<(), TreeFault>
        requires exists { first.segment < length self.old.segments.now }
        requires within { first.word + count ≤ length (segment (words_of self.old.segments.now) first.segment) }
        requires small { first.word + count < 2 ^ 63 }
        ensures reports { GoesOver pointers_of_row (row_at first count depth) self.old result self.new }
        ensures few { self.new.visits.now + self.new.budget ≤ self.old.visits.now + count + self.old.budget }
        ensures same { self.new.segments ≡ self.old.segments }
        ensures lent { self.new.visits.ghost_name ≡ self.old.visits.ghost_name }
    {
        // Sliced once, so that the loop tests no bound.
        let words = &segment_at(self.segments, first.segment)[first.word..first.word + count];
        for (i, word) in words.iter().enumerate() {
            let at = Place {
                segment: first.segment,
                word: first.word + i,
            };
            self.check_word(at, *word, depth)?;
        }
        Ok(())
    }

    /// Checks what hangs on one pointer word.
    #[cycle(check)]
    #[inline(always)]
    fn check_word(&mut self, at: Place, word: u64, depth: u32) -> Result<(), TreeFault>
        requires exists { at.segment < length self.old.segments.now }
        requires word_is { word ≡ slice_index (segment (words_of self.old.segments.now) at.segment) at.word }
        requires small { at.word < 2 ^ 63 }
        ensures reports { GoesOverWord (word_at at depth) self.old result self.new }
        ensures few { self.new.visits.now + self.new.budget ≤ self.old.visits.now + 1 + self.old.budget }
        ensures same { self.new.segments ≡ self.old.segments }
        ensures lent { self.new.visits.ghost_name ≡ self.old.visits.ghost_name }
    {
        self.visits.tick();
        if word == 0 {
            return Ok(());
        }
        // Near pointers are nearly all, and need no full decoding.
        match word % 4 {
            0 => {
                let area = area_of(self.segments, at, struct_target(at, word))?;
                self.check_body(at, area, depth)
            }
            1 => {
                let area = area_of(self.segments, at, list_target(at, word))?;
                self.check_body(at, area, depth)
            }
            _ => self.check_any(at, word, depth),
        }
    }

    /// Checks what hangs on one pointer word of any kind, which is visited.
    #[cycle(check)]
    #[cold]
    fn check_any(&mut self, at: Place, word: u64, depth: u32) -> Result<(), TreeFault>
        requires exists { at.segment < length self.old.segments.now }
        requires word_is { word ≡ slice_index (segment (words_of self.old.segments.now) at.segment) at.word }
        requires small { at.word < 2 ^ 63 }
        ensures reports { GoesOver pointers (word_at at depth) self.old result self.new }
        ensures few { self.new.visits.now + self.new.budget ≤ self.old.visits.now + self.old.budget }
        ensures same { self.new.segments ≡ self.old.segments }
        ensures lent { self.new.visits.ghost_name ≡ self.old.visits.ghost_name }
    {
        match pointer_in(word) {
            None => Err(TreeFault::BadCapability(at)),
            Some(Pointer::Null | Pointer::Cap(_)) => Ok(()),
            Some(pointer) => {
                let target = target_of(self.segments, at, pointer)?;
                let area = area_of(self.segments, at, target)?;
                self.check_body(at, area, depth)
            }
        }
    }
}

/// The root's body of a message of numbers alone, such as a Finish or a Release: its pointer words are always the same, so
/// all that hangs on it is told at one look.
#[inline(always)]
fn small_root(segments: &[Vec<u64>], nesting: u32, budget: u64) -> Option<Area>
    requires { 0 < length segments.now }
    ensures read { IfSome result (λ a. IsRootArea nesting budget (words_of segments.now) a) }
    ensures small { IfSome result (λ a. a.start + body_words a.form < 2 ^ 63) }
    ensures below { IfSome result (λ _. (t : Node) → root_of nesting budget (words_of segments.now) ≡ Ok t → pointers t ≡ 1) }
    ensures paid { IfSome result (λ _. 0 < budget) }
{
    let words = segment_at(segments, 0);
    if nesting < 2 || budget < 5 || words.len() < 4 {
        return None;
    }
    if words[0] != ROOT_WORD || words[2] != LEAF_WORD {
        return None;
    }
    Some(Area {
        form: Form::Struct { words: 1, ptrs: 1 },
        segment: 0,
        start: 1,
    })
}

/// Charges a body for its level, of which `depth` are left, and for its price.
#[inline(always)]
fn charge(at: Place, depth: u32, price: u64, budget: &mut u64) -> Result<(), TreeFault>
    ensures paid { IfOk result (λ _. budget_after at depth price budget.old ≡ Ok budget.new) }
    ensures cost { OnOk result (budget.new + price ≡ budget.old) }
    ensures deep { IfOk result (λ _. 0 < depth) }
    ensures refused { IfErr result (λ e. budget_after at depth price budget.old ≡ Err e) }
    ensures kept { OnErr result (budget.new ≡ budget.old) }
{
    // The level before the price: at one pointer word G8 is reported before G9.
    if depth == 0 {
        return Err(TreeFault::NestingLimit(at));
    }
    if *budget < price {
        return Err(TreeFault::TraversalLimit(at));
    }
    *budget -= price;
    Ok(())
}
