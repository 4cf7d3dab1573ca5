//! How deep a tree that is read in place nests, and what it costs.

ghost use Rattle.std.specs.Prelude.{◌≡◌, ◌<◌, ◌≤◌, Decides};
ghost use Rattle.cp_tree.specs.Node.{depth, cost};

use crate::check::{Checker, TOP};
use crate::view::{View, Viewed};
use crate::visits::Visits;
use std::marker::Brand;
use std::sync::ledger::{Blank, Ledger};

impl<'a> View<'a> {
    ghost use Rattle.std.specs.Prelude.{◌≤◌, Decides};
    ghost use Rattle.cp_tree.specs.Node.{depth, cost};

    /// Whether the tree's depth and cost are no more than this. It is gone over until one of them is
    /// passed, without taking memory.
    pub fn fits(&self, nesting: u32, traversal: u64) -> bool
        ensures { Decides result ((depth self.now ≤ nesting) × (cost self.now ≤ traversal)) }
    {
        fits_uncounted::<Brand>(self, nesting, traversal, Blank::new(1))
    }
}

/// The same, by a count that is dropped.
fn fits_uncounted<L: Ledger>(view: &View, nesting: u32, traversal: u64, blank: Blank) -> bool
    requires name { blank.name ≡ L.name }
    requires parts { blank.parts ≡ L.parts }
    requires some { 0 < blank.parts }
    ensures { Decides result ((depth view.now ≤ nesting) × (cost view.now ≤ traversal)) }
{
    let (segments, part) = view.place();
    let Viewed::Body(area) = part else {
        return true;
    };
    let mut visits = Visits::<L>::new(blank);
    let mut checker = Checker {
        segments,
        budget: traversal,
        visits: &mut visits,
    };
    // The place would only be named by a fault, which is dropped here.
    checker.check_body(TOP, area, nesting).is_ok()
}
