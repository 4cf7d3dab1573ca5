//! How deep a tree nests, and what it costs.

ghost use Rattle.std.specs.Prelude.{◌≡◌, ◌≤◌, ◌+◌, ◌*◌, Decides};
ghost use Rattle.std.specs.Bool.{OnTrue};
ghost use Rattle.cp_tree.specs.Lent.{node_in, row_in, bodies_in};
ghost use Rattle.cp_tree.specs.Node.{depth, greatest_depth, deepest_body, cost, total_cost};
ghost use Rattle.cp_tree.specs.NodeOf.{node_of, nodes_of, bodies_of};
ghost use Rattle.cp_tree.specs.Spent.{elements_cost, spent};

use crate::lent::{BodiesRef, RowRef, Top, TreeRef};
use crate::tree::Tree;

/// Whether the tree's depth and cost are no more than this. No level below that depth is looked at.
pub fn fits(tree: &Tree, nesting: u32, traversal: u64) -> bool
    ensures { Decides result ((depth (node_of tree.now) ≤ nesting) × (cost (node_of tree.now) ≤ traversal)) }
{
    let mut budget = Some(traversal);
    nests(TreeRef::Tree(tree), nesting, &mut budget) && budget.is_some()
}

/// Whether bodies nest no deeper than this many levels, and then what the tree leaves of a limit on
/// cost.
#[cycle(measure)]
pub fn nests(tree: TreeRef, levels: u32, budget: &mut Option<u64>) -> bool
    ensures deep { Decides result (depth (node_in tree.entry) ≤ levels) }
    ensures budget { OnTrue result (budget.new ≡ spent budget.old (cost (node_in tree.entry))) }
{
    match tree.top() {
        Top::Null | Top::Cap(_) => true,
        Top::List(list) => {
            spend(budget, 1 + list.words());
            levels > 0
        }
        Top::Struct(body) => {
            spend(budget, 1 + body.words.len() as u64 + body.ptrs.len() as u64);
            levels > 0 && row_nests(body.ptrs, levels - 1, budget)
        }
        Top::Ptrs(row) => {
            spend(budget, 1 + row.len() as u64);
            levels > 0 && row_nests(row, levels - 1, budget)
        }
        Top::Structs(list) => {
            // The list's own level, and its tag; elements are charged one by one.
            spend(budget, 2);
            // One more than its words, so that many elements of size zero cost something.
            let price = 1 + list.words as u64 + list.ptrs as u64;
            levels > 0 && bodies_nest(list.items, price, levels - 1, budget)
        }
    }
}

/// The same of each of the trees.
#[cycle(measure)]
fn row_nests(trees: RowRef, levels: u32, budget: &mut Option<u64>) -> bool
    ensures deep { Decides result (greatest_depth (nodes_of (row_in trees.entry)) ≤ levels) }
    ensures budget { OnTrue result (budget.new ≡ spent budget.old (total_cost (nodes_of (row_in trees.entry)))) }
{
    for tree in trees {
        if !nests(tree, levels, budget) {
            return false;
        }
    }
    true
}

/// The same of a composite list's elements, each of which costs this much without its trees.
#[cycle(measure)]
fn bodies_nest(bodies: BodiesRef, price: u64, levels: u32, budget: &mut Option<u64>) -> bool
    ensures deep { Decides result (deepest_body (bodies_of (bodies_in bodies.entry)) ≤ levels) }
    ensures budget { OnTrue result (budget.new ≡ spent budget.old (elements_cost (bodies_of (bodies_in bodies.entry)) price)) }
{
    for body in bodies {
        spend(budget, price);
        if !row_nests(body.ptrs, levels, budget) {
            return false;
        }
    }
    true
}

/// Takes a price from what is left of a limit. Nothing is left any more where it passes that.
#[tactic(auto, unfolding(crate::specs::Spent::spent))]
#[inline(always)]
fn spend(budget: &mut Option<u64>, price: u64)
    ensures { budget.new ≡ spent budget.old price }
{
    // A walk goes on past the limit on cost: a tree that is also too deep is reported as too deep.
    if let Some(rest) = *budget {
        *budget = if price <= rest {
            Some(rest - price)
        } else {
            None
        };
    }
}
