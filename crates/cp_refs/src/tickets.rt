//! Sets of tickets, of which the lowest is at hand.

ghost use Rattle.std.specs.Prelude.{◌≡◌, ◌≤◌, ◌∷◌, ◌||◌, ℕ, true, false, IsTrue, IfSome, IfNone, OnOk, OnErr};
ghost use Rattle.std.specs.FinSet as set;

use std::alloc::{AllocError, Global};
use std::cmp::Reverse;
use std::collections::BinaryHeap;
use std::marker::Model;

/// A set of tickets, of which the lowest is at hand. Contracts see it as that set.
#[derive(Drop)]
pub(crate) struct Tickets {
    /// `Reverse`, since a heap gives its greatest.
    heap: BinaryHeap<Reverse<u64>>,
}

impl Model for Tickets {
    ghost use Rattle.std.specs.FinSet as set;
    ghost use Rattle.std.specs.Ordering.{nat_cmp};
    ghost use Rattle.std.specs.Coded.{coded_ℕ};
    ghost use Rattle.std.specs.BinaryHeap.{heap_items};
    ghost use Rattle.cp_refs.specs.Tickets.{AreTickets, tickets_of};

    ghost Value = { set.FinSet nat_cmp };

    ghost coded = { set.code coded_ℕ };

    ghost view = { λ t. set.from_list (tickets_of (heap_items t.heap)) };

    ghost invariant = { λ t. AreTickets (heap_items t.heap) };
}

impl Tickets {
    pub(crate) fn new(alloc: Global) -> Tickets
        ensures { result ≡ set.empty }
    {
        Tickets {
            heap: BinaryHeap::new(alloc),
        }
    }

    /// Puts in a ticket that isn't in the set.
    pub(crate) fn insert(&mut self, ticket: u64) -> Result<(), AllocError>
        requires { set.contains self.old ticket ≡ false }
        ensures put { OnOk result (self.new ≡ set.insert self.old ticket) }
        ensures err { OnErr result (self.new ≡ self.old) }
    {
        self.heap.push(Reverse(ticket))?;
        Ok(())
    }

    /// Moves the tickets of another set here. None is in both.
    pub(crate) fn append(&mut self, other: &mut Tickets) -> Result<(), AllocError>
        requires { (t : ℕ) → IsTrue (set.contains self.old t) → set.contains other.old t ≡ false }
        ensures joined { OnOk result ((t : ℕ) → set.contains self.new t ≡ (set.contains self.old t || set.contains other.old t)) }
        ensures err { OnErr result (self.new ≡ self.old) }
        ensures other_err { OnErr result (other.new ≡ other.old) }
    {
        self.heap.append(&mut other.heap)?;
        Ok(())
    }

    /// Takes out the lowest ticket.
    pub(crate) fn pop(&mut self) -> Option<u64>
        ensures taken { IfSome result (λ t. (set.contains self.old t ≡ true) × (self.new ≡ set.remove self.old t)) }
        ensures lowest { IfSome result (λ t. (other : ℕ) → IsTrue (set.contains self.old other) → t ≤ other) }
        ensures none { IfNone result (self.old ≡ set.empty) }
        ensures unchanged { IfNone result (self.new ≡ self.old) }
    {
        let Reverse(ticket) = self.heap.pop()?;
        Some(ticket)
    }
}
