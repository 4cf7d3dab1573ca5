//! Numbers in a list.

ghost use Rattle.std.specs.Prelude.{◌≡◌, ◌≢◌, ◌∷◌, ◌++◌, [], true, false, IfOk, OnOk, OnErr};
ghost use Rattle.cp_objects.specs.Counts.{those_in, times};
ghost use Rattle.cp_objects.specs.Numbers.{is_among, local_in, without, without_each};

use cp_refs::{Cap, Caps};
use cp_vat_machine::Ids;
use std::alloc::{AllocError, Global};
use std::marker::Model;

/// Numbers of objects or imports, each as often as it was added.
pub(crate) struct Numbers {
    numbers: Vec<u32>,
}

// Not derived: a function that lets one go calls this one, and need not prove the drop of what it holds.
impl Drop for Numbers {
    fn drop(self) {
        let Numbers { numbers: _ } = self;
    }
}

impl Model for Numbers {
    ghost use Rattle.std.specs.Prelude.{ℕ, List};

    ghost Value = { List ℕ };

    ghost view = { λ n. n.numbers.items };
}

impl Numbers {
    /// None.
    pub(crate) fn new(alloc: Global) -> Numbers
        ensures { result ≡ [] }
    {
        Numbers {
            numbers: Vec::new(alloc),
        }
    }

    /// The objects and promises of this end that a table names, as objects see it.
    pub(crate) fn local_in(alloc: Global, caps: &Caps) -> Result<Numbers, AllocError>
        ensures { IfOk result (λ named. named ≡ local_in caps.now) }
    {
        let mut named = Numbers::new(alloc);
        for cap in caps.caps() {
            if let Cap::Object(number) = cap {
                named.add(*number)?;
            }
        }
        Ok(named)
    }

    /// Whether there is none.
    pub(crate) fn is_empty(&self) -> bool
        ensures none { result ≡ true → self.now ≡ [] }
        ensures some { result ≡ false → self.now ≢ [] }
    {
        self.numbers.is_empty()
    }

    /// The numbers, lent.
    pub(crate) fn numbers(&self) -> &[u32]
        ensures { result.now ≡ self.now }
    {
        &self.numbers
    }

    /// The numbers themselves.
    pub(crate) fn into_ids(self) -> Ids
        ensures { result ≡ self }
    {
        let Numbers { numbers } = self;
        Ids::new(numbers)
    }

    /// Whether this is one of them.
    pub(crate) fn contains(&self, number: u32) -> bool
        ensures { result ≡ is_among number self.now }
    {
        self.numbers.contains(&number)
    }

    /// How often this is one of them.
    pub(crate) fn times(&self, number: u32) -> usize
        ensures { result ≡ times number self.now }
    {
        times(number, &self.numbers)
    }

    /// Those of other numbers that are among them, each as often as it is at most.
    pub(crate) fn those_of(&self, alloc: Global, others: &[u32]) -> Result<Ids, AllocError>
        ensures { IfOk result (λ found. found ≡ those_in others.now self.now) }
    {
        let mut found = Vec::new(alloc);
        for other in others {
            if times(*other, &found) < times(*other, &self.numbers) {
                found.push(*other)?;
            }
        }
        Ok(Ids::new(found))
    }

    /// One more.
    pub(crate) fn add(&mut self, number: u32) -> Result<(), AllocError>
        ensures added { OnOk result (self.new ≡ self.old ++ number ∷ []) }
        ensures err { OnErr result (self.new ≡ self.old) }
    {
        self.numbers.push(number)?;
        Ok(())
    }

    /// These more.
    pub(crate) fn add_each(&mut self, numbers: &[u32]) -> Result<(), AllocError>
        ensures added { OnOk result (self.new ≡ self.old ++ numbers.now) }
        ensures err { OnErr result (self.new ≡ self.old) }
    {
        self.numbers.extend_from_slice(numbers)?;
        Ok(())
    }

    /// The first that is this number goes.
    pub(crate) fn remove(&mut self, number: u32)
        ensures { self.new ≡ without number self.old }
    {
        remove_first(&mut self.numbers, number);
    }

    /// The first of each of these goes.
    pub(crate) fn remove_each(&mut self, numbers: &[u32])
        ensures { self.new ≡ without_each numbers.now self.old }
    {
        remove_each(&mut self.numbers, numbers);
    }
}

/// How often a number is one of these.
fn times(number: u32, numbers: &[u32]) -> usize
    ensures { result ≡ times number numbers.now }
{
    let mut count = 0;
    for other in numbers {
        if *other == number {
            count += 1;
        }
    }
    count
}

/// The first of these numbers that is this one goes.
fn remove_first(numbers: &mut Vec<u32>, number: u32)
    ensures { numbers.new.items ≡ without number numbers.old.items }
{
    for place in 0..numbers.len() {
        if numbers[place] == number {
            let _ = numbers.remove(place);
            return;
        }
    }
}

/// The first of these numbers goes that is each of those.
fn remove_each(numbers: &mut Vec<u32>, others: &[u32])
    ensures { numbers.new.items ≡ without_each others.now numbers.old.items }
{
    for other in others {
        remove_first(numbers, *other);
    }
}
