//! Counting the pointer words that reading visits.

ghost use Rattle.std.specs.Prelude.{◌≡◌, ◌+◌, ◌<◌};

use std::marker::Model;
use std::sync::ledger::{Blank, Book, Ledger, Share};

/// How many pointer words were visited. Contracts see it as that number. It takes no bytes, and its
/// ticks do nothing at run time.
#[derive(Drop)]
pub struct Visits<L: Ledger> {
    book: Book<L>,
    share: Share<L>,
}

impl<L: Ledger> Model for Visits<L> {
    ghost use Rattle.std.specs.Prelude.{ℕ, ◌<◌};

    ghost Value = { ℕ };

    ghost view = { λ v. v.book.total };

    ghost invariant = { λ v. 0 < v.share.parts };
}

impl<L: Ledger> Visits<L> {
    /// No word was visited yet. `blank` names the ledger that counts.
    /// The toolchain has counts that take no bytes only in this form.
    pub fn new(blank: Blank) -> Visits<L>
        requires name { blank.name ≡ L.name }
        requires parts { blank.parts ≡ L.parts }
        requires some { 0 < blank.parts }
        ensures { result ≡ 0 }
    {
        let (book, share) = blank.open::<L>();
        Visits { book, share }
    }

    /// One more pointer word is visited.
    pub(crate) fn tick(&mut self)
        ensures { self.new ≡ self.old + 1 }
    {
        self.book.add(&mut self.share, 1);
    }
}
