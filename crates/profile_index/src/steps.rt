ghost use Rattle.std.specs.Prelude.{◌≡◌, ◌+◌, ◌<◌};

use std::marker::Model;
use std::sync::ledger::{Book, Ledger, Share};

/// How many comparisons of names were made. It takes no bytes, and counting no time.
#[derive(Drop)]
pub struct Steps<L: Ledger> {
    /// The book in which comparisons are counted.
    book: Book<L>,
    /// The share of the book that is this count.
    share: Share<L>,
}

impl<L: Ledger> Model for Steps<L> {
    ghost use Rattle.std.specs.Prelude.{ℕ, ◌<◌};

    ghost Value = { ℕ };

    ghost view = { λ s. s.book.total };

    ghost invariant = { λ s. 0 < s.share.parts };
}

impl<L: Ledger> Steps<L> {
    /// A counter over a ledger and a share in it.
    pub fn new(book: Book<L>, share: Share<L>) -> Steps<L>
        requires { 0 < share.parts }
        ensures { result ≡ book.total }
    {
        Steps { book, share }
    }

    /// Counts one comparison.
    pub fn tick(&mut self)
        ensures { self.new ≡ self.old + 1 }
    {
        self.book.add(&mut self.share, 1);
    }
}
