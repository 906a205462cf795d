ghost use Rattle.std.specs.Prelude.{◌≡◌, ◌+◌, ◌<◌, min};

use std::marker::Model;
use std::sync::ledger::{Blank, Book, Ledger, Share};

/// How many steps were taken. A contract sees the count, and only `tick` changes it. At run time
/// the count is kept in 64 bits, for tests: past 2^64 - 1 it stays there. One is made by
/// `fresh_steps` alone, which only crates can call that list this one.
#[derive(Drop)]
pub struct Steps<L: Ledger> {
    book: Book<L>,
    share: Share<L>,
    count: u64,
}

impl<L: Ledger> Model for Steps<L> {
    ghost use Rattle.std.specs.Prelude.{◌≡◌, ℕ, ◌<◌, min};

    ghost Value = { ℕ };

    ghost view = { λ s. s.book.total };

    ghost invariant = { λ s. (0 < s.share.parts)
        × (s.count ≡ min s.book.total 18446744073709551615) };
}

/// A counter that no step was counted in, made of a blank of the ledger (`Blank::new(1)` at `Brand`
/// where nobody else counts).
pub fn fresh_steps<L: Ledger>(blank: Blank) -> Steps<L>
    requires name { blank.name ≡ L.name }
    requires parts { blank.parts ≡ L.parts }
    requires some { 0 < blank.parts }
    ensures { result ≡ 0 }
{
    let (book, share) = blank.open::<L>();
    Steps {
        book,
        share,
        count: 0,
    }
}

impl<L: Ledger> Steps<L> {
    /// Counts one step more. It takes no memory.
    pub fn tick(&mut self)
        ensures { self.new ≡ self.old + 1 }
    {
        self.book.add(&mut self.share, 1);
        self.count = self.count.saturating_add(1);
    }

    /// How many steps were counted, or 2^64 - 1 where there were more.
    pub fn count(&self) -> u64
        ensures { result ≡ min self.now 18446744073709551615 }
    {
        self.count
    }
}
