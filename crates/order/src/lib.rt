// Rows with a total order, and what stands between a start and an end.
#![tactic(auto)]

ghost use Rattle.std.specs.Prelude.{◌≡◌, ℕ, List};
ghost use Rattle.order.specs.Rank.{Compared};
ghost use Rattle.order.specs.declared.Meeting.{Meeting};

use std::cmp::Ordering;

// What becomes of a row when a newer one of the same rank comes into its table.
#[derive(Clone, Copy)]
pub enum Meeting {
    // it stays, and the newer one is let go
    Stays,
    // the newer one takes its place
    GivesWay,
    // both stand
    Both,
}

// A row of an ordered table. Its rank is a list of numbers, and rows stand in the dictionary order of their ranks.
pub trait Row {
    ghost rank: { Self → List ℕ };

    ghost meets: { Self → Self → Meeting };

    fn compare(&self, other: &Self) -> Ordering
        ensures { Compared result (rank self.now) (rank other.now) };

    fn meet(&self, newer: &Self) -> Meeting
        ensures { result ≡ meets self.now newer.now };
}

// Something that reaches from a number up to another, which it does not contain.
pub trait Span {
    ghost low: { Self → ℕ };

    ghost high: { Self → ℕ };

    fn start(&self) -> u64
        ensures { result ≡ low self.now };

    fn end(&self) -> u64
        ensures { result ≡ high self.now };
}
