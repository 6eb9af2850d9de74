// A table that is only read.
ghost use Rattle.std.specs.Prelude.{◌≡◌, ◌≤◌, [], length, take};
ghost use Rattle.order.specs.Rank.{InOrder};

use crate::search::Sorted;
use order::Row;

// The first `count` rows are used, and in order. The rows past them belong to what building promises of the slice.
#[derive(Drop)]
pub struct FilledTable<'a, R: Row> {
    pub rows: &'a [R],
    pub count: usize,
    ghost few: { count ≤ length rows.now },
    ghost ordered: { InOrder R.Row.rank (take count rows.now) },
}

impl<'a, R: Row> FilledTable<'a, R> {
    pub fn empty() -> FilledTable<'a, R>
        ensures rows { result.rows.now ≡ [] }
        ensures count { result.count ≡ 0 }
    {
        FilledTable {
            rows: &[],
            count: 0,
        }
    }

    pub fn used(&self) -> Sorted<'a, R>
        ensures { result.rows.now ≡ take self.now.count self.now.rows.now }
    {
        Sorted {
            rows: &self.rows[..self.count],
        }
    }
}
