// A table whose order its type tells.
ghost use Rattle.std.specs.Prelude.{◌≡◌, ◌≤◌, false, length, take, is_ok, if◌then◌else◌, Some, None};
ghost use Rattle.order.specs.Rank.{InOrder, at};
ghost use Rattle.order.specs.Placed.{Settled};

use crate::filled::FilledTable;
use crate::search::Sorted;
use crate::{Full, insert_row};
use order::Row;

// A `Table` whose used rows are in order and lie within its slice. So its calls promise outright what those of a `Table` promise of such rows.
#[derive(Drop)]
pub struct OrderedTable<'t, R: Row> {
    pub rows: &'t mut [R],
    pub count: usize,
    ghost few: { count ≤ length rows.now },
    ghost ordered: { InOrder R.Row.rank (take count rows.now) },
}

impl<'t, R: Row + Copy> OrderedTable<'t, R> {
    ghost use Rattle.table.specs.Slice.{SameOrdered};

    pub fn over(rows: &'t mut [R]) -> OrderedTable<'t, R>
        ensures count { result.count ≡ 0 }
        ensures rows { result.rows.now ≡ rows.old }
        ensures lender { result.rows.ghost_name ≡ rows.entry.ghost_name }
    {
        OrderedTable { rows, count: 0 }
    }

    pub fn insert(&mut self, row: R) -> Result<(), Full>
        ensures outcome { Settled R.Row.rank R.Row.meets self.old.rows.now self.old.count row (if is_ok result then Some self.new.count else None) self.new.rows.now }
        ensures full { is_ok result ≡ false → self.new.count ≡ self.old.count }
        ensures slice { SameOrdered self.old self.new }
    {
        self.count = insert_row(self.rows, self.count, row).ok_or(Full)?;
        Ok(())
    }

    pub fn find(&self, row: &R) -> Option<R>
        ensures { result ≡ at R.Row.rank (R.Row.rank row.now) (take self.now.count self.now.rows.now) }
    {
        self.used().find(row)
    }

    pub fn used(&self) -> Sorted<'_, R>
        ensures { result.rows.now ≡ take self.now.count self.now.rows.now }
    {
        Sorted {
            rows: &self.rows[..self.count],
        }
    }

    // The table as it stands, from now on only to be read.
    pub fn freeze(self) -> FilledTable<'t, R>
        ensures rows { result.rows.now ≡ self.entry.rows.now }
        ensures count { result.count ≡ self.entry.count }
    {
        let OrderedTable { rows, count } = self;
        FilledTable { rows, count }
    }
}
