// The ordered table, over a slice that somebody lends, and containment.
#![tactic(auto)]

ghost use Rattle.std.specs.Prelude.{◌≡◌, ◌+◌, ◌<◌, ◌≤◌, false, ◌++◌, length, take, drop, is_ok, if◌then◌else◌, Some, None, nat_lt};
ghost use Rattle.std.specs.List.{insert};
ghost use Rattle.order.specs.Rank.{InOrder, at};
ghost use Rattle.order.specs.Placed.{Settled};

mod filled;
mod ordered;
mod search;
mod span;

pub use filled::FilledTable;
use order::{Meeting, Row};
pub use ordered::OrderedTable;
use search::meeting;
pub use search::{Sorted, find, position, reach};
pub use span::contains;

// No row of the table is free.
#[derive(Clone, Copy, Debug, PartialEq, Eq)]
pub struct Full;

// The first `count` rows are used. They are in order if every row came by `insert`. The slice is somebody's and stays as long as it is: there
// is no heap.
#[derive(Drop)]
pub struct Table<'t, R> {
    pub rows: &'t mut [R],
    pub count: usize,
}

impl<'t, R: Row + Copy> Table<'t, R> {
    ghost use Rattle.table.specs.Slice.{SameSlice};

    // An empty table: what the rows hold is left until a row takes their place.
    pub fn over(rows: &'t mut [R]) -> Table<'t, R>
        ensures count { result.count ≡ 0 }
        ensures rows { result.rows.now ≡ rows.old }
        ensures lender { result.rows.ghost_name ≡ rows.entry.ghost_name }
    {
        Table { rows, count: 0 }
    }

    // Puts `row` in its place. Where a row of its rank stands, `meet` decides. A count above the slice's length counts as that length.
    pub fn insert(&mut self, row: R) -> Result<(), Full>
        ensures outcome { InOrder R.Row.rank (take self.old.count self.old.rows.now) → Settled R.Row.rank R.Row.meets self.old.rows.now self.old.count row (if is_ok result then Some self.new.count else None) self.new.rows.now }
        ensures full { is_ok result ≡ false → self.new.count ≡ self.old.count }
        ensures slice { SameSlice self.old self.new }
    {
        self.count = insert_row(self.rows, self.count, row).ok_or(Full)?;
        Ok(())
    }

    // The used row of the rank of `row`, where one stands.
    pub fn find(&self, row: &R) -> Option<R>
        ensures { InOrder R.Row.rank (take self.now.count self.now.rows.now) → result ≡ at R.Row.rank (R.Row.rank row.now) (take self.now.count self.now.rows.now) }
    {
        find(self.used(), row)
    }

    pub fn used(&self) -> &[R]
        ensures { result.now ≡ take self.now.count self.now.rows.now }
    {
        &self.rows[..self.count.min(self.rows.len())]
    }
}

// The number of used rows afterwards, or none where no row is free.
fn insert_row<R: Row + Copy>(rows: &mut [R], count: usize, row: R) -> Option<usize>
    ensures { InOrder R.Row.rank (take count rows.old) → Settled R.Row.rank R.Row.meets rows.old count row result rows.new }
{
    let used = count.min(rows.len());
    let place = position(&rows[..used], &row);
    match meeting(&rows[..used], place, &row) {
        Meeting::Stays => Some(used),
        Meeting::GivesWay => {
            rows[place] = row;
            Some(used)
        }
        Meeting::Both if has_room(rows, used) => {
            open_at(rows, used, place, row);
            Some(used + 1)
        }
        Meeting::Both => None,
    }
}

fn has_room<R>(rows: &[R], used: usize) -> bool
    ensures { result ≡ nat_lt used (length rows.now) }
{
    used < rows.len()
}

// Moves the rows from `place` up to `count` up by one, and writes `row` at `place`.
fn open_at<R: Copy>(rows: &mut [R], count: usize, place: usize, row: R)
    requires { (place ≤ count) × (count < length rows.old) }
    ensures { rows.new ≡ insert (take count rows.old) place row ++ drop (count + 1) rows.old }
{
    rows.copy_within(place..count, place + 1);
    rows[place] = row;
}
