// Search in rows that are in order.
ghost use Rattle.std.specs.Prelude.{◌≡◌, ◌<◌, ◌≤◌, length};
ghost use Rattle.order.specs.declared.Meeting.TheVariants.{GivesWay};
ghost use Rattle.order.specs.Rank.{InOrder, at};
ghost use Rattle.order.specs.Placed.{Place, Reach, placed, changed};

use order::{Meeting, Row};

// Where `row` goes: the number of rows that come before it. This and the next two are for rows whose order no type tells.
pub fn position<R: Row>(rows: &[R], row: &R) -> usize
    ensures within { result ≤ length rows.now }
    ensures place { InOrder R.Row.rank rows.now → Place R.Row.rank rows.now (R.Row.rank row.now) result }
{
    rows.partition_point(|standing| standing.compare(row).is_lt())
}

// How many rows do not come after `row`.
pub fn reach<R: Row>(rows: &[R], row: &R) -> usize
    ensures within { result ≤ length rows.now }
    ensures reach { InOrder R.Row.rank rows.now → Reach R.Row.rank rows.now (R.Row.rank row.now) result }
{
    rows.partition_point(|standing| !standing.compare(row).is_gt())
}

// The first row of the rank of `row`, where one stands.
pub fn find<R: Row + Copy>(rows: &[R], row: &R) -> Option<R>
    ensures { InOrder R.Row.rank rows.now → result ≡ at R.Row.rank (R.Row.rank row.now) rows.now }
{
    let standing = *rows.get(position(rows, row))?;
    standing.compare(row).is_eq().then_some(standing)
}

// Rows in order. What is sought is a row of its rank: a type of keys would need its order, and laws of it, besides.
#[derive(Drop)]
pub struct Sorted<'r, R: Row> {
    pub rows: &'r [R],
    ghost ordered: { InOrder R.Row.rank rows.now },
}

impl<R: Row> Sorted<'_, R> {
    pub fn position(&self, row: &R) -> usize
        ensures { Place R.Row.rank self.now.rows.now (R.Row.rank row.now) result }
    {
        position(self.rows, row)
    }

    pub fn reach(&self, row: &R) -> usize
        ensures { Reach R.Row.rank self.now.rows.now (R.Row.rank row.now) result }
    {
        reach(self.rows, row)
    }
}

impl<R: Row + Copy> Sorted<'_, R> {
    pub fn find(&self, row: &R) -> Option<R>
        ensures { result ≡ at R.Row.rank (R.Row.rank row.now) self.now.rows.now }
    {
        find(self.rows, row)
    }
}

// How the row at `place` meets `row`. `Both` where no row of its rank stands there.
pub(crate) fn meeting<R: Row>(rows: &[R], place: usize, row: &R) -> Meeting
    ensures within { result ≡ GivesWay → place < length rows.now }
    ensures met { Place R.Row.rank rows.now (R.Row.rank row.now) place → placed R.Row.rank R.Row.meets row.now rows.now ≡ changed result rows.now place row.now }
{
    match rows.get(place) {
        Some(standing) if standing.compare(row).is_eq() => standing.meet(row),
        _ => Meeting::Both,
    }
}
