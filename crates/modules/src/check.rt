// Which row of the tables is refused.
ghost use Rattle.std.specs.Prelude.{◌≡◌, not, drop, length, ◌<◌, IfSome};
ghost use Rattle.std.specs.List.{position, zip};
ghost use Rattle.std.specs.Result.{result_err};
ghost use Rattle.image.specs.Checks.{name_within};
ghost use Rattle.order.specs.Rank.{before};
ghost use Rattle.modules.specs.BadRows.{rows_within, part_unrisen, parts_within, parts_unrisen, bad_module, bad_modules, bad_row};

use crate::tables::{FileRow, LineList, ModuleRow, ModuleRows, RowRange, SiteList};
use base::refusal::{Refusal, RowTable};
use image::check::{Part, check_count, check_parts};
use order::Row;

// The most modules: a module's number has 16 bits.
const MOST_MODULES: usize = 65_536;

// A count is below 2^32, so that no list is too long.
impl Part for RowRange {
    ghost within = { rows_within };

    fn is_within(&self, long: usize) -> bool {
        u64::from(self.first) + u64::from(self.count) <= long as u64
    }
}

impl Part for FileRow {
    ghost within = { λ long f. name_within long f.name };

    fn is_within(&self, long: usize) -> bool {
        self.name.is_within(long)
    }
}

impl Part for SiteList {
    ghost within = { λ long l. rows_within long l.rows };

    fn is_within(&self, long: usize) -> bool {
        self.rows.is_within(long)
    }
}

impl Part for LineList {
    ghost within = { λ long l. rows_within long l.rows };

    fn is_within(&self, long: usize) -> bool {
        self.rows.is_within(long)
    }
}

impl ModuleRows<'_> {
    // The first row that no provider may hold is refused, if names are parts of `text`.
    pub fn check(&self, text: &[u8]) -> Result<(), Refusal>
        ensures { result_err result ≡ bad_row text.now self.now }
    {
        check_count(self.modules, RowTable::Modules, MOST_MODULES)?;
        check_parts(self.symbols, RowTable::Records, text.len())?;
        check_parts(self.files, RowTable::Files, text.len())?;
        check_parts(self.site_lists, RowTable::SiteLists, self.site_rows.len())?;
        check_parts(self.line_lists, RowTable::LineLists, self.line_rows.len())?;
        self.check_modules()
    }

    fn check_modules(&self) -> Result<(), Refusal>
        ensures { result_err result ≡ bad_modules self.now 0 self.now.modules.now }
    {
        for (i, row) in self.modules.iter().enumerate() {
            self.check_module(row, i)?;
        }
        Ok(())
    }

    fn check_module(&self, row: &ModuleRow, number: usize) -> Result<(), Refusal>
        ensures { result_err result ≡ bad_module self.now number row.now }
    {
        if !self.has_parts(row) {
            return Err(Refusal::BadRow {
                table: RowTable::Modules,
                row: number as u64,
            });
        }
        self.check_order(row)
    }

    fn has_parts(&self, row: &ModuleRow) -> bool
        ensures { result ≡ parts_within self.now row.now }
    {
        row.symbols.is_within(self.symbols.len())
            && row.site_lists.is_within(self.site_lists.len())
            && row.line_lists.is_within(self.line_lists.len())
            && row.files.is_within(self.files.len())
    }

    fn check_order(&self, row: &ModuleRow) -> Result<(), Refusal>
        ensures { result_err result ≡ parts_unrisen self.now row.now }
    {
        check_part_rises(self.symbols, row.symbols, RowTable::Records)?;
        check_part_rises(self.site_lists, row.site_lists, RowTable::SiteLists)?;
        check_part_rises(self.line_lists, row.line_lists, RowTable::LineLists)?;
        check_part_rises(self.files, row.files, RowTable::Files)
    }
}

// The first row of a part that does not come after its neighbour is refused, by its number in the whole table.
fn check_part_rises<R: Row>(rows: &[R], range: RowRange, table: RowTable) -> Result<(), Refusal>
    ensures { result_err result ≡ part_unrisen R.Row.rank table rows.now range }
{
    match first_unrisen(range.of(rows)) {
        Some(before) => Err(Refusal::BadRow {
            table,
            row: u64::from(range.first) + before as u64 + 1,
        }),
        None => Ok(()),
    }
}

// The first row that its neighbour does not come after.
fn first_unrisen<R: Row>(rows: &[R]) -> Option<usize>
    ensures place { result ≡ position (λ p. not (before (R.Row.rank p.0) (R.Row.rank p.1))) (zip rows.now (drop 1 rows.now)) }
    ensures bound { IfSome result (λ i. i < length rows.now) }
{
    rows.iter()
        .zip(rows.iter().skip(1))
        .position(|(row, next)| !comes_before(row, next))
}

#[tactic(auto, using(crate::proofs::Searches::less_before))]
fn comes_before<R: Row>(row: &R, next: &R) -> bool
    ensures { result ≡ before (R.Row.rank row.now) (R.Row.rank next.now) }
{
    row.compare(next).is_lt()
}
