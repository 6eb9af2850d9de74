// The caller's tables, and which row of them is refused.
ghost use Rattle.std.specs.Prelude.{◌≡◌};
ghost use Rattle.std.specs.Result.{result_err};
ghost use Rattle.rows.specs.Tables.{meaning_of, bad_row};

use base::image::{Ending, PublicSymbol, Section, SectionContribution};
use base::refusal::{Refusal, RowTable};
use image::check::{check_count, check_parts};

// The most rows that a table may have: an item's number is a `u32`, and so is their count.
const MOST_ROWS: usize = 4_294_967_295;

// The caller's tables, as handed over.
#[derive(Clone, Copy)]
pub struct ImageRows<'a> {
    pub text: &'a [u8],
    pub sections: &'a [Section],
    pub symbols: &'a [PublicSymbol],
    pub symbols_end: Ending,
    pub contributions: &'a [SectionContribution],
    pub contributions_end: Ending,
}

impl ImageRows<'_> {
    // The first row that no source may hold is refused.
    pub(crate) fn check(&self) -> Result<(), Refusal>
        ensures { result_err result ≡ bad_row (meaning_of self.now) }
    {
        check_count(self.sections, RowTable::Sections, MOST_ROWS)?;
        check_count(self.symbols, RowTable::PublicSymbolRows, MOST_ROWS)?;
        check_count(self.contributions, RowTable::ContributionRows, MOST_ROWS)?;
        check_parts(self.symbols, RowTable::PublicSymbolRows, self.text.len())
    }
}
