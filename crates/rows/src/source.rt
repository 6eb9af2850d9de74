// The row source: the caller's tables, opened.
ghost use Rattle.std.specs.Prelude.{◌≡◌, OnOk, OnErr};
ghost use Rattle.std.specs.List.{slice_get};
ghost use Rattle.std.specs.Result.{result_err};
ghost use Rattle.image.specs.Image.{Lawful, entry};
ghost use Rattle.rows.specs.Tables.{meaning_of, bad_row, nothing};

use crate::tables::ImageRows;
use base::image::{Ending, Entry, PublicSymbol, Section, SectionContribution};
use base::refusal::Refusal;
use image::ImageSource;

// Tables of which no row is bad.
#[derive(Clone, Copy)]
pub struct RowSource<'a> {
    rows: ImageRows<'a>,
    ghost lawful: { Lawful (meaning_of rows) },
}

impl<'a> RowSource<'a> {
    ghost use Rattle.rows.specs.Source.{meaning};

    // What a lent place holds at first.
    pub fn empty() -> RowSource<'a>
        ensures { meaning result ≡ nothing }
    {
        RowSource {
            rows: ImageRows {
                text: &[],
                sections: &[],
                symbols: &[],
                symbols_end: Ok(()),
                contributions: &[],
                contributions_end: Ok(()),
            },
        }
    }

    // Puts the tables into the place, a lent one as a rule of the project wants it, or leaves it as it was where one of their rows is bad.
    pub fn open(rows: ImageRows<'a>, place: &mut RowSource<'a>) -> Result<(), Refusal>
        ensures answer { result_err result ≡ bad_row (meaning_of rows.entry) }
        ensures granted { OnOk result (meaning place.new ≡ meaning_of rows.entry) }
        ensures refused { OnErr result (place.new ≡ place.old) }
    {
        rows.check()?;
        *place = RowSource { rows };
        Ok(())
    }
}

impl<'a> ImageSource for RowSource<'a> {
    ghost use Rattle.rows.specs.Source.{meaning};

    ghost image = { meaning };

    ghost lawful = { λ s. s.lawful };

    fn text(&self) -> &[u8] {
        self.rows.text
    }

    fn section(&self, item: u32) -> Option<Section> {
        row_at(self.rows.sections, item)
    }

    fn public_symbol(&self, item: u32) -> Entry<PublicSymbol> {
        entry_at(self.rows.symbols, self.rows.symbols_end, item)
    }

    fn contribution(&self, item: u32) -> Entry<SectionContribution> {
        entry_at(self.rows.contributions, self.rows.contributions_end, item)
    }
}

// Item k of a table, counted from 0.
pub fn row_at<T: Copy>(rows: &[T], item: u32) -> Option<T>
    ensures { result ≡ slice_get rows.now item }
{
    rows.get(item as usize).copied()
}

// The same of a list that has an ending.
pub fn entry_at<T: Copy>(rows: &[T], end: Ending, item: u32) -> Entry<T>
    ensures { result ≡ entry rows.now end item }
{
    match row_at(rows, item) {
        Some(row) => Ok(Some(row)),
        None => end.map(|()| None),
    }
}
