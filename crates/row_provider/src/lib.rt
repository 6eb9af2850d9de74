// A module provider over the caller's tables.
#![tactic(auto)]

ghost use Rattle.std.specs.Prelude.{◌≡◌, None, OnOk, OnErr};
ghost use Rattle.std.specs.Result.{result_err};
ghost use Rattle.order.specs.Rank.{InOrder, at};
ghost use Rattle.rows.specs.Tables.{meaning_of, nothing};
ghost use Rattle.modules.specs.Meaning.{AnswersFor, modules_of, no_module, part};
ghost use Rattle.modules.specs.BadRows.{bad_row};
ghost use Rattle.modules.proofs.Good.{means_regular};
ghost use Rattle.row_provider.specs.Opening.{refused, no_modules};

use base::image::{
    Ending, Entry, PublicSymbol, Section, SectionContribution, SectionOffset, TextPart,
};
use base::refusal::Refusal;
use image::ImageSource;
use modules::tables::{FileRow, LineList, ModuleRow, ModuleRows, RowRange, SiteList};
use order::Row;
use provider::ModuleProvider;
use provider::symbols::{LineRow, ModuleState, SiteRow, SymbolRecord};
use rows::source::{RowSource, entry_at, row_at};
use rows::tables::ImageRows;
use table::Sorted;

// Tables of which no row is bad.
#[derive(Clone, Copy)]
pub struct RowProvider<'a> {
    image: RowSource<'a>,
    modules: ModuleRows<'a>,
    ghost good: { bad_row image.rows.text.now modules ≡ None },
}

impl<'a> RowProvider<'a> {
    ghost use Rattle.row_provider.specs.Provided.{provided_image, provided_modules};

    // What a lent place holds at first.
    pub fn empty() -> RowProvider<'a>
        ensures image { provided_image result ≡ nothing }
        ensures modules { provided_modules result ≡ no_modules }
    {
        RowProvider {
            image: RowSource::empty(),
            modules: ModuleRows::default(),
        }
    }

    // Puts the tables into the place, a lent one as a rule of the project wants it, or leaves it as it was where one of their rows is bad.
    pub fn open(
        image: ImageRows<'a>,
        modules: ModuleRows<'a>,
        place: &mut RowProvider<'a>,
    ) -> Result<(), Refusal>
        ensures answer { result_err result ≡ refused image.entry modules.entry }
        ensures granted_image { OnOk result (provided_image place.new ≡ meaning_of image.entry) }
        ensures granted_modules { OnOk result (provided_modules place.new ≡ modules_of modules.entry) }
        ensures refused { OnErr result (place.new ≡ place.old) }
    {
        let mut source = RowSource::empty();
        RowSource::open(image, &mut source)?;
        modules.check(image.text)?;
        *place = RowProvider {
            image: source,
            modules,
        };
        Ok(())
    }
}

impl<'a> ImageSource for RowProvider<'a> {
    ghost use Rattle.row_provider.specs.Provided.{provided_image};

    ghost image = { provided_image };

    ghost lawful = { λ p. p.image.lawful };

    fn text(&self) -> &[u8] {
        self.image.text()
    }

    fn section(&self, item: u32) -> Option<Section> {
        self.image.section(item)
    }

    fn public_symbol(&self, item: u32) -> Entry<PublicSymbol> {
        self.image.public_symbol(item)
    }

    fn contribution(&self, item: u32) -> Entry<SectionContribution> {
        self.image.contribution(item)
    }
}

impl<'a> ModuleProvider for RowProvider<'a> {
    ghost use Rattle.row_provider.specs.Provided.{provided_modules};

    ghost modules = { provided_modules };

    ghost regular = { λ p. means_regular p.image.rows.text.now p.modules p.good };

    fn module_count(&self) -> u32 {
        self.modules.modules.len() as u32
    }

    fn module_state(&self, number: u16) -> ModuleState {
        row_at(self.modules.modules, u32::from(number)).map_or(ModuleState::Absent, |row| row.state)
    }

    fn symbol(&self, number: u16, item: u32) -> Entry<SymbolRecord> {
        let row = self.row(number);
        entry_at(row.symbols.of(self.modules.symbols), row.symbols_end, item)
    }

    fn extras(&self, number: u16) -> Ending {
        self.row(number).extras
    }

    fn site_row(&self, number: u16, site: u32, start: SectionOffset, item: u32) -> Entry<SiteRow> {
        let key = SiteList {
            site,
            start,
            rows: RowRange::default(),
            ending: Ok(()),
        };
        find_in(self.modules.site_lists, self.row(number).site_lists, &key).map_or(
            Ok(None),
            |list| entry_at(list.rows.of(self.modules.site_rows), list.ending, item),
        )
    }

    // Twin of `site_row`: a trait over the two kinds of lists would be longer than the four lines that they share.
    fn line_row(&self, number: u16, start: SectionOffset, item: u32) -> Entry<LineRow> {
        let key = LineList {
            start,
            rows: RowRange::default(),
            ending: Ok(()),
        };
        find_in(self.modules.line_lists, self.row(number).line_lists, &key).map_or(
            Ok(None),
            |list| entry_at(list.rows.of(self.modules.line_rows), list.ending, item),
        )
    }

    fn file_name(&self, number: u16, file: u32) -> Option<TextPart> {
        let key = FileRow {
            number: file,
            name: TextPart::default(),
        };
        find_in(self.modules.files, self.row(number).files, &key).map(|row| row.name)
    }
}

impl RowProvider<'_> {
    // The row that answers for a module. One that is not present has nothing, so that no question has to ask for the state.
    fn row(&self, number: u16) -> ModuleRow
        ensures { AnswersFor self.now.modules number result }
    {
        match row_at(self.modules.modules, u32::from(number)) {
            Some(row) if row.state == ModuleState::Present => row,
            _ => no_module(),
        }
    }
}

// Not `Default`, as an ending has none.
fn no_module() -> ModuleRow
    ensures { result ≡ no_module }
{
    ModuleRow {
        state: ModuleState::Absent,
        symbols: RowRange::default(),
        symbols_end: Ok(()),
        extras: Ok(()),
        site_lists: RowRange::default(),
        line_lists: RowRange::default(),
        files: RowRange::default(),
    }
}

// The row of the key's rank in a part of a table.
fn find_in<R: Row + Copy>(rows: &[R], range: RowRange, key: &R) -> Option<R>
    requires { InOrder R.Row.rank (part rows.now range) }
    ensures { result ≡ at R.Row.rank (R.Row.rank key.now) (part rows.now range) }
{
    Sorted {
        rows: range.of(rows),
    }
    .find(key)
}
