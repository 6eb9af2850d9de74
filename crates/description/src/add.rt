// What a row adds.
ghost use Rattle.std.specs.Prelude.{◌≡◌, Some};
ghost use Rattle.description.specs.Checks.{Checked};
ghost use Rattle.description.specs.Mistakes.{Adds, AddsAs};
ghost use Rattle.description.specs.Memory.{ImageLengthens, PartLengthens, Lengthens, RowGrows};
ghost use Rattle.description.specs.Reading.{written};
ghost use Rattle.description.specs.Drafts.{image_lists, image_added, part_lists, part_pushed, told_with, module_with, new_module, module_lists, module_opened, module_grown, lists, row_added, written_said, list_grown, longer_lines, longer_site, parted};

use crate::draft::{Draft, ImageDraft, ModuleDraft};
use crate::mistake::{AddError, Mistake};
use crate::push::{append, one_more, part_at_end, push_row, set_once, take_last};
use crate::row::{ImageRow, Line, ModulePart, Row};
use crate::said::Told;
use crate::tables::{ListTables, PartTables};
use modules::tables::{LineList, ModuleRow, SiteList};
use provider::symbols::ModuleState;

impl Draft {
    pub fn add(&mut self, line: Line<'_>) -> Result<(), AddError>
        ensures { AddsAs (RowGrows (written line.entry) (lists self.old)) (λ _. lists self.new) result (written_said (Some (written line.entry)) (lists self.old)) }
    {
        match line.quoted {
            Some(raw) => {
                let name = append(&mut self.text, raw)?;
                self.add_row(line.row.named(name))
            }
            None => self.add_row(line.row),
        }
    }

    fn add_row(&mut self, row: Row) -> Result<(), AddError>
        ensures { Adds (Lengthens row) result (row_added row (lists self.old)) (lists self.new) }
    {
        match row {
            Row::Text => Ok(()),
            Row::Image(row) => self.image.add(row),
            Row::Module(state) => self.modules.open(state),
            Row::Part(part) => self.modules.add(part),
            Row::Hide(number) => push_row(&mut self.hidden, number),
            Row::Ask(question) => push_row(&mut self.questions, question),
        }
    }
}

impl ImageDraft {
    fn add(&mut self, row: ImageRow) -> Result<(), AddError>
        ensures { Adds (ImageLengthens row) result (image_added row (image_lists self.old)) (image_lists self.new) }
    {
        match row {
            ImageRow::Section(section) => push_row(&mut self.tables.sections, section),
            ImageRow::Public(symbol) => push_row(&mut self.tables.symbols, symbol),
            ImageRow::Contribution(contribution) => push_row(
                &mut self.tables.contributions,
                contribution,
            ),
            ImageRow::PublicsEnd(end) => set_once(
                &mut self.said.symbols_end,
                end,
                Mistake::PublicsEndTwice,
            ),
            ImageRow::ContributionsEnd(end) => set_once(
                &mut self.said.contributions_end,
                end,
                Mistake::ContributionsEndTwice,
            ),
            ImageRow::StartTable(rows) => set_once(
                &mut self.said.start_rows,
                rows,
                Mistake::TableTwice,
            ),
            ImageRow::ContributionTable(rows) => set_once(
                &mut self.said.contribution_rows,
                rows,
                Mistake::TableTwice,
            ),
            ImageRow::FrameTable(rows) => set_once(
                &mut self.said.frame_rows,
                rows,
                Mistake::TableTwice,
            ),
            ImageRow::AddressTable(rows) => set_once(
                &mut self.said.address_rows,
                rows,
                Mistake::TableTwice,
            ),
        }
    }
}

impl ModuleDraft {
    // A module that has nothing yet.
    fn open(&mut self, state: ModuleState) -> Result<(), AddError>
        ensures { Adds (Unit {0}) result (module_opened state (module_lists self.old)) (module_lists self.new) }
    {
        push_row(&mut self.tables.modules, self.tables.parts.module(state))?;
        self.told = Told::default();
        Ok(())
    }

    fn add(&mut self, part: ModulePart) -> Result<(), AddError>
        ensures { Adds (PartLengthens part) result (module_grown part (module_lists self.old)) (module_lists self.new) }
    {
        let module = take_last(&mut self.tables.modules, Mistake::NoModule)?;
        self.told = told_with(self.told, part)?;
        push_row(&mut self.tables.modules, module_with(module, part)?)?;
        self.tables.parts.push(part)
    }
}

// What was said of the newest module, and now the part too, unless that cannot come.
fn told_with(told: Told, part: ModulePart) -> Result<Told, Mistake>
    ensures { result ≡ told_with part told }
{
    let mut now = told;
    match part {
        ModulePart::SymbolsEnd(_) if told.symbols_end => return Err(Mistake::SymbolsEndTwice),
        ModulePart::SymbolsEnd(_) => now.symbols_end = true,
        ModulePart::Extras(_) if told.extras => return Err(Mistake::ExtrasTwice),
        ModulePart::Extras(_) => now.extras = true,
        ModulePart::Lines { .. } => now.lines = true,
        ModulePart::Line(_) if !told.lines => return Err(Mistake::NoLines),
        ModulePart::Inlined { .. } => now.sites = true,
        ModulePart::Range(_) if !told.sites => return Err(Mistake::NoSite),
        _ => {}
    }
    Ok(now)
}

// The module, with a part more.
fn module_with(module: ModuleRow, part: ModulePart) -> Result<ModuleRow, Mistake>
    ensures { result ≡ module_with part «module» }
{
    let mut now = module;
    match part {
        ModulePart::Symbol(_) => now.symbols = one_more(module.symbols)?,
        ModulePart::SymbolsEnd(end) => now.symbols_end = end,
        ModulePart::Extras(extras) => now.extras = extras,
        ModulePart::File(_) => now.files = one_more(module.files)?,
        ModulePart::Lines { .. } => now.line_lists = one_more(module.line_lists)?,
        ModulePart::Inlined { .. } => now.site_lists = one_more(module.site_lists)?,
        ModulePart::Line(_) | ModulePart::Range(_) => {}
    }
    Ok(now)
}

impl PartTables {
    fn module(&self, state: ModuleState) -> ModuleRow
        ensures { result ≡ new_module state (part_lists self.now) }
    {
        ModuleRow {
            state,
            symbols: part_at_end(&self.symbols),
            symbols_end: Ok(()),
            extras: Ok(()),
            site_lists: part_at_end(&self.sites.lists),
            line_lists: part_at_end(&self.lines.lists),
            files: part_at_end(&self.files),
        }
    }

    fn push(&mut self, part: ModulePart) -> Result<(), AddError>
        ensures { Adds (PartLengthens part) result (part_pushed part (part_lists self.old)) (part_lists self.new) }
    {
        match part {
            ModulePart::Symbol(record) => push_row(&mut self.symbols, record),
            ModulePart::SymbolsEnd(_) | ModulePart::Extras(_) => Ok(()),
            ModulePart::File(file) => push_row(&mut self.files, file),
            ModulePart::Lines { start, ending } => {
                let rows = part_at_end(&self.lines.rows);
                push_row(
                    &mut self.lines.lists,
                    LineList {
                        start,
                        rows,
                        ending,
                    },
                )
            }
            ModulePart::Line(row) => self.lines.push(row, Mistake::NoLines),
            ModulePart::Inlined {
                site,
                start,
                ending,
            } => {
                let rows = part_at_end(&self.sites.rows);
                push_row(
                    &mut self.sites.lists,
                    SiteList {
                        site,
                        start,
                        rows,
                        ending,
                    },
                )
            }
            ModulePart::Range(row) => self.sites.push(row, Mistake::NoSite),
        }
    }
}

// A list that names its part of the rows.
trait RowList: Sized {
    ghost longer: { Self → Checked Self };

    // The list with the row that comes next.
    fn longer(self) -> Result<Self, Mistake>
        ensures { result ≡ longer self };
}

impl RowList for LineList {
    ghost longer = { longer_lines };

    fn longer(self) -> Result<LineList, Mistake> {
        Ok(LineList {
            rows: one_more(self.rows)?,
            ..self
        })
    }
}

impl RowList for SiteList {
    ghost longer = { longer_site };

    fn longer(self) -> Result<SiteList, Mistake> {
        Ok(SiteList {
            rows: one_more(self.rows)?,
            ..self
        })
    }
}

impl<L: RowList + Drop, R: Drop> ListTables<L, R> {
    // A row more of the newest list.
    fn push(&mut self, row: R, none: Mistake) -> Result<(), AddError>
        ensures { Adds (Unit {0}) result (list_grown none L.longer row (parted self.old)) (parted self.new) }
    {
        let list = take_last(&mut self.lists, none)?;
        push_row(&mut self.lists, list.longer()?)?;
        push_row(&mut self.rows, row)
    }
}
