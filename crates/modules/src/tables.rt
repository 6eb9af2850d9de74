// The tables, as a caller hands them over. A row of one names its part of another by the first row and how many.
use base::image::{Ending, SectionOffset, TextPart};
use provider::symbols::{LineRow, ModuleState, SiteRow, SymbolRecord};

// Rows of another table, by their numbers: the tables are the caller's, and nothing is copied.
#[derive(Clone, Copy, Default)]
pub struct RowRange {
    pub first: u32,
    pub count: u32,
}

// The module's number is the number of its row.
#[derive(Clone, Copy)]
pub struct ModuleRow {
    pub state: ModuleState,
    pub symbols: RowRange,
    pub symbols_end: Ending,
    pub extras: Ending,
    pub site_lists: RowRange,
    pub line_lists: RowRange,
    pub files: RowRange,
}

// The site rows of the site at an index, for a walk from a start. Not one type with `LineList`: a caller writes the parts of the key as fields.
#[derive(Clone, Copy)]
pub struct SiteList {
    pub site: u32,
    pub start: SectionOffset,
    pub rows: RowRange,
    pub ending: Ending,
}

// The line rows of a start.
#[derive(Clone, Copy)]
pub struct LineList {
    pub start: SectionOffset,
    pub rows: RowRange,
    pub ending: Ending,
}

#[derive(Clone, Copy)]
pub struct FileRow {
    pub number: u32,
    pub name: TextPart,
}

#[derive(Clone, Copy, Default)]
pub struct ModuleRows<'a> {
    pub modules: &'a [ModuleRow],
    pub symbols: &'a [SymbolRecord],
    pub site_lists: &'a [SiteList],
    pub site_rows: &'a [SiteRow],
    pub line_lists: &'a [LineList],
    pub line_rows: &'a [LineRow],
    pub files: &'a [FileRow],
}
