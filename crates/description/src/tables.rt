// The tables that a description fills. Each list of rows is counted in 32 bits.
ghost use Rattle.std.specs.Prelude.{◌≡◌, ◌^◌, ◌<◌, vec_len};

use base::image::{PublicSymbol, Section, SectionContribution};
use modules::tables::{FileRow, LineList, ModuleRow, SiteList};
use provider::symbols::{LineRow, SiteRow, SymbolRecord};
use std::alloc::Global;

#[derive(Drop)]
pub struct ImageTables {
    pub sections: Vec<Section>,
    pub symbols: Vec<PublicSymbol>,
    pub contributions: Vec<SectionContribution>,
    ghost few_sections: { vec_len sections < 2 ^ 32 },
    ghost few_symbols: { vec_len symbols < 2 ^ 32 },
    ghost few_contributions: { vec_len contributions < 2 ^ 32 },
}

// Lists of rows: a list names its part of the rows.
#[derive(Drop)]
pub struct ListTables<L, R> {
    pub lists: Vec<L>,
    pub rows: Vec<R>,
    ghost few_lists: { vec_len lists < 2 ^ 32 },
    ghost few_rows: { vec_len rows < 2 ^ 32 },
}

impl<L, R> ListTables<L, R> {
    ghost use Rattle.description.specs.Drafts.{parted, parted_nothing};

    pub(crate) fn new(heap: Global) -> ListTables<L, R>
        ensures { parted result ≡ parted_nothing }
    {
        ListTables {
            lists: Vec::new(heap),
            rows: Vec::new(heap),
        }
    }
}

// What the rows of modules have parts of.
#[derive(Drop)]
pub struct PartTables {
    pub symbols: Vec<SymbolRecord>,
    pub files: Vec<FileRow>,
    pub sites: ListTables<SiteList, SiteRow>,
    pub lines: ListTables<LineList, LineRow>,
    ghost few_symbols: { vec_len symbols < 2 ^ 32 },
    ghost few_files: { vec_len files < 2 ^ 32 },
}

#[derive(Drop)]
pub struct ModuleTables {
    pub modules: Vec<ModuleRow>,
    pub parts: PartTables,
}
