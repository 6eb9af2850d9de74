// The rows of a description. A quoted word stands beside the row that it is in: a row has at most one.
ghost use Rattle.std.specs.Prelude.{◌≡◌};
ghost use Rattle.description.specs.Rows.{named, symbol_named};

use crate::question::Question;
use base::image::{Ending, PublicSymbol, Section, SectionContribution, SectionOffset, TextPart};
use modules::tables::FileRow;
use provider::symbols::{LineRow, ModuleState, SiteRow, Symbol, SymbolRecord};

#[derive(Clone, Copy)]
pub enum ImageRow {
    Section(Section),
    Public(PublicSymbol),
    Contribution(SectionContribution),
    PublicsEnd(Ending),
    ContributionsEnd(Ending),
    StartTable(u32),
    ContributionTable(u32),
    FrameTable(u32),
    AddressTable(u32),
}

// What belongs to the module whose row came last.
#[derive(Clone, Copy)]
pub enum ModulePart {
    Symbol(SymbolRecord),
    SymbolsEnd(Ending),
    Extras(Ending),
    File(FileRow),
    Lines {
        start: SectionOffset,
        ending: Ending,
    },
    Line(LineRow),
    Inlined {
        site: u32,
        start: SectionOffset,
        ending: Ending,
    },
    Range(SiteRow),
}

#[derive(Clone, Copy)]
pub enum Row {
    Text,
    Image(ImageRow),
    Module(ModuleState),
    Part(ModulePart),
    Hide(u16),
    Ask(Question),
}

// The bytes between the quotes are as they stand in the line. A name in the row is then still to be set. They stand beside the row,
// since a row with the bytes inside would be a second kind of each row that bears a name.
#[derive(Clone, Copy)]
pub struct Line<'a> {
    pub row: Row,
    pub quoted: Option<&'a [u8]>,
}

impl Row {
    // A row that bears a name, with this one.
    pub fn named(self, name: TextPart) -> Row
        ensures { result ≡ named name self }
    {
        match self {
            Row::Image(ImageRow::Public(symbol)) => Row::Image(ImageRow::Public(PublicSymbol {
                name,
                ..symbol
            })),
            Row::Part(ModulePart::Symbol(SymbolRecord { index, symbol })) => Row::Part(
                ModulePart::Symbol(SymbolRecord {
                    index,
                    symbol: symbol_named(symbol, name),
                }),
            ),
            Row::Part(ModulePart::File(file)) => Row::Part(ModulePart::File(FileRow {
                name,
                ..file
            })),
            row => row,
        }
    }
}

fn symbol_named(symbol: Symbol, name: TextPart) -> Symbol
    ensures { result ≡ symbol_named name symbol }
{
    match symbol {
        Symbol::Procedure {
            offset,
            length,
            end,
            type_number,
            ..
        } => Symbol::Procedure {
            offset,
            length,
            end,
            type_number,
            name,
        },
        Symbol::Thunk {
            offset,
            length,
            end,
            ..
        } => Symbol::Thunk {
            offset,
            length,
            end,
            name,
        },
        symbol => symbol,
    }
}
