// A row of a table as a line of words and numbers.
use crate::parts::{End, Length, Name, Part, Place, State};
use base::image::{PublicSymbol, Section, SectionContribution};
use description::question::Question;
use modules::tables::{FileRow, LineList, ModuleRow, SiteList};
use provider::symbols::{LineRow, SiteRow, Symbol, SymbolRecord};
use std::alloc::AllocError;
use std::fmt::Write;

pub trait Row {
    fn write(&self, out: &mut String) -> Result<(), AllocError>;
}

impl Row for Section {
    fn write(&self, out: &mut String) -> Result<(), AllocError> {
        let kind = if self.executable {
            "executable"
        } else {
            "data"
        };
        writeln!(out, "section {} {} {kind}", self.address, self.size)
    }
}

impl Row for PublicSymbol {
    fn write(&self, out: &mut String) -> Result<(), AllocError> {
        writeln!(out, "public {} {}", Place(self.offset), Name(self.name))
    }
}

impl Row for SectionContribution {
    fn write(&self, out: &mut String) -> Result<(), AllocError> {
        let place = Place(self.offset);
        writeln!(out, "contribution {place} {} {}", self.size, self.module)
    }
}

impl Row for ModuleRow {
    fn write(&self, out: &mut String) -> Result<(), AllocError> {
        let state = State(self.state);
        let symbols_end = End(self.symbols_end);
        let extras = End(self.extras);
        let symbols = Part(self.symbols);
        let sites = Part(self.site_lists);
        let lines = Part(self.line_lists);
        let files = Part(self.files);
        writeln!(
            out,
            "module {state} {symbols_end} {extras} {symbols} {sites} {lines} {files}"
        )
    }
}

impl Row for SymbolRecord {
    fn write(&self, out: &mut String) -> Result<(), AllocError> {
        let index = self.index;
        match self.symbol {
            Symbol::Procedure {
                offset,
                length,
                end,
                type_number,
                name,
            } => {
                let place = Place(offset);
                let name = Name(name);
                writeln!(
                    out,
                    "procedure {index} {place} {length} {end} {type_number} {name}"
                )
            }
            Symbol::Thunk {
                offset,
                length,
                end,
                name,
            } => {
                let place = Place(offset);
                let name = Name(name);
                writeln!(out, "thunk {index} {place} {length} {end} {name}")
            }
            Symbol::SeparatedCode {
                offset,
                length,
                end,
                parent,
            } => {
                let place = Place(offset);
                let parent = Place(parent);
                writeln!(out, "separated {index} {place} {length} {end} {parent}")
            }
            Symbol::InlineSite { inlinee, end } => writeln!(out, "site {index} {inlinee} {end}"),
            Symbol::Other => writeln!(out, "other {index}"),
        }
    }
}

impl Row for FileRow {
    fn write(&self, out: &mut String) -> Result<(), AllocError> {
        writeln!(out, "file {} {}", self.number, Name(self.name))
    }
}

impl Row for SiteList {
    fn write(&self, out: &mut String) -> Result<(), AllocError> {
        let start = Place(self.start);
        let rows = Part(self.rows);
        let ending = End(self.ending);
        writeln!(out, "inlined {} {start} {rows} {ending}", self.site)
    }
}

impl Row for SiteRow {
    fn write(&self, out: &mut String) -> Result<(), AllocError> {
        let length = Length(self.length);
        writeln!(
            out,
            "range {} {length} {} {}",
            self.offset, self.file, self.line
        )
    }
}

impl Row for LineList {
    fn write(&self, out: &mut String) -> Result<(), AllocError> {
        let start = Place(self.start);
        let rows = Part(self.rows);
        let ending = End(self.ending);
        writeln!(out, "lines {start} {rows} {ending}")
    }
}

impl Row for LineRow {
    fn write(&self, out: &mut String) -> Result<(), AllocError> {
        writeln!(out, "line {} {} {}", self.offset, self.file, self.line)
    }
}

impl Row for Question {
    fn write(&self, out: &mut String) -> Result<(), AllocError> {
        match *self {
            Question::Find(address) => writeln!(out, "find {address}"),
            Question::Frames(address) => writeln!(out, "frames {address}"),
            Question::List => writeln!(out, "list"),
            Question::Same(first, second) => writeln!(out, "same {first} {second}"),
        }
    }
}
