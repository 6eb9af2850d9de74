// What a module provider answers with.
ghost use Rattle.order.specs.declared.Meeting.TheVariants.{Stays};
ghost use Rattle.provider.specs.Modules.{index_rank};
ghost use Rattle.provider.specs.Names.{symbol_within};

use base::image::{SectionOffset, TextPart};
use image::check::Part;
use order::{Meeting, Row};
use std::cmp::Ordering;

#[derive(Clone, Copy, PartialEq, Eq)]
pub enum ModuleState {
    Absent,
    Broken,
    Present,
}

// A symbol record. Indices rise along a module's list, and an end index says up to which index a record reaches.
#[derive(Clone, Copy)]
pub struct SymbolRecord {
    pub index: u32,
    pub symbol: Symbol,
}

#[derive(Clone, Copy)]
pub enum Symbol {
    Procedure {
        offset: SectionOffset,
        length: u32,
        end: u32,
        type_number: u32,
        name: TextPart,
    },
    Thunk {
        offset: SectionOffset,
        length: u16,
        end: u32,
        name: TextPart,
    },
    // Code of a procedure that lies apart from it.
    SeparatedCode {
        offset: SectionOffset,
        length: u32,
        end: u32,
        parent: SectionOffset,
    },
    InlineSite {
        inlinee: u32,
        end: u32,
    },
    Other,
}

// What a call that was inlined covers: a row with no length covers nothing.
#[derive(Clone, Copy)]
pub struct SiteRow {
    pub offset: u32,
    pub length: Option<u32>,
    pub file: u32,
    pub line: u32,
}

#[derive(Clone, Copy)]
pub struct LineRow {
    pub offset: u32,
    pub file: u32,
    pub line: u32,
}

// Records stand by their indices.
impl Row for SymbolRecord {
    ghost rank = { index_rank };

    ghost meets = { λ r s. Stays };

    fn compare(&self, other: &SymbolRecord) -> Ordering {
        self.index.cmp(&other.index)
    }

    fn meet(&self, _newer: &SymbolRecord) -> Meeting {
        Meeting::Stays
    }
}

// Only procedures and thunks have a name that could lie outside the text.
impl Part for SymbolRecord {
    ghost within = { λ long r. symbol_within long r.symbol };

    fn is_within(&self, long: usize) -> bool {
        match self.symbol {
            Symbol::Procedure { name, .. } | Symbol::Thunk { name, .. } => name.is_within(long),
            Symbol::SeparatedCode { .. } | Symbol::InlineSite { .. } | Symbol::Other => true,
        }
    }
}
