// The rows of a context's tables.
ghost use Rattle.std.specs.Prelude.{◌≡◌};
ghost use Rattle.base.specs.Rows.{start_rank, start_meets, contribution_rank, contribution_meets, no_start, no_contribution, named_start, unnamed_start};

use crate::image::{InSection, PublicSymbol, SectionOffset, TextPart};
use order::{Meeting, Row, Span};
use std::cmp::Ordering;

// Where a function may start. One that comes from a public symbol has its name.
#[derive(Clone, Copy, Default)]
pub struct KnownStart {
    pub offset: SectionOffset,
    pub name: Option<TextPart>,
}

// A module's part of a section, from `start` up to `end`. The fields stand in the order by which contributions are compared.
#[derive(Clone, Copy, Default, PartialEq, Eq, PartialOrd, Ord)]
pub struct Contribution {
    pub section: u16,
    pub start: u32,
    pub end: u32,
    pub module: u16,
}

impl KnownStart {
    // The row that a refused call leaves everywhere in a table.
    pub fn empty() -> KnownStart
        ensures { result ≡ no_start }
    {
        KnownStart::default()
    }
}

// The start of a public symbol.
impl From<PublicSymbol> for KnownStart {
    ghost from_gives = { λ p r. r ≡ named_start p };

    fn from(symbol: PublicSymbol) -> KnownStart {
        KnownStart {
            offset: symbol.offset,
            name: Some(symbol.name),
        }
    }
}

// A start without a name.
impl From<SectionOffset> for KnownStart {
    ghost from_gives = { λ o r. r ≡ unnamed_start o };

    fn from(offset: SectionOffset) -> KnownStart {
        KnownStart { offset, name: None }
    }
}

impl Contribution {
    pub fn empty() -> Contribution
        ensures { result ≡ no_contribution }
    {
        Contribution::default()
    }
}

impl Row for KnownStart {
    ghost rank = { start_rank };

    ghost meets = { start_meets };

    fn compare(&self, other: &KnownStart) -> Ordering {
        self.offset.cmp(&other.offset)
    }

    fn meet(&self, newer: &KnownStart) -> Meeting {
        match (self.name, newer.name) {
            (None, Some(_)) => Meeting::GivesWay,
            _ => Meeting::Stays,
        }
    }
}

impl Row for Contribution {
    ghost rank = { contribution_rank };

    ghost meets = { contribution_meets };

    fn compare(&self, other: &Contribution) -> Ordering {
        self.cmp(other)
    }

    fn meet(&self, _newer: &Contribution) -> Meeting {
        Meeting::Both
    }
}

impl Span for Contribution {
    ghost low = { λ c. c.start };

    ghost high = { λ c. c.end };

    fn start(&self) -> u64 {
        u64::from(self.start)
    }

    fn end(&self) -> u64 {
        u64::from(self.end)
    }
}

impl InSection for Contribution {
    ghost section = { λ c. c.section };

    fn section(&self) -> u16 {
        self.section
    }
}
