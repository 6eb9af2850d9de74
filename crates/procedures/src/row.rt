// A module's procedures, as rows.
ghost use Rattle.std.specs.Prelude.{◌≡◌, ◌+◌};
ghost use Rattle.procedures.specs.Rows.{procedure_rank, procedure_meets, parent_rank, parent_meets, parent_of, no_procedure};

use base::image::{InSection, SectionOffset, TextPart};
use order::{Meeting, Row, Span};
use std::cmp::Ordering;

// A procedure, a thunk or separated code.
#[derive(Clone, Copy, Default)]
pub struct Procedure {
    pub offset: SectionOffset,
    pub length: u32,
    pub name: TextPart,
    pub type_number: u32,
    // the number of its record in the module's list
    pub item: u32,
    // up to which index the records that it holds reach
    pub end: u32,
}

// What separated code takes from the procedure at its parent offset.
#[derive(Clone, Copy, Default)]
pub struct Parent {
    pub offset: SectionOffset,
    pub name: TextPart,
    pub type_number: u32,
}

impl Procedure {
    pub fn empty() -> Procedure
        ensures { result ≡ no_procedure }
    {
        Procedure::default()
    }
}

impl From<Procedure> for Parent {
    ghost from_gives = { λ p r. r ≡ parent_of p };

    fn from(procedure: Procedure) -> Parent {
        Parent {
            offset: procedure.offset,
            name: procedure.name,
            type_number: procedure.type_number,
        }
    }
}

impl Row for Procedure {
    ghost rank = { procedure_rank };

    ghost meets = { procedure_meets };

    fn compare(&self, other: &Procedure) -> Ordering {
        self.offset.cmp(&other.offset)
    }

    fn meet(&self, _newer: &Procedure) -> Meeting {
        Meeting::Stays
    }
}

impl Row for Parent {
    ghost rank = { parent_rank };

    ghost meets = { parent_meets };

    fn compare(&self, newer: &Parent) -> Ordering {
        self.offset.cmp(&newer.offset)
    }

    fn meet(&self, _newer: &Parent) -> Meeting {
        Meeting::GivesWay
    }
}

impl Span for Procedure {
    ghost low = { λ p. p.offset.offset };

    ghost high = { λ p. p.offset.offset + p.length };

    fn start(&self) -> u64 {
        self.offset.offset.into()
    }

    fn end(&self) -> u64 {
        u64::from(self.offset.offset) + u64::from(self.length)
    }
}

impl InSection for Procedure {
    ghost section = { λ p. p.offset.section };

    fn section(&self) -> u16 {
        self.offset.section
    }
}
