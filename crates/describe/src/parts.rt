// What several rows write in the same way.
use base::image::{Ending, FaultCode, SectionOffset, TextPart};
use modules::tables::RowRange;
use provider::symbols::ModuleState;
use std::fmt;

#[derive(Clone, Copy)]
pub struct Place(pub SectionOffset);

impl fmt::Display for Place {
    fn fmt<W: fmt::Write>(&self, f: &mut fmt::Formatter<W>) -> fmt::Result {
        write!(f, "{} {}", self.0.section, self.0.offset)
    }
}

#[derive(Clone, Copy)]
pub struct Name(pub TextPart);

impl fmt::Display for Name {
    fn fmt<W: fmt::Write>(&self, f: &mut fmt::Formatter<W>) -> fmt::Result {
        write!(f, "{} {}", self.0.start, self.0.length)
    }
}

// A part of another table.
#[derive(Clone, Copy)]
pub struct Part(pub RowRange);

impl fmt::Display for Part {
    fn fmt<W: fmt::Write>(&self, f: &mut fmt::Formatter<W>) -> fmt::Result {
        write!(f, "{} {}", self.0.first, self.0.count)
    }
}

#[derive(Clone, Copy)]
pub struct End(pub Ending);

impl fmt::Display for End {
    fn fmt<W: fmt::Write>(&self, f: &mut fmt::Formatter<W>) -> fmt::Result {
        match self.0 {
            Ok(()) => f.write_str("clean"),
            Err(FaultCode(code)) => write!(f, "fault {code}"),
        }
    }
}

#[derive(Clone, Copy)]
pub struct State(pub ModuleState);

impl fmt::Display for State {
    fn fmt<W: fmt::Write>(&self, f: &mut fmt::Formatter<W>) -> fmt::Result {
        f.write_str(match self.0 {
            ModuleState::Absent => "absent",
            ModuleState::Broken => "broken",
            ModuleState::Present => "present",
        })
    }
}

#[derive(Clone, Copy)]
pub struct Length(pub Option<u32>);

impl fmt::Display for Length {
    fn fmt<W: fmt::Write>(&self, f: &mut fmt::Formatter<W>) -> fmt::Result {
        match self.0 {
            Some(length) => write!(f, "{length}"),
            None => f.write_str("none"),
        }
    }
}
