// Refusals in words.
ghost use Rattle.std.specs.Prelude.{◌≡◌, Some};
ghost use Rattle.base.specs.Messages.{step_text, list_text, table_text, reason, details, refusal_text};
ghost use Rattle.std.specs.Fmt.{DisplaysOnOk};

use crate::refusal::{FaultyList, Refusal, RowTable, Step};
use std::fmt;

impl fmt::Display for Step {
    ghost output = { λ s. Some (step_text s) };

    fn fmt<W: fmt::Write>(&self, f: &mut fmt::Formatter<W>) -> fmt::Result {
        f.write_str(match self {
            Step::Opening => "opening",
            Step::CheckSections => "checking the sections",
            Step::ReadPublicSymbols => "reading the public symbols",
            Step::ReadContributions => "reading the contributions",
            Step::CheckOverlaps => "checking for overlaps",
            Step::AddSectionEnds => "adding the section ends",
            Step::ReadModule => "reading the module",
            Step::ReadExtras => "reading the extras",
            Step::ReadLineRows => "reading the line rows",
            Step::WalkSites => "walking the sites",
            Step::ListFunctions => "listing the functions",
            Step::WriteFrames => "writing the frames",
        })
    }
}

impl fmt::Display for FaultyList {
    ghost output = { λ l. Some (list_text l) };

    fn fmt<W: fmt::Write>(&self, f: &mut fmt::Formatter<W>) -> fmt::Result {
        f.write_str(match self {
            FaultyList::PublicSymbols => "public symbols",
            FaultyList::Contributions => "contributions",
            FaultyList::Extras { .. } => "extras",
            FaultyList::LineRows { .. } => "line rows",
        })
    }
}

impl fmt::Display for RowTable {
    ghost output = { λ t. Some (table_text t) };

    fn fmt<W: fmt::Write>(&self, f: &mut fmt::Formatter<W>) -> fmt::Result {
        f.write_str(match self {
            RowTable::Sections => "sections",
            RowTable::PublicSymbolRows => "public symbols",
            RowTable::ContributionRows => "contributions",
            RowTable::Modules => "modules",
            RowTable::Records => "records",
            RowTable::SiteLists => "site lists",
            RowTable::SiteRows => "sites",
            RowTable::LineLists => "line lists",
            RowTable::LineRowRows => "line rows",
            RowTable::Files => "files",
        })
    }
}

impl Refusal {
    fn what(&self) -> &'static str
        ensures { result.now ≡ reason self.now }
    {
        match self {
            Refusal::StartTableFull { .. } => "the table of starts is full",
            Refusal::ContributionTableFull => "the table of contributions is full",
            Refusal::FrameTableShort { .. } => "the table of frames is too short",
            Refusal::AddressTableFull => "the table of addresses is full",
            Refusal::TooManyHidden => "more than 64 hidden modules",
            Refusal::BadRow { .. } => "a row that no source may hold",
            Refusal::SectionOutside { .. } =>
                "a section past the 96th, or one that ends above 4294967295",
            Refusal::ContributionOutside { .. } => "a contribution that ends above 4294967295",
            Refusal::Unordered { .. } =>
                "a contribution that starts below the start of its block, or ends below its end",
            Refusal::Overlapping { .. } => "two contributions that overlap",
            Refusal::ProcedureOutside { .. } => "a procedure that ends above 4294967295",
            Refusal::TooManyProcedures { .. } => "a procedure past the 1024th offset of its module",
            Refusal::RangeOutside { .. } => "a range that ends above 4294967295",
            Refusal::SitesTooDeep { .. } => "a site at depth 32",
            Refusal::TooManyRanges { .. } => "more than 1024 ranges",
            Refusal::Fault { .. } => "a fault of the source",
        }
    }

    // What only some refusals name.
    fn write_details<W: fmt::Write>(&self, f: &mut fmt::Formatter<W>) -> fmt::Result
        ensures { DisplaysOnOk W.write_str_gives f.old result (Some (details self.now)) f.new }
    {
        match self {
            Refusal::FrameTableShort { needed } => write!(f, ", rows needed {needed}"),
            Refusal::BadRow { table, row } => write!(f, ", table {table}, row {row}"),
            Refusal::Unordered { section, .. } => write!(f, ", section {section}"),
            Refusal::Overlapping {
                section,
                first,
                second,
            } => write!(f, ", modules {first} and {second}, section {section}"),
            Refusal::Fault { list, code } => write!(f, ", code {}, list {list}", code.0),
            _ => Ok(()),
        }
    }
}

// What is refused, at which step, and then each thing that the refusal names.
impl fmt::Display for Refusal {
    ghost output = { λ r. Some (refusal_text r) };

    fn fmt<W: fmt::Write>(&self, f: &mut fmt::Formatter<W>) -> fmt::Result {
        write!(f, "{}, at {}", self.what(), self.step())?;
        if let Some(item) = self.item() {
            write!(f, ", item {item}")?;
        }
        if let Some(module) = self.module() {
            write!(f, ", module {module}")?;
        }
        self.write_details(f)
    }
}
