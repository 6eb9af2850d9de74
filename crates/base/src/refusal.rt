// Every refusal of the project, those of calls that are still to come among them. docs/REFUSALS.md has the same as a table.
ghost use Rattle.std.specs.Prelude.{◌≡◌};
ghost use Rattle.base.specs.Refusals.{number_of, step_of, item_of, module_of, list_step, list_module, or_refusal};

use crate::image::FaultCode;

// Where a refusal is met.
#[derive(Clone, Copy)]
pub enum Step {
    Opening,
    CheckSections,
    ReadPublicSymbols,
    ReadContributions,
    CheckOverlaps,
    AddSectionEnds,
    ReadModule,
    ReadExtras,
    ReadLineRows,
    WalkSites,
    ListFunctions,
    WriteFrames,
}

// The lists whose fault refuses a call.
#[derive(Clone, Copy)]
pub enum FaultyList {
    PublicSymbols,
    Contributions,
    Extras { module: u16 },
    LineRows { module: u16 },
}

// The tables that a row provider is opened on.
#[derive(Clone, Copy)]
pub enum RowTable {
    Sections,
    PublicSymbolRows,
    ContributionRows,
    Modules,
    Records,
    SiteLists,
    SiteRows,
    LineLists,
    LineRowRows,
    Files,
}

#[derive(Clone, Copy)]
pub enum Refusal {
    // 1 to 6: what the caller handed over
    StartTableFull {
        step: Step,
    },
    ContributionTableFull,
    FrameTableShort {
        needed: u32,
    },
    AddressTableFull,
    TooManyHidden,
    BadRow {
        table: RowTable,
        row: u64,
    },
    // 7 to 10: what the linker wrote
    SectionOutside {
        item: u32,
    },
    ContributionOutside {
        item: u32,
    },
    Unordered {
        item: u32,
        module: u16,
        section: u16,
    },
    Overlapping {
        section: u16,
        first: u16,
        second: u16,
    },
    // 11 to 15: what the compiler wrote
    ProcedureOutside {
        module: u16,
        item: u32,
    },
    TooManyProcedures {
        module: u16,
        item: u32,
    },
    RangeOutside {
        module: u16,
        item: u32,
    },
    SitesTooDeep {
        module: u16,
        item: u32,
    },
    TooManyRanges {
        module: u16,
    },
    // 16: the provider's own fault
    Fault {
        list: FaultyList,
        code: FaultCode,
    },
}

impl FaultyList {
    // What the list answers, its fault as a refusal.
    pub fn refuse<T>(self, answer: Result<T, FaultCode>) -> Result<T, Refusal>
        ensures { result ≡ or_refusal self answer }
    {
        answer.map_err(|code| Refusal::Fault { list: self, code })
    }

    fn step(&self) -> Step
        ensures { result ≡ list_step self.now }
    {
        match self {
            FaultyList::PublicSymbols => Step::ReadPublicSymbols,
            FaultyList::Contributions => Step::ReadContributions,
            FaultyList::Extras { .. } => Step::ReadExtras,
            FaultyList::LineRows { .. } => Step::ReadLineRows,
        }
    }

    fn module(&self) -> Option<u16>
        ensures { result ≡ list_module self.now }
    {
        match self {
            FaultyList::Extras { module } | FaultyList::LineRows { module } => Some(*module),
            _ => None,
        }
    }
}

impl Refusal {
    pub fn number(&self) -> u8
        ensures { result ≡ number_of self.now }
    {
        match self {
            Refusal::StartTableFull { .. } => 1,
            Refusal::ContributionTableFull => 2,
            Refusal::FrameTableShort { .. } => 3,
            Refusal::AddressTableFull => 4,
            Refusal::TooManyHidden => 5,
            Refusal::BadRow { .. } => 6,
            Refusal::SectionOutside { .. } => 7,
            Refusal::ContributionOutside { .. } => 8,
            Refusal::Unordered { .. } => 9,
            Refusal::Overlapping { .. } => 10,
            Refusal::ProcedureOutside { .. } => 11,
            Refusal::TooManyProcedures { .. } => 12,
            Refusal::RangeOutside { .. } => 13,
            Refusal::SitesTooDeep { .. } => 14,
            Refusal::TooManyRanges { .. } => 15,
            Refusal::Fault { .. } => 16,
        }
    }

    pub fn step(&self) -> Step
        ensures { result ≡ step_of self.now }
    {
        match self {
            Refusal::StartTableFull { step } => *step,
            Refusal::ContributionTableFull => Step::ReadContributions,
            Refusal::FrameTableShort { .. } => Step::WriteFrames,
            Refusal::AddressTableFull => Step::ListFunctions,
            Refusal::TooManyHidden => Step::Opening,
            Refusal::BadRow { .. } => Step::Opening,
            Refusal::SectionOutside { .. } => Step::CheckSections,
            Refusal::ContributionOutside { .. } => Step::ReadContributions,
            Refusal::Unordered { .. } => Step::ReadContributions,
            Refusal::Overlapping { .. } => Step::CheckOverlaps,
            Refusal::ProcedureOutside { .. } => Step::ReadModule,
            Refusal::TooManyProcedures { .. } => Step::ReadModule,
            Refusal::RangeOutside { .. } => Step::WalkSites,
            Refusal::SitesTooDeep { .. } => Step::WalkSites,
            Refusal::TooManyRanges { .. } => Step::WalkSites,
            Refusal::Fault { list, .. } => list.step(),
        }
    }

    // The number of the item at which it was met, counted from 0.
    pub fn item(&self) -> Option<u32>
        ensures { result ≡ item_of self.now }
    {
        match self {
            Refusal::SectionOutside { item }
            | Refusal::ContributionOutside { item }
            | Refusal::Unordered { item, .. }
            | Refusal::ProcedureOutside { item, .. }
            | Refusal::TooManyProcedures { item, .. }
            | Refusal::RangeOutside { item, .. }
            | Refusal::SitesTooDeep { item, .. } => Some(*item),
            _ => None,
        }
    }

    // The one module that it names, where it names one.
    pub fn module(&self) -> Option<u16>
        ensures { result ≡ module_of self.now }
    {
        match self {
            Refusal::Unordered { module, .. }
            | Refusal::ProcedureOutside { module, .. }
            | Refusal::TooManyProcedures { module, .. }
            | Refusal::RangeOutside { module, .. }
            | Refusal::SitesTooDeep { module, .. }
            | Refusal::TooManyRanges { module } => Some(*module),
            Refusal::Fault { list, .. } => list.module(),
            _ => None,
        }
    }
}
