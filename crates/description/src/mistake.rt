// What is wrong with a description, and where.
ghost use Rattle.std.specs.Prelude.{◌≡◌, Some};
ghost use Rattle.description.specs.declared.mistake.AddError.TheVariants.{NoMemory, Wrong};
ghost use Rattle.description.specs.Messages.{mistake_text, error_text};
ghost use Rattle.description.specs.Mistakes.{quote_mistake, at_line};

use std::alloc::{AllocError, AllocFailed};
use std::fmt;
use words::quote::QuoteError;

#[derive(Clone, Copy)]
pub enum Mistake {
    UnknownRow,
    MissingWord,
    ExtraWord,
    QuoteLeftOpen,
    BadEscape,
    QuotedWord,
    NotQuoted,
    NotANumber,
    NumberTooLarge,
    SectionTooLarge,
    ModuleTooLarge,
    CodeTooLarge,
    NotAnOffset,
    NotAName,
    NotAKind,
    NotAnEnding,
    NotAFault,
    NotExtras,
    NotAState,
    NotATable,
    TableTooLarge,
    ThunkTooLong,
    NoModule,
    NoLines,
    NoSite,
    SymbolsEndTwice,
    ExtrasTwice,
    PublicsEndTwice,
    ContributionsEndTwice,
    TableTwice,
    TextTooLong,
    TooManyRows,
}

impl fmt::Display for Mistake {
    ghost output = { λ m. Some (mistake_text m) };

    fn fmt<W: fmt::Write>(&self, f: &mut fmt::Formatter<W>) -> fmt::Result {
        f.write_str(match self {
            Mistake::UnknownRow => "no row begins with this word",
            Mistake::MissingWord => "a word is missing at the end",
            Mistake::ExtraWord => "there is a word too many",
            Mistake::QuoteLeftOpen => "a quoted text has no closing quote",
            Mistake::BadEscape => "an escape is one of \\\", \\\\, \\n, \\t, \\r and \\xHH",
            Mistake::QuotedWord => "a quoted text cannot stand here",
            Mistake::NotQuoted => "a text stands in quotes",
            Mistake::NotANumber => "a number is decimal, or hexadecimal after 0x",
            Mistake::NumberTooLarge => "a number is at most 4294967295",
            Mistake::SectionTooLarge => "a section number is at most 65535",
            Mistake::ModuleTooLarge => "a module number is at most 65535",
            Mistake::CodeTooLarge => "a fault code is at most 65535",
            Mistake::NotAnOffset => "an offset is written SECTION:OFFSET",
            Mistake::NotAName => "a name is quoted, or written START+LENGTH",
            Mistake::NotAKind => "a section is executable or data",
            Mistake::NotAnEnding => "a list has `end clean` or `end fault CODE`",
            Mistake::NotAFault => "after its start a list has nothing or `fault CODE`",
            Mistake::NotExtras => "extras are `readable` or `fault CODE`",
            Mistake::NotAState => "a module is present, absent or broken",
            Mistake::NotATable => "a table is starts, contributions, frames or addresses",
            Mistake::TableTooLarge => "a table has at most 16777216 rows",
            Mistake::ThunkTooLong => "the length of a thunk is at most 65535",
            Mistake::NoModule => "no module stands above this row",
            Mistake::NoLines => "no `lines` of its module stands above this row",
            Mistake::NoSite => "no `inlined` of its module stands above this row",
            Mistake::SymbolsEndTwice => "the end of the symbols is said twice of this module",
            Mistake::ExtrasTwice => "the extras are said twice of this module",
            Mistake::PublicsEndTwice => "the end of the publics is said twice",
            Mistake::ContributionsEndTwice => "the end of the contributions is said twice",
            Mistake::TableTwice => "the size of this table is said twice",
            Mistake::TextTooLong => "the text has at most 4294967295 bytes",
            Mistake::TooManyRows => "a list has at most 4294967295 rows",
        })
    }
}

// Why a row was not added.
#[derive(Clone, Copy)]
pub enum AddError {
    Wrong(Mistake),
    NoMemory,
}

impl From<Mistake> for AddError {
    ghost from_gives = { λ m r. r ≡ Wrong m };

    fn from(mistake: Mistake) -> AddError {
        AddError::Wrong(mistake)
    }
}

impl From<AllocError> for AddError {
    ghost from_gives = { λ _ r. r ≡ NoMemory };

    fn from(_e: AllocError) -> AddError {
        AddError::NoMemory
    }
}

impl<T: Drop> From<AllocFailed<T>> for AddError {
    ghost from_gives = { λ _ r. r ≡ NoMemory };

    fn from(_e: AllocFailed<T>) -> AddError {
        AddError::NoMemory
    }
}

impl From<QuoteError> for AddError {
    ghost from_gives = { λ e r. r ≡ quote_mistake e };

    fn from(e: QuoteError) -> AddError {
        match e {
            QuoteError::BadEscape => AddError::Wrong(Mistake::BadEscape),
            QuoteError::NoMemory => AddError::NoMemory,
        }
    }
}

// Lines are counted from 1.
#[derive(Clone, Copy)]
pub enum ReadError {
    At { line: u64, mistake: Mistake },
    NoMemory,
}

impl AddError {
    pub(crate) fn at(self, line: u64) -> ReadError
        ensures { result ≡ at_line line self }
    {
        match self {
            AddError::Wrong(mistake) => ReadError::At { line, mistake },
            AddError::NoMemory => ReadError::NoMemory,
        }
    }
}

impl fmt::Display for ReadError {
    ghost output = { λ e. Some (error_text e) };

    fn fmt<W: fmt::Write>(&self, f: &mut fmt::Formatter<W>) -> fmt::Result {
        match self {
            ReadError::At { line, mistake } => write!(f, "line {line}: {mistake}"),
            ReadError::NoMemory => f.write_str("there is not enough memory"),
        }
    }
}
