// Why nothing is printed: a message, or want of memory. Not `anyhow`, whose error keeps 120 bytes: a path may be longer.
use std::alloc::{AllocError, AllocFailed, Global};
use std::fmt;
use words::number::NotNumber;

#[derive(Drop)]
pub enum Failure {
    Message(String),
    NoMemory,
}

// What is wrong with a word of the command line, or with a line of a file of addresses or of a list of answers.
#[derive(Clone, Copy)]
pub enum Flaw {
    NotANumber,
    NumberTooLarge,
    ExtraWord,
    NotOfAList,
    UnknownOption,
    NothingFollows,
    ReadTwice,
}

impl From<AllocError> for Failure {
    fn from(_e: AllocError) -> Failure {
        Failure::NoMemory
    }
}

impl<T: Drop> From<AllocFailed<T>> for Failure {
    fn from(_e: AllocFailed<T>) -> Failure {
        Failure::NoMemory
    }
}

impl From<NotNumber> for Flaw {
    fn from(e: NotNumber) -> Flaw {
        match e {
            NotNumber::NotDigits => Flaw::NotANumber,
            NotNumber::TooLarge => Flaw::NumberTooLarge,
        }
    }
}

impl fmt::Display for Failure {
    fn fmt<W: fmt::Write>(&self, f: &mut fmt::Formatter<W>) -> fmt::Result {
        match self {
            Failure::Message(text) => f.write_str(text.as_str()),
            Failure::NoMemory => f.write_str("resolve: there is not enough memory"),
        }
    }
}

impl fmt::Display for Flaw {
    fn fmt<W: fmt::Write>(&self, f: &mut fmt::Formatter<W>) -> fmt::Result {
        f.write_str(match self {
            Flaw::NotANumber => "a number is decimal, or hexadecimal after 0x",
            Flaw::NumberTooLarge => "a number is at most 4294967295",
            Flaw::ExtraWord => "one address stands on a line",
            Flaw::NotOfAList => "this is no line of a list of answers",
            Flaw::UnknownOption => "there is no such option",
            Flaw::NothingFollows => "more has to follow",
            Flaw::ReadTwice => "it can be read once only",
        })
    }
}

// What is wrong, after where: a file, a line of it, a word, or the program itself.
pub fn wrong<P: fmt::Display + Drop, E: fmt::Display + Drop>(
    heap: Global,
    place: P,
    error: E,
) -> Failure {
    format!(in heap; "{place}: {error}").map_or(Failure::NoMemory, Failure::Message)
}
