// What an image source answers with.
ghost use Rattle.std.specs.Prelude.{◌≡◌, ℕ, ◌+◌};

use order::Span;

// A place in the image: a section number, counted from 1, and how far into that section.
#[derive(Clone, Copy, Default, PartialEq, Eq, PartialOrd, Ord)]
pub struct SectionOffset {
    pub section: u16,
    pub offset: u32,
}

// A part of the source's text, as a name is.
#[derive(Clone, Copy, Default)]
pub struct TextPart {
    pub start: u32,
    pub length: u32,
}

#[derive(Clone, Copy, Default)]
pub struct Section {
    pub address: u32,
    pub size: u32,
    pub executable: bool,
}

// What a module adds to a section.
#[derive(Clone, Copy)]
pub struct SectionContribution {
    pub offset: SectionOffset,
    pub size: u32,
    pub module: u16,
}

#[derive(Clone, Copy)]
pub struct PublicSymbol {
    pub offset: SectionOffset,
    pub name: TextPart,
}

// The code of a fault that breaks a list off.
#[derive(Clone, Copy)]
pub struct FaultCode(pub u16);

// How a list ends.
pub type Ending = Result<(), FaultCode>;

// The answer to a question for an item of a list: the item, none past the last one, or the fault that breaks the list off there.
pub type Entry<T> = Result<Option<T>, FaultCode>;

// A span of places in one section.
pub trait InSection: Span {
    ghost section: { Self → ℕ };

    fn section(&self) -> u16
        ensures { result ≡ section self.now };
}

impl Span for Section {
    ghost low = { λ s. s.address };

    ghost high = { λ s. s.address + s.size };

    fn start(&self) -> u64 {
        u64::from(self.address)
    }

    fn end(&self) -> u64 {
        self.start() + u64::from(self.size)
    }
}
