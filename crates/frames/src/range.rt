// What inlined calls cover.
ghost use Rattle.std.specs.Prelude.{◌≡◌};

use order::Span;

// A stretch of a section's places that a call at some depth of inlining covers. One that is there because a call within it covers the places
// has no line.
#[derive(Clone, Copy, Default)]
pub struct InlineRange {
    pub depth: usize,
    pub start: u32,
    pub end: u32,
    pub inlinee: u32,
    pub file: Option<u32>,
    pub line: Option<u32>,
}

// An inline site whose records have not ended yet.
#[derive(Clone, Copy, Default)]
pub struct OpenSite {
    pub inlinee: u32,
    // up to which index its records reach
    pub end: u32,
    // the file of its first row that covers anything
    pub file: Option<u32>,
    // how many ranges stood when it opened
    pub from: usize,
}

impl Span for InlineRange {
    ghost low = { λ r. r.start };

    ghost high = { λ r. r.end };

    fn start(&self) -> u64 {
        self.start.into()
    }

    fn end(&self) -> u64 {
        self.end.into()
    }
}
