// What was said already: some of it may come only once, some has to come before other rows.
use base::image::Ending;

// Of an image: each at most once.
#[derive(Clone, Copy, Default)]
pub struct Said {
    pub symbols_end: Option<Ending>,
    pub contributions_end: Option<Ending>,
    pub start_rows: Option<u32>,
    pub contribution_rows: Option<u32>,
    pub frame_rows: Option<u32>,
    pub address_rows: Option<u32>,
}

// Of the newest module: whether its endings were said, and whether a list of sites or of lines was begun.
// Flags beside the module's row, which has its endings from the start, said or not. Its counts of lists would serve
// for the last two, but then which part may come would hang on the tables and not alone on what was said.
#[derive(Clone, Copy, Default)]
pub struct Told {
    pub symbols_end: bool,
    pub extras: bool,
    pub sites: bool,
    pub lines: bool,
}
