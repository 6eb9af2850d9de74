// Where an address lies, and the function that it belongs to.
use crate::name::NameRow;
use base::context::Contribution;
use base::image::SectionOffset;

// A place in a section, with the section's address.
#[derive(Clone, Copy)]
pub struct Spot {
    pub base: u32,
    pub offset: SectionOffset,
}

// An address that lies in a section and there in a contribution. That it fits in 32 bits is a premise where it counts and no ghost field: the
// definitions that make locations have numbers without a bound.
#[derive(Clone, Copy)]
pub struct Location {
    pub base: u32,
    pub offset: SectionOffset,
    pub contribution: Contribution,
}

// A function's extent, by addresses, and its name. There is no end where it would lie above 4,294,967,295.
#[derive(Clone, Copy)]
pub struct Function {
    pub start_rva: u32,
    pub end_rva: Option<u32>,
    pub name: NameRow,
}
