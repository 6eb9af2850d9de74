// The five steps of building: sections, public symbols, contributions, overlaps, section ends.
#![tactic(auto)]

mod blocks;
pub mod fill;
pub mod tables;
