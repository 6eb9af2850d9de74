// The ranges that the calls within a procedure cover, in the order in which they are written.
#![tactic(auto)]

pub mod calls;
mod cover;
pub mod list;
mod uncovered;
