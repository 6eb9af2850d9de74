// The shelf: the procedures of the module that was read last.
#![tactic(auto)]

pub mod load;
mod reading;
pub mod shelf;
pub mod stretches;
