// From an address to the function that it belongs to, given the procedures of its module.
#![tactic(auto)]

pub mod choose;
mod holds;
pub mod locate;
mod name;
