// The frames of an address.
#![tactic(auto)]

pub mod find;
mod stack;
