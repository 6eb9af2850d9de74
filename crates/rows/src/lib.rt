// An image source over the caller's tables.
#![tactic(auto)]

pub mod source;
pub mod tables;
