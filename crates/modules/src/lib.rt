// The caller's tables of modules: what they mean, and which row of them is refused.
#![tactic(auto)]

mod check;
pub mod keys;
mod part;
pub mod tables;
