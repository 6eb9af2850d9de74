// The list of functions: every address where one is known to start.
#![tactic(auto)]

mod add;
pub mod list;
