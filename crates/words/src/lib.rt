// The words of a line of text: how a line is cut into them, and what a number and a quoted text stand for.
#![tactic(auto)]

pub mod number;
pub mod quote;
pub mod scan;
