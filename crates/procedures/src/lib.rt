// The words of lookup: procedures as rows, where an address lies, and the function that is answered.
#![tactic(auto)]

pub mod function;
pub mod name;
pub mod row;
