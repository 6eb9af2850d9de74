// The words that every other crate speaks in: what an image is made of, the rows of a context's tables, and refusals.
#![tactic(auto)]

pub mod context;
pub mod image;
pub mod refusal;
mod shown;
