// The context: what is known of an image, in tables in order, and how it is built.
#![tactic(auto)]

pub mod build;
pub mod tables;
