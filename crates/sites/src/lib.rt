// The walk along a procedure's symbol records, from site to site.
#![tactic(auto)]

pub mod calls;
mod walk;
