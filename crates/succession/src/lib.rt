// Successions of calls on one resolver: what was asked before makes no difference.
#![tactic(auto)]

pub mod answers;
pub mod calls;
