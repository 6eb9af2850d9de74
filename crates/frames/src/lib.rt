// The words of frames: what an inlined call covers, the sites that are open during a walk, and the frames of an address.
#![tactic(auto)]

pub mod frame;
pub mod range;
