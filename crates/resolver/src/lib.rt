// The resolver: which function an address belongs to, and which functions are known.
#![tactic(auto)]

pub mod cursor;
pub mod find_frames;
pub mod list;
pub mod resolver;
