// What the frames of an address are, as definitions in specs/, and their laws in proofs/.
#![tactic(auto)]
