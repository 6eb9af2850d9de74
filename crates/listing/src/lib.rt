// What the list of functions holds and what a succession of calls comes to, as definitions in specs/, and their laws in proofs/.
#![tactic(auto)]
