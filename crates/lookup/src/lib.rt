// What lookup answers, as definitions in specs/, and their laws in proofs/.
#![tactic(auto)]
