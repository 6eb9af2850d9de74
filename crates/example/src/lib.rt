// An example image with modules, as definitions in specs/, and in proofs/ what the rules give for it.
#![tactic(auto)]
