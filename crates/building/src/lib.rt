// What a context is built from an image: definitions in specs/, and their laws in proofs/. The code stands in `sections`, `starts`, `steps` and `context`.
#![tactic(auto)]
