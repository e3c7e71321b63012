// Demand 3, closed roads are powerless: specs/Closed.antt has its words and states it, proofs/ proves it of the definition in crate model.
#![tactic(auto)]
