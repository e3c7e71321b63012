// Laws about the definition in crate model: what never happens, and what always holds. specs/Theorems.antt states them, proofs/ proves them.
#![tactic(auto)]
