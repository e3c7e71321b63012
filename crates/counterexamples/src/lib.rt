// Each condition of demand 3 is needed: computed sheets that meet all others and are answered differently. specs/ states them, proofs/ computes them.
#![tactic(auto)]
