// How far a coefficient can be from the exact transform: definitions and proofs, and no code.
#![tactic(auto)]
