// The constant tables and their boxed true values: definitions and proofs, and no code.
#![tactic(auto)]
