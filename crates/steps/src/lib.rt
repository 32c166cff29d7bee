// The steps of the lapped transform, each as the paper has it, and the laws of them: definitions and proofs, and no code.
#![tactic(auto)]
