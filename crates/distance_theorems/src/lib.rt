// The computed tests of `distance` at widths 32 and 128, and the theorems that rest on them: no code.
#![tactic(auto)]
