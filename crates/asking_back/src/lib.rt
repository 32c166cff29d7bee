// The answer of a whole run back: every frame asked, with nothing written.
#![tactic(auto)]

pub mod asking;
