// The text programs: the loop from an input to an output.
#![tactic(auto)]

pub mod run;
