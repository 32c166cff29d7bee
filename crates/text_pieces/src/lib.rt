// The text programs: the step on a piece of the input.
#![tactic(auto)]

pub mod piece;
pub mod session;
