// The fold of a block, and the fold undone.
#![tactic(auto)]

pub mod folding;
