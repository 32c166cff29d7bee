// A frame from a block and held values, and back.
#![tactic(auto)]

pub mod step;
pub mod transform;
pub mod undo;
