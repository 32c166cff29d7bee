// The constant tables and the angle reduction, and lists filled from them.
#![tactic(auto)]

pub mod angles;
pub mod secants;
pub mod sines;
pub mod tangents;
pub mod widths;
