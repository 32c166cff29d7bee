// Work on slices: four numbers at a time, copies between widths of numbers, and room.
#![tactic(auto)]

pub mod fours;
pub mod room;
pub mod vectors;
