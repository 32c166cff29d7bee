// What a text run prints, and how it ended.
#![tactic(auto)]

pub mod ending;
pub mod lines;
pub mod refuse;
