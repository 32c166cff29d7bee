// For programs in C: the run record as 68 numbers, and what a call tells. The definitions of the calls are in specs/Calls.antt.
#![tactic(auto)]

pub mod answer;
pub mod record;
