// The lifts of the stages, each with its way back, at four places a turn.
#![tactic(auto)]

pub mod lifts;
