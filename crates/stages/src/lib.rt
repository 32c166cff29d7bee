// The five stages on the halves of a frame, each with its way back.
#![tactic(auto)]

pub mod stages;
