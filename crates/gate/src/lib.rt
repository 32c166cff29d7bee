// The gate's questions, each in one function.
#![tactic(auto)]

pub mod questions;
