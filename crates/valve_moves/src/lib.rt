// Asking for a valve move, and making it. `valve` is for any caller.
#![tactic(auto)]

mod moves;
mod questions;
pub mod valve;
