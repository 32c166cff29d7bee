// The squares over a reel: one line in, the reel afterwards out.
#![tactic(auto)]

mod frame;
pub mod input;
mod refuse;
mod width;
