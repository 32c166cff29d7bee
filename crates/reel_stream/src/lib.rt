// The squares over a reel as a program over lines, and its loop.
#![tactic(auto)]

mod piece;
pub mod run;
