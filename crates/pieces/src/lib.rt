// What every program over lines calls: a line gathered from pieces of the input, the input read, the output written.
#![tactic(auto)]

pub mod line;
pub mod reading;
pub mod run;
pub mod step;
pub mod writing;
