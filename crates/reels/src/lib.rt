// What is believed about the squares over a reel: its state, one line, the page, a whole input. Definitions and theorems, hardly any code.
#![tactic(auto)]

pub mod limits;
pub mod reel;
pub mod verdict;
