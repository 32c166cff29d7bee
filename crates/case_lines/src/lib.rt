// What the programs that try cases share: the numbers and words of a line, a file of them, and what is printed of it.
#![tactic(auto)]

pub mod line;
pub mod report;
pub mod stored;
