// A line of text: whole numbers in decimal, parted by commas, printed and read.
#![tactic(auto)]

pub mod compare;
pub mod print;
pub mod read;
pub mod search;
