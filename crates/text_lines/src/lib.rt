// The text run: one line in, what is printed for it out.
#![tactic(auto)]

pub mod input;
mod row;
mod way;
mod width;
