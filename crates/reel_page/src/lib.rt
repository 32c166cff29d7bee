// What is printed for a reel: the page of its squares, or a refusal.
#![tactic(auto)]

pub mod page;
