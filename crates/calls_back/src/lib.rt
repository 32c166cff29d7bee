// A run back, call by call: `back` by value, for any caller; `in_place` where the held values are lent.
#![tactic(auto)]

pub mod back;
pub mod in_place;
