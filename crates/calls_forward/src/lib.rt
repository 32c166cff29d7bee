// A run forward, call by call: `forward` by value, for any caller; `in_place` where the held values are lent.
#![tactic(auto)]

pub mod forward;
pub mod in_place;
