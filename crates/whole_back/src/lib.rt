// A whole run back over lent slices, for any caller.
#![tactic(auto)]

pub mod whole;
