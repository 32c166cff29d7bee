// A whole run forward over lent slices, for any caller.
#![tactic(auto)]

pub mod whole;
