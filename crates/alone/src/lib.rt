// The five stages alone, both ways. `frame` is for any caller.
#![tactic(auto)]

pub mod frame;
mod transform;
