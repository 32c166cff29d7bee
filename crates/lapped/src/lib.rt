// A run and the valve for programs in C. Each function is exported by its name; include/lapped.h declares it.
#![tactic(auto)]

pub mod calls;
pub mod valve;
pub mod whole;
