// What the steps of a width take, filled from the tables.
#![tactic(auto)]

pub mod fill;
mod matrices;
mod order;
pub mod parts;
