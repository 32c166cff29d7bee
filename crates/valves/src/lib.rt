// What is believed about the valve: its record and tickets, the questions of an ask and of a make, lists of both. Definitions and theorems, hardly any code.
#![tactic(auto)]

pub mod answer;
pub mod limits;
pub mod record;
