// What is believed about runs: the record and the answers, the gate's questions and limits, calls both ways, whole runs. Definitions and theorems, hardly any code.
#![tactic(auto)]

pub mod answer;
pub mod limits;
pub mod record;
