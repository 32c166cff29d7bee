// What is believed about text runs: numbers in decimal, lines, the state, one line, a whole input. Definitions and theorems, hardly any code.
#![tactic(auto)]

pub mod state;
