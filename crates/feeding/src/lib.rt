// What is believed about programs that read lines: an input cut into pieces, its lines handed on, what is printed; and the text programs as
// one of them. Definitions and theorems, no code.
#![tactic(auto)]

pub mod session;
