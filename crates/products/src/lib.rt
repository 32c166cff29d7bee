// The Hankel product of a list of 2m numbers with one of m: y(i) is the sum of L(i + j)·a(j); and the leaf lists of a table, made once, which it takes.
#![tactic(auto)]

pub mod leaf;
pub mod levels;
pub mod lists;
pub mod whole;
