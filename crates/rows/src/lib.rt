// The row sums of the stages: every row of cosines or of secants times a list, by one product, each matrix as one list in an order of its own.
#![tactic(auto)]

pub mod order;
pub mod sums;
