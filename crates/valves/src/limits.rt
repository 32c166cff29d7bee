// The valve's limits, each once, under the name of its definition.

pub const TRAVEL: i32 = 10000;

pub const GREATEST_MOVE: i32 = 500;

pub const COUNT_LIMIT: i32 = 1000000;
