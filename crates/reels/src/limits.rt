// The limits that the code of a reel asks by, under the names of their definitions.

pub const RUN_LIMIT: usize = 100;

pub const MOST_PRINTED: usize = 2977;
