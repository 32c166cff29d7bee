// The limits that the code asks by: each once, under the name of its definition.

pub const READING_LIMIT: i32 = 32767;

pub const FOLDED_LIMIT: i32 = 50000;

pub const COEFFICIENT_LIMIT: i32 = 1048576;

// Question 8, by the definition `dead`.
pub const DEAD_MARK: i64 = -32768;

pub const BLOCK_LIMIT: usize = 65536;

pub const FRAME_LIMIT: usize = 65537;
