//! The bounds of tables and plans. They are this project's own.

/// How many rows a table has at most.
pub const MOST_ROWS: u64 = 4_000_000;

/// How many bytes the texts of one column have at most together: a place among them is a number of 4 bytes.
pub const MOST_TEXT_BYTES: u64 = 4_294_967_295;

/// How many columns a table has at most, and how many an answer picks.
pub const MOST_COLUMNS: usize = 32;

/// How many tests a filter has at most.
pub const MOST_TESTS: usize = 8;

/// How many rows a batch has at most.
pub const MOST_BATCH_ROWS: u64 = 65_536;
