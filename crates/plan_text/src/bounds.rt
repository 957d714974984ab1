//! The bounds of reading a plan. They are this project's own.

/// How many rows a batch has where a plan doesn't say.
pub const USUAL_BATCH_ROWS: u64 = 1_024;
