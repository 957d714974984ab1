//! One addition of a request.

/// What a request added at one level: held before, the amount, and the limit that was read after the addition, in bytes.
#[derive(Clone, Copy, Debug, PartialEq, Eq)]
pub struct LevelStep {
    pub level: u32,
    pub old: u64,
    pub amount: u64,
    pub limit: u64,
}
